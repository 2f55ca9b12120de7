use std::fs;
use std::os::unix::fs::MetadataExt;
use std::rt::Files;

/// Whether both paths lead to one regular file, whatever their names are: by a link, by another way through the folders,
/// or by another name of the file.
///
/// If nothing is at one of them, or something that can't be looked at, they don't.
pub fn is_one_file<R: Files>(files: &R, first: &str, second: &str) -> bool {
    match (fs::metadata(files, first), fs::metadata(files, second)) {
        (Ok(first), Ok(second)) => {
            first.is_file() && first.dev() == second.dev() && first.ino() == second.ino()
        }
        _ => false,
    }
}
