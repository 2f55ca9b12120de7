use jobs::Job;
use std::fs::{self, OpenOptions};
use std::io::{Error, ErrorKind, Write};
use std::os::unix::fs::MetadataExt;
use std::rt::Files;
use whole_file::{folder_of, obstacle};

/// Warns before the work if the file of a job can't be made: its folder is missing, a folder has its name, or permissions forbid
/// it. Nothing is made or changed. Of a job that makes no file nothing is printed.
pub fn warn_of<R: Files, E: Write>(rt: &R, job: &Job<'_>, err: &mut E) {
    let path = match job {
        Job::Prepare(preparation) => preparation.out,
        Job::Renew(renewal) => renewal.out,
        _ => return,
    };
    if let Some((name, error)) = obstacle(rt, path) {
        return warn(name, &error, err);
    }
    match fs::metadata(rt, path) {
        Ok(found) if found.is_file() => warn_of_file(rt, path, err),
        Err(error) if error.kind() == ErrorKind::NotFound => warn_of_folder(rt, path, err),
        Ok(_) | Err(_) => {}
    }
}

// Warns if a file that is there can't be written.
fn warn_of_file<R: Files, E: Write>(rt: &R, path: &str, err: &mut E) {
    if let Err(error) = OpenOptions::new().write(true).open(rt, path) {
        warn(path, &error, err);
    }
}

// Warns if no file can be made in the folder of this path.
fn warn_of_folder<R: Files, E: Write>(rt: &R, path: &str, err: &mut E) {
    let folder = folder_of(path);
    if is_closed(rt, folder) {
        warn(folder, &Error::from(ErrorKind::PermissionDenied), err);
    }
}

fn warn<E: Write>(path: &str, error: &Error, err: &mut E) {
    let _ = writeln!(err, "routecli: warning: can't write {path}: {error}");
}

// Whether nobody but root could make a file in the folder, by its permissions for its owner, or for all others.
fn is_closed<R: Files>(rt: &R, folder: &str) -> bool {
    let (Ok(own), Ok(found)) = (fs::metadata(rt, "/proc/self"), fs::metadata(rt, folder)) else {
        return false;
    };
    let bits = if own.uid() == found.uid() {
        0o200
    } else {
        0o022
    };
    own.uid() != 0 && found.mode() & bits == 0
}
