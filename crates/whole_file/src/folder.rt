use std::fs;
use std::io::{Error, ErrorKind};
use std::path::Path;
use std::rt::Files;

/// Returns the folder in which the file of this path is.
pub fn folder_of(path: &str) -> &str {
    match Path::new(path).parent() {
        Some(folder) if !folder.as_str().is_empty() => folder.as_str(),
        Some(_) => ".",
        None => path,
    }
}

/// Returns why no file can be made at this path, if that shows without making one: the path and why, or its folder and why.
///
/// That is so if there is a folder at the path, or if the path's own folder is missing or is none. Permissions aren't
/// looked at.
pub fn obstacle<'a, R: Files>(files: &R, path: &'a str) -> Option<(&'a str, Error)> {
    match fs::metadata(files, path) {
        Ok(found) if found.is_dir() => Some((path, Error::from(ErrorKind::IsADirectory))),
        Err(error) if error.kind() == ErrorKind::NotFound => obstacle_of(files, folder_of(path)),
        Err(error) if error.kind() == ErrorKind::NotADirectory => Some((path, error)),
        Ok(_) | Err(_) => None,
    }
}

// Why no file can be made in this folder: it is missing, or is none.
fn obstacle_of<'a, R: Files>(files: &R, folder: &'a str) -> Option<(&'a str, Error)> {
    match fs::metadata(files, folder) {
        Ok(found) if found.is_dir() => None,
        Ok(_) => Some((folder, Error::from(ErrorKind::NotADirectory))),
        Err(error) if error.kind() == ErrorKind::NotFound => Some((folder, error)),
        Err(_) => None,
    }
}
