ghost use Rattle.std.specs.Io.{WritesAtMost};

use crate::beside::Beside;
use crate::one_file::is_one_file;
use std::alloc::AllocError;
use std::fs::{self, Metadata, OpenFile, OpenOptions};
use std::io::{self, ErrorKind, Write};
use std::os::unix::fs::MetadataExt;
use std::path::PathBuf;
use std::rt::Files;

/// The standard output of the program, as a file.
const STANDARD_OUTPUT: &str = "/dev/stdout";

/// How many links are followed at most.
const MOST_LINKS: u32 = 40;

/// The bytes of a file that isn't whole yet. The file that gathers them is made at the first write, so a job that is
/// refused before makes none.
#[derive(Drop)]
pub struct PendingFile<'a, R: Files> {
    files: &'a R,
    // where the bytes are put: the path as it was given, or what its links lead to
    target: PathBuf,
    // they are written there at once, by the path as it was given
    is_straight: bool,
    beside: Beside,
    file: Option<R::File>,
    // why a write failed last
    failure: Option<io::Error>,
}

impl<'a, R: Files + AllocGlobal> PendingFile<'a, R> {
    /// A draft of what is to be put at this path.
    pub(crate) fn new(files: &'a R, path: &str) -> Result<PendingFile<'a, R>, AllocError> {
        let followed = target_of(files, path)?;
        let is_straight = is_straight(files, path, followed.as_str());
        let target = if is_straight {
            PathBuf::from_str(files.alloc(), path)?
        } else {
            followed
        };
        Ok(PendingFile {
            files,
            is_straight,
            beside: Beside::new(files.alloc(), target.as_path())?,
            target,
            file: None,
            failure: None,
        })
    }
}

impl<R: Files> PendingFile<'_, R> {
    /// Puts the bytes where they belong: they are made to last first, and then take the name in one step.
    pub(crate) fn keep(&mut self) -> io::Result<()> {
        self.make()?;
        let Some(file) = &self.file else {
            return Ok(());
        };
        if self.is_straight {
            return Ok(());
        }
        file.sync_all()?;
        fs::rename(self.files, self.beside.path(), self.target.as_path())
    }

    /// Why a write failed last, if one did.
    pub(crate) fn failure(&self) -> Option<io::Error> {
        self.failure
    }

    /// Removes the file that gathers the bytes, if it was made and isn't where they belong.
    pub(crate) fn remove(&mut self) {
        if self.file.is_some() && !self.is_straight {
            let _ = fs::remove_file(self.files, self.beside.path());
        }
    }

    // Writes some of the bytes to the file, which is made at the first write.
    fn write_some(&mut self, buf: &[u8]) -> io::Result<usize>
        ensures { WritesAtMost result buf.now }
    {
        self.make()?;
        match &mut self.file {
            Some(file) => file.write(buf),
            None => Ok(0),
        }
    }

    // Makes the file, if it isn't made yet.
    fn make(&mut self) -> io::Result<()> {
        if self.file.is_none() {
            self.file = Some(if self.is_straight {
                fs::create(self.files, self.target.as_path())?
            } else {
                self.make_beside()?
            });
        }
        Ok(())
    }

    // Makes the file beside the one that it replaces, with the permissions of that.
    fn make_beside(&mut self) -> io::Result<R::File> {
        let old = self.replaced()?;
        let file = self.beside.make(self.files)?;
        if let Some(old) = old {
            let path = self.beside.path();
            let _ = self.files.chown(path, Some(old.uid()), Some(old.gid()));
            if let Err(error) = file.set_permissions(old.permissions()) {
                let _ = fs::remove_file(self.files, path);
                return Err(error);
            }
        }
        Ok(file)
    }

    // What is known of the file that is replaced, if there is one. One that may not be written is refused.
    fn replaced(&self) -> io::Result<Option<Metadata>> {
        let mut writing = OpenOptions::new();
        match writing.write(true).open(self.files, self.target.as_path()) {
            Ok(old) => Ok(Some(old.metadata()?)),
            Err(error) if error.kind() == ErrorKind::NotFound => Ok(None),
            Err(error) => Err(error),
        }
    }
}

impl<R: Files> Write for PendingFile<'_, R> {
    fn write(&mut self, buf: &[u8]) -> io::Result<usize> {
        let count = self.write_some(buf);
        if let Err(error) = &count {
            self.failure = Some(*error);
        }
        count
    }

    fn flush(&mut self) -> io::Result<()> {
        match &mut self.file {
            Some(file) => file.flush(),
            None => Ok(()),
        }
    }
}

// The path of the file that is opened by this path: what the links at its end lead to.
fn target_of<R: Files + AllocGlobal>(rt: &R, path: &str) -> Result<PathBuf, AllocError> {
    let mut target = PathBuf::from_str(rt.alloc(), path)?;
    for _ in 0..MOST_LINKS {
        match target.read_link(rt) {
            Ok(link) => target = target.with_file_name(rt.alloc(), link.as_str())?,
            Err(error) if error.kind() == ErrorKind::OutOfMemory => return Err(AllocError),
            Err(_) => return Ok(target),
        }
    }
    Ok(target)
}

// Whether bytes for this path are written straight: there is something that isn't a regular file, or that is the
// program's own output, or that has no name of its own.
fn is_straight<R: Files>(files: &R, path: &str, target: &str) -> bool {
    match fs::metadata(files, path) {
        Ok(found) => {
            !found.is_file()
                || is_one_file(files, path, STANDARD_OUTPUT)
                || !is_one_file(files, path, target)
        }
        Err(error) => error.kind() != ErrorKind::NotFound,
    }
}
