use crate::destination::Destination;
use crate::draft::PendingFile;
use std::alloc::AllocError;
use std::io;
use std::rt::Files;

/// The destination at a path of the file system.
///
/// If nothing is there, or a regular file, or a link to one, the draft is a file beside it, in the same folder,
/// under a name that nobody has; it is synced, and takes the file's name in one step. A file that is replaced has to be
/// one that may be written; its permissions are kept, and its owner if the system lets it. A pipe, a
/// terminal, a device and the program's own standard output are written directly, and partial output may remain there.
/// A program that is killed may leave the file beside; no later draft takes it.
#[derive(Drop)]
pub struct OutFile<'a, R: Files> {
    files: &'a R,
    path: &'a str,
    failure: Option<io::Error>,
}

impl<'a, R: Files> OutFile<'a, R> {
    /// Returns the destination at this path. Nothing is looked at or made yet.
    pub fn new(files: &'a R, path: &'a str) -> OutFile<'a, R> {
        OutFile {
            files,
            path,
            failure: None,
        }
    }

    /// Why the last draft wasn't put there, if the file system failed.
    pub fn failure(&self) -> Option<io::Error> {
        self.failure
    }
}

impl<'a, R: Files + AllocGlobal> Destination for OutFile<'a, R> {
    type PendingFile = PendingFile<'a, R>;

    fn draft(&self) -> Result<PendingFile<'a, R>, AllocError> {
        PendingFile::new(self.files, self.path)
    }

    fn put(&mut self, mut draft: PendingFile<'a, R>) -> io::Result<()> {
        match draft.keep() {
            Ok(()) => Ok(()),
            Err(error) => {
                draft.remove();
                self.failure = Some(error);
                Err(error)
            }
        }
    }

    fn discard(&mut self, mut draft: PendingFile<'a, R>) {
        draft.remove();
        self.failure = draft.failure();
    }
}
