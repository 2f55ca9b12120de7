use std::alloc::{AllocError, Global};
use std::fmt::Write;
use std::fs::OpenOptions;
use std::io::{self, ErrorKind};
use std::path::Path;
use std::rt::Files;

/// How the name of a file beside another begins. It goes on with a number.
const STEM: &str = "routecli-new-";

/// How many names are tried at most.
const MOST_NAMES: u32 = 10_000;

/// Names of files in the folder of another file, one at a time.
#[derive(Drop)]
pub(crate) struct Beside {
    // the path of the folder, and how each name begins
    stem: String,
    // the name that was tried last
    path: String,
}

impl Beside {
    /// Names beside the file at this path. All memory that they need is taken here.
    pub(crate) fn new(alloc: Global, path: Path<'_>) -> Result<Beside, AllocError> {
        let stem = path.with_file_name(alloc, STEM)?.into_string();
        let path = String::with_capacity(alloc, stem.len().saturating_add(10))?;
        Ok(Beside { stem, path })
    }

    /// The path of the file that was made last.
    pub(crate) fn path(&self) -> &str {
        self.path.as_str()
    }

    /// Makes a file that wasn't there, under the first name that nobody has.
    pub(crate) fn make<R: Files>(&mut self, files: &R) -> io::Result<R::File> {
        for number in 0..MOST_NAMES {
            self.name(number)?;
            match OpenOptions::new()
                .write(true)
                .create_new(true)
                .open(files, self.path())
            {
                Err(error) if error.kind() == ErrorKind::AlreadyExists => {}
                made => return made,
            }
        }
        Err(io::Error::from(ErrorKind::AlreadyExists))
    }

    // The name of this number.
    fn name(&mut self, number: u32) -> io::Result<()> {
        self.path.clear();
        self.path.push_str(self.stem.as_str())?;
        if write!(self.path, "{number}").is_err() {
            return Err(io::Error::from(ErrorKind::OutOfMemory));
        }
        Ok(())
    }
}
