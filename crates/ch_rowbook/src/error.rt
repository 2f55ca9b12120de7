ghost use Rattle.std.specs.Prelude.{◌≡◌, Some};
ghost use Rattle.ch_rowbook.specs.Names.{error_name};
ghost use Rattle.ch_rowbook.specs.declared.error.BookError.TheVariants.{OutOfMemory};

use std::alloc::{AllocError, AllocFailed};
use std::error::Error;
use std::fmt;

/// Why a row wasn't laid, or a book not opened.
#[derive(Clone, Copy, Debug, PartialEq, Eq)]
pub enum BookError {
    /// Out of memory.
    OutOfMemory = 1,
    /// The list of records gave a place that isn't above the earlier ones.
    Slot,
}

impl fmt::Display for BookError {
    ghost output = { λ e. Some (error_name e) };

    fn fmt<W: fmt::Write>(&self, f: &mut fmt::Formatter<W>) -> fmt::Result {
        f.write_str(match self {
            BookError::OutOfMemory => "OutOfMemory",
            BookError::Slot => "Slot",
        })
    }
}

impl Error for BookError {}

impl From<AllocError> for BookError {
    ghost from_gives = { λ _ e. e ≡ OutOfMemory };

    fn from(_refused: AllocError) -> BookError {
        BookError::OutOfMemory
    }
}

impl<T: Drop> From<AllocFailed<T>> for BookError {
    ghost from_gives = { λ _ e. e ≡ OutOfMemory };

    fn from(_refused: AllocFailed<T>) -> BookError {
        BookError::OutOfMemory
    }
}
