ghost use Rattle.std.specs.Prelude.{◌≡◌, Some};
ghost use Rattle.ch_unpack.specs.Unpacking.{error_name};
ghost use Rattle.ch_unpack.specs.declared.error.UnpackError.TheVariants.{OutOfMemory};

use std::alloc::{AllocError, AllocFailed};
use std::error::Error;
use std::fmt;

/// Why links weren't unpacked.
#[derive(Clone, Copy, Debug, PartialEq, Eq)]
pub enum UnpackError {
    /// Out of memory.
    OutOfMemory = 1,
    /// The links represent as many arcs as there are nodes, or more.
    TooLong,
}

impl fmt::Display for UnpackError {
    ghost output = { λ e. Some (error_name e) };

    fn fmt<W: fmt::Write>(&self, f: &mut fmt::Formatter<W>) -> fmt::Result {
        f.write_str(match self {
            UnpackError::OutOfMemory => "OutOfMemory",
            UnpackError::TooLong => "TooLong",
        })
    }
}

impl Error for UnpackError {}

impl From<AllocError> for UnpackError {
    ghost from_gives = { λ _ e. e ≡ OutOfMemory };

    fn from(_refused: AllocError) -> UnpackError {
        UnpackError::OutOfMemory
    }
}

impl<T: Drop> From<AllocFailed<T>> for UnpackError {
    ghost from_gives = { λ _ e. e ≡ OutOfMemory };

    fn from(_refused: AllocFailed<T>) -> UnpackError {
        UnpackError::OutOfMemory
    }
}
