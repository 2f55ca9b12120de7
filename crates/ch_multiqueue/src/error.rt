ghost use Rattle.std.specs.Prelude.{Some};
ghost use Rattle.ch_multiqueue.specs.Closing.{error_name};

use std::error::Error;
use std::fmt;

/// Why a queue wasn't closed. Queue and passes are returned as they were.
#[derive(Clone, Copy, Debug, PartialEq, Eq)]
pub enum CloseError {
    /// Out of memory.
    OutOfMemory = 1,
    /// A pass that was made isn't among those that were given.
    PassMissing,
    /// The accounts of the passes don't agree with what is left.
    Mixed,
}

impl fmt::Display for CloseError {
    ghost output = { λ e. Some (error_name e) };

    fn fmt<W: fmt::Write>(&self, f: &mut fmt::Formatter<W>) -> fmt::Result {
        f.write_str(match self {
            CloseError::OutOfMemory => "OutOfMemory",
            CloseError::PassMissing => "PassMissing",
            CloseError::Mixed => "Mixed",
        })
    }
}

impl Error for CloseError {}
