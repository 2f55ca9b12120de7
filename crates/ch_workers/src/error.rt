ghost use Rattle.std.specs.Prelude.{Some};
ghost use Rattle.ch_workers.specs.Built.{error_name};

use std::error::Error;
use std::fmt;

/// Why a hierarchy wasn't built.
#[derive(Clone, Copy, Debug, PartialEq, Eq)]
pub enum BuildError {
    /// Out of memory.
    OutOfMemory = 1,
    /// A number of the options is outside its range, or there isn't one list of estimators for each worker.
    BadOptions,
    /// The receipts and the log don't agree, or the accounts of the queue, or a book of rows had no place left.
    Mixed,
}

impl fmt::Display for BuildError {
    ghost output = { λ e. Some (error_name e) };

    fn fmt<W: fmt::Write>(&self, f: &mut fmt::Formatter<W>) -> fmt::Result {
        f.write_str(match self {
            BuildError::OutOfMemory => "OutOfMemory",
            BuildError::BadOptions => "BadOptions",
            BuildError::Mixed => "Mixed",
        })
    }
}

impl Error for BuildError {}
