ghost use Rattle.std.specs.Prelude.{◌≡◌};
ghost use Rattle.ch_sums.specs.declared.error.NumbersError.TheVariants.{OutOfMemory};

use std::alloc::{AllocError, AllocFailed};

/// Why no numbers were made.
#[derive(Clone, Copy, Debug, PartialEq, Eq)]
pub enum NumbersError {
    /// Out of memory.
    OutOfMemory,
    /// There isn't one number for each link without a middle.
    Count,
    /// The numbers of the arcs that a link represents sum to more than 2^36.
    TooGreat,
}

impl From<AllocError> for NumbersError {
    ghost from_gives = { λ _ e. e ≡ OutOfMemory };

    fn from(_refused: AllocError) -> NumbersError {
        NumbersError::OutOfMemory
    }
}

impl<T: Drop> From<AllocFailed<T>> for NumbersError {
    ghost from_gives = { λ _ e. e ≡ OutOfMemory };

    fn from(_refused: AllocFailed<T>) -> NumbersError {
        NumbersError::OutOfMemory
    }
}
