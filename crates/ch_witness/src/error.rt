ghost use Rattle.std.specs.Prelude.{◌≡◌, ◌↔◌, Some};
ghost use Rattle.ch_overlay.specs.declared.source.SeeError.TheVariants as see;
ghost use Rattle.ch_witness.specs.Ways.{error_name};
ghost use Rattle.ch_witness.specs.declared.error.SearchError.TheVariants.{OutOfMemory, Unseen};

use ch_overlay::SeeError;
use std::alloc::{AllocError, AllocFailed};
use std::error::Error;
use std::fmt;

/// Why a search gave nothing.
#[derive(Clone, Copy, Debug, PartialEq, Eq)]
pub enum SearchError {
    /// Out of memory.
    OutOfMemory = 1,
    /// The source had no row of a node that the search went to.
    Unseen,
}

impl fmt::Display for SearchError {
    ghost output = { λ e. Some (error_name e) };

    fn fmt<W: fmt::Write>(&self, f: &mut fmt::Formatter<W>) -> fmt::Result {
        f.write_str(match self {
            SearchError::OutOfMemory => "OutOfMemory",
            SearchError::Unseen => "Unseen",
        })
    }
}

impl Error for SearchError {}

impl From<SeeError> for SearchError {
    ghost from_gives = { λ s e. (e ≡ Unseen) ↔ (s ≡ see.Unseen) };

    fn from(refused: SeeError) -> SearchError {
        match refused {
            SeeError::OutOfMemory => SearchError::OutOfMemory,
            SeeError::Unseen => SearchError::Unseen,
        }
    }
}

impl From<AllocError> for SearchError {
    ghost from_gives = { λ _ e. e ≡ OutOfMemory };

    fn from(_refused: AllocError) -> SearchError {
        SearchError::OutOfMemory
    }
}

impl<T: Drop> From<AllocFailed<T>> for SearchError {
    ghost from_gives = { λ _ e. e ≡ OutOfMemory };

    fn from(_refused: AllocFailed<T>) -> SearchError {
        SearchError::OutOfMemory
    }
}
