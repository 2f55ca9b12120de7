ghost use Rattle.std.specs.Prelude.{◌≡◌, ◌≢◌, ◌↔◌, Some};
ghost use Rattle.ch_overlay.specs.declared.source.SeeError.TheVariants as see;
ghost use Rattle.ch_witness.specs.declared.error.SearchError.TheVariants as search;
ghost use Rattle.ch_contract.specs.Names.{commit_error_name, commit_error_number, finish_error_name, propose_error_name, sweep_error_name};
ghost use Rattle.ch_contract.specs.declared.error.ProposeError.TheVariants as propose;
ghost use Rattle.ch_contract.specs.declared.error.SweepError.TheVariants.{OutOfMemory};

use ch_overlay::SeeError;
use ch_witness::SearchError;
use std::alloc::{AllocError, AllocFailed};
use std::error::Error;
use std::fmt;

/// Why a node wasn't proposed. The source may have moved, as reading moves it.
#[derive(Clone, Copy, Debug, PartialEq, Eq)]
pub enum ProposeError {
    /// Out of memory.
    OutOfMemory = 1,
    /// The source has no row of a node that was asked for.
    Unseen,
    /// The node is contracted already: the row that was read has a rank.
    Contracted,
}

/// Why a proposal wasn't committed. The board is as it was.
///
/// Since `Stale` says more than its name, the numbers aren't those of `as`, but those of [`CommitError::number`].
#[derive(Clone, Copy, Debug, PartialEq, Eq)]
pub enum CommitError {
    /// The node is contracted already.
    Contracted,
    /// A row that the proposal rests on has changed since.
    Stale {
        /// The node of the first such row.
        node: u32,
        /// The version that the proposal rests on.
        seen: u64,
        /// The version of the node's row now.
        now: u64,
        /// How many nodes were contracted so far.
        front: u64,
    },
    /// Out of memory.
    OutOfMemory,
    /// The book gave a place to a row that isn't above the earlier ones.
    Slot,
}

/// Why a sweep ended early. The contractions that it made are in the log.
#[derive(Clone, Copy, Debug, PartialEq, Eq)]
pub enum SweepError {
    /// Out of memory.
    OutOfMemory = 1,
    /// The book gave a place to a row that isn't above the earlier ones.
    Slot,
}

/// Why a ledger or a board wasn't made into a hierarchy. It is returned as it was.
#[derive(Clone, Copy, Debug, PartialEq, Eq)]
pub enum FinishError {
    /// Out of memory.
    OutOfMemory = 1,
    /// A node isn't contracted.
    NodesLeft,
}

impl fmt::Display for SweepError {
    ghost output = { λ e. Some (sweep_error_name e) };

    fn fmt<W: fmt::Write>(&self, f: &mut fmt::Formatter<W>) -> fmt::Result {
        f.write_str(match self {
            SweepError::OutOfMemory => "OutOfMemory",
            SweepError::Slot => "Slot",
        })
    }
}

impl fmt::Display for FinishError {
    ghost output = { λ e. Some (finish_error_name e) };

    fn fmt<W: fmt::Write>(&self, f: &mut fmt::Formatter<W>) -> fmt::Result {
        f.write_str(match self {
            FinishError::OutOfMemory => "OutOfMemory",
            FinishError::NodesLeft => "NodesLeft",
        })
    }
}

impl fmt::Display for ProposeError {
    ghost output = { λ e. Some (propose_error_name e) };

    fn fmt<W: fmt::Write>(&self, f: &mut fmt::Formatter<W>) -> fmt::Result {
        f.write_str(match self {
            ProposeError::OutOfMemory => "OutOfMemory",
            ProposeError::Unseen => "Unseen",
            ProposeError::Contracted => "Contracted",
        })
    }
}

impl Error for ProposeError {}

impl CommitError {
    /// Returns the number of the error: 1, 2, 4 and 5, in the order of the variants. 3 had an error that doesn't come
    /// any more, and isn't used again.
    pub fn number(self) -> u8
        ensures { result ≡ commit_error_number self }
    {
        match self {
            CommitError::Contracted => 1,
            CommitError::Stale { .. } => 2,
            CommitError::OutOfMemory => 4,
            CommitError::Slot => 5,
        }
    }
}

impl fmt::Display for CommitError {
    ghost output = { λ e. Some (commit_error_name e) };

    fn fmt<W: fmt::Write>(&self, f: &mut fmt::Formatter<W>) -> fmt::Result {
        f.write_str(match self {
            CommitError::Contracted => "Contracted",
            CommitError::Stale { .. } => "Stale",
            CommitError::OutOfMemory => "OutOfMemory",
            CommitError::Slot => "Slot",
        })
    }
}

impl Error for CommitError {}

impl From<SeeError> for ProposeError {
    ghost from_gives = { λ s e. (e ≢ propose.Contracted) × (e ≡ propose.Unseen ↔ s ≡ see.Unseen) };

    fn from(refused: SeeError) -> ProposeError {
        match refused {
            SeeError::OutOfMemory => ProposeError::OutOfMemory,
            SeeError::Unseen => ProposeError::Unseen,
        }
    }
}

impl From<SearchError> for ProposeError {
    ghost from_gives = { λ s e. (e ≢ propose.Contracted) × (e ≡ propose.Unseen ↔ s ≡ search.Unseen) };

    fn from(refused: SearchError) -> ProposeError {
        match refused {
            SearchError::OutOfMemory => ProposeError::OutOfMemory,
            SearchError::Unseen => ProposeError::Unseen,
        }
    }
}

impl From<AllocError> for ProposeError {
    ghost from_gives = { λ _ e. e ≡ propose.OutOfMemory };

    fn from(_refused: AllocError) -> ProposeError {
        ProposeError::OutOfMemory
    }
}

impl<T: Drop> From<AllocFailed<T>> for ProposeError {
    ghost from_gives = { λ _ e. e ≡ propose.OutOfMemory };

    fn from(_refused: AllocFailed<T>) -> ProposeError {
        ProposeError::OutOfMemory
    }
}

impl Error for SweepError {}

impl Error for FinishError {}

impl From<AllocError> for SweepError {
    ghost from_gives = { λ _ e. e ≡ OutOfMemory };

    fn from(_refused: AllocError) -> SweepError {
        SweepError::OutOfMemory
    }
}
