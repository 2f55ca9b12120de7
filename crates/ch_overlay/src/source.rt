ghost use Rattle.std.specs.Prelude.{◌≡◌, ℕ, Some};
ghost use Rattle.ch_overlay.specs.Source.{error_name};
ghost use Rattle.ch_overlay.specs.declared.source.SeeError.TheVariants.{OutOfMemory};

use crate::record::Token;
use crate::row::Row;
use ch_cost::Cost;
use std::alloc::{AllocError, AllocFailed};
use std::error::Error;
use std::fmt;
use std::sync::Arc;

/// A row as a source answered it.
#[derive(Drop)]
pub struct Seen {
    /// The node, numbered from 0.
    pub node: u32,
    /// The version of the node's row: equal versions of a node mean equal rows.
    pub version: u64,
    /// The row of that version.
    pub row: Arc<Row>,
    /// The token of the row's record, where it comes from a book of rows.
    pub token: Option<Token>,
}

/// Why a row wasn't answered.
#[derive(Clone, Copy, Debug, PartialEq, Eq)]
pub enum SeeError {
    /// Out of memory.
    OutOfMemory = 1,
    /// The source has no row of the node.
    Unseen,
}

impl fmt::Display for SeeError {
    ghost output = { λ e. Some (error_name e) };

    fn fmt<W: fmt::Write>(&self, f: &mut fmt::Formatter<W>) -> fmt::Result {
        f.write_str(match self {
            SeeError::OutOfMemory => "OutOfMemory",
            SeeError::Unseen => "Unseen",
        })
    }
}

impl Error for SeeError {}

impl From<AllocError> for SeeError {
    ghost from_gives = { λ _ e. e ≡ OutOfMemory };

    fn from(_refused: AllocError) -> SeeError {
        SeeError::OutOfMemory
    }
}

impl<T: Drop> From<AllocFailed<T>> for SeeError {
    ghost from_gives = { λ _ e. e ≡ OutOfMemory };

    fn from(_refused: AllocFailed<T>) -> SeeError {
        SeeError::OutOfMemory
    }
}

/// Where rows are read: an overlay itself, or what was seen of one.
///
/// What it answered it continues to show, however it moves; an older answer may differ from the overlay's current row.
pub trait RowSource {
    ghost use Rattle.std.specs.Prelude.{◌≡◌, ℕ, IfOk, OnErr};
    ghost use Rattle.ch_cost.specs.declared.cost.Cost.{Cost};
    ghost use Rattle.ch_overlay.specs.declared.source.Seen.{Seen};
    ghost use Rattle.ch_overlay.specs.declared.source.SeeError.TheVariants.{Unseen};
    ghost use Rattle.ch_overlay.specs.Source.{row_in, IsBound, IsSeenRow, NamesAlone};

    /// What every answer of a source of this type bears, such as the mark of its origin.
    ghost bears: { Seen → Type 0 };

    /// The answers that the source vouches for as it is now.
    ghost shows: { Self → Seen → Type 0 };

    /// How the source may move when it is read.
    ghost stays: { Self → Self → Type 0 };

    /// The nodes for which the source is whole: it has their rows, and these name such nodes alone.
    ghost whole: { Self → ℕ → Type 0 };

    /// The bound that no cost of a row is above.
    ghost bound_of: { Self → Cost };

    /// A row of a node. Where it refuses, the source is what it was.
    ///
    /// `Unseen` where it has none, which doesn't happen for a node for which the source is whole.
    fn row_of(&mut self, node: u32) -> Result<Seen, SeeError>
        ensures node { IfOk result (λ seen. seen.node ≡ node) }
        ensures row { IfOk result (IsSeenRow (bound_of self.old)) }
        ensures bound { IsBound (bound_of self.old) }
        ensures bears { IfOk result bears }
        ensures shows { IfOk result (shows self.new) }
        ensures stays { stays self.old self.new }
        ensures kept { OnErr result (self.new ≡ self.old) }
        ensures found { whole self.old node → result ≡ Err Unseen → ⊥ }
        ensures names { whole self.old node → IfOk result (λ seen. NamesAlone (whole self.new) (row_in seen)) };

    /// The bound of the graph whose rows it shows.
    fn bound(&self) -> Cost
        ensures bound { result ≡ bound_of self.now }
        ensures limit { IsBound result };

    /// A source that isn't read stays.
    ghost stays_self: { (a : Self) → stays a a };

    /// Moves add up to a move.
    ghost stays_more: { (a b c : Self) → stays a b → stays b c → stays a c };

    /// A move keeps what is shown.
    ghost still_shows: { (a b : Self) (s : Seen) → stays a b → shows a s → shows b s };

    /// A move keeps the nodes for which the source is whole.
    ghost still_whole: { (a b : Self) (x : ℕ) → stays a b → whole a x → whole b x };

    /// A move keeps the bound.
    ghost same_bound: { (a b : Self) → stays a b → bound_of b ≡ bound_of a };
}
