ghost use Rattle.std.specs.Prelude.{◌≡◌, [], IfOk, max};
ghost use Rattle.ch_overlay.specs.Records.{mark_of};
ghost use Rattle.ch_rowbook.specs.Words.{no_versions, pen_with, width};

use crate::marking::Bounds;
use crate::words::{KnownWords, Versions};
use atomic_table::{Seat, Table};
use boxcar::tag::Tag;
use ch_cost::Cost;
use ch_overlay::{Record, SoundRows};
use std::alloc::{AllocError, Global};

/// The words of a book, without slots beside them.
pub(crate) type Words = Table<(), KnownWords, usize, Versions, Global>;

/// The records of a book, first to last.
pub(crate) type Records = boxcar::Vec<Record, Global, SoundRows>;

/// A book with no record, which no type names yet.
#[derive(Drop)]
pub struct Blank {
    pub(crate) list: Records,
    pub(crate) table: Words,
    pub(crate) seat: Seat<(), KnownWords>,
    pub(crate) nodes: u32,
    pub(crate) bound: Cost,
    ghost mark: { list.tag ≡ mark_of bound },
    ghost words: { (table.shared.key ≡ width nodes) × (table.shared.table_id.words ≡ width nodes) },
    ghost seated: { (seat.table_id ≡ table.shared.table_id) × (seat.id ≡ 0) },
    ghost knows: { seat.me ≡ (pen_with (no_versions (width nodes)), []) },
}

impl Blank {
    /// Returns a blank for this many nodes and rows within this bound.
    ///
    /// Takes memory for a word for each node, or one where there is none, and for the first places of the list. The
    /// list grows by every row that is laid, and never shrinks.
    pub fn new(alloc: Global, nodes: u32, bound: Cost) -> Result<Blank, AllocError>
        ensures { IfOk result (λ b. (b.nodes ≡ nodes) × (b.bound ≡ bound)) }
    {
        let list = boxcar::Vec::with_rule(alloc, Tag::of::<Cost, Bounds>(&bound))?;
        let width = (nodes as usize).max(1);
        let zeros = vec![in alloc; 0u64; width]?;
        let (table, seat) = Table::of_words(alloc, zeros.as_slice(), &width)?;
        Ok(Blank {
            list,
            table,
            seat,
            nodes,
            bound,
        })
    }
}
