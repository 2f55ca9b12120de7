ghost use Rattle.std.specs.Prelude.{◌≡◌, ◌++◌, [], None, Some, min, IfOk, IfErr, IfSome, Err, All, List, ℕ};
ghost use Rattle.counted_io.specs.declared.TheConstants.{MOST_CALLS};
ghost use Rattle.grfile.specs.Outcome.{IsReading, Takes};
ghost use Rattle.grfile.specs.Reading.{pairs_of, IsPair};
ghost use Rattle.text_lines.specs.Lines.{line_feeds};
ghost use Rattle.grfile.specs.Taken.{ComesFirst, CountsLines, IsAtEndOf, pairs_with};
ghost use Rattle.grfile.specs.ToTheEnd.{ReadsText};

use crate::error::GrError;
use crate::pairs::Pairs;
use crate::pieces::{Pieces, feed, finish, read_listing};
use counted_io::{MOST_CALLS, StepRead};
use std::alloc::Global;
use std::marker::Model;

/// Reads a query file that comes in pieces, however it was cut.
///
/// It keeps the pairs of the lines that have ended, and the bytes of the line that hasn't. After a refusal each
/// further call returns that refusal again.
#[derive(Drop)]
pub struct QueryReader {
    nodes: u32,
    pieces: Pieces<(u32, u32)>,
}

impl Model for QueryReader {
    ghost use Rattle.std.specs.Prelude.{List, ℕ, All};
    ghost use Rattle.std.specs.Result.{ForOk};
    ghost use Rattle.grfile.specs.Reading.{IsPair};
    ghost use Rattle.grfile.specs.Taken as texts;

    ghost Value = { texts.PairsTaken };

    ghost view = { λ r. record { nodes = r.nodes; taken = texts.taken_of r.pieces } };

    ghost invariant = { λ r. (rest : List ℕ) → ForOk (texts.pairs_with (record { nodes = r.nodes; taken = texts.taken_of r.pieces }) rest) (All (IsPair r.nodes)) };
}

impl QueryReader {
    /// Returns a reader of pairs of this many nodes that has taken nothing. Takes no memory.
    pub fn new(alloc: Global, nodes: u32) -> QueryReader
        ensures told { (rest : List ℕ) → pairs_with result rest ≡ pairs_of nodes rest }
        ensures begins { (result.taken.line ≡ 0) × (result.taken.failed ≡ None) }
        ensures nodes { result.nodes ≡ nodes }
    {
        QueryReader {
            nodes,
            pieces: Pieces::new(alloc),
        }
    }

    /// Takes the next piece of the text.
    ///
    /// A refusal is of the line that was reached: the fault of a line that has ended, or out of memory, for what
    /// the line says or for the bytes of one that hasn't ended. No earlier line has a fault, whatever follows.
    pub fn feed(&mut self, piece: &[u8]) -> Result<(), GrError>
        ensures takes { Takes result (λ rest. pairs_with self.old (piece.now ++ rest)) (pairs_with self.new) }
        ensures nodes { self.new.nodes ≡ self.old.nodes }
        ensures lines { self.old.taken.failed ≡ None → CountsLines result self.old.taken.line (line_feeds piece.now) self.new.taken.line }
        ensures before { self.old.taken.failed ≡ None → IfErr result (ComesFirst (pairs_with self.old) piece.now) }
        ensures refused { IfErr result (λ e. self.new.taken.failed ≡ Some e) }
        ensures again { IfSome self.old.taken.failed (λ e. result ≡ Err e) }
    {
        let nodes = self.nodes;
        feed(&mut self.pieces, Pairs { nodes }, piece)
    }

    /// Returns the pairs that the whole text spells, in the order of their lines, or the text's first fault. Nodes are
    /// numbered from 0.
    pub fn finish(self) -> Result<Vec<(u32, u32)>, GrError>
        ensures reading { IsReading (λ v. v.items) result (pairs_with self []) }
        ensures in_range { IfOk result (λ pairs. All (IsPair self.nodes) pairs.items) }
        ensures refused { self.taken.failed ≡ None → IfErr result (IsAtEndOf self.taken.line) }
        ensures again { IfSome self.taken.failed (λ e. result ≡ Err e) }
    {
        let QueryReader { nodes, pieces } = self;
        let listed = finish(pieces, Pairs { nodes })?;
        Ok(listed.entries)
    }
}

/// Reads a query file for this many nodes to the reader's end. The pairs are numbered from 0.
///
/// The first fault of the text is returned, with its line; `Read` where the reader fails, and `OutOfMemory` where
/// memory runs out, both at the line that was reached, and only where no earlier line has a fault. What is kept
/// is the pairs so far, one line and 64 KiB: memory grows with what the text has spelled, never with what a line announces.
pub fn read_queries<R: StepRead>(
    alloc: Global,
    reader: &mut R,
    nodes: u32,
) -> Result<Vec<(u32, u32)>, GrError>
    ensures reads { ReadsText R.step R.remaining (pairs_of nodes) (λ v. v.items) MOST_CALLS reader.old reader.new result }
    ensures in_range { IfOk result (λ pairs. All (IsPair nodes) pairs.items) }
{
    read_queries_within(alloc, reader, nodes, MOST_CALLS)
}

/// Reads as [`read_queries`] does, by this many calls of the reader, or 2^40 where they are more. After the last of them
/// the result is `Read`.
pub fn read_queries_within<R: StepRead>(
    alloc: Global,
    reader: &mut R,
    nodes: u32,
    calls: u64,
) -> Result<Vec<(u32, u32)>, GrError>
    ensures reads { ReadsText R.step R.remaining (pairs_of nodes) (λ v. v.items) (min calls MOST_CALLS) reader.old reader.new result }
    ensures in_range { IfOk result (λ pairs. All (IsPair nodes) pairs.items) }
{
    let listed = read_listing(alloc, Pairs { nodes }, reader, calls)?;
    Ok(listed.entries)
}
