ghost use Rattle.std.specs.Prelude.{◌≡◌, ◌++◌, [], None, Some, min, IfErr, IfSome, Err, List, ℕ};
ghost use Rattle.counted_io.specs.declared.TheConstants.{MOST_CALLS};
ghost use Rattle.grfile.specs.Outcome.{IsReading, Takes};
ghost use Rattle.grfile.specs.Reading.{graph_of};
ghost use Rattle.text_lines.specs.Lines.{line_feeds};
ghost use Rattle.grfile.specs.Taken.{ComesFirst, CountsLines, IsAtEndOf, graph_with};
ghost use Rattle.grfile.specs.ToTheEnd.{ReadsText};

use crate::error::GrError;
use crate::listing::Listed;
use crate::pieces::{Pieces, feed, finish, read_listing};
use crate::roads::Roads;
use ch_graph::{Graph, Road};
use counted_io::{MOST_CALLS, StepRead};
use std::alloc::Global;
use std::marker::Model;

/// Reads the text of a graph that comes in pieces, however it was cut.
///
/// It keeps the arcs of the lines that have ended, and the bytes of the line that hasn't. After a refusal each
/// further call returns that refusal again.
#[derive(Drop)]
pub struct GrReader {
    pieces: Pieces<Road>,
}

impl Model for GrReader {
    ghost use Rattle.std.specs.Prelude.{List, ℕ};
    ghost use Rattle.std.specs.Result.{ForOk};
    ghost use Rattle.ch_graph.specs.declared.road.Road.{Road};
    ghost use Rattle.ch_graph.specs.Limits.{IsGraph};
    ghost use Rattle.grfile.specs.Taken as texts;

    ghost Value = { texts.Taken Road };

    ghost view = { λ r. texts.taken_of r.pieces };

    ghost invariant = { λ r. (rest : List ℕ) → ForOk (texts.graph_with (texts.taken_of r.pieces) rest) IsGraph };
}

impl GrReader {
    /// Returns a reader that has taken nothing. Takes no memory.
    pub fn new(alloc: Global) -> GrReader
        ensures told { (rest : List ℕ) → graph_with result rest ≡ graph_of rest }
        ensures begins { (result.line ≡ 0) × (result.failed ≡ None) }
    {
        GrReader {
            pieces: Pieces::new(alloc),
        }
    }

    /// Takes the next piece of the text.
    ///
    /// A refusal is of the line that was reached: the fault of a line that has ended, or out of memory, for what
    /// the line says or for the bytes of one that hasn't ended. No earlier line has a fault, whatever follows.
    pub fn feed(&mut self, piece: &[u8]) -> Result<(), GrError>
        ensures takes { Takes result (λ rest. graph_with self.old (piece.now ++ rest)) (graph_with self.new) }
        ensures lines { self.old.failed ≡ None → CountsLines result self.old.line (line_feeds piece.now) self.new.line }
        ensures before { self.old.failed ≡ None → IfErr result (ComesFirst (graph_with self.old) piece.now) }
        ensures refused { IfErr result (λ e. self.new.failed ≡ Some e) }
        ensures again { IfSome self.old.failed (λ e. result ≡ Err e) }
    {
        feed(&mut self.pieces, Roads, piece)
    }

    /// Returns the graph that the whole text spells, or the text's first fault.
    pub fn finish(self) -> Result<Graph, GrError>
        ensures reading { IsReading (λ g. g) result (graph_with self []) }
        ensures refused { self.failed ≡ None → IfErr result (IsAtEndOf self.line) }
        ensures again { IfSome self.failed (λ e. result ≡ Err e) }
    {
        let GrReader { pieces } = self;
        let Listed { size, entries } = finish(pieces, Roads)?;
        Ok(Graph::new(size.nodes, entries))
    }
}

/// Reads the text of a graph to the reader's end.
///
/// The first fault of the text is returned, with its line; `Read` where the reader fails, and `OutOfMemory` where
/// memory runs out, both at the line that was reached, and only where no earlier line has a fault. What is kept
/// is the arcs so far, one line and 64 KiB: memory grows with what the text has spelled, never with what a line announces.
pub fn read_graph<R: StepRead>(alloc: Global, reader: &mut R) -> Result<Graph, GrError>
    ensures reads { ReadsText R.step R.remaining graph_of (λ g. g) MOST_CALLS reader.old reader.new result }
{
    read_graph_within(alloc, reader, MOST_CALLS)
}

/// Reads as [`read_graph`] does, by this many calls of the reader, or 2^40 where they are more. After the last of them
/// the result is `Read`.
pub fn read_graph_within<R: StepRead>(
    alloc: Global,
    reader: &mut R,
    calls: u64,
) -> Result<Graph, GrError>
    ensures reads { ReadsText R.step R.remaining graph_of (λ g. g) (min calls MOST_CALLS) reader.old reader.new result }
{
    let Listed { size, entries } = read_listing(alloc, Roads, reader, calls)?;
    Ok(Graph::new(size.nodes, entries))
}
