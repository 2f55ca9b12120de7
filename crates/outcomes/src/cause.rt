ghost use Rattle.std.specs.Prelude.{◌≡◌, Some};
ghost use Rattle.outcomes.specs.Causes.{of_graph, of_hierarchy, of_queries, of_text, shown, status_of};
ghost use Rattle.outcomes.specs.declared.cause.Cause.TheVariants.{Memory, Write};

use counted_io::WriteFault;
use grfile::{GrError, GrErrorKind};
use hierfile::HierError;
use std::alloc::AllocError;
use std::error::Error;
use std::fmt;

/// What a refusal comes of, whichever part of the work met it.
///
/// What is shown of one is the line that the program prints.
#[derive(Clone, Copy, Debug, PartialEq, Eq)]
pub enum Cause {
    /// The text of the graph has this fault.
    Graph(GrError),
    /// The query file has this fault.
    Queries(GrError),
    /// The file of the hierarchy has this fault.
    Hierarchy(HierError),
    /// The file of the hierarchy is of version 1, which can't be checked.
    OldVersion,
    /// A route by the hierarchy would repeat a node, so it isn't right for any graph.
    TooLong,
    /// Out of memory.
    Memory,
    /// This input couldn't be read.
    Read(Input),
    /// The output couldn't be written.
    Write(WriteFault),
    /// All of the output was written, and couldn't be flushed, or the file not be put in its place.
    Flush,
    /// The options for building a hierarchy are bad.
    Options,
    /// What the workers reported doesn't agree.
    Mixed,
}

/// What a job reads.
#[derive(Clone, Copy, Debug, PartialEq, Eq)]
pub enum Input {
    /// The text of a graph, or one input with it and that of the pairs.
    Graph,
    /// The query file.
    Queries,
    /// The file of a hierarchy.
    Hierarchy,
}

impl fmt::Display for Cause {
    ghost output = { λ cause. Some (shown cause) };

    fn fmt<W: fmt::Write>(&self, f: &mut fmt::Formatter<W>) -> fmt::Result {
        match self {
            Cause::Graph(fault) => write!(f, "graph: {fault}"),
            Cause::Queries(fault) => write!(f, "queries: {fault}"),
            Cause::Hierarchy(fault) => write!(f, "hierarchy: {fault}"),
            Cause::OldVersion => write!(f, "hierarchy: OldVersion"),
            Cause::TooLong => write!(f, "hierarchy: TooLong"),
            Cause::Memory => write!(f, "memory"),
            Cause::Read(_) => write!(f, "read"),
            Cause::Write(_) | Cause::Flush => write!(f, "write"),
            Cause::Options => write!(f, "options"),
            Cause::Mixed => write!(f, "mixed"),
        }
    }
}

impl Error for Cause {}

impl Cause {
    /// Returns what a refusal to read the text of a graph comes of: out of memory and a failed read are no faults of the
    /// text.
    pub fn of_graph(fault: GrError) -> Cause
        ensures { result ≡ of_graph fault }
    {
        of_text(fault.kind, Input::Graph, Cause::Graph(fault))
    }

    /// The same of a query file.
    pub fn of_queries(fault: GrError) -> Cause
        ensures { result ≡ of_queries fault }
    {
        of_text(fault.kind, Input::Queries, Cause::Queries(fault))
    }

    /// The same of the file of a hierarchy.
    pub fn of_hierarchy(fault: HierError) -> Cause
        ensures { result ≡ of_hierarchy fault }
    {
        match fault {
            HierError::OutOfMemory => Cause::Memory,
            HierError::Read => Cause::Read(Input::Hierarchy),
            _ => Cause::Hierarchy(fault),
        }
    }

    /// Returns the exit status of the program. A route that is too long is a fault of the hierarchy, and bad options would
    /// be one of the command line.
    pub fn status(&self) -> u8
        ensures { result ≡ status_of self.now }
    {
        match self {
            Cause::Options => 2,
            Cause::Graph(_) => 3,
            Cause::Hierarchy(_) | Cause::OldVersion | Cause::TooLong => 4,
            Cause::Queries(_) => 5,
            Cause::Memory => 6,
            Cause::Read(_) | Cause::Write(_) | Cause::Flush => 7,
            Cause::Mixed => 8,
        }
    }
}

impl From<HierError> for Cause {
    ghost from_gives = { λ fault cause. cause ≡ of_hierarchy fault };

    fn from(fault: HierError) -> Cause {
        Cause::of_hierarchy(fault)
    }
}

impl From<AllocError> for Cause {
    ghost from_gives = { λ _ cause. cause ≡ Memory };

    fn from(_refused: AllocError) -> Cause {
        Cause::Memory
    }
}

impl From<WriteFault> for Cause {
    ghost from_gives = { λ fault cause. cause ≡ Write fault };

    fn from(fault: WriteFault) -> Cause {
        Cause::Write(fault)
    }
}

// What a fault of this kind comes of: out of memory and a failed read are none of the text's own.
fn of_text(kind: GrErrorKind, input: Input, own: Cause) -> Cause
    ensures { result ≡ of_text kind input own }
{
    match kind {
        GrErrorKind::OutOfMemory => Cause::Memory,
        GrErrorKind::Read => Cause::Read(input),
        _ => own,
    }
}
