ghost use Rattle.std.specs.Prelude.{◌≡◌, Some};
ghost use Rattle.grfile.specs.Names.{kind_name, error_text};

use std::error::Error;
use std::fmt;

/// Why a text wasn't read.
#[derive(Clone, Copy, Debug, PartialEq, Eq)]
pub enum GrErrorKind {
    /// Out of memory.
    OutOfMemory = 1,
    /// The reader failed.
    Read,
    /// A line of no known kind, or a problem line of another problem.
    UnknownLine,
    /// No problem line comes before the entries, or none at all.
    NoProblemLine,
    /// A second problem line.
    SecondProblemLine,
    /// Too few or too many fields for the line's kind.
    FieldCount,
    /// A field that isn't a number of decimal digits.
    NotANumber,
    /// A node that is 0, or above the number of nodes.
    NodeRange,
    /// A weight above 4,294,967,295.
    WeightTooBig = 10,
    /// More than 33,554,432 nodes.
    TooManyNodes,
    /// More than 134,217,728 arcs or pairs.
    TooManyArcs,
    /// More or fewer entries than the problem line says.
    ArcCount,
}

/// The first fault of a text, or what kept it from being read.
#[derive(Clone, Copy, Debug, PartialEq, Eq)]
pub struct GrError {
    /// What is wrong.
    pub kind: GrErrorKind,
    /// The line that has the fault, numbered from 1; of a fault at the end of the text, the number of its lines.
    /// For a failed read one more than the line feeds that were taken. Out of memory: the line of the entry, or of the
    /// bytes of a line that hasn't ended, that there was no room for. A number that would pass 2^64 - 1 stays there.
    pub line: u64,
}

impl GrErrorKind {
    /// This fault, of that line.
    pub fn at(self, line: u64) -> GrError
        ensures { result ≡ record { kind = self; line = line } }
    {
        GrError { kind: self, line }
    }

    /// Returns the variant's name.
    pub fn name(self) -> &'static str
        ensures { result.now ≡ kind_name self }
    {
        match self {
            GrErrorKind::OutOfMemory => "OutOfMemory",
            GrErrorKind::Read => "Read",
            GrErrorKind::UnknownLine => "UnknownLine",
            GrErrorKind::NoProblemLine => "NoProblemLine",
            GrErrorKind::SecondProblemLine => "SecondProblemLine",
            GrErrorKind::FieldCount => "FieldCount",
            GrErrorKind::NotANumber => "NotANumber",
            GrErrorKind::NodeRange => "NodeRange",
            GrErrorKind::WeightTooBig => "WeightTooBig",
            GrErrorKind::TooManyNodes => "TooManyNodes",
            GrErrorKind::TooManyArcs => "TooManyArcs",
            GrErrorKind::ArcCount => "ArcCount",
        }
    }
}

impl fmt::Display for GrErrorKind {
    ghost output = { λ kind. Some (kind_name kind) };

    fn fmt<W: fmt::Write>(&self, f: &mut fmt::Formatter<W>) -> fmt::Result {
        f.write_str(self.name())
    }
}

impl fmt::Display for GrError {
    ghost output = { λ e. Some (error_text e) };

    fn fmt<W: fmt::Write>(&self, f: &mut fmt::Formatter<W>) -> fmt::Result {
        let kind = self.kind;
        let line = self.line;
        write!(f, "{kind} line {line}")
    }
}

impl Error for GrErrorKind {}

impl Error for GrError {}
