ghost use Rattle.std.specs.Prelude.{◌≡◌, Some};
ghost use Rattle.hierfile.specs.declared.error.HierError.TheVariants.{OutOfMemory, Read};
ghost use Rattle.hierfile.specs.Names.{error_name};

use counted_io::ReadFault;
use std::alloc::{AllocError, AllocFailed};
use std::error::Error;
use std::fmt;

/// Why a file wasn't read.
#[derive(Clone, Copy, Debug, PartialEq, Eq)]
pub enum HierError {
    /// Out of memory.
    OutOfMemory = 1,
    /// The reader failed.
    Read,
    /// One of the first bytes is that of no magic.
    BadMagic,
    /// The bytes end too early.
    Truncated,
    /// More than 2^25 nodes, or more links than there are pairs of different nodes.
    TooBig,
    /// The bound is above what a walk that repeats no node can cost.
    BoundTooBig,
    /// A rank that isn't below the number of nodes.
    RankRange,
    /// A rank that another node has already.
    RankTwice,
    /// A link from or to a node that isn't there, or from a node to itself.
    LinkEnds,
    /// A link that doesn't come after the one before it.
    LinkOrder,
    /// A link whose weight is above the bound, or in version 1 is 0, or whose arcs in version 2 are 0, above the bound's,
    /// or not 1 where it has no middle.
    LinkWeight,
    /// A middle that isn't a node.
    MiddleRange,
    /// A middle whose rank isn't below those of both ends.
    MiddleRank,
    /// A link with a middle, one of whose halves is no link.
    HalfMissing,
    /// A link whose halves don't sum to its weight, or in version 2 to its arcs.
    HalfSum,
    /// Bytes behind the last link.
    Trailing,
}

impl fmt::Display for HierError {
    ghost output = { λ error. Some (error_name error) };

    fn fmt<W: fmt::Write>(&self, f: &mut fmt::Formatter<W>) -> fmt::Result {
        f.write_str(match self {
            HierError::OutOfMemory => "OutOfMemory",
            HierError::Read => "Read",
            HierError::BadMagic => "BadMagic",
            HierError::Truncated => "Truncated",
            HierError::TooBig => "TooBig",
            HierError::BoundTooBig => "BoundTooBig",
            HierError::RankRange => "RankRange",
            HierError::RankTwice => "RankTwice",
            HierError::LinkEnds => "LinkEnds",
            HierError::LinkOrder => "LinkOrder",
            HierError::LinkWeight => "LinkWeight",
            HierError::MiddleRange => "MiddleRange",
            HierError::MiddleRank => "MiddleRank",
            HierError::HalfMissing => "HalfMissing",
            HierError::HalfSum => "HalfSum",
            HierError::Trailing => "Trailing",
        })
    }
}

impl Error for HierError {}

impl From<AllocError> for HierError {
    ghost from_gives = { λ _ e. e ≡ OutOfMemory };

    fn from(_error: AllocError) -> HierError {
        HierError::OutOfMemory
    }
}

impl<T: Drop> From<AllocFailed<T>> for HierError {
    ghost from_gives = { λ _ e. e ≡ OutOfMemory };

    fn from(_error: AllocFailed<T>) -> HierError {
        HierError::OutOfMemory
    }
}

impl From<ReadFault> for HierError {
    ghost from_gives = { λ _ e. e ≡ Read };

    fn from(_fault: ReadFault) -> HierError {
        HierError::Read
    }
}
