ghost use Rattle.std.specs.Prelude.{◌≡◌, ◌≢◌};
ghost use Rattle.ch_check.specs.Refuting.{pair_of};
ghost use Rattle.ch_check.specs.declared.error.CheckError.TheVariants.{Bound, Nodes, Version};

use crate::fault::Fault;
use std::error::Error;
use std::fmt;

/// Why a hierarchy wasn't shown to be right for a graph.
#[derive(Clone, Copy, Debug, PartialEq, Eq)]
pub enum CheckError {
    /// Out of memory. Nothing is known of the hierarchy.
    OutOfMemory,
    /// The hierarchy has another number of nodes than the graph. It isn't right.
    Nodes,
    /// The hierarchy is of version 1, whose costs count no arcs. It can't be checked, and has to be prepared again.
    Version,
    /// The bound of the hierarchy isn't that of the graph.
    Bound,
    /// The searches for ways around nodes have settled more nodes than a check may. Nothing is known of the hierarchy.
    Work,
    /// When `via` was contracted, the hierarchy had no link from `from` to `to` that costs as little as the two arcs by way
    /// of `via`, and no way around `via` was found that does.
    Way {
        /// The node that was contracted.
        via: u32,
        /// Where the pair begins.
        from: u32,
        /// Where it ends.
        to: u32,
    },
    /// The hierarchy has no link between these nodes where the contractions led to an arc, or has one that differs from it,
    /// or that they didn't lead to.
    Link {
        /// The node that it leaves.
        from: u32,
        /// The node that it comes to.
        to: u32,
    },
}

impl CheckError {
    /// Returns the two nodes at which the check ended, if it ended at such. Their distance may show that the hierarchy is
    /// wrong: [`is_refuted_by`](crate::is_refuted_by) compares it.
    pub fn pair(self) -> Option<(u32, u32)>
        ensures { result ≡ pair_of self }
    {
        match self {
            CheckError::Way { from, to, .. } | CheckError::Link { from, to } => Some((from, to)),
            _ => None,
        }
    }
}

impl fmt::Display for CheckError {
    fn fmt<W: fmt::Write>(&self, f: &mut fmt::Formatter<W>) -> fmt::Result {
        match self {
            CheckError::OutOfMemory => f.write_str("out of memory"),
            CheckError::Nodes => f.write_str("nodes"),
            CheckError::Version => f.write_str("version"),
            CheckError::Bound => f.write_str("bound"),
            CheckError::Work => f.write_str("work"),
            CheckError::Way { via, from, to } => write!(f, "way {from} {to} by {via}"),
            CheckError::Link { from, to } => write!(f, "link {from} {to}"),
        }
    }
}

impl Error for CheckError {}

impl From<Fault> for CheckError {
    ghost from_gives = { λ _ e. (e ≢ Nodes) × (e ≢ Version) × (e ≢ Bound) };

    fn from(fault: Fault) -> CheckError {
        match fault {
            Fault::OutOfMemory => CheckError::OutOfMemory,
            Fault::Work => CheckError::Work,
            Fault::Way { via, from, to } => CheckError::Way { via, from, to },
            Fault::Link { from, to } => CheckError::Link { from, to },
        }
    }
}
