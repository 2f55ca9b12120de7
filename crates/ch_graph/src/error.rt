ghost use Rattle.std.specs.Prelude.{◌≡◌};
ghost use Rattle.ch_graph.specs.declared.error.HierarchyError.TheVariants.{OutOfMemory};

use std::alloc::AllocError;

/// Why no graph was made.
#[derive(Clone, Copy, Debug, PartialEq, Eq)]
pub enum GraphError {
    /// There are more than 2^25 nodes.
    TooManyNodes,
    /// There are more than 2^27 arcs.
    TooManyArcs,
    /// The arc at this place is the first that has an end which is no node.
    BadArc(usize),
}

/// Why no hierarchy was made.
#[derive(Clone, Copy, Debug, PartialEq, Eq)]
pub enum HierarchyError {
    /// There are more than 2^25 nodes.
    TooManyNodes,
    /// The bound is above what a walk that repeats no node can cost, were each of its arcs as heavy as one can be; or it
    /// doesn't count as many arcs as its version wants: one fewer than there are nodes in version 2, and none in version 1.
    BadBound,
    /// The rank at this place is the first that isn't below the number of nodes, or that another node before it has.
    BadRank(usize),
    /// The link at this place is the first that doesn't come after the one before it: by the node that it leaves, and
    /// then by the one that it comes to.
    LinkOutOfOrder(usize),
    /// The link at this place is the first that isn't well made: an end of it is no node, or both are one node; its
    /// cost isn't within the bound; it counts no arc, or not exactly one where it has no middle (in version 1 it weighs
    /// nothing, or counts an arc); or it has a middle, and there aren't two links that meet there and cost
    /// together what it costs, or the middle doesn't rank below both ends.
    BadLink(usize),
    /// Out of memory: the ranks couldn't be tested. It says nothing of the hierarchy.
    OutOfMemory,
}

impl From<AllocError> for HierarchyError {
    ghost from_gives = { λ _ e. e ≡ OutOfMemory };

    fn from(_error: AllocError) -> HierarchyError {
        HierarchyError::OutOfMemory
    }
}
