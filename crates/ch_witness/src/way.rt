use ch_cost::Cost;
use ch_overlay::Seen;
use smallvec::SmallVec;

/// A way that a search found: the nodes that it comes by, its ends among them, and what its arcs cost together.
#[derive(Drop)]
pub struct Way {
    /// The nodes in order, from the start to the target. Short ways take no memory of their own.
    pub nodes: SmallVec<u32, 8>,
    /// The sum of the costs of its arcs.
    pub cost: Cost,
}

/// What a search found.
#[derive(Drop)]
pub struct Found {
    /// For each target, in their order, the best way that the search has reached, or `None`.
    pub ways: Vec<Option<Way>>,
    /// The rows of the nodes that the search expanded, in its order: those of each node of a way but the last are among
    /// them.
    pub seen: Vec<Seen>,
}
