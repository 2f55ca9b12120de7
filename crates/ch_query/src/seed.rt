use ch_cost::Cost;

/// Where a query may begin or end: a node, and a cost that is added to that of the walk.
///
/// A place inside an arc is a start at the arc's head, with the cost of the arc's part behind the place, or an end at its
/// tail, with that of the part before it. A cost of 0 arcs and length 0 ([`Cost::ZERO`]) is the node itself.
#[derive(Clone, Copy, Debug)]
pub struct Seed {
    /// The node, from 0.
    pub node: u32,
    /// What it costs to begin or to end there: a length of at most 2^57, and at most 2^25 arcs.
    pub cost: Cost,
}
