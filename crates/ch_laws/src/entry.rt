use ch_cost::NarrowCost;
use ch_graph::Middle;

/// An entry of a row: an arc between the row's node and another. It takes 20 bytes.
#[derive(Clone, Copy, Debug, PartialEq, Eq)]
pub struct Entry {
    /// The other node, numbered from 0.
    pub other: u32,
    /// The node where its two halves meet, or none for an arc of the graph.
    pub middle: Middle,
    /// What the arc costs.
    pub cost: NarrowCost,
}
