use crate::middle::Middle;
use ch_cost::NarrowCost;

/// A link of a hierarchy: an arc of the graph, or a shortcut that represents two links by way of its middle. It takes 24
/// bytes.
#[derive(Clone, Copy, Debug, PartialEq, Eq)]
pub struct Link {
    /// The node that it leaves, numbered from 0.
    pub from: u32,
    /// The node that it comes to, numbered from 0.
    pub to: u32,
    /// What the arcs that it represents cost together.
    pub cost: NarrowCost,
    /// The node where its two halves meet, or none for an arc of the graph.
    pub middle: Middle,
}
