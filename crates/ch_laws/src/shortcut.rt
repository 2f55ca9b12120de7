use ch_cost::NarrowCost;

/// An arc that a contraction puts in, between an in-neighbour and an out-neighbour of the contracted node.
#[derive(Clone, Copy, Debug, PartialEq, Eq)]
pub struct Shortcut {
    /// The node that it leaves, numbered from 0.
    pub from: u32,
    /// The node that it comes to, numbered from 0.
    pub to: u32,
    /// What its two halves cost together.
    pub cost: NarrowCost,
}
