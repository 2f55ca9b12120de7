use ch_cost::Cost;

/// What a side of a query knows of a node.
#[derive(Clone, Copy)]
pub struct Label {
    /// The least cost of a climb to the node that was found.
    pub cost: Cost,
    /// The rank of the node that the climb came from last, the foot of its last link. At the side's start its own.
    pub foot: u32,
}
