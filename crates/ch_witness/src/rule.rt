use ch_cost::Cost;

/// What the ways of a search have in common.
#[derive(Clone, Copy, Debug)]
pub struct Rule {
    /// Where it starts.
    pub from: u32,
    /// The node that it never enters.
    pub avoid: u32,
    /// What no way costs more than.
    pub cutoff: Cost,
}
