/// Counts of a proposal, by which estimators (`ch_estimate`) choose the order of contraction.
#[derive(Clone, Copy, Debug, PartialEq, Eq)]
pub struct Facts {
    /// The node that would be contracted, numbered from 0.
    pub node: u32,
    /// How many arcs lead into it, from nodes that aren't contracted.
    pub ins: u32,
    /// How many arcs lead out of it, to nodes that aren't contracted.
    pub outs: u32,
    /// How many shortcuts its contraction would put in.
    pub shortcuts: u64,
}
