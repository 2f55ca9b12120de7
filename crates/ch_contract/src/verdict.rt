/// What a proposal finds of a pair of neighbours, an arc from the first to the node and one from there to the second.
#[derive(Clone, Copy, Debug, PartialEq, Eq)]
pub enum Verdict {
    /// The two arcs cost more than the graph's bound together, so no least walk uses both. Other pairs are light.
    Heavy,
    /// Another way, without the node, costs at most as much.
    Witness,
    /// No such way was found: the pair gets a shortcut.
    Shortcut,
}
