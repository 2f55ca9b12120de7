use ch_laws::Shortcut;

/// What is due for a pair of nodes by way of a node that is contracted.
#[derive(Drop)]
pub enum Share {
    /// Nothing: it joins a node with itself, is heavy, or has one arc or two around the node that cost as little.
    Spared,
    /// A shortcut, since the hierarchy has one, or a lighter link.
    Put(Shortcut),
    /// A way around the node that costs as little.
    Owed(Shortcut),
}
