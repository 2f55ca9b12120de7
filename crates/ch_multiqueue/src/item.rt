ghost use Rattle.std.specs.Prelude.{◌↔◌, IsTrue};
ghost use Rattle.ch_multiqueue.specs.Items.{IsBefore};

/// What waits in a queue: a key, and the node that it is of.
///
/// Items are ordered by the key, and those of equal keys by the node.
#[derive(Clone, Copy, Debug, PartialEq, Eq, PartialOrd, Ord)]
pub struct Item {
    /// How soon the item is to come out: a smaller key comes sooner.
    pub key: u64,
    /// The number of the node.
    pub node: u32,
}

impl Item {
    /// Whether this item comes before the other.
    pub fn is_before(self, other: Item) -> bool
        ensures { IsTrue result ↔ IsBefore self other }
    {
        self < other
    }
}
