ghost use Rattle.ch_multiqueue.specs.Items.{IsBetter};

use crate::item::Item;

/// Which of the two heaps that a `pop` has drawn has the better top.
#[derive(Clone, Copy, Debug, PartialEq, Eq)]
pub enum Better {
    /// The heap that was drawn first.
    First,
    /// The heap that was drawn second.
    Second,
    /// None: both heaps were empty.
    Neither,
}

/// Returns the better of two tops, the first of two equal ones. A heap with no top is never better than one that has
/// one.
pub fn better_of(first: Option<Item>, second: Option<Item>) -> Better
    ensures { IsBetter first second result }
{
    match (first, second) {
        (Some(top), Some(other)) => {
            if other.is_before(top) {
                Better::Second
            } else {
                Better::First
            }
        }
        (Some(_), None) => Better::First,
        (None, Some(_)) => Better::Second,
        (None, None) => Better::Neither,
    }
}
