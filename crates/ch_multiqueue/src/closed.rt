ghost use Rattle.std.specs.Prelude.{◌≡◌};

use crate::item::Item;
use std::marker::Model;

/// A queue that was closed: what it was, and what was left in it, in order.
///
/// [`MultiQueue::end`](crate::MultiQueue::end) alone makes one.
/// So who has it knows that the queue was closed.
#[derive(Drop)]
pub struct Closed {
    pub(crate) heaps: usize,
    pub(crate) passes: u32,
    pub(crate) seed: u64,
    pub(crate) left: Vec<Item>,
}

impl Model for Closed {
    ghost use Rattle.ch_multiqueue.specs.Closing as closing;

    ghost Value = { closing.Closed };

    ghost view = { λ c. record { queue = record { heaps = c.heaps; passes = c.passes; seed = c.seed }; left = c.left.items } };
}

impl Closed {
    /// Returns what was left in the queue, in order.
    pub fn into_left(self) -> Vec<Item>
        ensures { result.items ≡ self.left }
    {
        self.left
    }
}
