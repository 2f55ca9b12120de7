ghost use Rattle.std.specs.Prelude.{◌≡◌, ◌↔◌, IsTrue};
ghost use Rattle.ch_graph.specs.Marks.{label_in, Improves};
ghost use Rattle.ch_graph.specs.Search.{own_cost};

use ch_cost::Cost;
use std::alloc::AllocError;

/// What a search knows of a node. Its label holds what the best walk to it that was found costs, and maybe more.
pub enum Mark<L> {
    /// No walk to it was found yet.
    Unseen,
    /// It has a label, and a better one may still be found.
    Open(L),
    /// Its label stays, and what leaves the node was followed.
    Settled(L),
}

// Copied whole: a derived one would look at each mark's case.
impl<L: Copy> Clone for Mark<L> {
    ghost is_clone = { λ m copy. copy ≡ m };

    ghost is_infallible = { λ _. Unit {0} };

    fn clone(&self) -> Result<Self, AllocError> {
        Ok(*self)
    }
}

impl<L: Copy> Copy for Mark<L> {}

impl<L: Copy> Mark<L> {
    /// Returns the label, if there is one.
    pub fn label(self) -> Option<L>
        ensures { result ≡ label_in self }
    {
        match self {
            Mark::Unseen => None,
            Mark::Open(label) => Some(label),
            Mark::Settled(label) => Some(label),
        }
    }
}

impl Mark<Cost> {
    /// Whether a walk of this cost to the node is better than what the mark knows, where the label is the cost.
    pub(crate) fn is_improved_by(self, cost: Cost) -> bool
        ensures { IsTrue result ↔ Improves own_cost cost self }
    {
        match self {
            Mark::Unseen => true,
            Mark::Open(known) => cost.is_below(known),
            Mark::Settled(_) => false,
        }
    }
}
