ghost use Rattle.std.specs.Prelude.{◌≡◌, ◌↔◌, IsTrue, false};
ghost use Rattle.ch_cost.specs.Cost.{◌≺◌};

use crate::parent::Parent;
use ch_cost::Cost;

/// What a search knows of a node that it has come to. It takes 24 bytes.
#[derive(Clone, Copy)]
pub struct Label {
    /// What the best way to it costs, so far.
    pub cost: Cost,
    /// The step that the way goes on from.
    pub before: Parent,
    /// Whether the way is final.
    pub settled: bool,
}

impl Label {
    /// Whether a way of this cost to the node is better than what the label knows.
    pub fn is_improved_by(self, cost: Cost) -> bool
        ensures { IsTrue result ↔ ((self.settled ≡ false) × (cost ≺ self.cost)) }
    {
        if self.settled {
            return false;
        }
        cost.is_below(self.cost)
    }
}
