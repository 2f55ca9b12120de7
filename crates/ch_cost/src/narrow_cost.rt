ghost use Rattle.std.specs.Prelude.{◌≡◌, ◌<◌, ◌^◌};
ghost use Rattle.ch_cost.specs.Cost.{same, of_walk, of_weight, arcs_of};
ghost use Rattle.ch_cost.specs.Cost.Laws.{same-laws, same-partial};

use crate::cost::Cost;
use std::marker::Model;

/// A cost of fewer than 2^32 arcs, in 12 bytes that may lie at any multiple of 4.
///
/// For lists that are long: a [`Cost`] takes 16. No call takes memory or fails.
#[derive(Clone, Copy, Debug)]
pub struct NarrowCost {
    // The length's lower and upper half.
    low: u32,
    high: u32,
    // How many arcs.
    few: u32,
}

impl Model for NarrowCost {
    ghost use Rattle.ch_cost.specs.declared.cost.Cost.{Cost};

    ghost Value = { Cost };

    ghost use Rattle.ch_cost.specs.NarrowCost.{cost_in, inside_of, halves, IsInside};

    ghost view = { cost_in };

    ghost invariant = { IsInside };

    ghost inverse = { halves };

    ghost inverse_ok = { inside_of };
}

impl NarrowCost {
    /// Returns the narrow form of a cost of fewer than 2^32 arcs.
    pub fn of(cost: Cost) -> NarrowCost
        requires few { arcs_of cost < 2 ^ 32 }
        ensures { result ≡ cost }
    {
        let length = cost.length();
        NarrowCost {
            low: (length % (1 << 32)) as u32,
            high: (length >> 32) as u32,
            few: cost.arcs() as u32,
        }
    }

    /// Returns the cost of a walk of this length and of this many arcs, as they are written in a file.
    pub fn of_walk(length: u64, arcs: u32) -> NarrowCost
        ensures { result ≡ of_walk length arcs }
    {
        NarrowCost::of(Cost::of_walk(length, u64::from(arcs)))
    }

    /// Returns the cost of one arc of this weight.
    pub fn of_weight(weight: u32) -> NarrowCost
        ensures { result ≡ of_weight weight }
    {
        NarrowCost::of(Cost::of_weight(weight))
    }

    /// Returns the cost.
    pub fn cost(self) -> Cost
        ensures { result ≡ self }
    {
        let length = (u64::from(self.high) << 32) | u64::from(self.low);
        Cost::of_walk(length, u64::from(self.few))
    }
}

impl PartialEq for NarrowCost {
    ghost eq = { same };

    ghost laws = { same-partial };

    fn eq(&self, other: &NarrowCost) -> bool {
        self.cost() == other.cost()
    }
}

impl Eq for NarrowCost {
    ghost laws = { same-laws };
}
