//! Pairs of an arc into a node and one out of it, with what they cost together.
ghost use Rattle.std.specs.Prelude.{◌≡◌, Contains, OnOk, SomeIff, map};
ghost use Rattle.ch_cost.specs.Cost.{◌⊕◌, ◌≼◌, IsWithin};
ghost use Rattle.ch_cost.specs.declared.cost.Cost.{Cost};
ghost use Rattle.ch_laws.specs.declared.shortcut.Shortcut.{Shortcut};
ghost use Rattle.ch_overlay.specs.Pairs.{IsPairOf};
ghost use Rattle.ch_overlay.specs.Source.{IsBound};

use ch_cost::{Cost, NarrowCost};
use ch_laws::{Entry, Shortcut};
use std::alloc::AllocError;

/// The pair of an arc into a node and one out of it: the shortcut that they make. `None` where their costs together are
/// heavy, or they join a node with itself.
pub fn light_pair(bound: Cost, into: &Entry, out: &Entry) -> Option<Shortcut>
    requires limit { IsBound bound }
    ensures { IsPairOf bound into.now out.now result }
{
    if into.other == out.other {
        return None;
    }
    let Some(cost) = light_cost(bound, into, out) else {
        return None;
    };
    Some(Shortcut {
        from: into.other,
        to: out.other,
        cost: NarrowCost::of(cost),
    })
}

/// What two arcs cost together, unless that is heavy.
fn light_cost(bound: Cost, into: &Entry, out: &Entry) -> Option<Cost>
    ensures { SomeIff result (IsWithin (into.now.cost ⊕ out.now.cost) bound) (into.now.cost ⊕ out.now.cost) }
{
    into.cost.cost().plus_within(out.cost.cost(), bound)
}

/// Finds the nodes to which the pairs lead, in their order. They take the place of what the list had; where memory runs
/// out, it has some of them.
pub fn find_ends(pairs: &[Shortcut], ends: &mut Vec<u32>) -> Result<(), AllocError>
    ensures { OnOk result (ends.new.items ≡ map (λ p. p.to) pairs.now) }
{
    ends.clear();
    'pairs: for pair in pairs {
        ends.push(pair.to)?;
    }
    Ok(())
}

/// What the most costly pair costs, or [`Cost::ZERO`] where there is none.
pub fn greatest_cost(pairs: &[Shortcut]) -> Cost
    ensures most { (p : Shortcut) → Contains pairs.now p → p.cost ≼ result }
    ensures within { (bound : Cost) → ((p : Shortcut) → Contains pairs.now p → IsWithin p.cost bound) → IsWithin result bound }
{
    let mut most = Cost::ZERO;
    'pairs: for pair in pairs {
        most = greater(most, pair.cost.cost());
    }
    most
}

/// The greater of two costs.
fn greater(a: Cost, b: Cost) -> Cost
    ensures first { a ≼ result }
    ensures second { b ≼ result }
    ensures within { (bound : Cost) → IsWithin a bound → IsWithin b bound → IsWithin result bound }
{
    if a.is_at_most(b) { b } else { a }
}
