ghost use Rattle.std.specs.Prelude.{◌≡◌, ◌↔◌, ℕ, List, [], ◌∷◌, ◌++◌, IsTrue, IfSome, IfNone};
ghost use Rattle.ch_cost.specs.declared.cost.Cost.{Cost};
ghost use Rattle.ch_cost.specs.Cost.{◌⊕◌, IsWithin};
ghost use Rattle.ch_graph.specs.declared.road.Road.{Road};
ghost use Rattle.ch_graph.specs.Walk.{IsLeastOrNone};
ghost use Rattle.ch_graph.specs.Graph.{ArcOf};
ghost use Rattle.ch_graph.specs.LeastArcs.{IsLeastArc, LeastArcsCost};

use crate::graph::Graph;
use crate::road::Road;
use ch_cost::Cost;

/// Whether the least arcs from each of these nodes to the next have this cost together. Looks at each arc once for
/// each step.
pub fn least_arcs_cost(graph: &Graph, first: u32, rest: &[u32], cost: Cost) -> bool
    ensures { IsTrue result ↔ LeastArcsCost graph.now (first ∷ rest.now) cost }
{
    let mut at = first;
    let mut spent = Cost::ZERO;
    for node in rest {
        let Some(sum) = step(graph, at, *node, spent, cost) else {
            return false;
        };
        spent = sum;
        at = *node;
    }
    spent == cost
}

/// What was spent and the least arc from one node to another cost together, or `None` where there is no arc or the
/// sum isn't within the limit.
fn step(graph: &Graph, from: u32, to: u32, spent: Cost, limit: Cost) -> Option<Cost>
    ensures sum { IfSome result (λ sum. (arc : Cost) × IsLeastArc graph.now from to arc × (sum ≡ spent ⊕ arc)) }
    ensures none { IfNone result ((arc : Cost) → IsLeastArc graph.now from to arc → IsWithin (spent ⊕ arc) limit → ⊥) }
{
    let arc = least_arc(graph, from, to)?;
    spent.plus_within(arc, limit)
}

/// Returns the cost of the least arc from one node to another, or `None` where there is no arc.
fn least_arc(graph: &Graph, from: u32, to: u32) -> Option<Cost>
    ensures { IsLeastOrNone (ArcOf graph.now from to) result }
{
    let mut least = None;
    for arc in graph.arcs() {
        least = with_arc(least, *arc, from, to);
    }
    least
}

/// The least cost once an arc is counted too, where it goes from the one node to the other.
fn with_arc(least: Option<Cost>, arc: Road, from: u32, to: u32) -> Option<Cost>
    ensures { (nodes : ℕ) (arcs : List Road) → IsLeastOrNone (ArcOf (record { nodes = nodes; arcs = arcs }) from to) least → IsLeastOrNone (ArcOf (record { nodes = nodes; arcs = arcs ++ arc ∷ [] }) from to) result }
{
    if arc.from != from || arc.to != to {
        return least;
    }
    let cost = Cost::of_weight(arc.weight);
    match least {
        Some(known) if known.is_at_most(cost) => Some(known),
        _ => Some(cost),
    }
}
