ghost use Rattle.std.specs.Prelude.{◌≡◌, ◌<◌, length, replicate, IfOk, IfSome, OnOk};
ghost use Rattle.ch_cost.specs.Cost.{IsInLimit, IsWithin};
ghost use Rattle.ch_graph.specs.declared.mark.Mark.TheVariants.{Unseen};
ghost use Rattle.ch_graph.specs.Graph.{IsDistance};
ghost use Rattle.ch_graph.specs.Limits.{IsGraph, bound_of};
ghost use Rattle.ch_graph.specs.Marks.{mark};
ghost use Rattle.ch_graph.specs.Outgoing.{IsLinked};
ghost use Rattle.ch_graph.specs.Search.{IsLatest, IsOpenedFrom, IsFollowed, AreDistances};

use crate::frontier::{Frontier, Reached};
use crate::graph::Graph;
use crate::outgoing::Outgoing;
use ch_cost::Cost;
use std::alloc::{AllocError, Global};

/// Returns the least cost over all walks from `source` to `target`, or `None` where there is no walk.
///
/// Dijkstra's algorithm (1959): nodes are settled in the order of their costs, until the target is.
pub fn least_cost(
    alloc: Global,
    graph: &Graph,
    source: u32,
    target: u32,
) -> Result<Option<Cost>, AllocError>
    requires source_in { source < graph.now.nodes }
    ensures distance { IfOk result (IsDistance graph.now source target) }
    ensures bounded { IfOk result (λ found. IfSome found (λ c. IsWithin c (bound_of graph.now))) }
{
    let outgoing = Outgoing::new(alloc, graph)?;
    let mut frontier = Frontier::new(alloc, graph.nodes())?;
    settle_to(graph, &outgoing, source, target, &mut frontier)
}

/// Settles nodes in the order of their costs, and follows the arcs that leave them, until the target is settled or no
/// node is open any more. The cost of each settled node is its distance from the source; that of the target is given.
fn settle_to(
    graph: &Graph,
    outgoing: &Outgoing,
    source: u32,
    target: u32,
    frontier: &mut Frontier,
) -> Result<Option<Cost>, AllocError>
    requires graph { IsGraph graph.now }
    requires source_in { source < graph.now.nodes }
    requires links { IsLinked graph.now outgoing.now.last.items outgoing.now.before.items }
    requires unseen { frontier.old ≡ replicate graph.now.nodes Unseen }
    ensures distance { IfOk result (IsDistance graph.now source target) }
    ensures settled { OnOk result (AreDistances graph.now source (mark frontier.new)) }
    ensures bounded { IfOk result (λ found. IfSome found (λ c. IsWithin c (bound_of graph.now))) }
{
    frontier.offer(source, Cost::ZERO)?;
    'nodes: while let Some(reached) = frontier.settle_next() {
        if reached.node == target {
            return Ok(Some(reached.cost));
        }
        follow(graph, outgoing, reached, frontier)?;
    }
    Ok(None)
}

/// Follows each arc that leaves the node that was settled last: it offers the frontier the walks over that node.
fn follow(
    graph: &Graph,
    outgoing: &Outgoing,
    reached: Reached,
    frontier: &mut Frontier,
) -> Result<(), AllocError>
    requires node_in { reached.node < graph.now.nodes }
    requires links { IsLinked graph.now outgoing.now.last.items outgoing.now.before.items }
    requires marks { length frontier.old ≡ graph.now.nodes }
    requires latest { IsLatest frontier.old reached.cost reached.node }
    requires fits { IsInLimit reached.cost }
    ensures opened { OnOk result (IsOpenedFrom graph.now reached.node reached.cost frontier.old frontier.new) }
    ensures followed { OnOk result (IsFollowed graph.now reached.node reached.cost frontier.new) }
{
    let arcs = graph.arcs();
    let cost = reached.cost;
    let mut next = outgoing.last[reached.node as usize];
    'arcs: while let Some(at) = next {
        let arc = arcs[at as usize];
        frontier.offer(arc.to, cost.plus(Cost::of_weight(arc.weight)))?;
        next = outgoing.before[at as usize];
    }
    Ok(())
}
