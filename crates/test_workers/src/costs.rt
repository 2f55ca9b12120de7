ghost use Rattle.std.specs.Prelude.{◌<◌};

use ch_cost::Cost;
use ch_graph::{Graph, Hierarchy, Link};
use std::alloc::{AllocError, Global};

/// Whether the least rise-fall walks of a hierarchy cost what the least walks of a graph do, for all pairs of nodes: they
/// are as long, and have as few arcs.
pub(crate) fn are_least(
    alloc: Global,
    graph: &Graph,
    hierarchy: &Hierarchy,
) -> Result<bool, AllocError> {
    if hierarchy.nodes() != graph.nodes() {
        return Ok(false);
    }
    'sources: for source in 0..graph.nodes() {
        let costs = costs_from(alloc, hierarchy, source)?;
        if !are_costs(graph, source, costs.as_slice())? {
            return Ok(false);
        }
    }
    Ok(true)
}

/// Whether these are the costs of the least walks from a node, to each node in turn.
fn are_costs(graph: &Graph, source: u32, costs: &[Option<Cost>]) -> Result<bool, AllocError>
    requires { source < graph.now.nodes }
{
    'targets: for target in 0..graph.nodes() {
        let least = graph.least(source, target)?;
        if costs.get(target as usize) != Some(&least) {
            return Ok(false);
        }
    }
    Ok(true)
}

/// The costs of the least rise-fall walks from a node, to each node in turn: all links that rise are looked at from
/// low ranks to high ones, and then all that fall from high ranks to low ones.
fn costs_from(
    alloc: Global,
    hierarchy: &Hierarchy,
    source: u32,
) -> Result<Vec<Option<Cost>>, AllocError> {
    let nodes = hierarchy.nodes();
    let mut costs = vec![in alloc; None; nodes as usize]?;
    if let Some(cost) = costs.get_mut(source as usize) {
        *cost = Some(Cost::ZERO);
    }
    'rising: for rank in 0..nodes {
        look_from(hierarchy, costs.as_mut_slice(), rank, true);
    }
    'falling: for below in 0..nodes {
        look_from(hierarchy, costs.as_mut_slice(), nodes - 1 - below, false);
    }
    Ok(costs)
}

/// Takes the links that leave the node of a rank, those that rise or those that fall.
fn look_from(hierarchy: &Hierarchy, costs: &mut [Option<Cost>], rank: u32, rises: bool) {
    'links: for link in hierarchy.links() {
        let tail = rank_of(hierarchy, link.from);
        let head = rank_of(hierarchy, link.to);
        if tail == Some(rank) && (head > tail) == rises {
            take(costs, *link);
        }
    }
}

/// The rank of a node, where there is such a node.
fn rank_of(hierarchy: &Hierarchy, node: u32) -> Option<u32> {
    if node >= hierarchy.nodes() {
        return None;
    }
    Some(hierarchy.rank(node))
}

/// Lowers the cost at the head of a link to the one by way of its tail.
fn take(costs: &mut [Option<Cost>], link: Link) {
    let Some(Some(before)) = costs.get(link.from as usize).copied() else {
        return;
    };
    let by_link = before
        .checked_plus(link.cost.cost())
        .unwrap_or(Cost::GREATEST);
    if let Some(cost) = costs.get_mut(link.to as usize) {
        *cost = Some(cost.map_or(by_link, |known| known.min(by_link)));
    }
}
