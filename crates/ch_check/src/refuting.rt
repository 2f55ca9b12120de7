ghost use Rattle.std.specs.Prelude.{◌≡◌, ◌≢◌, IfOk, IsTrue, length};
ghost use Rattle.ch_graph.specs.Hierarchy.{IsRight};
ghost use Rattle.ch_check.specs.Refuting.{AreApart};

use ch_cost::Cost;
use ch_graph::{Graph, Hierarchy, value_is_unique};
use ch_query::Search;
use std::alloc::{AllocError, Global};

/// Whether two nodes show that a hierarchy isn't right for a graph: it has another number of nodes, or the distance from
/// the first node to the second is another one in the hierarchy than in the graph.
///
/// If the result is true, the hierarchy isn't right. False says nothing, also if a node is out of range. Takes the memory
/// and time of a [`Search`] of the hierarchy and of [`Graph::least`].
pub fn is_refuted_by(
    alloc: Global,
    graph: &Graph,
    hierarchy: &Hierarchy,
    from: u32,
    to: u32,
) -> Result<bool, AllocError>
    ensures wrong { IfOk result (λ refuted. IsTrue refuted → IsRight graph.now hierarchy.now → ⊥) }
    ensures apart { IfOk result (λ refuted. IsTrue refuted → length hierarchy.now.ranks ≡ graph.now.nodes → AreApart graph.now hierarchy.now from to) }
{
    value_is_unique();
    let nodes = graph.nodes();
    if hierarchy.nodes() != nodes {
        return Ok(true);
    }
    if from >= nodes {
        return Ok(false);
    }
    if to >= nodes {
        return Ok(false);
    }
    let mut search = Search::new(alloc, hierarchy)?;
    let value = search.cost(from, to)?;
    let distance = graph.least(from, to)?;
    Ok(are_apart(value, distance))
}

/// Whether two costs differ, or there is one of them alone.
fn are_apart(a: Option<Cost>, b: Option<Cost>) -> bool
    ensures { IsTrue result → a ≢ b }
{
    a != b
}
