//! What the plain search and the test of a hierarchy return where one growth is refused: `tests/program/refusals` runs each
//! test here once for each of its growths.
ghost use Rattle.std.specs.Prelude.{◌≡◌, IfOk};

use ch_cost::{Cost, NarrowCost};
use ch_graph::{Graph, Hierarchy, HierarchyError, Link, LinkId, Middle, Road};
use std::alloc::{AllocError, Global};
use std::test::Fail;

/// The graph of three nodes with arcs from 1 to 0 and from 0 to 2.
fn row(alloc: Global) -> Result<Graph, Fail>
    ensures { IfOk result (λ g. g.nodes ≡ 3) }
{
    let (first, second) = ((1, 0, 2), (0, 2, 3));
    let road = |(from, to, weight)| Road { from, to, weight };
    let graph = Graph::checked(3, vec![in alloc; road(first), road(second)]?)?;
    Ok(graph)
}

/// A search that runs out of memory is made again, and has to return the same as with ample memory.
#[test]
fn least(rt: HostRuntime) -> Result<(), Fail> {
    let graph = row(rt.alloc())?;
    let there = match graph.least(1, 2) {
        Ok(found) => found,
        Err(AllocError) => graph.least(1, 2)?,
    };
    let back = match graph.least(2, 1) {
        Ok(found) => found,
        Err(AllocError) => graph.least(2, 1)?,
    };
    assert!(rt; there == Some(Cost::of_walk(5, 2)) && back.is_none());
    Ok(())
}

/// The hierarchy of two nodes and a link from the first to the second.
fn two_nodes(alloc: Global) -> Result<Result<Hierarchy, HierarchyError>, AllocError> {
    let link = Link {
        from: 0,
        to: 1,
        cost: NarrowCost::of_weight(7),
        middle: Middle::NONE,
    };
    let ranks = vec![in alloc; 0u32, 1]?;
    let links = vec![in alloc; link]?;
    Ok(Hierarchy::checked(alloc, ranks, links, Cost::of_weight(7)))
}

/// That hierarchy, which is made again where memory runs out.
fn plain(alloc: Global) -> Result<Result<Hierarchy, HierarchyError>, AllocError> {
    match two_nodes(alloc)? {
        Err(HierarchyError::OutOfMemory) => two_nodes(alloc),
        answer => Ok(answer),
    }
}

/// The same with an index. One that runs out of memory is made again.
fn indexed(alloc: Global) -> Result<Hierarchy, Fail> {
    match plain(alloc)??.into_indexed(alloc) {
        Ok(indexed) => Ok(indexed),
        Err(AllocError) => Ok(two_nodes(alloc)??.into_indexed(alloc)?),
    }
}

/// Whether a hierarchy is of two nodes, and finds the link between them.
fn is_whole(hierarchy: &Hierarchy) -> bool {
    (hierarchy.nodes() == 2) & (hierarchy.find(0, 1) == Some(LinkId(0)))
}

/// A hierarchy that runs out of memory is made again, and has to be as with ample memory.
#[test]
fn checked(rt: HostRuntime) -> Result<(), Fail> {
    let hierarchy = indexed(rt.alloc())?;
    assert!(rt; is_whole(&hierarchy));
    Ok(())
}
