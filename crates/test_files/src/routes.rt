use crate::checked::{ROW, hierarchy_of, is_route, is_too_long, route};
use ch_graph::Hierarchy;
use ch_unpack::{UnpackError, unpack};
use std::alloc::Global;
use std::test::Fail;

/// Two nodes with a link each way.
fn two_nodes(alloc: Global) -> Result<Hierarchy, Fail> {
    let links = [(0, 1, (7, 1), None), (1, 0, (7, 1), None)];
    hierarchy_of(alloc, &[0, 1], &links, (7, 1))
}

/// Three nodes and a link from 1 to 2 by way of 0; with an index, the places of its halves are kept.
fn three_nodes(alloc: Global, is_indexed: bool) -> Result<Hierarchy, Fail> {
    let hierarchy = hierarchy_of(alloc, &[0, 1, 2], ROW, (6, 2))?;
    if is_indexed {
        return Ok(hierarchy.into_indexed(alloc)?);
    }
    Ok(hierarchy)
}

/// The nodes of the route along the link from one node to another and the link that goes on from there, or `None` where
/// one isn't there.
fn route_over(
    alloc: Global,
    hierarchy: &Hierarchy,
    (from, over, to): (u32, u32, u32),
) -> Option<Result<Vec<u32>, UnpackError>> {
    if from >= hierarchy.nodes() {
        return None;
    }
    let there = hierarchy.find(from, over)?;
    let on = hierarchy.find(over, to)?;
    Some(unpack(alloc, hierarchy, from, &[there, on]))
}

/// Whether the routes of no link and of one are unpacked, and the route there and back is too long.
fn unpacks_one_way(alloc: Global, hierarchy: &Hierarchy) -> bool {
    if hierarchy.nodes() <= 1 {
        return false;
    }
    is_route(Some(unpack(alloc, hierarchy, 1, &[])), &[1])
        & is_route(route(alloc, hierarchy, 0, 1), &[0, 1])
        & is_too_long(route_over(alloc, hierarchy, (0, 1, 0)))
}

#[test]
fn there_and_back(rt: HostRuntime) -> Result<(), Fail> {
    let hierarchy = two_nodes(rt.alloc())?;
    assert!(rt; unpacks_one_way(rt.alloc(), &hierarchy));
    Ok(())
}

#[test]
fn by_way_of_a_middle(rt: HostRuntime) -> Result<(), Fail> {
    'hierarchies: for is_indexed in [false, true] {
        let hierarchy = three_nodes(rt.alloc(), is_indexed)?;
        assert!(rt; is_route(route(rt.alloc(), &hierarchy, 1, 2), &[1, 0, 2]));
    }
    Ok(())
}
