use crate::kit::{Keys, ONE, arc, built_by, empty_lists, row, star, tie};
use crate::stations::Trail;
use ch_contract::Receipt;
use ch_cost::Cost;
use ch_estimate::Leases;
use ch_graph::{Graph, Hierarchy};
use ch_workers::{Built, OpenGate, Options, build};
use std::alloc::Global;
use std::sync::Wait;
use std::test::Fail;
use std::thread::Threads;

/// A link: its ends, its length, its arcs and its middle.
type Given = (u32, u32, u64, u64, Option<u32>);

/// Whether the links of a hierarchy are these.
fn are_links(hierarchy: &Hierarchy, expected: &[Given]) -> bool {
    let links = hierarchy.links();
    let mut holds = links.len() == expected.len();
    'links: for (link, (from, to, length, arcs, middle)) in links.iter().zip(expected) {
        holds &= (link.from == *from) & (link.to == *to) & (link.middle.node() == *middle);
        holds &= link.cost.cost() == Cost::of_walk(*length, *arcs);
    }
    holds
}

/// The receipt of a node.
fn receipt(node: u32, rank: u32) -> Receipt {
    Receipt { node, rank }
}

/// Whether the nodes have these ranks, and there are no others.
fn are_ranks(hierarchy: &Hierarchy, ranks: &[u32]) -> bool {
    let mut holds = hierarchy.nodes() as usize == ranks.len();
    'nodes: for node in 0..hierarchy.nodes() {
        holds &= ranks.get(node as usize) == Some(&hierarchy.rank(node));
    }
    holds
}

/// Whether one worker and the sweep received these receipts.
fn are_receipts(built: &Built, worker: &[Receipt], sweep: &[Receipt]) -> bool {
    match built.receipts.as_slice() {
        [first, second] => first.as_slice() == worker && second.as_slice() == sweep,
        _ => false,
    }
}

/// Whether this many workers make a hierarchy of the star that has these ranks and links, and the bound of four arcs.
fn makes_of_a_star<R: Threads + Wait + Sync>(
    rt: &R,
    alloc: Global,
    workers: u32,
    ranks: &[u32],
    links: &[Given],
) -> Result<bool, Fail> {
    let options = Options { workers, ..ONE };
    let built = built_by(
        rt,
        alloc,
        star(alloc)?,
        options,
        Keys::Differences,
        &OpenGate,
    )?;
    let hierarchy = &built.hierarchy;
    let is_bound = hierarchy.bound() == Cost::of_arcs(4, 1);
    Ok(are_ranks(hierarchy, ranks) & is_bound & are_links(hierarchy, links))
}

/// The links of the star by one worker, who contracts node 0 last.
const BY_ONE: &[Given] = &[
    (0, 3, 1, 1, None),
    (0, 4, 1, 1, None),
    (1, 0, 1, 1, None),
    (2, 0, 1, 1, None),
];

/// Those by the sweep, which contracts node 0 first.
const BY_NONE: &[Given] = &[
    (0, 3, 1, 1, None),
    (0, 4, 1, 1, None),
    (1, 0, 1, 1, None),
    (1, 3, 2, 2, Some(0)),
    (1, 4, 2, 2, Some(0)),
    (2, 0, 1, 1, None),
    (2, 3, 2, 2, Some(0)),
    (2, 4, 2, 2, Some(0)),
];

#[test]
fn a_star_by_one_worker_and_by_none(rt: HostRuntime) -> Result<(), Fail> {
    assert!(rt; makes_of_a_star(&rt, rt.alloc(), 1, &[4, 0, 1, 2, 3], BY_ONE)?);
    assert!(rt; makes_of_a_star(&rt, rt.alloc(), 0, &[0, 1, 2, 3, 4], BY_NONE)?);
    Ok(())
}

/// Whether one worker, who takes this many turns, leaves these receipts of the tie to the sweep, of four in order, and
/// passes points with these digits.
fn takes_turns<R: Threads + Wait + Sync>(
    rt: &R,
    alloc: Global,
    turns: u64,
    own: usize,
    digits: u64,
) -> Result<bool, Fail> {
    let order = [receipt(0, 0), receipt(1, 1), receipt(2, 2), receipt(3, 3)];
    let Some((worker, sweep)) = order.split_at_checked(own) else {
        return Ok(false);
    };
    let trail = Trail::new();
    let options = Options { turns, ..ONE };
    let built = built_by(rt, alloc, tie(alloc)?, options, Keys::Differences, &trail)?;
    Ok(are_receipts(&built, worker, sweep) & (trail.digits() == digits))
}

// After the first commit the keys of nodes 1, 2 and 3 have risen, and after the third that of node 3 has again.
#[test]
fn a_tie_by_one_worker_and_the_sweep(rt: HostRuntime) -> Result<(), Fail> {
    assert!(rt; takes_turns(&rt, rt.alloc(), 100, 4, 0o123_111_123_123_1_123_5)?);
    assert!(rt; takes_turns(&rt, rt.alloc(), 1, 1, 0o123_5)?);
    Ok(())
}

/// Builds a graph by one worker, who has no estimator.
fn built_without_estimators<R: Threads + Wait + Sync>(
    rt: &R,
    alloc: Global,
    graph: Graph,
    options: Options,
) -> Result<Built, Fail> {
    let mut leases = Leases::new(alloc)?;
    let lists = empty_lists(alloc, 1)?;
    let built = build(rt, alloc, graph, options, lists, &mut leases, &OpenGate)?;
    Ok(built)
}

/// Whether a worker without estimators contracts a graph by the numbers of its nodes, and makes these links.
fn is_by_number<R: Threads + Wait + Sync>(
    rt: &R,
    alloc: Global,
    graph: Graph,
    order: &[Receipt],
    links: &[Given],
) -> Result<bool, Fail> {
    let built = built_without_estimators(rt, alloc, graph, ONE)?;
    Ok(are_receipts(&built, order, &[]) & are_links(&built.hierarchy, links))
}

/// The links of the row of three nodes, and of the one arc.
const OF_THE_ROW: &[Given] = &[
    (0, 2, 3, 1, None),
    (1, 0, 2, 1, None),
    (1, 2, 5, 2, Some(0)),
];

const OF_THE_ARC: &[Given] = &[(0, 1, 7, 1, None)];

// With one heap the nodes are contracted by their numbers. Of one arc there is one link, so the length from node 0 to
// node 1 is 7, and there is no way back.
#[test]
fn a_worker_without_estimators(rt: HostRuntime) -> Result<(), Fail> {
    let three = [receipt(0, 0), receipt(1, 1), receipt(2, 2)];
    let two = [receipt(0, 0), receipt(1, 1)];
    assert!(rt; is_by_number(&rt, rt.alloc(), row(rt.alloc())?, &three, OF_THE_ROW)?);
    assert!(rt; is_by_number(&rt, rt.alloc(), arc(rt.alloc())?, &two, OF_THE_ARC)?);
    Ok(())
}
