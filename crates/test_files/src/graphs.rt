ghost use Rattle.std.specs.Prelude.{◌≡◌, IfOk};

use crate::costs::{Numbers, cost_of};
use ch_cost::Cost;
use ch_graph::{Graph, GraphError, Road};
use std::alloc::{AllocError, Global};
use std::test::Fail;

/// The greatest weight.
const HEAVY: u32 = 4294967295;

/// An arc: its two nodes, and its weight.
pub type Arc = (u32, u32, u32);

/// An arc, and then another.
const ROW: &[Arc] = &[(1, 0, 2), (0, 2, 3)];

/// A loop, and three arcs beside each other.
const PARALLEL: &[Arc] = &[(0, 0, 12), (0, 1, 9), (0, 1, 4), (0, 1, 6)];

/// A heavy arc, and ways around it.
const AROUND: &[Arc] = &[
    (0, 3, 10),
    (0, 1, 4),
    (1, 3, 5),
    (0, 2, 1),
    (2, 1, 1),
    (3, 0, 1),
];

/// Walks of length 5 from 0 to 3: the arc by itself, and longer ones over arcs of weight 0.
const TIED: &[Arc] = &[(0, 1, 0), (1, 2, 0), (2, 3, 5), (0, 3, 5), (0, 2, 0)];

/// The arcs of the graph that is drawn at [`Graph::least`].
pub const DRAWN: &[Arc] = &[
    (0, 1, 2),
    (1, 2, 3),
    (1, 4, 1),
    (2, 1, 3),
    (2, 3, 5),
    (3, 2, 5),
    (3, 4, 1),
    (4, 1, 1),
    (4, 3, 1),
];

/// Arcs of the greatest weight.
const HEAVIEST: &[Arc] = &[(2, 0, HEAVY), (0, 1, HEAVY), (1, 0, HEAVY), (0, 3, HEAVY)];

/// Arcs, each given by its ends and its weight.
fn roads_of(alloc: Global, arcs: &[Arc]) -> Result<Vec<Road>, AllocError> {
    let mut roads = Vec::new(alloc);
    for (from, to, weight) in arcs {
        roads.push(Road {
            from: *from,
            to: *to,
            weight: *weight,
        })?;
    }
    Ok(roads)
}

/// The graph of these arcs.
pub fn graph_of(alloc: Global, nodes: u32, arcs: &[Arc]) -> Result<Graph, Fail>
    ensures { IfOk result (λ g. g.nodes ≡ nodes) }
{
    let graph = Graph::checked(nodes, roads_of(alloc, arcs)?)?;
    Ok(graph)
}

/// Two nodes, and the least cost between them, if there is a walk.
type Least = (u32, u32, Option<Numbers>);

/// The least costs that are given at the drawing.
const DRAWN_COSTS: &[Least] = &[
    (0, 3, Some((4, 3))),
    (2, 3, Some((5, 1))),
    (3, 0, None),
    (3, 3, Some((0, 0))),
];

/// Whether this is the least cost between two nodes.
fn is_least(graph: &Graph, (source, target, cost): Least) -> Result<bool, AllocError> {
    if source >= graph.nodes() || target >= graph.nodes() {
        return Ok(false);
    }
    let least = graph.least(source, target)?;
    Ok(least == cost.map(cost_of))
}

/// Whether a graph has this bound and these least costs.
fn answers(graph: &Graph, bound: Numbers, costs: &[Least]) -> Result<bool, Fail> {
    let mut holds = graph.bound() == cost_of(bound);
    for cost in costs {
        holds &= is_least(graph, *cost)?;
    }
    Ok(holds)
}

/// Nodes, arcs, a bound and least costs.
type Case = (u32, &'static [Arc], Numbers, &'static [Least]);

/// Whether the graph of a case has its bound and its least costs.
fn holds_so(alloc: Global, (nodes, arcs, bound, costs): Case) -> Result<bool, Fail> {
    let graph = graph_of(alloc, nodes, arcs)?;
    answers(&graph, bound, costs)
}

/// What arcs of these weights cost together, at most as much as four arcs of the greatest weight.
fn sum_of(weights: &[u32]) -> Option<Cost> {
    let limit = Cost::of_arcs(4, HEAVY);
    let mut cost = Cost::ZERO;
    for weight in weights {
        cost = cost.plus_within(Cost::of_weight(*weight), limit)?;
    }
    Some(cost)
}

/// A list of nodes, weights that cost as much, and whether it is a walk.
type Walk = (&'static [u32], &'static [u32], bool);

/// Whether a list of nodes is a walk where it is to be one, and only there.
fn is_told(graph: &Graph, (nodes, weights, is_walk): Walk) -> bool {
    match sum_of(weights) {
        Some(cost) => graph.is_walk(nodes, cost) == is_walk,
        None => false,
    }
}

/// Whether each of these is.
fn are_told(graph: &Graph, walks: &[Walk]) -> bool {
    let mut holds = true;
    for walk in walks {
        holds &= is_told(graph, *walk);
    }
    holds
}

/// Whether the graph of these arcs distinguishes walks from other lists of nodes.
fn distinguishes(alloc: Global, nodes: u32, arcs: &[Arc], walks: &[Walk]) -> Result<bool, Fail> {
    let graph = graph_of(alloc, nodes, arcs)?;
    Ok(are_told(&graph, walks))
}

/// Whether a graph has the nodes and the arcs of the row.
fn is_row(graph: &Graph) -> bool {
    let first = Road {
        from: 1,
        to: 0,
        weight: 2,
    };
    let second = Road {
        from: 0,
        to: 2,
        weight: 3,
    };
    (graph.nodes() == 3) & (graph.arcs() == [first, second].as_slice())
}

/// Whether the graph of the row is.
fn is_kept(alloc: Global) -> Result<bool, Fail> {
    let graph = graph_of(alloc, 3, ROW)?;
    Ok(is_row(&graph))
}

#[test]
fn keeps_what_it_is_made_of(rt: HostRuntime) -> Result<(), Fail> {
    assert!(rt; is_kept(rt.alloc())?);
    Ok(())
}

/// Nodes and arcs that make no graph, and why.
type Refused = (u32, &'static [Arc], GraphError);

const REFUSED: &[Refused] = &[
    (33554433, &[], GraphError::TooManyNodes),
    (2, &[(2, 0, 1)], GraphError::BadArc(0)),
    (2, &[(0, 1, 1), (0, 2, 1), (5, 0, 1)], GraphError::BadArc(1)),
];

/// Whether each of these is refused, for its reason.
fn are_refused(alloc: Global, cases: &[Refused]) -> Result<bool, AllocError> {
    let mut holds = true;
    for (nodes, arcs, error) in cases {
        let roads = roads_of(alloc, arcs)?;
        holds &= Graph::checked(*nodes, roads).err() == Some(*error);
    }
    Ok(holds)
}

#[test]
fn refuses_arcs_that_are_not_allowed(rt: HostRuntime) -> Result<(), Fail> {
    assert!(rt; are_refused(rt.alloc(), REFUSED)?);
    Ok(())
}

const CASES: &[Case] = &[
    (
        3,
        ROW,
        (6, 2),
        &[(1, 2, Some((5, 2))), (2, 1, None), (1, 1, Some((0, 0)))],
    ),
    (
        2,
        PARALLEL,
        (12, 1),
        &[(0, 1, Some((4, 1))), (0, 0, Some((0, 0))), (1, 0, None)],
    ),
    (
        4,
        AROUND,
        (30, 3),
        &[
            (0, 3, Some((7, 3))),
            (0, 1, Some((2, 2))),
            (2, 0, Some((7, 3))),
        ],
    ),
    (
        4,
        TIED,
        (15, 3),
        &[
            (0, 3, Some((5, 1))),
            (0, 2, Some((0, 1))),
            (1, 3, Some((5, 2))),
        ],
    ),
    (5, DRAWN, (20, 4), DRAWN_COSTS),
    (
        2,
        &[(0, 1, 0), (1, 0, 0)],
        (0, 1),
        &[(0, 1, Some((0, 1))), (0, 0, Some((0, 0)))],
    ),
    (
        4,
        HEAVIEST,
        (12884901885, 3),
        &[(2, 3, Some((8589934590, 2))), (3, 2, None)],
    ),
    (
        2,
        &[(0, 1, HEAVY)],
        (4294967295, 1),
        &[(0, 1, Some((4294967295, 1)))],
    ),
    (1, &[], (0, 0), &[(0, 0, Some((0, 0)))]),
];

/// Whether the graphs of these cases have their bounds and their least costs.
fn all_hold_so(alloc: Global, cases: &[Case]) -> Result<bool, Fail> {
    let mut holds = true;
    for case in cases {
        holds &= holds_so(alloc, *case)?;
    }
    Ok(holds)
}

#[test]
fn answers_least_costs(rt: HostRuntime) -> Result<(), Fail> {
    assert!(rt; all_hold_so(rt.alloc(), CASES)?);
    Ok(())
}

const WALKS_OF_ROW: &[Walk] = &[
    (&[1, 0, 2], &[2, 3], true),
    (&[1, 0, 2], &[2, 2], false),
    (&[1, 0, 2], &[3, 3], false),
    (&[1, 0, 2], &[5], false),
    (&[1, 0, 2], &[2, 3, 0], false),
    (&[1, 2], &[2, 3], false),
    (&[2, 0, 1], &[2, 3], false),
    (&[1, 0, 3], &[2, 3], false),
    (&[2], &[], true),
    (&[2], &[1], false),
    (&[3], &[], false),
    (&[], &[], false),
];

const WALKS_OF_PARALLEL: &[Walk] = &[
    (&[0, 1], &[4], true),
    (&[0, 1], &[9], false),
    (&[0, 0, 1], &[12, 4], true),
    (&[1, 0], &[4], false),
];

#[test]
fn distinguishes_walks(rt: HostRuntime) -> Result<(), Fail> {
    assert!(rt; distinguishes(rt.alloc(), 3, ROW, WALKS_OF_ROW)?);
    assert!(rt; distinguishes(rt.alloc(), 2, PARALLEL, WALKS_OF_PARALLEL)?);
    Ok(())
}
