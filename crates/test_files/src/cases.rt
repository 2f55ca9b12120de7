//! What a check returns for a graph and a hierarchy, and which pairs refute the hierarchy. `tests/program/small` has graphs
//! and files of all kinds, with the verdicts.
use crate::checked::{DRAWN, DRAWN_RANKS, Given, hierarchy_of};
use crate::graphs::{self, graph_of};
use ch_check::{CheckError, Watch, check, check_watched, is_refuted_by};
use ch_cost::Cost;
use ch_graph::{Graph, Hierarchy};
use std::alloc::{AllocError, Global};
use std::sync::atomic::{AtomicU32, Ordering};
use std::test::Fail;

/// The links of the drawn hierarchy, without the shortcut from 1 to 3.
const ONE_WAY: &[Given] = &[
    (0, 1, (2, 1), None),
    (1, 2, (3, 1), None),
    (1, 4, (1, 1), None),
    (2, 1, (3, 1), None),
    (2, 3, (5, 1), None),
    (3, 1, (2, 2), Some(4)),
    (3, 2, (5, 1), None),
    (3, 4, (1, 1), None),
    (4, 1, (1, 1), None),
    (4, 3, (1, 1), None),
];

/// Where the check of these ends.
const NO_WAY: CheckError = CheckError::Way {
    via: 4,
    from: 1,
    to: 3,
};

/// Counts the nodes that are contracted.
#[derive(Drop)]
struct Counter {
    done: AtomicU32,
}

impl Watch for Counter {
    fn contracted(&self, done: u32) {
        self.done.store(done, Ordering::SeqCst);
    }
}

/// Whether a check is watched to its end, at five nodes.
fn is_watched(alloc: Global, graph: &Graph, hierarchy: &Hierarchy) -> bool {
    let counter = Counter {
        done: AtomicU32::new(0),
    };
    let outcome = check_watched(alloc, graph, hierarchy, &counter);
    outcome.is_ok() & (counter.done.load(Ordering::SeqCst) == 5)
}

/// Whether the check of a hierarchy ends at the pair from 1 to 3, which refutes it.
fn is_refuted(alloc: Global, graph: &Graph, hierarchy: &Hierarchy) -> Result<bool, AllocError> {
    let ends_there = check(alloc, graph, hierarchy) == Err(NO_WAY);
    Ok(ends_there & is_refuted_by(alloc, graph, hierarchy, 1, 3)?)
}

/// Whether the drawn hierarchy is right for its graph, and isn't without a shortcut.
fn are_judged(alloc: Global) -> Result<bool, Fail> {
    let graph = graph_of(alloc, 5, graphs::DRAWN)?;
    let right = hierarchy_of(alloc, DRAWN_RANKS, DRAWN, (20, 4))?;
    let wrong = hierarchy_of(alloc, DRAWN_RANKS, ONE_WAY, (20, 4))?;
    Ok(is_watched(alloc, &graph, &right) & is_refuted(alloc, &graph, &wrong)?)
}

#[test]
fn a_right_hierarchy_and_a_wrong_one(rt: HostRuntime) -> Result<(), Fail> {
    assert!(rt; are_judged(rt.alloc())?);
    Ok(())
}

/// The hierarchy of version 1 of two nodes without links.
fn old_hierarchy(alloc: Global) -> Result<Hierarchy, Fail> {
    let ranks = Vec::from_slice(alloc, &[0, 1])?;
    let hierarchy = Hierarchy::checked_v1(alloc, ranks, Vec::new(alloc), Cost::of_walk(0, 0))?;
    Ok(hierarchy)
}

/// A number of nodes, a pair, and whether the pair refutes a hierarchy of two nodes without links for the graph of that
/// many.
type Pair = (u32, u32, u32, bool);

const PAIRS: &[Pair] = &[
    (2, 0, 1, false),
    (2, 2, 0, false),
    (2, 0, 2, false),
    (3, 0, 0, true),
];

/// Whether each of these pairs refutes as expected, and a check of the hierarchy ends at its nodes or its version.
fn are_refuted(alloc: Global, hierarchy: &Hierarchy, cases: &[Pair]) -> Result<bool, Fail> {
    let mut holds = true;
    for (nodes, from, to, expected) in cases {
        let graph = graph_of(alloc, *nodes, &[])?;
        let error = if *nodes == 2 {
            CheckError::Version
        } else {
            CheckError::Nodes
        };
        holds &= check(alloc, &graph, hierarchy) == Err(error);
        holds &= is_refuted_by(alloc, &graph, hierarchy, *from, *to)? == *expected;
    }
    Ok(holds)
}

#[test]
fn pairs_out_of_range_refute_nothing(rt: HostRuntime) -> Result<(), Fail> {
    let hierarchy = old_hierarchy(rt.alloc())?;
    assert!(rt; are_refuted(rt.alloc(), &hierarchy, PAIRS)?);
    Ok(())
}
