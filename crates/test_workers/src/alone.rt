//! One worker alone: `build_sequential` makes what `build` makes with one worker, and tells its estimators the same.
use crate::kit::{Keys, ONE, grid, row, star, tie};
use crate::stations::Trail;
use crate::traces::{Traces, alone_by, built_by, is_prefix};
use ch_graph::{Graph, Hierarchy};
use ch_workers::{BuildError, Built, OpenGate, Options};
use std::alloc::Global;
use std::sync::Wait;
use std::test::Fail;
use std::thread::Threads;

/// A small network.
#[derive(Clone, Copy)]
enum Network {
    Grid,
    Tie,
    Star,
    Row,
}

impl Network {
    fn graph(self, alloc: Global) -> Result<Graph, Fail> {
        match self {
            Network::Grid => grid(alloc),
            Network::Tie => tie(alloc),
            Network::Star => star(alloc),
            Network::Row => row(alloc),
        }
    }
}

/// Whether two hierarchies have the same ranks, links and bound.
fn is_one(one: &Hierarchy, other: &Hierarchy) -> bool {
    if one.nodes() != other.nodes() {
        return false;
    }
    let mut holds = (one.links() == other.links()) & (one.bound() == other.bound());
    'nodes: for node in 0..one.nodes() {
        holds &= one.rank(node) == other.rank(node);
    }
    holds
}

/// Whether the same was built twice.
fn is_same(one: &Built, other: &Built) -> bool {
    let (log, other_log) = (one.log.as_slice(), other.log.as_slice());
    let mut holds = (log.len() == other_log.len()) & is_prefix(log, other_log);
    holds &= one.receipts.len() == other.receipts.len();
    'lists: for (list, other_list) in one.receipts.iter().zip(&other.receipts) {
        holds &= list.as_slice() == other_list.as_slice();
    }
    holds & is_one(&one.hierarchy, &other.hierarchy)
}

/// Whether one worker and the calling thread alone build the same of a network, by two estimators of such keys, pass the
/// same points, and tell the estimators as much.
fn is_built_twice<R: Threads + Wait + Sync>(
    rt: &R,
    alloc: Global,
    network: Network,
    options: Options,
    keys: Keys,
) -> Result<bool, Fail> {
    let (traces, trail) = (Traces::new(alloc, 1, 2)?, Trail::new());
    let built = built_by(
        rt,
        alloc,
        network.graph(alloc)?,
        options,
        keys,
        &traces,
        &trail,
    )??;
    let (traces_alone, trail_alone) = (Traces::new(alloc, 1, 2)?, Trail::new());
    let alone = alone_by(
        rt,
        alloc,
        network.graph(alloc)?,
        options,
        keys,
        &traces_alone,
        &trail_alone,
    )??;
    let told = [traces.told(rt, 0), traces.told(rt, 1)];
    Ok(
        is_same(&built, &alone)
            & (trail.digits() == trail_alone.digits())
            & traces_alone.are_told(rt, alone.log.as_slice(), told.as_slice()),
    )
}

/// Whether that is so of a network by each of these keys, and in stints, in few turns and with nodes put back without end.
fn is_built_twice_by_all<R: Threads + Wait + Sync>(
    rt: &R,
    alloc: Global,
    network: Network,
) -> Result<bool, Fail> {
    let mut holds = true;
    for keys in [
        Keys::Differences,
        Keys::Greatest,
        Keys::Least,
        Keys::Drawn(7),
    ] {
        for options in [
            ONE,
            Options { stint: 2, ..ONE },
            Options { turns: 3, ..ONE },
            Options {
                defer: 0,
                heaps: 2,
                ..ONE
            },
        ] {
            holds &= is_built_twice(rt, alloc, network, options, keys)?;
        }
    }
    Ok(holds)
}

#[test]
fn one_thread_builds_as_one_worker(rt: HostRuntime) -> Result<(), Fail> {
    assert!(rt; is_built_twice_by_all(&rt, rt.alloc(), Network::Grid)?);
    assert!(rt; is_built_twice_by_all(&rt, rt.alloc(), Network::Tie)?);
    assert!(rt; is_built_twice_by_all(&rt, rt.alloc(), Network::Star)?);
    assert!(rt; is_built_twice_by_all(&rt, rt.alloc(), Network::Row)?);
    Ok(())
}

/// What is refused: a heap too many.
#[test]
fn bad_options_of_one_thread(rt: HostRuntime) -> Result<(), Fail> {
    let alloc = rt.alloc();
    let traces = Traces::new(alloc, 1, 1)?;
    let options = Options { heaps: 5, ..ONE };
    let refused = alone_by(
        &rt,
        alloc,
        row(alloc)?,
        options,
        Keys::Least,
        &traces,
        &OpenGate,
    )?;
    assert!(rt; matches!(refused, Err(BuildError::BadOptions)) & traces.are_dropped());
    Ok(())
}
