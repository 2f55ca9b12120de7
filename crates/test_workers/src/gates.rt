use crate::costs::are_least;
use crate::kit::{Keys, TWO, built_by, grid, tie};
use crate::stations::{Overtaken, Together};
use ch_graph::Graph;
use ch_workers::{Built, Gate, Options, Point};
use std::alloc::Global;
use std::sync::Wait;
use std::test::Fail;
use std::thread::Threads;

/// Whether the sweep found nothing to do.
fn is_unswept(built: &Built) -> bool {
    match built.receipts.last() {
        Some(swept) => swept.is_empty(),
        None => false,
    }
}

/// Whether workers who pass a gate contract a graph whole, and all costs are those of the same graph.
fn do_all<G: Gate, R: Threads + Wait + Sync>(
    rt: &R,
    alloc: Global,
    graph: Graph,
    same: &Graph,
    options: Options,
    gate: &G,
) -> Result<bool, Fail> {
    let built = built_by(rt, alloc, graph, options, Keys::Differences, gate)?;
    Ok(is_unswept(&built) & are_least(alloc, same, &built.hierarchy)?)
}

/// Whether they do with the tie.
fn do_ties<G: Gate, R: Threads + Wait + Sync>(
    rt: &R,
    alloc: Global,
    options: Options,
    gate: &G,
) -> Result<bool, Fail> {
    let same = tie(alloc)?;
    do_all(rt, alloc, tie(alloc)?, &same, options, gate)
}

/// Whether they do with the grid.
fn do_grids<G: Gate, R: Threads + Wait + Sync>(
    rt: &R,
    alloc: Global,
    options: Options,
    gate: &G,
) -> Result<bool, Fail> {
    let same = grid(alloc)?;
    do_all(rt, alloc, grid(alloc)?, &same, options, gate)
}

#[test]
fn a_worker_is_overtaken(rt: HostRuntime) -> Result<(), Fail> {
    let gate = Overtaken::at(Point::Proposed);
    let holds = do_ties(&rt, rt.alloc(), TWO, &gate)?;
    assert!(rt; holds & gate.was_met());
    Ok(())
}

// Of five each finds an item, since it put in five, and the other four have taken one each at most.
#[test]
fn workers_at_once(rt: HostRuntime) -> Result<(), Fail> {
    let (two, five) = (Together::new(2), Together::new(5));
    let ties = do_ties(&rt, rt.alloc(), TWO, &two)?;
    let grids = do_grids(&rt, rt.alloc(), Options { workers: 5, ..TWO }, &five)?;
    assert!(rt; ties & two.was_met() & grids & five.was_met());
    Ok(())
}
