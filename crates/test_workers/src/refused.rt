//! What builds return where one growth is refused: `tests/program/refusals` runs each test once for each of its growths.
//!
//! A build that runs out of memory is made again. The costs of what is built are those of the plain search, whichever
//! growth was refused: a worker that runs out of memory leaves its work to the others and to the sweep. A growth of what
//! a test sets up ends the test with that error.
mod drops;
mod order;

use crate::costs::are_least;
use crate::kit::{Keys, ONE, TWO, built_by, grid, tie};
use crate::traces::{Traces, alone_by};
use ch_graph::Graph;
use ch_workers::{Built, OpenGate, Options};
use std::alloc::Global;
use std::sync::Wait;
use std::test::Fail;
use std::thread::Threads;

/// The grid of 25 nodes, or the tie of four.
fn network(alloc: Global, is_grid: bool) -> Result<Graph, Fail> {
    if is_grid { grid(alloc) } else { tie(alloc) }
}

/// Whether what is built by these options has the costs of the plain search.
fn is_least<R: Threads + Wait + Sync>(
    rt: &R,
    alloc: Global,
    is_grid: bool,
    options: Options,
) -> Result<bool, Fail> {
    let built = built_by(
        rt,
        alloc,
        network(alloc, is_grid)?,
        options,
        Keys::Differences,
        &OpenGate,
    )?;
    let right = are_least(alloc, &network(alloc, is_grid)?, &built.hierarchy)?;
    Ok(right)
}

#[test]
fn build_without_workers(rt: HostRuntime) -> Result<(), Fail> {
    assert!(rt; is_least(&rt, rt.alloc(), false, Options { workers: 0, ..ONE })?);
    Ok(())
}

#[test]
fn build_by_one_worker(rt: HostRuntime) -> Result<(), Fail> {
    assert!(rt; is_least(&rt, rt.alloc(), false, ONE)?);
    Ok(())
}

/// Whether what one thread builds of the tie has the costs of the plain search.
fn is_least_alone<R: Wait>(rt: &R, alloc: Global) -> Result<bool, Fail> {
    let traces = Traces::new(alloc, 1, 1)?;
    let keys = Keys::Differences;
    let built = alone_by(rt, alloc, tie(alloc)?, ONE, keys, &traces, &OpenGate)??;
    let right = are_least(alloc, &tie(alloc)?, &built.hierarchy)?;
    Ok(right)
}

#[test]
fn build_by_one_thread(rt: HostRuntime) -> Result<(), Fail> {
    assert!(rt; is_least_alone(&rt, rt.alloc())?);
    Ok(())
}

#[test]
fn build_by_two_workers(rt: HostRuntime) -> Result<(), Fail> {
    assert!(rt; is_least(&rt, rt.alloc(), false, TWO)?);
    Ok(())
}

#[test]
fn build_of_a_grid(rt: HostRuntime) -> Result<(), Fail> {
    assert!(rt; is_least(&rt, rt.alloc(), true, TWO)?);
    Ok(())
}
