ghost use Rattle.std.specs.Prelude.{◌≡◌, [], All, IfOk};

use crate::kit::{Keys, Lists, ONE, TWO, grid, tie};
use crate::stations::{Both, Overtaken, Together};
use crate::traces::{Traces, built_by};
use ch_estimate::Estimator;
use ch_graph::Graph;
use ch_workers::{BuildError, Built, Gate, OpenGate, Options, Point};
use std::alloc::{AllocError, Global};
use std::sync::Wait;
use std::test::Fail;
use std::thread::Threads;

/// Whether the first of two estimators of one worker alone receives entries of the tie's log, three of them.
fn catches_up_alone<R: Threads + Wait + Sync>(rt: &R, alloc: Global) -> Result<bool, Fail> {
    let traces = Traces::new(alloc, 1, 2)?;
    let graph = tie(alloc)?;
    let built = built_by(rt, alloc, graph, ONE, Keys::Greatest, &traces, &OpenGate)??;
    Ok(traces.are_told(rt, built.log.as_slice(), &[3, 0]))
}

// The first estimator alone receives entries. The worker takes the fourth node when the log has three of them, and its
// own entry isn't received.
#[test]
fn one_worker_catches_up_with_the_log(rt: HostRuntime) -> Result<(), Fail> {
    assert!(rt; catches_up_alone(&rt, rt.alloc())?);
    Ok(())
}

/// Whether the first entry of the log was committed by this worker.
fn is_first_of(worker: usize, built: &Built) -> bool {
    match built.receipts.get(worker) {
        Some(receipts) => match receipts.first() {
            Some(receipt) => receipt.rank == 0,
            None => false,
        },
        None => false,
    }
}

/// Whether workers of one estimator each, who pass a gate, contract a graph and receive its log, worker 0 an entry at
/// least that worker 1 committed first, where that is wanted.
fn catch_up<G: Gate, R: Threads + Wait + Sync>(
    rt: &R,
    alloc: Global,
    graph: Graph,
    options: Options,
    gate: &G,
    is_second_first: bool,
) -> Result<bool, Fail> {
    let traces = Traces::new(alloc, options.workers as usize, 1)?;
    let built = built_by(rt, alloc, graph, options, Keys::Greatest, &traces, gate)??;
    let is_early = (traces.told(rt, 0) > 0) & is_first_of(1, &built);
    Ok(traces.are_told(rt, built.log.as_slice(), &[]) & (is_early | !is_second_first))
}

// Worker 0 receives the first entry, which isn't its own, before it commits anything.
#[test]
fn two_workers_catch_up_with_each_other(rt: HostRuntime) -> Result<(), Fail> {
    let gate = Both {
        first: Together::new(2),
        second: Overtaken::at(Point::Took),
    };
    let holds = catch_up(&rt, rt.alloc(), tie(rt.alloc())?, TWO, &gate, true)?;
    assert!(rt; holds & gate.first.was_met() & gate.second.was_met());
    Ok(())
}

#[test]
fn five_workers_hear_of_the_log(rt: HostRuntime) -> Result<(), Fail> {
    let options = Options { workers: 5, ..TWO };
    let gate = Together::new(5);
    let holds = catch_up(&rt, rt.alloc(), grid(rt.alloc())?, options, &gate, false)?;
    assert!(rt; holds & gate.was_met());
    Ok(())
}

/// Two lists of estimators.
pub(crate) fn two_lists(
    alloc: Global,
    first: Vec<Box<dyn Estimator + Send>>,
    second: Vec<Box<dyn Estimator + Send>>,
) -> Result<Lists, AllocError>
    requires first { All (λ estimator. heard estimator ≡ []) first.items }
    requires second { All (λ estimator. heard estimator ≡ []) second.items }
    ensures untold { IfOk result (λ lists. All (λ list. All (λ estimator. heard estimator ≡ []) list.items) lists.items) }
{
    let mut lists = Vec::new(alloc);
    lists.push(first)?;
    lists.push(second)?;
    Ok(lists)
}

/// A list of three estimators.
pub(crate) fn list_of_three(
    alloc: Global,
    first: Box<dyn Estimator + Send>,
    second: Box<dyn Estimator + Send>,
    third: Box<dyn Estimator + Send>,
) -> Result<Vec<Box<dyn Estimator + Send>>, AllocError>
    requires first { heard first ≡ [] }
    requires second { heard second ≡ [] }
    requires third { heard third ≡ [] }
    ensures untold { IfOk result (λ list. All (λ estimator. heard estimator ≡ []) list.items) }
{
    let mut list = Vec::new(alloc);
    list.push(first)?;
    list.push(second)?;
    list.push(third)?;
    Ok(list)
}

/// Whether a build of the tie with six estimators, that settles this many nodes in a search, ends so, and has dropped each
/// once.
fn drops_six<R: Threads + Wait + Sync>(
    rt: &R,
    alloc: Global,
    settle: u32,
    want: Option<BuildError>,
) -> Result<bool, Fail> {
    let traces = Traces::new(alloc, 2, 3)?;
    let graph = tie(alloc)?;
    let options = Options { settle, ..TWO };
    let refused = built_by(
        rt,
        alloc,
        graph,
        options,
        Keys::Greatest,
        &traces,
        &OpenGate,
    )?
    .err();
    Ok((refused == want) & traces.are_dropped())
}

#[test]
fn estimators_are_dropped(rt: HostRuntime) -> Result<(), Fail> {
    assert!(rt; drops_six(&rt, rt.alloc(), 64, None)?);
    assert!(rt; drops_six(&rt, rt.alloc(), 0, Some(BuildError::BadOptions))?);
    Ok(())
}
