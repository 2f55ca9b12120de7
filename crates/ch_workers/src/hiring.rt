ghost use Rattle.std.specs.Prelude.{◌≡◌, ◌<◌, ◌≤◌, ◌*◌, [], All, IfOk, OnOk, vec_len};
ghost use Rattle.ch_workers.specs.Options.{queue_of};

use crate::good_options::CrewOptions;
use crate::listeners::{Listeners, listeners_of};
use crate::worker::Worker;
use ch_contract::{Contraction, Scratch};
use ch_estimate::Estimator;
use ch_multiqueue::{MultiQueue, Pass};
use std::alloc::{AllocError, Global};

/// The workers of a build, and the queue of which each has a pass.
#[derive(Drop)]
pub(crate) struct Crew<E: Estimator> {
    pub(crate) queue: MultiQueue,
    pub(crate) workers: Vec<Worker<E>>,
}

/// As many workers as there are lists of estimators, and their queue.
pub(crate) fn hire<E: Estimator>(
    alloc: Global,
    crew: CrewOptions,
    estimators: Vec<Vec<E>>,
) -> Result<Crew<E>, AllocError>
    requires as_many { vec_len estimators ≡ crew.options.workers }
    requires untold { All (λ list. All (λ estimator. E.heard estimator ≡ []) list.items) estimators.items }
    ensures count { IfOk result (λ hired. vec_len hired.workers ≡ crew.options.workers) }
    ensures queue { IfOk result (λ hired. hired.queue ≡ queue_of crew.options) }
{
    let options = crew.options;
    let lists = listeners_of(alloc, estimators)?;
    let heaps = options.workers * options.heaps;
    let (mut queue, first) = MultiQueue::new(alloc, heaps, options.seed)?;
    let passes = passes_of(alloc, &mut queue, first, options.workers)?;
    let workers = workers_of(alloc, passes, lists, options.turns)?;
    Ok(Crew { queue, workers })
}

/// The first pass of a queue, and those that follow it, this many in all.
fn passes_of(
    alloc: Global,
    queue: &mut MultiQueue,
    first: Pass,
    count: u32,
) -> Result<Vec<Pass>, AllocError>
    requires one { queue.old.passes ≡ 1 }
    requires some { 0 < count }
    requires few { count ≤ 64 }
    ensures count { IfOk result (λ passes. vec_len passes ≡ count) }
    ensures queue { OnOk result (queue.new ≡ record queue.old { passes = count }) }
{
    let mut passes = Vec::new(alloc);
    passes.push(first)?;
    'passes: for _ in 1..count {
        passes.push(queue.pass()?)?;
    }
    Ok(passes)
}

/// The workers with these passes and estimators, numbered from 0, each of whom may take this many turns.
fn workers_of<E: Estimator>(
    alloc: Global,
    passes: Vec<Pass>,
    lists: Vec<Listeners<E>>,
    turns: u64,
) -> Result<Vec<Worker<E>>, AllocError>
    requires as_many { vec_len passes ≡ vec_len lists }
    ensures count { IfOk result (λ workers. vec_len workers ≡ vec_len lists) }
{
    let mut workers = Vec::new(alloc);
    'workers: for (pass, listeners) in passes.into_iter().zip(lists) {
        let number = pass.number();
        workers.push(Worker {
            number,
            pass,
            listeners,
            scratch: Scratch::new(alloc),
            entry: no_entry(alloc),
            deferred: 0,
            receipts: Vec::new(alloc),
            turns,
            is_ready: false,
            has_ended: false,
        })?;
    }
    Ok(workers)
}

/// What a worker has before it copies an entry of the log.
fn no_entry(alloc: Global) -> Contraction {
    Contraction {
        node: 0,
        rank: 0,
        neighbours: Vec::new(alloc),
        shortcuts: 0,
    }
}
