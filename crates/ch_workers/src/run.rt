ghost use Rattle.std.specs.Prelude.{◌≡◌, ◌<◌, ◌≤◌, [], All, IfOk, MatchOption, vec_len};
ghost use Rattle.ch_multiqueue.specs.Accounts.{AreBalanced};
ghost use Rattle.ch_workers.specs.Options.{queue_of};

use crate::gate::Gate;
use crate::good_options::{CrewOptions, GoodOptions};
use crate::hiring::{Crew, hire};
use crate::resources::Resources;
use crate::shift::{Work, shift};
use crate::trouble::Trouble;
use crate::worker::Worker;
use ch_contract::{Ledger, Receipt};
use ch_estimate::Estimator;
use ch_multiqueue::{CloseError, Closed, MultiQueue, Pass};
use std::alloc::{AllocError, Global};
use std::sync::Wait;
use std::thread::Threads;

/// A ledger on which workers have worked, and the receipts of each.
#[derive(Drop)]
pub(crate) struct Worked {
    pub(crate) ledger: Ledger,
    pub(crate) receipts: Vec<Vec<Receipt>>,
}

/// The queue of the workers, which is to be closed, and the passes of all of them.
#[derive(Drop)]
pub(crate) struct Waiting {
    queue: MultiQueue,
    passes: Vec<Pass>,
}

/// What is left of workers: their queue and their receipts.
#[derive(Drop)]
pub(crate) struct Left {
    pub(crate) waiting: Waiting,
    pub(crate) receipts: Vec<Vec<Receipt>>,
}

/// Lets workers contract nodes of a ledger, as many workers as there are lists of estimators, which are dropped. Returns
/// their queue too, if there is a worker.
pub(crate) fn contract<E: Estimator + Send, G: Gate, R: Threads + Wait + Sync>(
    resources: &mut Resources<'_, R>,
    ledger: Ledger,
    good: GoodOptions,
    estimators: Vec<Vec<E>>,
    gate: &G,
) -> Result<(Worked, Option<Waiting>), Trouble>
    requires as_many { vec_len estimators ≡ good.options.workers }
    requires untold { All (λ list. All (λ estimator. E.heard estimator ≡ []) list.items) estimators.items }
    ensures graph { IfOk result (λ made. made.0.ledger.graph ≡ ledger.graph) }
    ensures lists { IfOk result (λ made. vec_len made.0.receipts ≡ good.options.workers) }
    ensures queue { IfOk result (λ made. MatchOption made.1 (good.options.workers ≡ 0) (λ waiting. waiting.queue ≡ queue_of good.options)) }
{
    let options = good.options;
    if options.workers == 0 {
        let receipts = Vec::new(resources.alloc);
        return Ok((Worked { ledger, receipts }, None));
    }
    let crew = CrewOptions { options };
    let Crew { queue, workers } = hire(resources.alloc, crew, estimators)?;
    let work = Work {
        ledger,
        queue,
        workers,
    };
    let Work {
        ledger,
        queue,
        workers,
    } = go_on(resources, work, crew, gate)?;
    let Left { waiting, receipts } = take_apart(resources.alloc, queue, workers)?;
    Ok((Worked { ledger, receipts }, Some(waiting)))
}

/// Lets workers go on shift after shift, until each has ended or a shift contracts no node.
fn go_on<E: Estimator + Send, G: Gate, R: Threads + Wait + Sync>(
    resources: &mut Resources<'_, R>,
    work: Work<E>,
    crew: CrewOptions,
    gate: &G,
) -> Result<Work<E>, Trouble>
    ensures graph { IfOk result (λ after. after.ledger.graph ≡ work.ledger.graph) }
    ensures count { IfOk result (λ after. vec_len after.workers ≡ vec_len work.workers) }
    ensures queue { IfOk result (λ after. after.queue ≡ work.queue) }
{
    let nodes = work.ledger.overlay().nodes();
    let mut work = shift(resources, work, crew, gate)?;
    'shifts: for _ in 1..nodes {
        if have_ended(work.workers.as_slice()) {
            break;
        }
        let before = work.ledger.log().len();
        work = shift(resources, work, crew, gate)?;
        if work.ledger.log().len() == before {
            break;
        }
    }
    Ok(work)
}

/// Whether each of the workers has ended.
fn have_ended<E: Estimator>(workers: &[Worker<E>]) -> bool {
    workers.iter().all(|worker| worker.has_ended)
}

/// Takes the workers apart, whose queue this is, and drops the estimators that they have left.
pub(crate) fn take_apart<E: Estimator>(
    alloc: Global,
    queue: MultiQueue,
    workers: Vec<Worker<E>>,
) -> Result<Left, AllocError>
    ensures lists { IfOk result (λ left. vec_len left.receipts ≡ vec_len workers) }
    ensures queue { IfOk result (λ left. left.waiting.queue ≡ queue) }
{
    let mut passes = Vec::new(alloc);
    let mut lists = Vec::new(alloc);
    'workers: for worker in workers {
        let Worker { pass, receipts, .. } = worker;
        passes.push(pass)?;
        lists.push(receipts)?;
    }
    Ok(Left {
        waiting: Waiting { queue, passes },
        receipts: lists,
    })
}

impl Waiting {
    /// Closes the queue. `Mixed` where a pass is missing, or where an item was lost, doubled or altered between a push and
    /// a pop.
    pub(crate) fn close(self) -> Result<Closed, Trouble>
        ensures closed { IfOk result (λ closed. closed.queue ≡ self.queue) }
        ensures balanced { IfOk result (λ closed. AreBalanced self.passes.items closed.left) }
    {
        let Waiting { queue, passes } = self;
        match queue.end(passes) {
            Ok(closed) => Ok(closed),
            Err((CloseError::OutOfMemory, _, _)) => Err(Trouble::OutOfMemory),
            Err((CloseError::PassMissing | CloseError::Mixed, _, _)) => Err(Trouble::Mixed),
        }
    }
}
