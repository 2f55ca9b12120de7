ghost use Rattle.std.specs.Prelude.{◌≡◌, ◌+◌, ◌<◌, ◌≤◌, [], All, IfOk, MatchOption, vec_len};
ghost use Rattle.ch_workers.specs.Built.{IsBuild, IsBuilt, IsClosed};
ghost use Rattle.ch_workers.specs.Options.{queue_of};

use crate::boxed::box_lists;
use crate::built::{Built, with_index};
use crate::error::BuildError;
use crate::finishing::finish;
use crate::gate::Gate;
use crate::good_options::GoodOptions;
use crate::options::Options;
use crate::resources::Resources;
use crate::run::{Waiting, Worked, contract};
use crate::trouble::Trouble;
use ch_contract::Ledger;
use ch_estimate::{Estimator, Leases};
use ch_graph::Graph;
use ch_multiqueue::Closed;
use std::alloc::Global;
use std::sync::Wait;
use std::thread;
use std::thread::Threads;

/// Contracts the nodes of a graph by workers, each in a thread of its own, and makes a hierarchy of what they did.
///
/// The workers choose nodes by their estimators, of which none has received anything: worker k by those of list k, one
/// after the other. It uses the first until it has made `stint` commits by it, drops it behind the gate at `Committed`,
/// and goes on with the next, and so on; the last one stays. Each receives the log from entry 0. A worker that runs out
/// of memory ends. One whose thread can't be started does nothing in that shift, and gets a thread in the next one. A sweep
/// contracts what they leave. Then the queue is closed.
/// `BadOptions`, which is tested first, where a number of the options is outside its range or there isn't one list for
/// each worker; `OutOfMemory` where memory runs out; `Mixed` where the receipts and the log don't agree, or the
/// accounts of the queue, or where a book of rows has no place left. On every return the estimators were dropped and no
/// lease of `leases` is out: so it doesn't return as long as one is out elsewhere. Takes memory for the rows of the
/// nodes, shortcuts included, and for those that are replaced in a shift, which have a dozen entries or so for each node
/// of the graph, and are freed by a thread of its own beside the next shift; for the log, the receipts and the queue.
pub fn build<G: Gate, R: Threads + Wait + Sync>(
    rt: &R,
    alloc: Global,
    graph: Graph,
    options: Options,
    estimators: Vec<Vec<Box<dyn Estimator + Send>>>,
    leases: &mut Leases,
    gate: &G,
) -> Result<Built, BuildError>
    requires untold { All (λ list. All (λ estimator. heard estimator ≡ []) list.items) estimators.items }
    ensures built { IsBuild result graph options (vec_len estimators) }
    ensures leases { leases.new ≡ record leases.old { out = 0 } }
{
    let mut resources = Resources::new(rt, alloc);
    let built = build_plain(&mut resources, graph, options, estimators, leases, gate);
    let indexed = with_index(alloc, built);
    resources.wait();
    indexed
}

/// Builds as [`build`] does, and makes no index of the hierarchy's links, which its file doesn't have.
///
/// Rows and books that are needed no longer are dropped beside what comes next, also after it has returned:
/// [`Resources::wait`] waits for that.
pub fn build_plain<G: Gate, R: Threads + Wait + Sync>(
    resources: &mut Resources<'_, R>,
    graph: Graph,
    options: Options,
    estimators: Vec<Vec<Box<dyn Estimator + Send>>>,
    leases: &mut Leases,
    gate: &G,
) -> Result<Built, BuildError>
    requires untold { All (λ list. All (λ estimator. heard estimator ≡ []) list.items) estimators.items }
    ensures built { IsBuild result graph options (vec_len estimators) }
    ensures leases { leases.new ≡ record leases.old { out = 0 } }
{
    let built = build_with_good(resources, graph, options, estimators, gate);
    leases.wait(resources.rt);
    built
}

/// Builds where the options are good, which is tested first. The estimators are dropped when it returns.
fn build_with_good<G: Gate, R: Threads + Wait + Sync>(
    resources: &mut Resources<'_, R>,
    graph: Graph,
    options: Options,
    estimators: Vec<Vec<Box<dyn Estimator + Send>>>,
    gate: &G,
) -> Result<Built, BuildError>
    requires untold { All (λ list. All (λ estimator. heard estimator ≡ []) list.items) estimators.items }
    ensures { IsBuild result graph options (vec_len estimators) }
{
    if options.are_bad(estimators.len()) {
        return Err(BuildError::BadOptions);
    }
    let good = GoodOptions { options };
    match build_by_good(resources, graph, good, estimators, gate) {
        Ok(built) => Ok(built),
        Err(trouble) => Err(trouble.error()),
    }
}

/// Builds by workers and then by a sweep. What they need no longer is dropped beside them.
fn build_by_good<G: Gate, R: Threads + Wait + Sync>(
    resources: &mut Resources<'_, R>,
    graph: Graph,
    good: GoodOptions,
    estimators: Vec<Vec<Box<dyn Estimator + Send>>>,
    gate: &G,
) -> Result<Built, Trouble>
    requires as_many { vec_len estimators ≡ good.options.workers }
    requires untold { All (λ list. All (λ estimator. heard estimator ≡ []) list.items) estimators.items }
    ensures built { IfOk result (IsBuilt graph (good.options.workers + 1)) }
    ensures queue { IfOk result (λ b. IsClosed good.options b.queue) }
{
    let lists = box_lists(resources.alloc, estimators)?;
    let ledger = Ledger::new_by(resources.rt, resources.alloc, graph, good.options.workers)?;
    let (worked, waiting) = contract(resources, ledger, good, lists, gate)?;
    finish_beside(resources, worked, waiting, good)
}

/// Closes the queue, if there is one, in a thread of its own, and makes the hierarchy beside it. Both are done when it
/// returns, and what the queue is refused for is reported first.
fn finish_beside<R: Threads + Wait + Sync>(
    resources: &mut Resources<'_, R>,
    worked: Worked,
    waiting: Option<Waiting>,
    good: GoodOptions,
) -> Result<Built, Trouble>
    requires waiting { MatchOption waiting (good.options.workers ≡ 0) (λ waiting. waiting.queue ≡ queue_of good.options) }
    ensures built { IfOk result (IsBuilt worked.ledger.graph (vec_len worked.receipts + 1)) }
    ensures queue { IfOk result (λ b. IsClosed good.options b.queue) }
{
    let Some(waiting) = waiting else {
        return finish(resources, worked, good);
    };
    let (closed, built) = thread::join(
        resources.rt,
        move || -> Result<Closed, Trouble>
            ensures closed { IfOk result (λ closed. closed.queue ≡ waiting.queue) }
        { waiting.close() },
        move || -> Result<Built, Trouble>
            ensures built { IfOk result (IsBuilt worked.ledger.graph (vec_len worked.receipts + 1)) }
        { finish(resources, worked, good) },
    );
    let queue = Some(closed?);
    Ok(Built { queue, ..built? })
}
