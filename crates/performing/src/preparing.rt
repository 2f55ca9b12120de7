ghost use Rattle.std.specs.Prelude.{◌≡◌, [], IfOk};
ghost use Rattle.ch_workers.specs.Options.{AreGood};
ghost use Rattle.ch_workers.specs.declared.options.TheConstants.Options.{PLAIN};
ghost use Rattle.jobs.specs.Orders.{stint_of};
ghost use Rattle.outcomes.specs.Outcomes.{status_after};
ghost use Rattle.performing.specs.Status.{IsPreparingStatus, TellsPrepared, outcome_of};

use crate::lists::a_list_each;
use crate::outcome::outcome_of;
use ch_estimate::key::{Balanced, Depth, EdgeDifference, Neighbours};
use ch_estimate::{Estimator, Lease, Leases};
use ch_service::{ServiceError, causes_tell_refusals, prepare_beside, prepare_sequential};
use ch_workers::{Gate, Options, Resources};
use jobs::{Order, Preparation, Stint, Workers};
use outcomes::Ending;
use std::alloc::{AllocError, Global};
use std::io::{Read, Write};
use std::sync::Wait;
use std::thread::Threads;

/// How `workers` workers contract the nodes of a graph. All but their number, the seed and the stint is that of
/// [`Options::PLAIN`].
pub fn options(workers: Workers, seed: u64, stint: Stint) -> Options
    ensures good { AreGood result workers.count }
    ensures all { result ≡ record PLAIN { workers = workers.count; seed = seed; stint = stint.commits } }
{
    Options {
        workers: workers.count(),
        seed,
        stint: stint.commits(),
        ..Options::PLAIN
    }
}

/// Prepares a hierarchy of a graph.
///
/// `graph` gives the graph's text, and `out` gets the hierarchy. The workers pass the gate. Takes the time and memory of
/// [`prepare`](ch_service::prepare).
pub fn perform_preparation<G: Read, W: Write, P: Gate, R: Threads + Wait + Sync>(
    rt: &R,
    alloc: Global,
    preparation: &Preparation<'_>,
    graph: &mut G,
    out: &mut W,
    gate: &P,
) -> Ending
    ensures told { TellsPrepared result (G.remaining graph.old) (W.contents out.old) (W.contents out.new) }
    ensures status { IsPreparingStatus (status_after result) }
{
    let mut resources = Resources::new(rt, alloc);
    let prepared = prepare_by(&mut resources, preparation, graph, out, gate);
    resources.wait();
    outcome_of(prepared)
}

/// Prepares a hierarchy of a graph by workers, each with an estimator for each of its orders, or on the calling thread.
/// What the build needs no longer may still be dropped after it has returned: [`Resources::wait`] waits for that. Takes memory for
/// the estimators, and then that of `prepare_beside` or `prepare_sequential`.
pub(crate) fn prepare_by<G: Read, W: Write, P: Gate, R: Threads + Wait + Sync>(
    resources: &mut Resources<'_, R>,
    preparation: &Preparation<'_>,
    graph: &mut G,
    out: &mut W,
    gate: &P,
) -> Result<(), ServiceError>
    ensures { TellsPrepared (outcome_of result) (G.remaining graph.old) (W.contents out.old) (W.contents out.new) }
{
    causes_tell_refusals();
    let workers = preparation.workers.unwrap_or(Workers::one());
    let options = options(workers, preparation.seed, preparation.stint());
    let alloc = resources.alloc;
    let mut leases = Leases::new(alloc)?;
    let lists = a_list_each(
        alloc,
        &mut leases,
        options.workers,
        preparation.orders().as_slice(),
        |order: Order, lease: Lease| -> Result<Box<dyn Estimator + Send>, AllocError>
            ensures { IfOk result (λ estimator. heard estimator ≡ []) }
        {
            match order {
                Order::Edges => Ok(Box::new(alloc, EdgeDifference::new(alloc, lease))?),
                Order::Neighbours => Ok(Box::new(alloc, Neighbours::new(alloc, lease))?),
                Order::Depth => Ok(Box::new(alloc, Depth::new(alloc, lease))?),
                Order::Balanced => Ok(Box::new(alloc, Balanced::new(alloc, lease))?),
            }
        },
    )?;
    match preparation.workers {
        Some(_) => prepare_beside(resources, graph, out, options, lists, &mut leases, gate),
        None => prepare_sequential(
            resources.rt,
            alloc,
            graph,
            out,
            options,
            lists,
            &mut leases,
            gate,
        ),
    }
}
