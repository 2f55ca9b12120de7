ghost use Rattle.std.specs.Prelude.{◌≡◌, ◌+◌, [], All, IfOk, vec_len};
ghost use Rattle.ch_workers.specs.Built.{IsBuild, IsBuilt, IsClosed};
ghost use Rattle.ch_workers.specs.Options.{queue_of};

use crate::boxed::box_lists;
use crate::built::Built;
use crate::error::BuildError;
use crate::finishing::built_of_swept;
use crate::gate::Gate;
use crate::good_options::CrewOptions;
use crate::hiring::{Crew, hire};
use crate::options::Options;
use crate::run::{Left, take_apart};
use crate::trouble::Trouble;
use crate::worker::{Hall, work};
use crate::workplace::OwnWorkplace;
use ch_contract::Ledger;
use ch_estimate::{Estimator, Leases};
use ch_graph::Graph;
use std::alloc::Global;
use std::sync::Wait;

/// Contracts the nodes of a graph by the turns of one worker on the calling thread, at a workplace that it has alone, and
/// makes a hierarchy of them. It has no index of its links.
///
/// The turns, the sweep and the errors are those of [`build`](crate::build) with one worker. `options.workers` isn't looked
/// at: there has to be one list of estimators.
pub fn build_alone<P: OwnWorkplace, G: Gate, R: Wait>(
    rt: &R,
    alloc: Global,
    graph: Graph,
    options: Options,
    estimators: Vec<Vec<Box<dyn Estimator + Send>>>,
    leases: &mut Leases,
    gate: &G,
) -> Result<Built, BuildError>
    requires of_graph { P.graph ≡ graph }
    requires untold { All (λ list. All (λ estimator. heard estimator ≡ []) list.items) estimators.items }
    ensures built { IsBuild result graph (record options { workers = 1 }) (vec_len estimators) }
    ensures leases { leases.new ≡ record leases.old { out = 0 } }
{
    let options = Options {
        workers: 1,
        ..options
    };
    let built = build_with_good::<P, G, R>(rt, alloc, graph, options, estimators, gate);
    leases.wait(rt);
    built
}

/// Builds where the options are good, which is tested first. The estimators are dropped when it returns.
fn build_with_good<P: OwnWorkplace, G: Gate, R: Wait>(
    rt: &R,
    alloc: Global,
    graph: Graph,
    options: Options,
    estimators: Vec<Vec<Box<dyn Estimator + Send>>>,
    gate: &G,
) -> Result<Built, BuildError>
    requires of_graph { P.graph ≡ graph }
    requires one { options.workers ≡ 1 }
    requires untold { All (λ list. All (λ estimator. heard estimator ≡ []) list.items) estimators.items }
    ensures { IsBuild result graph options (vec_len estimators) }
{
    if options.are_bad(estimators.len()) {
        return Err(BuildError::BadOptions);
    }
    let crew = CrewOptions { options };
    match build_by_good::<P, G, R>(rt, alloc, graph, crew, estimators, gate) {
        Ok(built) => Ok(built),
        Err(trouble) => Err(trouble.error()),
    }
}

/// Takes the turns, closes the queue, sweeps, and makes the hierarchy. The rows are dropped when it returns.
fn build_by_good<P: OwnWorkplace, G: Gate, R: Wait>(
    rt: &R,
    alloc: Global,
    graph: Graph,
    crew: CrewOptions,
    estimators: Vec<Vec<Box<dyn Estimator + Send>>>,
    gate: &G,
) -> Result<Built, Trouble>
    requires of_graph { P.graph ≡ graph }
    requires one { crew.options.workers ≡ 1 }
    requires as_many { vec_len estimators ≡ 1 }
    requires untold { All (λ list. All (λ estimator. heard estimator ≡ []) list.items) estimators.items }
    ensures built { IfOk result (IsBuilt graph 2) }
    ensures queue { IfOk result (λ b. IsClosed crew.options b.queue) }
{
    let lists = box_lists(alloc, estimators)?;
    let mut place = P::new(alloc, Ledger::new(alloc, graph)?);
    let Left { waiting, receipts } = take_turns(rt, alloc, &mut place, crew, lists, gate)?;
    let closed = waiting.close()?;
    let swept = place.sweep(crew.options.settle)?;
    let (built, _rows) = built_of_swept(alloc, swept, receipts)?;
    Ok(Built {
        queue: Some(closed),
        ..built
    })
}

/// Lets the workers take their turns, one after the other, as many as there are lists of estimators, which are dropped.
fn take_turns<P: OwnWorkplace, E: Estimator, G: Gate, R: Wait>(
    rt: &R,
    alloc: Global,
    place: &mut P,
    crew: CrewOptions,
    estimators: Vec<Vec<E>>,
    gate: &G,
) -> Result<Left, Trouble>
    requires as_many { vec_len estimators ≡ crew.options.workers }
    requires untold { All (λ list. All (λ estimator. E.heard estimator ≡ []) list.items) estimators.items }
    ensures lists { IfOk result (λ left. vec_len left.receipts ≡ crew.options.workers) }
    ensures queue { IfOk result (λ left. left.waiting.queue ≡ queue_of crew.options) }
{
    let Crew { queue, mut workers } = hire(alloc, crew, estimators)?;
    let hall = Hall {
        rt,
        queue: &queue,
        gate,
        crew,
    };
    'workers: for worker in workers.as_mut_slice() {
        work(&hall, place, worker);
    }
    let left = take_apart(alloc, queue, workers)?;
    Ok(left)
}
