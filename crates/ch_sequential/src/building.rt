ghost use Rattle.std.specs.Prelude.{◌≡◌, [], All, vec_len};
ghost use Rattle.ch_workers.specs.Built.{IsBuild};

use crate::solo::Solo;
use ch_contract::Site;
use ch_estimate::{Estimator, Leases};
use ch_graph::Graph;
use ch_workers::{BuildError, Built, Gate, Options, build_alone};
use std::alloc::Global;
use std::marker::Brand;
use std::sync::Wait;

/// Contracts the nodes of a graph on the calling thread, by the turns of one worker, and makes a hierarchy of them.
///
/// The contract is that of [`build`](ch_workers::build) with one worker, and so are the rules, the errors, and, with ample
/// memory, hierarchy, log and receipts. The gate is passed at every point but `Refused`. `options.workers` isn't looked at:
/// there has to be one list of estimators. The hierarchy has no index:
/// [`Hierarchy::into_indexed`](ch_graph::Hierarchy::into_indexed) gives it one. Where memory runs out in a turn, a sweep
/// contracts what is left. Takes memory for the rows of the nodes, shortcuts included, for the log, the receipts and the
/// queue, and at the end for the links beside the rows.
pub fn build_sequential<G: Gate, R: Wait>(
    rt: &R,
    alloc: Global,
    graph: Graph,
    options: Options,
    estimators: Vec<Vec<Box<dyn Estimator + Send>>>,
    leases: &mut Leases,
    gate: &G,
) -> Result<Built, BuildError>
    requires untold { All (λ list. All (λ estimator. heard estimator ≡ []) list.items) estimators.items }
    ensures built { IsBuild result graph (record options { workers = 1 }) (vec_len estimators) }
    ensures leases { leases.new ≡ record leases.old { out = 0 } }
{
    build_named::<Brand, G, R>(rt, alloc, graph, options, estimators, leases, gate)
}

/// Builds at a ledger of a type that names the graph.
fn build_named<S: Site, G: Gate, R: Wait>(
    rt: &R,
    alloc: Global,
    graph: Graph,
    options: Options,
    estimators: Vec<Vec<Box<dyn Estimator + Send>>>,
    leases: &mut Leases,
    gate: &G,
) -> Result<Built, BuildError>
    requires of_graph { S.graph ≡ graph }
    requires untold { All (λ list. All (λ estimator. heard estimator ≡ []) list.items) estimators.items }
    ensures built { IsBuild result graph (record options { workers = 1 }) (vec_len estimators) }
    ensures leases { leases.new ≡ record leases.old { out = 0 } }
{
    build_alone::<Solo<S>, G, R>(rt, alloc, graph, options, estimators, leases, gate)
}
