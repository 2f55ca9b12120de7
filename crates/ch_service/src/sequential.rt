ghost use Rattle.std.specs.Prelude.{◌≡◌, [], All, vec_len};
ghost use Rattle.ch_service.specs.Preparation.{IsPreparation};

use crate::error::ServiceError;
use crate::refusing::refuse;
use ch_estimate::{Estimator, Leases};
use ch_sequential::build_sequential;
use ch_workers::{Built, Gate, Options};
use grfile::read_graph;
use std::alloc::Global;
use std::io::{Read, Write};
use std::sync::Wait;

/// Prepares a hierarchy as [`prepare`](crate::prepare) does with one worker, by
/// [`build_sequential`](ch_sequential::build_sequential): the calling thread contracts the nodes. `options.workers` isn't
/// looked at: there has to be one list of estimators.
pub fn prepare_sequential<G: Read, W: Write, P: Gate, R: Wait>(
    rt: &R,
    alloc: Global,
    gr: &mut G,
    out: &mut W,
    options: Options,
    lists: Vec<Vec<Box<dyn Estimator + Send>>>,
    leases: &mut Leases,
    gate: &P,
) -> Result<(), ServiceError>
    requires untold { All (λ list. All (λ estimator. heard estimator ≡ []) list.items) lists.items }
    ensures prepared { IsPreparation result (record options { workers = 1 }) (vec_len lists) (G.remaining gr.old) (G.remaining gr.new) (W.contents out.old) (W.contents out.new) }
    ensures leases { leases.new ≡ record leases.old { out = 0 } }
{
    let graph = match read_graph(alloc, gr) {
        Ok(graph) => graph,
        Err(fault) => return refuse(rt, ServiceError::Graph(fault), lists, leases),
    };
    let built = build_sequential(rt, alloc, graph, options, lists, leases, gate)?;
    let Built { hierarchy, .. } = built;
    hierfile::write(&hierarchy, out)?;
    Ok(())
}
