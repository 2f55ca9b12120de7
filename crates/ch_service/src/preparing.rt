ghost use Rattle.std.specs.Prelude.{◌≡◌, [], All, vec_len};
ghost use Rattle.ch_service.specs.Preparation.{IsPreparation};

use crate::error::ServiceError;
use crate::refusing::refuse;
use ch_estimate::{Estimator, Leases};
use ch_workers::{Built, Gate, Options, Resources, build_plain};
use grfile::read_graph;
use std::alloc::Global;
use std::io::{Read, Write};
use std::sync::Wait;
use std::thread::Threads;

/// Prepares a hierarchy of a graph.
///
/// `gr` gives the text of the graph, and `out` gets the file of the hierarchy. The text is read first, and then the
/// hierarchy is built by workers as the options say, each with the estimators of its list, of which none has received
/// anything; where one of the two is refused nothing is written. On every return the estimators were dropped, and
/// no lease of `leases` is out. Takes memory for the graph, and then that of [`build`](ch_workers::build).
pub fn prepare<G: Read, W: Write, P: Gate, R: Threads + Wait + Sync>(
    rt: &R,
    alloc: Global,
    gr: &mut G,
    out: &mut W,
    options: Options,
    lists: Vec<Vec<Box<dyn Estimator + Send>>>,
    leases: &mut Leases,
    gate: &P,
) -> Result<(), ServiceError>
    requires untold { All (λ list. All (λ estimator. heard estimator ≡ []) list.items) lists.items }
    ensures prepared { IsPreparation result options (vec_len lists) (G.remaining gr.old) (G.remaining gr.new) (W.contents out.old) (W.contents out.new) }
    ensures leases { leases.new ≡ record leases.old { out = 0 } }
{
    let mut resources = Resources::new(rt, alloc);
    let prepared = prepare_beside(&mut resources, gr, out, options, lists, leases, gate);
    resources.wait();
    prepared
}

/// Prepares a hierarchy as [`prepare`] does. What the build needs no longer may still be dropped after it has returned:
/// [`Resources::wait`] waits for that.
pub fn prepare_beside<G: Read, W: Write, P: Gate, R: Threads + Wait + Sync>(
    resources: &mut Resources<'_, R>,
    gr: &mut G,
    out: &mut W,
    options: Options,
    lists: Vec<Vec<Box<dyn Estimator + Send>>>,
    leases: &mut Leases,
    gate: &P,
) -> Result<(), ServiceError>
    requires untold { All (λ list. All (λ estimator. heard estimator ≡ []) list.items) lists.items }
    ensures prepared { IsPreparation result options (vec_len lists) (G.remaining gr.old) (G.remaining gr.new) (W.contents out.old) (W.contents out.new) }
    ensures leases { leases.new ≡ record leases.old { out = 0 } }
{
    let graph = match read_graph(resources.alloc, gr) {
        Ok(graph) => graph,
        Err(fault) => return refuse(resources.rt, ServiceError::Graph(fault), lists, leases),
    };
    let built = build_plain(resources, graph, options, lists, leases, gate)?;
    let Built {
        hierarchy,
        receipts,
        log,
        queue,
    } = built;
    resources.dispose((receipts, log, queue));
    hierfile::write(&hierarchy, out)?;
    Ok(())
}
