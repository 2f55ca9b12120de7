ghost use Rattle.std.specs.Prelude.{◌≡◌, [], All, IfErr, IfOk, OnOk, vec_len};
ghost use Rattle.best_routes.specs.BestRoutes.{AreBestRoutes};
ghost use Rattle.ch_service.specs.Outcome.{StopsInMemory};
ghost use Rattle.ch_workers.specs.Options.{AreGood};

use crate::error::ServiceError;
use crate::laws::answers_are_best_routes;
use crate::preparing::prepare;
use crate::routing::route;
use ch_estimate::{Estimator, Leases};
use ch_workers::{Gate, Options};
use grfile::spelled_graphs_are_in_range;
use hierfile::{hierarchies_have_one_spelling, spellings_have_no_fault};
use std::alloc::Global;
use std::sync::Wait;
use std::thread::Threads;

/// Returns the answers to the pairs of one text over the graph of another, by a hierarchy's file in memory.
///
/// [`prepare`] writes the file from the text of the graph, and [`route`] reads it and answers the pairs: what a user does
/// by two commands. The answers have one line for each pair, in order: a shortest path of the graph, of all shortest paths
/// one with the fewest arcs, or that there is no path. This holds for all options and estimators, and however the workers'
/// reads and commits fall. On every return the estimators were dropped, and no lease of `leases` is out. Time and memory
/// are those of the two calls, with the bytes of the file and of the answers. So are the refusals, but that the file has no
/// fault and no route is too long; where memory runs out for the file or for the answers it is a failed write.
pub fn routes_in_memory<P: Gate, R: Threads + Wait + Sync>(
    rt: &R,
    alloc: Global,
    graph: &[u8],
    pairs: &[u8],
    options: Options,
    lists: Vec<Vec<Box<dyn Estimator + Send>>>,
    leases: &mut Leases,
    gate: &P,
) -> Result<Vec<u8>, ServiceError>
    requires untold { All (λ list. All (λ estimator. heard estimator ≡ []) list.items) lists.items }
    ensures best { IfOk result (λ text. AreBestRoutes graph.now pairs.now text.items) }
    ensures good { OnOk result (AreGood options (vec_len lists)) }
    ensures refused { IfErr result (StopsInMemory options (vec_len lists) graph.now pairs.now) }
    ensures leases { leases.new ≡ record leases.old { out = 0 } }
{
    answers_are_best_routes();
    hierarchies_have_one_spelling();
    spellings_have_no_fault();
    spelled_graphs_are_in_range();
    let (mut graph, mut pairs) = (graph, pairs);
    let mut file = Vec::new(alloc);
    prepare(
        rt, alloc, &mut graph, &mut file, options, lists, leases, gate,
    )?;
    let mut bytes = file.as_slice();
    let mut text = Vec::new(alloc);
    route(alloc, &mut bytes, &mut pairs, &mut text)?;
    Ok(text)
}
