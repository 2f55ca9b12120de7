ghost use Rattle.std.specs.Prelude.{◌≡◌, [], All, OnOk, IfErr, IfSome, vec_len};
ghost use Rattle.ch_service.specs.Answer.{Answers, AnswersByFewest, graph_part, pairs_part};
ghost use Rattle.ch_service.specs.Outcome.{IfBothKnown, StopsAnswering, StopsInJoined, Writes};
ghost use Rattle.ch_workers.specs.Options.{AreGood};

use crate::error::ServiceError;
use crate::input::{of_whole, read_whole};
use crate::joined::parts;
use crate::pairs::answer_pairs;
use crate::refusing::refuse;
use ch_estimate::{Estimator, Leases};
use ch_route::routes_are_least;
use ch_workers::{Built, Gate, OpenGate, Options, build};
use grfile::{read_graph, read_queries};
use std::alloc::Global;
use std::io::{Read, Write};
use std::sync::Wait;
use std::thread::Threads;

/// Answers pairs of nodes over a graph, by a hierarchy that is built of it for this call.
///
/// `gr` gives the text of the graph, `queries` the query file, and `out` gets one line for each pair, in
/// order: its least length, how many arcs its route has, and the nodes of the route; of all shortest paths it is one with
/// the fewest arcs. The texts are read first, the
/// graph's before the pairs', and the hierarchy is built next, as [`prepare`](crate::prepare) does; where one of them
/// is refused nothing is written. Where memory runs out while pairs are answered, the lines of the pairs before are
/// written first. On every return the estimators were dropped, and no lease of `leases` is out. Takes the time and memory
/// of [`prepare`](crate::prepare), and then those of [`route`](crate::route).
pub fn answer<G: Read, Q: Read, W: Write, P: Gate, R: Threads + Wait + Sync>(
    rt: &R,
    alloc: Global,
    gr: &mut G,
    queries: &mut Q,
    out: &mut W,
    options: Options,
    lists: Vec<Vec<Box<dyn Estimator + Send>>>,
    leases: &mut Leases,
    gate: &P,
) -> Result<(), ServiceError>
    requires untold { All (λ list. All (λ estimator. heard estimator ≡ []) list.items) lists.items }
    ensures answers { OnOk result (IfBothKnown (G.remaining gr.old) (Q.remaining queries.old)
        (λ graph pairs. Writes (Answers graph pairs) (W.contents out.old) (W.contents out.new))) }
    ensures fewest { OnOk result (IfBothKnown (G.remaining gr.old) (Q.remaining queries.old)
        (λ graph pairs. Writes (AnswersByFewest graph pairs) (W.contents out.old) (W.contents out.new))) }
    ensures good { OnOk result (AreGood options (vec_len lists)) }
    ensures leases { leases.new ≡ record leases.old { out = 0 } }

    // At a refusal.
    ensures refused { IfErr result (StopsAnswering options (vec_len lists) (G.remaining gr.old) (G.remaining gr.new) (Q.remaining queries.old) (Q.remaining queries.new) (W.contents out.old) (W.contents out.new)) }
{
    let graph = match read_graph(alloc, gr) {
        Ok(graph) => graph,
        Err(fault) => return refuse(rt, ServiceError::Graph(fault), lists, leases),
    };
    let pairs = match read_queries(alloc, queries, graph.nodes()) {
        Ok(pairs) => pairs,
        Err(fault) => return refuse(rt, ServiceError::Queries(fault), lists, leases),
    };
    routes_are_least();
    let Built { hierarchy, .. } = build(rt, alloc, graph, options, lists, leases, gate)?;
    answer_pairs(alloc, &hierarchy, pairs.as_slice(), out)
}

/// Answers pairs of nodes as [`answer`] does, where one input holds both texts: the graph's, a line that is the
/// single byte `%`, and the pairs'. The lines of each text are counted by themselves.
///
/// The input is read to its end first. A read that fails is a fault of the graph's text, also behind the line `%`, at one
/// more line than there were line feeds of the input before it. The hierarchy is built without workers.
pub fn answer_joined<I: Read, W: Write, R: Threads + Wait + Sync>(
    rt: &R,
    alloc: Global,
    input: &mut I,
    out: &mut W,
) -> Result<(), ServiceError>
    ensures answers { OnOk result (IfSome (I.remaining input.old)
        (λ text. Writes (Answers (graph_part text) (pairs_part text)) (W.contents out.old) (W.contents out.new))) }
    ensures fewest { OnOk result (IfSome (I.remaining input.old)
        (λ text. Writes (AnswersByFewest (graph_part text) (pairs_part text)) (W.contents out.old) (W.contents out.new))) }

    ensures refused { IfErr result (StopsInJoined (I.remaining input.old) (I.remaining input.new) (W.contents out.old) (W.contents out.new)) }
{
    let text = read_whole(alloc, input)?;
    let (mut graph, mut pairs) = parts(text.as_slice());
    let lists = Vec::new(alloc);
    let mut leases = Leases::new(alloc)?;
    let answered = answer(
        rt,
        alloc,
        &mut graph,
        &mut pairs,
        out,
        Options::PLAIN,
        lists,
        &mut leases,
        &OpenGate,
    );
    match answered {
        Ok(()) => Ok(()),
        Err(refusal) => Err(of_whole(text.as_slice(), refusal)),
    }
}
