ghost use Rattle.std.specs.Prelude.{◌≡◌, option_map};
ghost use Rattle.ch_service.specs.Answer.{graph_part, pairs_part};
ghost use Rattle.outcomes.specs.Outcomes.{status_after};
ghost use Rattle.performing.specs.Status.{IsAnsweringStatus, TellsAnswers, outcome_of};

use crate::outcome::outcome_of;
use crate::preparing::options;
use ch_estimate::Leases;
use ch_service::{ServiceError, answer, answer_joined, causes_tell_refusals};
use ch_workers::OpenGate;
use jobs::{Stint, Workers};
use outcomes::Ending;
use std::alloc::Global;
use std::io::{Read, Write};
use std::sync::Wait;
use std::thread::Threads;

/// Answers the pairs of one text over the graph of another.
///
/// `graph` gives the graph's text and `queries` that of the pairs. Answers go to `out`. No worker contracts nodes but the
/// calling thread; other threads help with the parts of the hierarchy, and drop what isn't needed any more. Takes the time
/// and memory of [`answer`].
pub fn perform_answer<A: Read, B: Read, W: Write, R: Threads + Wait + Sync>(
    rt: &R,
    alloc: Global,
    graph: &mut A,
    queries: &mut B,
    out: &mut W,
) -> Ending
    ensures told { TellsAnswers result (A.remaining graph.old) (B.remaining queries.old) (W.contents out.old) (W.contents out.new) }
    ensures status { IsAnsweringStatus (status_after result) }
{
    outcome_of(answer_alone(rt, alloc, graph, queries, out))
}

/// Does the same where one input has both texts: the graph's, a line that is the single byte `%`, and that of the
/// pairs.
pub fn perform_joined<I: Read, W: Write, R: Threads + Wait + Sync>(
    rt: &R,
    alloc: Global,
    input: &mut I,
    out: &mut W,
) -> Ending
    ensures told { TellsAnswers result (option_map graph_part (I.remaining input.old)) (option_map pairs_part (I.remaining input.old)) (W.contents out.old) (W.contents out.new) }
    ensures status { IsAnsweringStatus (status_after result) }
{
    causes_tell_refusals();
    outcome_of(answer_joined(rt, alloc, input, out))
}

// Answers the pairs by a hierarchy whose nodes the calling thread contracts.
fn answer_alone<A: Read, B: Read, W: Write, R: Threads + Wait + Sync>(
    rt: &R,
    alloc: Global,
    graph: &mut A,
    queries: &mut B,
    out: &mut W,
) -> Result<(), ServiceError>
    ensures { TellsAnswers (outcome_of result) (A.remaining graph.old) (B.remaining queries.old) (W.contents out.old) (W.contents out.new) }
{
    causes_tell_refusals();
    let mut leases = Leases::new(alloc)?;
    let options = options(Workers::none(), 1, Stint::longest());
    let lists = Vec::new(alloc);
    answer(
        rt,
        alloc,
        graph,
        queries,
        out,
        options,
        lists,
        &mut leases,
        &OpenGate,
    )
}
