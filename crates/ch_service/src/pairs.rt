ghost use Rattle.std.specs.Prelude.{◌≡◌, ℕ, All, OnOk, IfErr, length, take};
ghost use Rattle.grfile.specs.Reading.{IsPair};
ghost use Rattle.ch_service.specs.Outcome.{Writes, StopsShort};
ghost use Rattle.ch_service.specs.Progress.{PutsPairs};
ghost use Rattle.ch_service.specs.Answer.{Routed, StopsAtTooLong};

use crate::error::ServiceError;
use ch_answer::put_line;
use ch_graph::Hierarchy;
use ch_route::Router;
use counted_io::{MOST_CALLS, Sink, StepWrite};
use std::alloc::Global;
use std::io::Write;

/// Writes the answers to the pairs, in order, by one router of the hierarchy. Where one of them is refused, the lines
/// of the pairs before are written first.
pub fn answer_pairs<W: Write>(
    alloc: Global,
    hierarchy: &Hierarchy,
    pairs: &[(u32, u32)],
    out: &mut W,
) -> Result<(), ServiceError>
    requires { All (IsPair (length hierarchy.now.ranks)) pairs.now }
    ensures routed { OnOk result (Writes (Routed hierarchy.now pairs.now) (W.contents out.old) (W.contents out.new)) }
    ensures stops { IfErr result (StopsShort (λ text. (count : ℕ) × Routed hierarchy.now (take count pairs.now) text) (StopsAtTooLong hierarchy.now pairs.now) (W.contents out.old) (W.contents out.new)) }
{
    let mut router = Router::new(alloc, hierarchy)?;
    let mut sink = Sink::new(MOST_CALLS);
    let answered = put_pairs(&mut router, pairs, &mut sink, out);
    sink.finish(out)?;
    answered
}

// Puts the answers to the pairs, up to the first that is refused, or to a failure of the writer.
fn put_pairs<W: StepWrite>(
    router: &mut Router<'_>,
    pairs: &[(u32, u32)],
    sink: &mut Sink,
    out: &mut W,
) -> Result<(), ServiceError>
    requires { All (IsPair (length router.old.ranks)) pairs.now }
    ensures { PutsPairs W.step W.contents router.old pairs.now sink.old sink.new out.old out.new result }
{
    'pairs: for pair in pairs {
        if sink.has_failed() {
            return Ok(());
        }
        let route = router.route(*pair)?;
        put_line(*pair, &route, sink, out);
    }
    Ok(())
}
