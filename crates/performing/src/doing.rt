ghost use Rattle.std.specs.Prelude.{◌≡◌, ◌⊎◌, true};
ghost use Rattle.std.specs.Io.KnownBytes.{Keeps};
ghost use Rattle.jobs.specs.Job.{is_joined, IsPreparing, IsInforming};
ghost use Rattle.outcomes.specs.Outcomes.{IsQuiet};
ghost use Rattle.performing.specs.Status.{EndsWith, IsStatusOf, Tells};

use crate::answering::{perform_answer, perform_joined};
use crate::checking::perform_check;
use crate::informing::perform_info;
use crate::preparing::perform_preparation;
use crate::renewing::perform_renewal;
use crate::routing::perform_route;
use ch_verify::Unwatched;
use ch_workers::OpenGate;
use jobs::Job;
use outcomes::Ending;
use std::alloc::Global;
use std::io::{Read, Write};
use std::sync::Wait;
use std::thread::Threads;

/// Does the job and returns the program's exit status, by [`perform_answer`], [`perform_joined`], [`perform_preparation`],
/// [`perform_route`], [`perform_info`], [`perform_check`] or [`perform_renewal`]. A caller that knows its job calls that one.
///
/// To answer, `first` gives the graph's text and `second` that of the pairs; where both are in one input, `first` gives it
/// and `second` isn't read. To prepare, `first` gives the graph's text, `second` isn't read, and `out` gets the hierarchy.
/// To route, `first` gives the hierarchy and `second` the query file; to print what a hierarchy file has, `first` gives it
/// and `second` isn't read; to check and to renew, `first` gives the graph's text and `second` the hierarchy; to renew,
/// `out` gets the new one. Answers and verdicts go to `out`. Of a refusal one line
/// goes to `err`. Threads are started only to prepare and to answer: the workers, and those that make the opening rows and
/// the parts of the hierarchy at the end.
pub fn perform<A: Read, B: Read, W: Write, E: Write, R: Threads + Wait + Sync>(
    rt: &R,
    alloc: Global,
    job: &Job<'_>,
    first: &mut A,
    second: &mut B,
    out: &mut W,
    err: &mut E,
) -> u8
    ensures told { EndsWith result (λ outcome. Tells job.now outcome (A.remaining first.old) (B.remaining second.old) (W.contents out.old) (W.contents out.new)) }

    // Whatever is known of the bytes of readers and writers.
    ensures status { IsStatusOf job.now result }
    ensures mixed { result ≡ 8 → Keeps (W.contents out.old) (W.contents out.new) }
    ensures unread { (is_joined job.now ≡ true) ⊎ IsPreparing job.now ⊎ IsInforming job.now → second.new ≡ second.old }
    ensures quiet { IsQuiet result → err.new ≡ err.old }
{
    outcome_of_job(rt, alloc, job, first, second, out).report(err)
}

// Does the job.
fn outcome_of_job<A: Read, B: Read, W: Write, R: Threads + Wait + Sync>(
    rt: &R,
    alloc: Global,
    job: &Job<'_>,
    first: &mut A,
    second: &mut B,
    out: &mut W,
) -> Ending
    ensures told { Tells job.now result (A.remaining first.old) (B.remaining second.old) (W.contents out.old) (W.contents out.new) }
    ensures unread { (is_joined job.now ≡ true) ⊎ IsPreparing job.now ⊎ IsInforming job.now → second.new ≡ second.old }
{
    match job {
        Job::Answer { .. } if job.is_joined() => perform_joined(rt, alloc, first, out),
        Job::Answer { .. } => perform_answer(rt, alloc, first, second, out),
        Job::Prepare(preparation) => {
            perform_preparation(rt, alloc, preparation, first, out, &OpenGate)
        }
        Job::Route { .. } => perform_route(alloc, first, second, out),
        Job::Info { .. } => perform_info(alloc, first, out),
        Job::Check(_) => perform_check(alloc, first, second, out, &Unwatched),
        Job::Renew(_) => perform_renewal(alloc, first, second, out, &Unwatched),
    }
}
