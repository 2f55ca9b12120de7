ghost use Rattle.std.specs.Prelude.{◌≡◌};
ghost use Rattle.outcomes.specs.Outcomes.{status_after};

use crate::explaining::{Ended, explain};
use jobs::Job;
use std::io::Write;
use std::rt::Files;

/// Ends a job: writes the line of a refusal and, if it `explains`, the lines of [`explain`], and returns the program's exit
/// status. If it `is_silent`, nothing is written. Lines that can't be written are not reported.
pub fn conclude<R: Files + AllocGlobal, E: Write>(
    rt: &R,
    job: &Job<'_>,
    ended: &Ended<'_>,
    explains: bool,
    is_silent: bool,
    err: &mut E,
) -> u8
    ensures { result ≡ status_after ended.now.outcome }
{
    if is_silent {
        return ended.outcome.status();
    }
    let status = ended.outcome.report(err);
    if explains {
        explain(rt, job, ended, err);
    }
    status
}
