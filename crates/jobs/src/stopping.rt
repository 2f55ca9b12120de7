ghost use Rattle.std.specs.Prelude.{◌≡◌};
ghost use Rattle.jobs.specs.Stops.{HasStatus, IsShown};

use crate::job::Stop;
use std::io::Write;

/// Shows why the command line names no job, and returns the program's exit status: help and the version go to
/// `out`, and a refusal to `err`.
pub fn show_stop<W: Write, E: Write>(stop: &Stop, out: &mut W, err: &mut E) -> u8
    ensures status { HasStatus stop.now result }
    ensures shown { result ≡ 0 → IsShown stop.now (W.contents out.old) (W.contents out.new) }
{
    match stop {
        Stop::Told(text) => match out.write_all(text.as_bytes()) {
            Ok(()) => 0,
            Err(_) => end(7, "write", err),
        },
        Stop::Refused(text) => {
            let _ = err.write_all(text.as_bytes());
            2
        }
        Stop::NotText => end(2, "an argument isn't text in UTF-8", err),
        Stop::OneFile => end(2, "GRAPH and OUT are one file", err),
        Stop::OutOfTurn => end(2, "--stint takes edges, neighbours or depth", err),
        Stop::OutOfMemory => end(6, "memory", err),
    }
}

// Writes a line of the program's own and returns the status. A line that can't be written is not reported.
fn end<E: Write>(status: u8, line: &str, err: &mut E) -> u8
    ensures { result ≡ status }
{
    let _ = writeln!(err, "routecli: {line}");
    status
}
