ghost use Rattle.std.specs.Prelude.{◌≡◌};
ghost use Rattle.outcomes.specs.Outcomes.{status_after};
ghost use Rattle.performing.specs.Status.{IsCheckingStatus, TellsChecked, ending_found};

use ch_verify::{FileVerdict, Watch, verify};
use outcomes::Ending;
use std::alloc::Global;
use std::io::{Read, Write};

/// Checks the file of a hierarchy against the text of a graph, whoever made it.
///
/// `graph` gives the graph's text and `hierarchy` the file. The line of the verdict goes to `out`. The watch sees how many
/// nodes are checked. Takes the time and memory of [`verify`].
pub fn perform_check<A: Read, B: Read, W: Write, V: Watch>(
    alloc: Global,
    graph: &mut A,
    hierarchy: &mut B,
    out: &mut W,
    watch: &V,
) -> Ending
    ensures told { TellsChecked result (A.remaining graph.old) (B.remaining hierarchy.old) (W.contents out.old) (W.contents out.new) }
    ensures status { IsCheckingStatus (status_after result) }
{
    match verify(alloc, graph, hierarchy, out, watch) {
        Ok(verdict) => ending_found(verdict),
        Err(cause) => Ending::Refused(cause),
    }
}

// The outcome of a verdict.
fn ending_found(verdict: FileVerdict) -> Ending
    ensures { result ≡ ending_found verdict }
{
    match verdict {
        FileVerdict::Right => Ending::Done,
        FileVerdict::Wrong(_) => Ending::Wrong,
        FileVerdict::NotShown(_) => Ending::NotShown,
    }
}
