ghost use Rattle.std.specs.Prelude.{◌≡◌, ◌⊎◌};
ghost use Rattle.outcomes.specs.Outcomes.{status_after};
ghost use Rattle.performing.specs.Status.{TellsUnwritable};

use ch_service::causes_tell_refusals;
use grfile::read_graph;
use outcomes::{Cause, Ending, WriteFault};
use std::alloc::Global;
use std::io::Read;

/// Returns how a job ends that makes a hierarchy's file from a graph's text, if that file can't be made.
///
/// The text is read to its end, because a fault of the text is reported before one of the file. Nothing is built. Takes the
/// time and memory of [`read_graph`].
pub fn refuse_unwritable<G: Read>(alloc: Global, graph: &mut G) -> Ending
    ensures told { TellsUnwritable result (G.remaining graph.old) }
    ensures status { (status_after result ≡ 3) ⊎ (status_after result ≡ 6) ⊎ (status_after result ≡ 7) }
{
    causes_tell_refusals();
    match read_graph(alloc, graph) {
        Ok(_) => Ending::Refused(Cause::Write(WriteFault { written: 0 })),
        Err(fault) => Ending::Refused(Cause::of_graph(fault)),
    }
}
