ghost use Rattle.std.specs.Prelude.{◌≡◌, ◌≢◌};
ghost use Rattle.outcomes.specs.Outcomes.{status_after};
ghost use Rattle.outcomes.specs.declared.ending.Ending.TheVariants.{Done};
ghost use Rattle.ch_renew.specs.Renewal.{TellsRenewed};
ghost use Rattle.performing.specs.Status.{HasRenewed, IsRenewingStatus, TellsRenewedPut};

use crate::whole::finish;
use ch_renew::{Watch, renew};
use outcomes::{Cause, Ending};
use std::alloc::Global;
use std::io::{Read, Write};
use whole_file::Destination;

/// Makes the hierarchy of a graph by the ranks of another hierarchy.
///
/// `graph` gives the graph's text and `hierarchy` the file of the other one, which is not believed. The file that is made
/// goes to `out`. The watch sees how many nodes are contracted. Takes the time and memory of [`renew`].
pub fn perform_renewal<A: Read, B: Read, W: Write, V: Watch>(
    alloc: Global,
    graph: &mut A,
    hierarchy: &mut B,
    out: &mut W,
    watch: &V,
) -> Ending
    ensures told { TellsRenewed result (A.remaining graph.old) (B.remaining hierarchy.old) (W.contents out.old) (W.contents out.new) }
    ensures status { IsRenewingStatus (status_after result) }
{
    renew(alloc, graph, hierarchy, out, watch)
}

/// Makes the hierarchy of a graph by the ranks of another hierarchy, and puts it at its destination, whole.
///
/// If it is done, the hierarchy file is at the destination, and else what was there before. The outcome says of the text
/// and the file what it says in [`perform_renewal`]; where the file can't be put there, it is [`Cause::Flush`].
pub fn renew_whole<A: Read, B: Read, D: Destination, V: Watch>(
    alloc: Global,
    graph: &mut A,
    hierarchy: &mut B,
    destination: &mut D,
    watch: &V,
) -> Ending
    ensures done { result ≡ Done → HasRenewed (A.remaining graph.old) (B.remaining hierarchy.old) (D.stands destination.old) (D.stands destination.new) }
    ensures kept { result ≢ Done → D.stands destination.new ≡ D.stands destination.old }
    ensures told { TellsRenewedPut result (A.remaining graph.old) (B.remaining hierarchy.old) }
    ensures status { IsRenewingStatus (status_after result) }
{
    let Ok(mut draft) = destination.draft() else {
        return Ending::Refused(Cause::Memory);
    };
    let renewed = renew(alloc, graph, hierarchy, &mut draft, watch);
    finish(destination, draft, renewed)
}
