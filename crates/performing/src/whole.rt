ghost use Rattle.std.specs.Prelude.{◌≡◌, ◌≢◌, ◌⊎◌, Some, option_map};
ghost use Rattle.outcomes.specs.Outcomes.{status_after};
ghost use Rattle.outcomes.specs.declared.cause.Cause.TheVariants.{Flush};
ghost use Rattle.outcomes.specs.declared.ending.Ending.TheVariants.{Done, Refused};
ghost use Rattle.performing.specs.Status.{HasPrepared, IsPreparingStatus, TellsPut};

use crate::outcome::outcome_of;
use crate::preparing::prepare_by;
use ch_workers::{Gate, Resources};
use jobs::Preparation;
use outcomes::{Cause, Ending};
use std::alloc::Global;
use std::io::Read;
use std::sync::Wait;
use std::thread::Threads;
use whole_file::Destination;

/// Prepares a hierarchy and puts it at its destination, whole.
///
/// `graph` gives the graph's text. If it is done, the hierarchy file is at the destination, and else what was there before.
/// The outcome says of the text what it says in [`perform_preparation`](crate::perform_preparation); where the file can't
/// be put there, it is [`Cause::Flush`]. The workers pass the gate. Threads may still drop what the build needs no longer
/// when it returns: nobody waits for them, and the process may end before they do.
pub fn prepare_whole<G: Read, D: Destination, P: Gate, R: Threads + Wait + Sync>(
    rt: &R,
    alloc: Global,
    preparation: &Preparation<'_>,
    graph: &mut G,
    destination: &mut D,
    gate: &P,
) -> Ending
    ensures done { result ≡ Done → HasPrepared (G.remaining graph.old) (D.stands destination.old) (D.stands destination.new) }
    ensures kept { result ≢ Done → D.stands destination.new ≡ D.stands destination.old }
    ensures told { TellsPut result (G.remaining graph.old) }
    ensures status { IsPreparingStatus (status_after result) }
{
    let Ok(mut draft) = destination.draft() else {
        return Ending::Refused(Cause::Memory);
    };
    let mut resources = Resources::new(rt, alloc);
    let prepared = prepare_by(&mut resources, preparation, graph, &mut draft, gate);
    finish(destination, draft, outcome_of(prepared))
}

// Puts the draft of a job that is done at its destination, and throws any other away.
pub(crate) fn finish<D: Destination>(
    destination: &mut D,
    draft: D::PendingFile,
    prepared: Ending,
) -> Ending
    ensures done { result ≡ Done → D.stands destination.new ≡ option_map Some (D.PendingFile.contents draft) }
    ensures kept { result ≢ Done → D.stands destination.new ≡ D.stands destination.old }
    ensures outcome { (result ≡ prepared) ⊎ ((prepared ≡ Done) × (result ≡ Refused Flush)) }
{
    let Ending::Done = prepared else {
        destination.discard(draft);
        return prepared;
    };
    match destination.put(draft) {
        Ok(()) => Ending::Done,
        Err(_) => Ending::Refused(Cause::Flush),
    }
}
