ghost use Rattle.std.specs.Prelude.{◌≡◌};
ghost use Rattle.outcomes.specs.Outcomes.{status_after};
ghost use Rattle.performing.specs.Status.{IsInformingStatus, TellsInfo};

use outcomes::{Ending, write_info};
use std::alloc::Global;
use std::io::{Read, Write};

/// Prints what the file of a hierarchy has.
///
/// `hierarchy` gives the file. Its version, how many nodes and links it has, its bound and how many bytes it has go to
/// `out`. Takes the time and memory of [`write_info`].
pub fn perform_info<A: Read, W: Write>(alloc: Global, hierarchy: &mut A, out: &mut W) -> Ending
    ensures told { TellsInfo result (A.remaining hierarchy.old) (W.contents out.old) (W.contents out.new) }
    ensures status { IsInformingStatus (status_after result) }
{
    Ending::after(write_info(alloc, hierarchy, out))
}
