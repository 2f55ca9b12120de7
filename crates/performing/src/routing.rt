ghost use Rattle.std.specs.Prelude.{◌≡◌};
ghost use Rattle.outcomes.specs.Outcomes.{status_after};
ghost use Rattle.performing.specs.Status.{IsRoutingStatus, TellsRouted};

use crate::outcome::outcome_of;
use ch_service::{causes_tell_refusals, route};
use outcomes::Ending;
use std::alloc::Global;
use std::io::{Read, Write};

/// Answers pairs of nodes by the file of a hierarchy.
///
/// `hierarchy` gives the file and `queries` the query file. Answers go to `out`. Takes the time and memory of [`route`].
pub fn perform_route<A: Read, B: Read, W: Write>(
    alloc: Global,
    hierarchy: &mut A,
    queries: &mut B,
    out: &mut W,
) -> Ending
    ensures told { TellsRouted result (A.remaining hierarchy.old) (B.remaining queries.old) (W.contents out.old) (W.contents out.new) }
    ensures status { IsRoutingStatus (status_after result) }
{
    causes_tell_refusals();
    outcome_of(route(alloc, hierarchy, queries, out))
}
