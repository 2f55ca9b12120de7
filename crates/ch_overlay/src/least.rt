ghost use Rattle.std.specs.Prelude.{◌≡◌, IfOk, AllPairs, filter, not, nat_eq};
ghost use Rattle.std.specs.List.{dedup};
ghost use Rattle.std.specs.List.Sorted.{IsPermutation};
ghost use Rattle.ch_overlay.specs.Opening.{AreLeast, ComesNoLater, have_same_ends};

use ch_graph::Road;
use std::alloc::{AllocError, Global};

/// Returns the least arc of each pair of different nodes that has one, by its first node and then by its second.
pub fn least_arcs(alloc: Global, arcs: &[Road]) -> Result<Vec<Road>, AllocError>
    ensures { IfOk result (λ least. AreLeast arcs.now least.items) }
{
    let mut least = sorted_arcs(alloc, arcs)?;
    least.dedup_by(|later, first| have_same_ends(*later, *first));
    Ok(least)
}

/// The arcs between different nodes, sorted by their ends and then by their weight.
fn sorted_arcs(alloc: Global, arcs: &[Road]) -> Result<Vec<Road>, AllocError>
    ensures all { IfOk result (λ sorted. IsPermutation (filter (λ r. not (nat_eq r.from r.to)) arcs.now) sorted.items) }
    ensures sorted { IfOk result (λ sorted. AllPairs ComesNoLater sorted.items) }
{
    let between_two = arcs.iter().copied().filter(|arc| arc.from != arc.to);
    let mut sorted: Vec<Road> = between_two.collect(alloc)?;
    sorted.sort_unstable_by_key(|arc| (arc.from, arc.to, arc.weight));
    Ok(sorted)
}

/// Whether both arcs leave the same node and come to the same node.
fn have_same_ends(a: Road, b: Road) -> bool
    ensures { result ≡ have_same_ends a b }
{
    (a.from == b.from) & (a.to == b.to)
}
