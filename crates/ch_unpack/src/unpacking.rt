ghost use Rattle.std.specs.Prelude.{◌≡◌, ◌+◌, ◌^◌, ◌++◌, [], ◌∷◌, ◌<◌, ◌≤◌, IfOk, OnOk, length, reverse};
ghost use Rattle.ch_graph.specs.Unfolding.{Joined};
ghost use Rattle.ch_unpack.specs.Unpacking.{IsUnpacked, IsTooLong};

use crate::error::UnpackError;
use ch_graph::{Hierarchy, LinkId, Parts, links_unfold};
use smallvec::SmallVec;
use std::alloc::{AllocError, Global};

/// Returns the nodes of the route from `source` along the links at these places: the source, and then the heads of
/// the arcs that the links represent, in order.
///
/// The first link leaves `source`, and each other leaves the node where the one before it came to. `TooLong` where
/// the arcs are not fewer than the nodes of the hierarchy, since then the route repeats a node.
///
/// It keeps the nodes that it came to and the places of the links that still lie ahead, together at most as many as the
/// hierarchy has nodes, and asks for the parts of each of these once, however many arcs the links represent: as soon as
/// they would be more it ends, and it never calls itself.
///
/// In the hierarchy that is drawn at `Search::distance` of `ch_query`, the least walk from 0 to 3 is a link that is an
/// arc, and then a shortcut by way of 4. So its route is 0, 1, 4, 3:
///
/// ```text
///      2          2
/// 0 ------> 1 =========> 3     the links from 0 to 3
///
///      2         1         1
/// 0 ------> 1 ------> 4 ------> 3     the arcs that they represent
/// ```
pub fn unpack(
    alloc: Global,
    hierarchy: &Hierarchy,
    source: u32,
    links: &[LinkId],
) -> Result<Vec<u32>, UnpackError>
    requires source_in { source < length hierarchy.now.ranks }
    requires joined { Joined hierarchy.now source links.now }
    ensures nodes { IfOk result (λ nodes. IsUnpacked hierarchy.now source links.now nodes.items) }
    ensures too_long { result ≡ Err UnpackError.TooLong → IsTooLong hierarchy.now links.now }
{
    links_unfold();
    let room = hierarchy.nodes() as usize;
    if links.len() >= room {
        return Err(UnpackError::TooLong);
    }
    let mut nodes = Vec::new(alloc);
    nodes.push(source)?;
    let mut ahead = last_first(alloc, links)?;
    let mut next = ahead.pop();
    'route: while let Some(link) = next {
        match hierarchy.parts(link) {
            Parts::Shortcut(first, second) => {
                turn_off(&mut ahead, nodes.len(), room, second)?;
                next = Some(first);
            }
            Parts::Arc(to) => {
                nodes.push(to)?;
                next = ahead.pop();
            }
        }
    }
    Ok(nodes)
}

// Puts the second half of a shortcut ahead, where that and its first half leave the nodes that the route came to and the
// links ahead together at most as many as there is room for. Else it goes no further: each link ahead represents one arc or
// more, so the route has more than it may have.
fn turn_off(
    ahead: &mut SmallVec<LinkId, 32>,
    nodes: usize,
    room: usize,
    second: LinkId,
) -> Result<(), UnpackError>
    requires so_far { nodes + length ahead.old.items < room }
    requires few { room < 2 ^ 32 }
    ensures half { OnOk result (ahead.new.items ≡ ahead.old.items ++ second ∷ []) }
    ensures in_room { OnOk result (nodes + length ahead.new.items + 1 ≤ room) }
    ensures too_long { result ≡ Err UnpackError.TooLong → room < nodes + length ahead.old.items + 2 }
{
    if nodes + ahead.len() + 2 > room {
        return Err(UnpackError::TooLong);
    }
    ahead.push(second)?;
    Ok(())
}

/// The same places, the last first.
fn last_first(alloc: Global, places: &[LinkId]) -> Result<SmallVec<LinkId, 32>, AllocError>
    ensures { IfOk result (λ ahead. reverse ahead.items ≡ places.now) }
{
    places.iter().rev().copied().collect(alloc)
}
