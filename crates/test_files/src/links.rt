ghost use Rattle.std.specs.Prelude.{◌≡◌, None, AllPairs};
ghost use Rattle.ch_cost.specs.Cost.{of_weight};
ghost use Rattle.ch_graph.specs.Hierarchy.{ComesBefore};
ghost use Rattle.ch_graph.specs.LinkIndex.{IsIndexOf};

use ch_cost::{Cost, NarrowCost};
use ch_graph::{Hierarchy, Link, LinkHalves, LinkId, LinkIndex, Middle, Parts};
use std::alloc::{AllocError, Global};
use std::test::Fail;

fn link(from: u32, to: u32) -> Link
    ensures { result ≡ record { from = from; to = to; cost = of_weight 7; middle = None } }
{
    Link {
        from,
        to,
        cost: NarrowCost::of_weight(7),
        middle: Middle::NONE,
    }
}

// Two nodes, ranked in their order, and a link of weight 7 from the first to the second.
fn two_nodes(alloc: Global, is_indexed: bool) -> Result<Hierarchy, Fail> {
    let ranks = vec![in alloc; 0, 1]?;
    let links = vec![in alloc; link(0, 1)]?;
    let hierarchy = Hierarchy::checked(alloc, ranks, links, Cost::of_weight(7))?;
    if is_indexed {
        return Ok(hierarchy.into_indexed(alloc)?);
    }
    Ok(hierarchy)
}

/// Two nodes, and the place of the link from one to the other among three links.
const PLACES: &[(u32, u32, Option<LinkId>)] = &[
    (0, 2, Some(LinkId(0))),
    (1, 0, Some(LinkId(1))),
    (1, 2, Some(LinkId(2))),
    (1, 1, None),
    (0, 0, None),
    (2, 1, None),
    (3, 0, None),
    (u32::MAX, u32::MAX, None),
];

/// Whether three links are found where they are, and no others.
fn finds_three(index: &LinkIndex, links: &[Link]) -> bool
    requires sorted { AllPairs ComesBefore links.now }
    requires index { IsIndexOf links.now index.now }
{
    let mut holds = true;
    for (from, to, place) in PLACES {
        holds &= index.find(links, *from, *to) == *place;
    }
    holds
}

#[test]
fn finds_links(rt: HostRuntime) -> Result<(), AllocError> {
    let links = [link(0, 2), link(1, 0), link(1, 2)];
    let index = LinkIndex::new(rt.alloc(), 3, &links)?;
    let none = LinkIndex::none(rt.alloc());
    let is_found = finds_three(&none, &links) & finds_three(&index, &links);
    assert!(rt; is_found & none.find(&[], 0, 1).is_none());
    Ok(())
}

/// Whether a hierarchy is of two nodes and the link from the first to the second.
fn is_of_two_nodes(hierarchy: &Hierarchy) -> bool {
    (hierarchy.nodes() == 2)
        & (hierarchy.bound().length() == 7)
        & (hierarchy.find(0, 1) == Some(LinkId(0)))
        & hierarchy.find(1, 0).is_none()
        & (hierarchy.links() == [link(0, 1)].as_slice())
}

/// Whether the hierarchy of two nodes returns its parts.
fn is_told(alloc: Global, is_indexed: bool) -> Result<bool, Fail> {
    let hierarchy = two_nodes(alloc, is_indexed)?;
    Ok(is_of_two_nodes(&hierarchy))
}

#[test]
fn returns_the_parts_of_links(rt: HostRuntime) -> Result<(), Fail> {
    assert!(rt; is_told(rt.alloc(), false)?);
    assert!(rt; is_told(rt.alloc(), true)?);
    Ok(())
}

/// What is kept of the link at a place.
fn kept(halves: &LinkHalves, place: usize) -> Option<Parts> {
    let id = LinkId(place);
    halves.get(id).map(|kept| kept.parts(id))
}

/// Whether no halves are kept at first, and then those whose place comes next and fits.
fn keeps_in_turn(halves: &mut LinkHalves) -> Result<bool, AllocError> {
    let arc = Parts::Arc(7);
    let shortcut = Parts::Shortcut(LinkId(2), LinkId(0));
    let far = Parts::Shortcut(LinkId(0), LinkId(1 << 32));
    let mut holds = kept(halves, 0).is_none();
    for (place, parts) in [(0, arc), (2, arc), (1, shortcut), (2, far), (3, arc)] {
        halves.keep(LinkId(place), parts)?;
    }
    for (place, parts) in [(0, Some(arc)), (1, Some(shortcut)), (2, None), (3, None)] {
        holds &= kept(halves, place) == parts;
    }
    Ok(holds)
}

/// Whether halves are so kept where there is room for three.
fn are_kept_in_turn(alloc: Global) -> Result<bool, AllocError> {
    let mut halves = LinkHalves::with_room(alloc, 3)?;
    keeps_in_turn(&mut halves)
}

#[test]
fn keeps_places_in_turn(rt: HostRuntime) -> Result<(), AllocError> {
    assert!(rt; are_kept_in_turn(rt.alloc())?);
    Ok(())
}
