//! Hierarchies made of any ranks, links and bound: those that are well made, and why the others are refused.
ghost use Rattle.std.specs.Prelude.{◌≡◌, IfOk};

use crate::costs::{Numbers, cost_of};
use ch_cost::{Cost, NarrowCost};
use ch_graph::{Hierarchy, HierarchyError, Link, LinkId, Middle};
use ch_unpack::{UnpackError, unpack};
use std::alloc::{AllocError, Global};
use std::test::Fail;

/// A link by its ends, what it costs and its middle.
pub type Given = (u32, u32, (u64, u32), Option<u32>);

/// The link of a row of three nodes that leaves the first.
const UP: Given = (0, 2, (3, 1), None);

/// The one that comes to the first.
const DOWN: Given = (1, 0, (2, 1), None);

/// The shortcut by way of the first.
const SHORTCUT: Given = (1, 2, (5, 2), Some(0));

/// The row.
pub const ROW: &[Given] = &[UP, DOWN, SHORTCUT];

/// The row as files of version 1 have it.
const ROW_BY_WEIGHT: &[Given] = &[
    (0, 2, (3, 0), None),
    (1, 0, (2, 0), None),
    (1, 2, (5, 0), Some(0)),
];

/// Nodes 1 to 3, each joined to the next by way of node 0, and a link of as many arcs as there are nodes.
const TOO_MANY_ARCS: &[Given] = &[
    (0, 2, (1, 1), None),
    (0, 3, (1, 1), None),
    (1, 0, (1, 1), None),
    (1, 2, (2, 2), Some(0)),
    (1, 3, (4, 4), Some(2)),
    (2, 0, (1, 1), None),
    (2, 3, (2, 2), Some(0)),
];

/// The ranks of the hierarchy that is drawn at `Search::distance`.
pub const DRAWN_RANKS: &[u32] = &[0, 4, 2, 3, 1];

/// Its links.
pub const DRAWN: &[Given] = &[
    (0, 1, (2, 1), None),
    (1, 2, (3, 1), None),
    (1, 3, (2, 2), Some(4)),
    (1, 4, (1, 1), None),
    (2, 1, (3, 1), None),
    (2, 3, (5, 1), None),
    (3, 1, (2, 2), Some(4)),
    (3, 2, (5, 1), None),
    (3, 4, (1, 1), None),
    (4, 1, (1, 1), None),
    (4, 3, (1, 1), None),
];

/// The greatest length of a bound of three nodes.
const GREATEST: u64 = 8_589_934_590;

/// The middle that is this node, if there is one.
pub fn middle_of(node: Option<u32>) -> Middle {
    match node {
        Some(node) if node < u32::MAX => Middle::at(node),
        _ => Middle::NONE,
    }
}

fn links_of(alloc: Global, links: &[Given]) -> Result<Vec<Link>, AllocError> {
    let mut made = Vec::new(alloc);
    for (from, to, (length, arcs), middle) in links {
        made.push(Link {
            from: *from,
            to: *to,
            cost: NarrowCost::of_walk(*length, *arcs),
            middle: middle_of(*middle),
        })?;
    }
    Ok(made)
}

/// The hierarchy of version 2 of these ranks, links and bound.
pub fn hierarchy_of(
    alloc: Global,
    ranks: &[u32],
    links: &[Given],
    bound: Numbers,
) -> Result<Hierarchy, Fail>
    ensures { IfOk result (λ h. h.ranks ≡ ranks.now) }
{
    let ranks = Vec::from_slice(alloc, ranks)?;
    let links = links_of(alloc, links)?;
    let hierarchy = Hierarchy::checked(alloc, ranks, links, cost_of(bound))?;
    Ok(hierarchy)
}

/// A version, ranks, links and a bound.
type Case<'a> = (u8, &'a [u32], &'a [Given], Numbers);

/// The hierarchy of these, or why there is none.
fn checked(
    alloc: Global,
    (version, ranks, links, bound): Case<'_>,
) -> Result<Result<Hierarchy, HierarchyError>, AllocError> {
    let ranks = Vec::from_slice(alloc, ranks)?;
    let links = links_of(alloc, links)?;
    if version == 1 {
        return Ok(Hierarchy::checked_v1(alloc, ranks, links, cost_of(bound)));
    }
    Ok(Hierarchy::checked(alloc, ranks, links, cost_of(bound)))
}

/// Whether the hierarchy finds each of its links where it is.
fn finds_each_link(hierarchy: &Hierarchy) -> bool {
    let mut holds = true;
    for (place, link) in hierarchy.links().iter().enumerate() {
        holds &= hierarchy.find(link.from, link.to) == Some(LinkId(place));
    }
    holds
}

/// Whether it has these links, and finds each of them.
fn has_links(alloc: Global, hierarchy: &Hierarchy, links: &[Given]) -> Result<bool, Fail> {
    let links = links_of(alloc, links)?;
    Ok((hierarchy.links() == links.as_slice()) & finds_each_link(hierarchy))
}

/// Whether it has these links once it has an index.
fn is_indexed(alloc: Global, hierarchy: Hierarchy, links: &[Given]) -> Result<bool, Fail> {
    let hierarchy = hierarchy.into_indexed(alloc)?;
    has_links(alloc, &hierarchy, links)
}

/// Whether there is a hierarchy of these.
fn is_made(alloc: Global, case: Case<'_>) -> Result<bool, Fail> {
    let (version, ranks, links, bound) = case;
    let hierarchy = checked(alloc, case)??;
    let holds = (hierarchy.version() == version)
        & (hierarchy.nodes() as usize == ranks.len())
        & (hierarchy.bound() == cost_of(bound));
    Ok(holds & is_indexed(alloc, hierarchy, links)?)
}

/// Whether there is none of these, for this reason.
fn is_refused(alloc: Global, case: Case<'_>, error: HierarchyError) -> Result<bool, AllocError> {
    match checked(alloc, case)? {
        Ok(_) => Ok(false),
        Err(refusal) => Ok(refusal == error),
    }
}

/// What hierarchies are made of.
const WELL_MADE: &[Case<'static>] = &[
    (2, &[0, 1, 2], ROW, (6, 2)),
    (2, &[0, 2, 1], ROW, (5, 2)),
    (2, &[2, 0, 1], &[UP, DOWN], (GREATEST, 2)),
    // Links of no weight.
    (
        2,
        &[0, 1],
        &[(0, 1, (0, 1), None), (1, 0, (0, 1), None)],
        (0, 1),
    ),
    (2, &[0], &[], (0, 0)),
    (2, &[], &[], (0, 0)),
    (1, &[0, 1, 2], ROW_BY_WEIGHT, (6, 0)),
    (1, &[2, 0, 1], &[], (GREATEST, 0)),
    (1, &[], &[], (0, 0)),
];

/// Whether there is a hierarchy of each of these.
fn are_made(alloc: Global, cases: &[Case<'_>]) -> Result<bool, Fail> {
    let mut holds = true;
    for case in cases {
        holds &= is_made(alloc, *case)?;
    }
    Ok(holds)
}

#[test]
fn is_made_of_what_is_well_made(rt: HostRuntime) -> Result<(), Fail> {
    assert!(rt; are_made(rt.alloc(), WELL_MADE)?);
    Ok(())
}

/// What no hierarchy is made of, and why.
type Refused = (Case<'static>, HierarchyError);

const REFUSED: &[Refused] = &[
    // Bounds that aren't allowed.
    (
        (2, &[0, 1, 2], ROW, (GREATEST + 1, 2)),
        HierarchyError::BadBound,
    ),
    ((2, &[0], &[], (1, 0)), HierarchyError::BadBound),
    ((2, &[], &[], (1, 0)), HierarchyError::BadBound),
    // The arcs are one fewer than the nodes.
    ((2, &[0, 1, 2], ROW, (6, 1)), HierarchyError::BadBound),
    ((2, &[0, 1, 2], ROW, (6, 3)), HierarchyError::BadBound),
    ((2, &[0], &[], (0, 1)), HierarchyError::BadBound),
    ((2, &[], &[], (0, u64::MAX)), HierarchyError::BadBound),
    // In version 1 there are none.
    (
        (1, &[0, 1, 2], ROW_BY_WEIGHT, (6, 2)),
        HierarchyError::BadBound,
    ),
    (
        (1, &[0, 1, 2], ROW_BY_WEIGHT, (GREATEST + 1, 0)),
        HierarchyError::BadBound,
    ),
    ((1, &[0], &[], (1, 0)), HierarchyError::BadBound),
    ((1, &[], &[], (0, 1)), HierarchyError::BadBound),
    // Ranks that aren't a permutation.
    ((2, &[0, 1, 3], ROW, (6, 2)), HierarchyError::BadRank(2)),
    (
        (2, &[u32::MAX, 0, 0], ROW, (6, 2)),
        HierarchyError::BadRank(0),
    ),
    ((2, &[0, 0, 1], ROW, (6, 2)), HierarchyError::BadRank(1)),
    ((2, &[2, 1, 2], ROW, (6, 2)), HierarchyError::BadRank(2)),
    // Links out of order.
    (
        (2, &[0, 1, 2], &[DOWN, UP, SHORTCUT], (6, 2)),
        HierarchyError::LinkOutOfOrder(1),
    ),
    (
        (2, &[0, 1, 2], &[UP, SHORTCUT, DOWN], (6, 2)),
        HierarchyError::LinkOutOfOrder(2),
    ),
    (
        (2, &[0, 1, 2], &[UP, UP, DOWN], (6, 2)),
        HierarchyError::LinkOutOfOrder(1),
    ),
    (
        (
            2,
            &[0, 1, 2],
            &[(0, 0, (0, 0), None), UP, (0, 1, (3, 1), None)],
            (6, 2),
        ),
        HierarchyError::LinkOutOfOrder(2),
    ),
    // Links that are wrong by themselves.
    (
        (2, &[0, 1, 2], &[(0, 3, (3, 1), None)], (6, 2)),
        HierarchyError::BadLink(0),
    ),
    (
        (2, &[0, 1, 2], &[UP, (3, 0, (3, 1), None)], (6, 2)),
        HierarchyError::BadLink(1),
    ),
    (
        (2, &[0, 1, 2], &[UP, (1, 1, (3, 1), None)], (6, 2)),
        HierarchyError::BadLink(1),
    ),
    (
        (
            2,
            &[0, 1, 2],
            &[UP, (1, 0, (6, 1), None), (1, 2, (7, 1), None)],
            (6, 2),
        ),
        HierarchyError::BadLink(2),
    ),
    (
        (2, &[0, 1, 2], &[(0, 1, (u64::MAX, 1), None)], (6, 2)),
        HierarchyError::BadLink(0),
    ),
    (
        (
            2,
            &[0, 1, 2],
            &[UP, DOWN, (1, 2, (5, 1), None), (2, 2, (1, 1), None)],
            (6, 2),
        ),
        HierarchyError::BadLink(3),
    ),
    // Links that count arcs wrongly.
    // One arc where there is no middle, and else some.
    (
        (2, &[0, 1, 2], &[UP, (1, 0, (0, 0), None)], (6, 2)),
        HierarchyError::BadLink(1),
    ),
    (
        (2, &[0, 1, 2], &[UP, (1, 0, (2, 0), None)], (6, 2)),
        HierarchyError::BadLink(1),
    ),
    (
        (2, &[0, 1, 2], &[UP, (1, 0, (2, 2), None)], (6, 2)),
        HierarchyError::BadLink(1),
    ),
    (
        (2, &[0, 1, 2], &[(0, 1, (3, u32::MAX), None)], (6, 2)),
        HierarchyError::BadLink(0),
    ),
    (
        (2, &[0, 1, 2], &[UP, DOWN, (1, 2, (5, 0), Some(0))], (6, 2)),
        HierarchyError::BadLink(2),
    ),
    // Fewer arcs than there are nodes.
    (
        (2, &[0, 1, 2, 3], TOO_MANY_ARCS, (4, 3)),
        HierarchyError::BadLink(4),
    ),
    // In version 1 some weight, and no arcs.
    (
        (1, &[0, 1, 2], &[(0, 2, (0, 0), None)], (6, 0)),
        HierarchyError::BadLink(0),
    ),
    (
        (1, &[0, 1, 2], &[(0, 2, (7, 0), None)], (6, 0)),
        HierarchyError::BadLink(0),
    ),
    (
        (1, &[0, 1, 2], &[(0, 2, (3, 0), None), DOWN], (6, 0)),
        HierarchyError::BadLink(1),
    ),
    (
        (
            1,
            &[0, 1, 2],
            &[
                (0, 2, (3, 0), None),
                (1, 0, (2, 0), None),
                (1, 2, (4, 0), Some(0)),
            ],
            (6, 0),
        ),
        HierarchyError::BadLink(2),
    ),
    // Shortcuts without their halves.
    // One half or both aren't there.
    (
        (2, &[0, 1, 2], &[DOWN, SHORTCUT], (6, 2)),
        HierarchyError::BadLink(1),
    ),
    (
        (2, &[0, 1, 2], &[UP, SHORTCUT], (6, 2)),
        HierarchyError::BadLink(1),
    ),
    (
        (2, &[0, 1, 2], &[SHORTCUT], (6, 2)),
        HierarchyError::BadLink(0),
    ),
    // They don't sum to its length or its arcs.
    (
        (2, &[0, 1, 2], &[UP, DOWN, (1, 2, (4, 2), Some(0))], (6, 2)),
        HierarchyError::BadLink(2),
    ),
    (
        (2, &[0, 1, 2], &[UP, DOWN, (1, 2, (6, 2), Some(0))], (6, 2)),
        HierarchyError::BadLink(2),
    ),
    (
        (2, &[0, 1, 2], &[UP, DOWN, (1, 2, (5, 1), Some(0))], (6, 2)),
        HierarchyError::BadLink(2),
    ),
    (
        (
            2,
            &[1, 2, 0],
            &[
                (0, 1, (1, 2), Some(2)),
                (0, 2, (u64::MAX, 1), None),
                (2, 1, (2, 1), None),
            ],
            (6, 2),
        ),
        HierarchyError::BadLink(0),
    ),
    // Their middle ranks above an end, or both.
    ((2, &[1, 0, 2], ROW, (6, 2)), HierarchyError::BadLink(2)),
    ((2, &[1, 2, 0], ROW, (6, 2)), HierarchyError::BadLink(2)),
    ((2, &[2, 0, 1], ROW, (6, 2)), HierarchyError::BadLink(2)),
    // Their middle is no node.
    (
        (
            2,
            &[0, 1, 2],
            &[
                (1, 2, (5, 2), Some(7)),
                (1, 7, (2, 1), None),
                (7, 2, (3, 1), None),
            ],
            (6, 2),
        ),
        HierarchyError::BadLink(1),
    ),
];

/// Whether there is none of each of these, for its reason.
fn are_refused(alloc: Global, cases: &[Refused]) -> Result<bool, AllocError> {
    let mut holds = true;
    for (case, error) in cases {
        holds &= is_refused(alloc, *case, *error)?;
    }
    Ok(holds)
}

#[test]
fn reports_why_none_is_made(rt: HostRuntime) -> Result<(), Fail> {
    assert!(rt; are_refused(rt.alloc(), REFUSED)?);
    Ok(())
}

#[test]
fn refuses_too_many_nodes(rt: HostRuntime) -> Result<(), Fail> {
    let ranks = vec![in rt.alloc(); 0u32; 33_554_433]?;
    let refused = Hierarchy::checked(rt.alloc(), ranks, Vec::new(rt.alloc()), Cost::ZERO).err();
    assert!(rt; refused == Some(HierarchyError::TooManyNodes));
    Ok(())
}

/// Of 38 nodes, each of the rank of its number, the links of each two: of the length that two to the lesser number is, by
/// way of the node before the lesser. In version 2 a link has as many arcs as it is long, or 2^32 - 1.
fn cascade(alloc: Global, version: u8) -> Result<Vec<Given>, AllocError> {
    let mut links = Vec::new(alloc);
    for from in 0..38u32 {
        for to in 0..38u32 {
            let least = from.min(to);
            let length = 1u64.wrapping_shl(least);
            let arcs = if version == 1 {
                0
            } else {
                u32::try_from(length).unwrap_or(u32::MAX)
            };
            if from != to {
                links.push((from, to, (length, arcs), least.checked_sub(1)))?;
            }
        }
    }
    Ok(links)
}

/// The hierarchy of the cascade, or why there is none.
fn checked_cascade(
    alloc: Global,
    version: u8,
) -> Result<Result<Hierarchy, HierarchyError>, AllocError> {
    let mut ranks = Vec::new(alloc);
    for rank in 0..38u32 {
        ranks.push(rank)?;
    }
    let links = cascade(alloc, version)?;
    let arcs = if version == 1 { 0 } else { 37 };
    let bound = (158_913_789_915, arcs);
    checked(alloc, (version, ranks.as_slice(), links.as_slice(), bound))
}

/// Returns the nodes of the route along the link from one node to another, or `None` where there is no such link.
pub fn route(
    alloc: Global,
    hierarchy: &Hierarchy,
    from: u32,
    to: u32,
) -> Option<Result<Vec<u32>, UnpackError>> {
    if from >= hierarchy.nodes() {
        return None;
    }
    let link = hierarchy.find(from, to)?;
    Some(unpack(alloc, hierarchy, from, &[link]))
}

/// Whether there is a route, and it goes along these nodes.
pub fn is_route(route: Option<Result<Vec<u32>, UnpackError>>, nodes: &[u32]) -> bool {
    match route {
        Some(Ok(route)) => route.as_slice() == nodes,
        _ => false,
    }
}

/// Whether a route is refused, since it is too long.
pub fn is_too_long(route: Option<Result<Vec<u32>, UnpackError>>) -> bool {
    matches!(route, Some(Err(UnpackError::TooLong)))
}

/// One link represents 2^36 arcs, and a route of 38 nodes has at most 37. Version 1 doesn't count them; in version 2 the
/// link from 6 to 7 is the first of more.
#[test]
fn unpacks_no_route_that_is_too_long(rt: HostRuntime) -> Result<(), Fail> {
    let refused = checked_cascade(rt.alloc(), 2)?.err();
    assert!(rt; refused == Some(HierarchyError::BadLink(228)));
    let hierarchy = checked_cascade(rt.alloc(), 1)??;
    assert!(rt; is_route(route(rt.alloc(), &hierarchy, 2, 1), &[2, 0, 1]));
    assert!(rt; is_too_long(route(rt.alloc(), &hierarchy, 37, 36)));
    Ok(())
}
