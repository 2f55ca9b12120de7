ghost use Rattle.std.specs.Prelude.{◌≡◌, ◌≢◌, ◌<◌, ◌↔◌, ℕ, length, slice_index, All, AllPairs, Some, ◌-◌, ◌^◌, ◌≤◌, IfErr, IfNone, IfOk, IfSome, IsTrue, OnOk};
ghost use Rattle.ch_cost.specs.Cost.{◌⊕◌, cost_of_arcs, arcs_of, IsWithin};
ghost use Rattle.ch_graph.specs.declared.link.Link.{Link};
ghost use Rattle.ch_graph.specs.Hierarchy.{ComesBefore, hierarchy_of, Counts, CountsArcs, CountsWeight, IsLinkWellMade, IsWellMade, bound_arcs};
ghost use Rattle.ch_graph.specs.Checking.{ComesNext, HaveSum, IsAllowed, IsFirstWithout, IsHierarchyRefusal, IsLow, IsNewRank, IsWellMadeAt};

use crate::error::HierarchyError;
use crate::hierarchy::find_link;
use crate::link::Link;
use crate::version::Version;
use ch_cost::Cost;
use std::alloc::{AllocError, Global};

/// Tests whether these ranks, these links and this bound make a hierarchy of a version, and else returns why they don't.
///
/// Takes a byte a node. It looks at each rank and each link once, and looks for the halves of each link.
pub fn check(
    alloc: Global,
    version: Version,
    ranks: &[u32],
    links: &[Link],
    bound: Cost,
) -> Result<(), HierarchyError>
    ensures made { OnOk result (IsWellMade (hierarchy_of version ranks.now links.now bound)) }
    ensures refused { IfErr result (IsHierarchyRefusal (hierarchy_of version ranks.now links.now bound)) }
{
    if ranks.len() > 1 << 25 {
        return Err(HierarchyError::TooManyNodes);
    }
    if !is_bound(version, ranks, bound) {
        return Err(HierarchyError::BadBound);
    }
    if let Some(place) = first_bad_rank(alloc, ranks)? {
        return Err(HierarchyError::BadRank(place));
    }
    if let Some(place) = first_out_of_order(links) {
        return Err(HierarchyError::LinkOutOfOrder(place));
    }
    if let Some(place) = first_bad_link(version, ranks, links, bound) {
        return Err(HierarchyError::BadLink(place));
    }
    Ok(())
}

// Whether a hierarchy of as many nodes as there are ranks can have this bound.
fn is_bound(version: Version, ranks: &[u32], bound: Cost) -> bool
    requires { length ranks.now ≤ 2 ^ 25 }
    ensures { IsTrue result ↔ (IsWithin bound (cost_of_arcs (length ranks.now - 1) (2 ^ 32 - 1)) × (arcs_of bound ≡ bound_arcs version (length ranks.now))) }
{
    let greatest = greatest_bound(ranks);
    bound.is_within(greatest) & (bound.arcs() == bound_arcs(version, greatest))
}

// How many arcs the bound counts, where the greatest bound is this.
fn bound_arcs(version: Version, greatest: Cost) -> u64
    ensures { (nodes : ℕ) → arcs_of greatest ≡ nodes - 1 → result ≡ bound_arcs version nodes }
{
    match version {
        Version::One => 0,
        Version::Two => greatest.arcs(),
    }
}

// The greatest bound that a hierarchy of as many nodes as there are ranks can have.
fn greatest_bound(ranks: &[u32]) -> Cost
    requires { length ranks.now ≤ 2 ^ 25 }
    ensures { result ≡ cost_of_arcs (length ranks.now - 1) (2 ^ 32 - 1) }
{
    let nodes = ranks.len() as u32;
    Cost::of_arcs(nodes.saturating_sub(1), u32::MAX)
}

// The place of the first rank that isn't below the number of ranks, or that occurs at an earlier place, or `None` where
// there is no such rank. Takes a byte a rank.
fn first_bad_rank(alloc: Global, ranks: &[u32]) -> Result<Option<usize>, AllocError>
    ensures found { IfOk result (λ found. IfSome found (IsFirstWithout (IsNewRank ranks.now) (length ranks.now))) }
    ensures none { IfOk result (λ found. IfNone found (All (λ r. r < length ranks.now) ranks.now × AllPairs (λ q r. q ≢ r) ranks.now)) }
{
    let mut taken = vec![in alloc; false; ranks.len()]?;
    'ranks: for place in 0..ranks.len() {
        let rank = ranks[place] as usize;
        if rank >= ranks.len() || taken[rank] {
            return Ok(Some(place));
        }
        taken[rank] = true;
    }
    Ok(None)
}

// Returns the place of the first link that doesn't come after the one before it, or `None` where each does.
fn first_out_of_order(links: &[Link]) -> Option<usize>
    ensures found { IfSome result (IsFirstWithout (ComesNext links.now) (length links.now)) }
    ensures none { IfNone result (AllPairs ComesBefore links.now) }
{
    'links: for place in 1..links.len() {
        if !comes_before(links[place - 1], links[place]) {
            return Some(place);
        }
    }
    None
}

// Whether a link comes before another one.
fn comes_before(link: Link, later: Link) -> bool
    ensures { IsTrue result ↔ ComesBefore link later }
{
    (link.from < later.from) | ((link.from == later.from) & (link.to < later.to))
}

// Returns the place of the first link that isn't well made, or `None` where each is.
fn first_bad_link(version: Version, ranks: &[u32], links: &[Link], bound: Cost) -> Option<usize>
    requires { AllPairs ComesBefore links.now }
    ensures found { IfSome result (IsFirstWithout (IsWellMadeAt (hierarchy_of version ranks.now links.now bound)) (length links.now)) }
    ensures none { IfNone result (All (IsLinkWellMade (hierarchy_of version ranks.now links.now bound)) links.now) }
{
    'links: for place in 0..links.len() {
        if !is_link_well_made(version, ranks, links, bound, &links[place]) {
            return Some(place);
        }
    }
    None
}

// Whether a link is well made in the hierarchy of these ranks, these links and this bound.
fn is_link_well_made(
    version: Version,
    ranks: &[u32],
    links: &[Link],
    bound: Cost,
    link: &Link,
) -> bool
    requires { AllPairs ComesBefore links.now }
    ensures { IsTrue result ↔ IsLinkWellMade (hierarchy_of version ranks.now links.now bound) link.now }
{
    is_allowed(version, ranks.len(), bound, link) & has_halves(ranks, links, link)
}

// Whether a link is between two different ones of this many nodes, and its cost counts what the version wants and is within
// the bound.
fn is_allowed(version: Version, nodes: usize, bound: Cost, link: &Link) -> bool
    ensures { IsTrue result ↔ IsAllowed version nodes bound link.now }
{
    let from = link.from as usize;
    let to = link.to as usize;
    let has_ends = (from < nodes) & (to < nodes) & (from != to);
    has_ends & counts(version, link) & link.cost.cost().is_within(bound)
}

// Whether a link's cost counts what the version wants.
fn counts(version: Version, link: &Link) -> bool
    ensures { IsTrue result ↔ Counts version link.now }
{
    match version {
        Version::One => counts_weight(link),
        Version::Two => counts_arcs(link),
    }
}

// Whether a link weighs something and counts no arcs.
fn counts_weight(link: &Link) -> bool
    ensures { IsTrue result ↔ CountsWeight link.now }
{
    let cost = link.cost.cost();
    (cost.length() > 0) & (cost.arcs() == 0)
}

// Whether a link counts some arcs, and exactly one where it has no middle.
fn counts_arcs(link: &Link) -> bool
    ensures { IsTrue result ↔ CountsArcs link.now }
{
    let arcs = link.cost.cost().arcs();
    (arcs > 0) & (link.middle.node().is_some() | (arcs == 1))
}

// Whether a link has halves where it has a middle.
fn has_halves(ranks: &[u32], links: &[Link], link: &Link) -> bool
    requires { AllPairs ComesBefore links.now }
    ensures { IsTrue result ↔ ((m : ℕ) → link.now.middle ≡ Some m → IsLow ranks.now link.now m × HaveSum links.now link.now m) }
{
    let Some(middle) = link.middle.node() else {
        return true;
    };
    is_low(ranks, link, middle) & have_sum(links, link, middle)
}

// Whether a middle ranks below both ends of a link.
fn is_low(ranks: &[u32], link: &Link, middle: u32) -> bool
    ensures { IsTrue result ↔ IsLow ranks.now link.now middle }
{
    let rank = rank_of(ranks, middle);
    (rank < rank_of(ranks, link.from)) & (rank < rank_of(ranks, link.to))
}

// The rank of a node, and 0 for a number that is no node.
fn rank_of(ranks: &[u32], node: u32) -> u32
    ensures { result ≡ slice_index ranks.now node }
{
    ranks.get(node as usize).copied().unwrap_or(0)
}

// Whether two links meet at a middle of a link and cost together what it costs.
fn have_sum(links: &[Link], link: &Link, middle: u32) -> bool
    requires { AllPairs ComesBefore links.now }
    ensures { IsTrue result ↔ HaveSum links.now link.now middle }
{
    let Some(first) = find_link(links, link.from, middle) else {
        return false;
    };
    let Some(second) = find_link(links, middle, link.to) else {
        return false;
    };
    let one = &links[first.0];
    let two = &links[second.0];
    is_sum(link.cost.cost(), one.cost.cost(), two.cost.cost())
}

// Whether a cost is the sum of two, which may be of any size.
fn is_sum(whole: Cost, first: Cost, second: Cost) -> bool
    ensures { IsTrue result ↔ (whole ≡ first ⊕ second) }
{
    match first.plus_within(second, whole) {
        None => false,
        Some(sum) => sum == whole,
    }
}
