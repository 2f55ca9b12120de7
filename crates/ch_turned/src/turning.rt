ghost use Rattle.std.specs.Prelude.{◌≡◌, ◌≤◌, AllPairs, IfOk, map};
ghost use Rattle.std.specs.List.Sorted.{IsPermutation};
ghost use Rattle.ch_graph.specs.Hierarchy.{ComesBefore};
ghost use Rattle.ch_turned.specs.Turned.{IsTurned, turned_link};

use crate::laws::turned_is_well_made;
use ch_graph::{Hierarchy, Link, LinkHalves, LinkIndex, Version};
use std::alloc::{AllocError, Global};

/// Returns the hierarchy with the ends of each link exchanged, and all else the same. It is indexed as
/// [`Hierarchy::into_indexed`] does.
///
/// Where the hierarchy is right for a graph, this one is for the graph with each arc turned ([`turned_is_right`]): what is
/// least from a node by the one is least to it by the other. Takes the memory of a hierarchy, and time for a sort of the
/// links and for [`Hierarchy::into_indexed`]. It fails only where memory runs out.
///
/// [`turned_is_right`]: crate::turned_is_right
pub fn turn(alloc: Global, hierarchy: &Hierarchy) -> Result<Hierarchy, AllocError>
    ensures { IfOk result (IsTurned hierarchy.now) }
{
    turned_is_well_made();
    let ranks = ranks_of(alloc, hierarchy)?;
    let links = turned_links(alloc, hierarchy.links())?;
    let turned = Hierarchy::with_index(
        version_of(hierarchy),
        ranks,
        links,
        hierarchy.bound(),
        LinkIndex::none(alloc),
        LinkHalves::none(alloc),
    );
    let indexed = turned.into_indexed(alloc)?;
    Ok(indexed)
}

// The version.
fn version_of(hierarchy: &Hierarchy) -> Version
    ensures { result ≡ hierarchy.now.version }
{
    match hierarchy.version() {
        1 => Version::One,
        _ => Version::Two,
    }
}

// The rank of each node.
fn ranks_of(alloc: Global, hierarchy: &Hierarchy) -> Result<Vec<u32>, AllocError>
    ensures { IfOk result (λ ranks. ranks.items ≡ hierarchy.now.ranks) }
{
    let mut ranks = Vec::new(alloc);
    'nodes: for node in 0..hierarchy.nodes() {
        ranks.push(hierarchy.rank(node))?;
    }
    Ok(ranks)
}

// The links with their ends exchanged, in order.
fn turned_links(alloc: Global, links: &[Link]) -> Result<Vec<Link>, AllocError>
    requires { AllPairs ComesBefore links.now }
    ensures all { IfOk result (λ turned. IsPermutation (map turned_link links.now) turned.items) }
    ensures order { IfOk result (λ turned. AllPairs ComesBefore turned.items) }
{
    let turned = exchanged(alloc, links)?;
    Ok(sorted(turned))
}

// The links with their ends exchanged.
fn exchanged(alloc: Global, links: &[Link]) -> Result<Vec<Link>, AllocError>
    ensures { IfOk result (λ turned. turned.items ≡ map turned_link links.now) }
{
    let exchange = |link: &Link| Link {
        from: link.to,
        to: link.from,
        cost: link.cost,
        middle: link.middle,
    };
    links.iter().map(exchange).collect(alloc)
}

// The same links by the nodes that they leave, and then by those that they come to.
fn sorted(mut links: Vec<Link>) -> Vec<Link>
    ensures all { IsPermutation links.items result.items }
    ensures sorted { AllPairs (λ a b. (a.from ≤ b.from) × (a.from ≡ b.from → a.to ≤ b.to)) result.items }
{
    links.sort_unstable_by_key(|link| (link.from, link.to));
    links
}
