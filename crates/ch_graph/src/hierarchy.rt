ghost use Rattle.std.specs.Prelude.{◌≡◌, ◌<◌, ℕ, length, slice_index, slice_index_or, AllPairs, None, IfErr, IfOk, IfSome, IfNone};
ghost use Rattle.ch_cost.specs.Cost.{of_weight};
ghost use Rattle.ch_graph.specs.Hierarchy.{hierarchy_of, IsWellMade, IsLinkAt, ComesBefore, version_number};
ghost use Rattle.ch_graph.specs.declared.error.HierarchyError.TheVariants.{OutOfMemory};
ghost use Rattle.ch_graph.specs.declared.version.Version.TheVariants.{One, Two};
ghost use Rattle.ch_graph.specs.Checking.{IsHierarchyRefusal};
ghost use Rattle.ch_graph.specs.LinkIndex.{IsIndexOf};
ghost use Rattle.ch_graph.specs.LinkHalves.{AreHalvesOf, ArePartsOf};
ghost use Rattle.ch_graph.specs.declared.link.Link.{Link};

use crate::checking;
use crate::error::HierarchyError;
use crate::link::Link;
use crate::link_halves::{LinkHalves, Parts};
use crate::link_index::LinkIndex;
use crate::version::Version;
use ch_cost::Cost;
use std::alloc::{AllocError, Global};
use std::marker::Model;

/// The place of a link in [`Hierarchy::links`].
#[derive(Clone, Copy, Debug, Default, PartialEq, Eq, PartialOrd, Ord, Hash)]
pub struct LinkId(pub usize);

/// A contraction hierarchy (Geisberger, Sanders, Schultes, Delling 2008): a rank for each node, and links, which are
/// arcs of a graph and shortcuts for two links by way of a node of lower rank.
///
/// Every hierarchy is well made, so that a file can hold it. Whether it is right for a graph is said where it is
/// made. It holds 4 bytes a node and 24 a link, with an index 8 bytes a node and 8 a link more, and no call takes memory
/// but [`Hierarchy::checked`] and [`Hierarchy::checked_v1`] while they run, and [`Hierarchy::into_indexed`].
#[derive(Drop)]
pub struct Hierarchy {
    version: Version,
    ranks: Vec<u32>,
    links: Vec<Link>,
    bound: Cost,
    // Of these links, or of no node.
    index: LinkIndex,
    // Of these links, or of a prefix of them.
    halves: LinkHalves,
}

impl Model for Hierarchy {
    ghost use Rattle.ch_graph.specs.Hierarchy as hierarchies;
    ghost use Rattle.ch_graph.specs.LinkIndex.{IsIndexOf};
    ghost use Rattle.ch_graph.specs.LinkHalves.{AreHalvesOf};

    ghost Value = { hierarchies.Hierarchy };

    ghost view = { λ h. hierarchies.hierarchy_of h.version h.ranks.items h.links.items h.bound };

    ghost invariant = { λ h. hierarchies.IsWellMade (hierarchies.hierarchy_of h.version h.ranks.items h.links.items h.bound) × IsIndexOf h.links.items h.index × AreHalvesOf h.links.items h.halves };
}

impl Hierarchy {
    /// Returns the hierarchy of version 2 of these ranks, one for each node, these links, in rising order of their
    /// ends, and this bound.
    ///
    /// It has no index: a link is looked for among all, and so are its halves. Takes no memory.
    pub fn new(ranks: Vec<u32>, links: Vec<Link>, bound: Cost) -> Hierarchy
        requires { IsWellMade (hierarchy_of Two ranks.items links.items bound) }
        ensures { result ≡ hierarchy_of Two ranks.items links.items bound }
    {
        let alloc = *ranks.allocator();
        let index = LinkIndex::none(alloc);
        let halves = LinkHalves::none(alloc);
        Hierarchy::with_index(Version::Two, ranks, links, bound, index, halves)
    }

    /// Returns the same of version 1, whose costs count no arcs.
    pub fn new_v1(ranks: Vec<u32>, links: Vec<Link>, bound: Cost) -> Hierarchy
        requires { IsWellMade (hierarchy_of One ranks.items links.items bound) }
        ensures { result ≡ hierarchy_of One ranks.items links.items bound }
    {
        let alloc = *ranks.allocator();
        let index = LinkIndex::none(alloc);
        let halves = LinkHalves::none(alloc);
        Hierarchy::with_index(Version::One, ranks, links, bound, index, halves)
    }

    /// Returns the hierarchy of these ranks, links and bound, as [`Hierarchy::new`] makes it, where they are well
    /// made, and else why they aren't. They may be any.
    ///
    /// It is refused only where it isn't well made or memory runs out. Takes a byte a node while it runs. It looks at
    /// each rank and each link once, and looks for the halves of each link among all. All are dropped where they are
    /// refused. The hierarchy has no index; [`Hierarchy::into_indexed`] gives it one.
    pub fn checked(
        alloc: Global,
        ranks: Vec<u32>,
        links: Vec<Link>,
        bound: Cost,
    ) -> Result<Hierarchy, HierarchyError>
        ensures hierarchy { IfOk result (λ h. h ≡ hierarchy_of Two ranks.items links.items bound) }
        ensures refused { IfErr result (IsHierarchyRefusal (hierarchy_of Two ranks.items links.items bound)) }
        ensures accepted { IsWellMade (hierarchy_of Two ranks.items links.items bound) → IfErr result (λ e. e ≡ OutOfMemory) }
    {
        checking::check(
            alloc,
            Version::Two,
            ranks.as_slice(),
            links.as_slice(),
            bound,
        )?;
        Ok(Hierarchy::new(ranks, links, bound))
    }

    /// Returns the same of version 1, as [`Hierarchy::new_v1`] makes it.
    pub fn checked_v1(
        alloc: Global,
        ranks: Vec<u32>,
        links: Vec<Link>,
        bound: Cost,
    ) -> Result<Hierarchy, HierarchyError>
        ensures hierarchy { IfOk result (λ h. h ≡ hierarchy_of One ranks.items links.items bound) }
        ensures refused { IfErr result (IsHierarchyRefusal (hierarchy_of One ranks.items links.items bound)) }
        ensures accepted { IsWellMade (hierarchy_of One ranks.items links.items bound) → IfErr result (λ e. e ≡ OutOfMemory) }
    {
        checking::check(
            alloc,
            Version::One,
            ranks.as_slice(),
            links.as_slice(),
            bound,
        )?;
        Ok(Hierarchy::new_v1(ranks, links, bound))
    }

    /// Returns the same hierarchy, with an index, so that a link is looked for among those that leave its first node,
    /// and with the places of the halves of links.
    ///
    /// Takes 8 bytes a node and 8 a link. It looks at each link once, and looks for the halves of each. It fails only where
    /// memory runs out, and the hierarchy is dropped then.
    pub fn into_indexed(mut self, alloc: Global) -> Result<Hierarchy, AllocError>
        ensures { IfOk result (λ h. h ≡ self) }
    {
        self.index = LinkIndex::new(alloc, self.nodes(), self.links())?;
        self.halves = self.find_all_halves(alloc)?;
        Ok(self)
    }

    /// Returns the hierarchy of this version, with this index of its links and these places of their halves. Takes no
    /// memory.
    pub fn with_index(
        version: Version,
        ranks: Vec<u32>,
        links: Vec<Link>,
        bound: Cost,
        index: LinkIndex,
        halves: LinkHalves,
    ) -> Hierarchy
        requires made { IsWellMade (hierarchy_of version ranks.items links.items bound) }
        requires index { IsIndexOf links.items index }
        requires halves { AreHalvesOf links.items halves }
        ensures { result ≡ hierarchy_of version ranks.items links.items bound }
    {
        Hierarchy {
            version,
            ranks,
            links,
            bound,
            index,
            halves,
        }
    }

    /// Returns the version of the file that it is of: 1 or 2. Costs of version 1 count no arcs.
    pub fn version(&self) -> u8
        ensures { result ≡ version_number self.now.version }
    {
        self.version.number()
    }

    /// Returns the number of nodes.
    pub fn nodes(&self) -> u32
        ensures count { result ≡ length self.now.ranks }
        ensures made { IsWellMade self.now }
    {
        self.ranks.len() as u32
    }

    /// Returns the greatest length of an answer: no longer walk is needed.
    pub fn bound(&self) -> Cost
        ensures { result ≡ self.now.bound }
    {
        self.bound
    }

    /// Returns the rank of a node: how many nodes were contracted before it.
    pub fn rank(&self, node: u32) -> u32
        requires { node < length self.now.ranks }
        ensures { result ≡ slice_index self.now.ranks node }
    {
        self.ranks[node as usize]
    }

    /// Returns the links, by the node that they leave and then by the one that they come to; at most one for each pair.
    pub fn links(&self) -> &[Link]
        ensures links { result.now ≡ self.now.links }
        ensures made { IsWellMade self.now }
    {
        self.links.as_slice()
    }

    /// Returns the place of the link from one node to another, or `None` where there is no such link.
    ///
    /// Takes time by the logarithm of the number of links that leave the node, and without an index of that of all.
    pub fn find(&self, from: u32, to: u32) -> Option<LinkId>
        ensures found { IfSome result (λ id. IsLinkAt self.now.links from to id.0) }
        ensures none { IfNone result ((place : ℕ) → IsLinkAt self.now.links from to place → ⊥) }
    {
        self.index.find(self.links.as_slice(), from, to)
    }

    /// Returns what the link at a place represents: the places of its halves, or for an arc of the graph the node
    /// that it comes to.
    ///
    /// Where the hierarchy keeps the places, it looks at one of these, and else it looks for both halves as
    /// [`Hierarchy::find`] does.
    pub fn parts(&self, id: LinkId) -> Parts
        requires { id.0 < length self.now.links }
        ensures { (d : Link) → ArePartsOf self.now.links (slice_index_or self.now.links id.0 d) result }
    {
        match self.halves.get(id) {
            Some(kept) => kept.parts(id),
            None => self.find_parts(id),
        }
    }

    // Looks for the halves of the link at a place.
    fn find_parts(&self, id: LinkId) -> Parts
        requires { id.0 < length self.now.links }
        ensures { (d : Link) → ArePartsOf self.now.links (slice_index_or self.now.links id.0 d) result }
    {
        let link = self.links[id.0];
        let Some(middle) = link.middle.node() else {
            return Parts::Arc(link.to);
        };
        let Some(first) = self.find(link.from, middle) else {
            unreachable!();
        };
        let Some(second) = self.find(middle, link.to) else {
            unreachable!();
        };
        Parts::Shortcut(first, second)
    }

    // Looks for the halves of each link.
    fn find_all_halves(&self, alloc: Global) -> Result<LinkHalves, AllocError>
        ensures { IfOk result (AreHalvesOf self.now.links) }
    {
        let count = self.links.len();
        let mut halves = LinkHalves::with_room(alloc, count)?;
        'links: for place in 0..count {
            let id = LinkId(place);
            halves.keep(id, self.find_parts(id))?;
        }
        Ok(halves)
    }
}

/// Returns the place of the link from one node to another among links in rising order of their ends, or `None` where
/// there is no such link. It takes no memory, and looks at as many links as their number has binary digits.
pub fn find_link(links: &[Link], from: u32, to: u32) -> Option<LinkId>
    requires { AllPairs ComesBefore links.now }
    ensures found { IfSome result (λ id. IsLinkAt links.now from to id.0) }
    ensures none { IfNone result ((place : ℕ) → IsLinkAt links.now from to place → ⊥) }
{
    let search = links.binary_search_by_key(&(from, to), |link| (link.from, link.to));
    match search {
        Ok(place) => Some(LinkId(place)),
        Err(_) => None,
    }
}
