ghost use Rattle.std.specs.Prelude.{◌≡◌, ◌+◌, ◌-◌, ◌<◌, ◌≤◌, ℕ, [], length, slice_index_or, AllPairs, IfOk, IfSome, IfNone};
ghost use Rattle.ch_graph.specs.declared.link.Link.{Link};
ghost use Rattle.ch_graph.specs.Hierarchy.{ComesBefore, IsLinkAt};
ghost use Rattle.ch_graph.specs.LinkIndex.{ComesToLower, IsFirstFrom, IsHeadAt, IsHeadWithin, IsIndexOf, IsPartOf};

use crate::hierarchy::{LinkId, find_link};
use crate::link::Link;
use std::alloc::{AllocError, Global};
use std::marker::Model;

/// This many links are looked at in turn, which takes less time than to halve them further.
const LINEAR_BELOW: usize = 16;

/// Where the links of each node begin, in a list of links in rising order of their ends.
///
/// It has for each node the place of the first link that leaves that node or one above it, and then the number of
/// links, so that a link is looked for among those of its first node alone. It holds 8 bytes a node.
#[derive(Drop)]
pub struct LinkIndex {
    firsts: Vec<usize>,
}

impl Model for LinkIndex {
    ghost use Rattle.std.specs.Prelude.{List, ℕ};

    ghost Value = { List ℕ };

    ghost view = { λ i. i.firsts.items };
}

// The places from `begin` on and before `end`.
#[derive(Clone, Copy)]
struct Part {
    begin: usize,
    end: usize,
}

impl LinkIndex {
    /// Returns the index that has no node, of any links: by it a link is looked for among all. Takes no memory.
    pub fn none(alloc: Global) -> LinkIndex
        ensures { result ≡ [] }
    {
        LinkIndex {
            firsts: Vec::new(alloc),
        }
    }

    /// Returns the index of these links, which are in rising order of their ends, for this many nodes.
    ///
    /// Looks at each link and each node once, and takes 8 bytes a node.
    pub fn new(alloc: Global, nodes: u32, links: &[Link]) -> Result<LinkIndex, AllocError>
        requires { AllPairs ComesBefore links.now }
        ensures count { IfOk result (λ index. length index ≡ nodes + 1) }
        ensures index { IfOk result (IsIndexOf links.now) }
    {
        let mut firsts = vec![in alloc; 0usize; nodes as usize + 1]?;
        let mut place = 0;
        'nodes: for node in 0..firsts.len() {
            place = first_from(links, place, node);
            firsts[node] = place;
        }
        Ok(LinkIndex { firsts })
    }

    /// Returns the place of the link from one node to another among these links, or `None` where there is no such link.
    ///
    /// Takes time by the logarithm of the number of links that leave the node, and where the index doesn't have the node,
    /// of that of all.
    pub fn find(&self, links: &[Link], from: u32, to: u32) -> Option<LinkId>
        requires sorted { AllPairs ComesBefore links.now }
        requires index { IsIndexOf links.now self.now }
        ensures found { IfSome result (λ id. IsLinkAt links.now from to id.0) }
        ensures none { IfNone result ((place : ℕ) → IsLinkAt links.now from to place → ⊥) }
    {
        let Some(part) = self.part(links, from) else {
            return find_link(links, from, to);
        };
        match find_head(&links[part.begin..part.end], to) {
            Some(place) => Some(LinkId(part.begin + place)),
            None => None,
        }
    }

    // Where the links that leave a node are, if the index has the node.
    fn part(&self, links: &[Link], from: u32) -> Option<Part>
        requires { IsIndexOf links.now self.now }
        ensures { IfSome result (λ part. IsPartOf links.now from part.begin part.end) }
    {
        let node = from as usize;
        if node + 1 < self.firsts.len() {
            Some(Part {
                begin: self.firsts[node],
                end: self.firsts[node + 1],
            })
        } else {
            None
        }
    }
}

// The place of the link that comes to a node, among links in rising order of the nodes that they come to.
fn find_head(links: &[Link], to: u32) -> Option<usize>
    requires { AllPairs ComesToLower links.now }
    ensures found { IfSome result (IsHeadAt links.now to) }
    ensures none { IfNone result ((place : ℕ) → IsHeadAt links.now to place → ⊥) }
{
    let near = near_head(links, to);
    'links: for place in near.begin..near.end {
        if links[place].to == to {
            return Some(place);
        }
    }
    None
}

// A few places, among which is that of the link that comes to a node, if there is one: halves are left out as long as
// there are more.
fn near_head(links: &[Link], to: u32) -> Part
    requires { AllPairs ComesToLower links.now }
    ensures { IsHeadWithin links.now to result.begin result.end }
{
    let mut near = Part {
        begin: 0,
        end: links.len(),
    };
    'halves: while near.end - near.begin > LINEAR_BELOW {
        near = half_with(links, near, to);
    }
    near
}

// The half of these places among which is that of the link that comes to a node, if it is among them.
fn half_with(links: &[Link], near: Part, to: u32) -> Part
    requires sorted { AllPairs ComesToLower links.now }
    requires near { IsHeadWithin links.now to near.begin near.end }
    requires several { near.begin + 1 < near.end }
    ensures near { IsHeadWithin links.now to result.begin result.end }
    ensures fewer { result.end - result.begin < near.end - near.begin }
{
    let middle = near.begin + (near.end - near.begin) / 2;
    if links[middle].to <= to {
        Part {
            begin: middle,
            end: near.end,
        }
    } else {
        Part {
            begin: near.begin,
            end: middle,
        }
    }
}

// The place of the first link, from a place on, that leaves this node or one above it.
fn first_from(links: &[Link], start: usize, node: usize) -> usize
    requires sorted { AllPairs ComesBefore links.now }
    requires within { start ≤ length links.now }
    requires before { (k : ℕ) (d : Link) → k < start → (slice_index_or links.now k d).from < node }
    ensures { IsFirstFrom links.now node result }
{
    'links: for place in start..links.len() {
        if links[place].from as usize >= node {
            return place;
        }
    }
    links.len()
}
