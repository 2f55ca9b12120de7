ghost use Rattle.std.specs.Prelude.{◌≡◌, ◌≢◌, ◌++◌, ◌∷◌, ◌^◌, [], ℕ, ◌<◌, ◌≤◌, IfSome, IfNone, OnOk, OnErr, length, slice_index};
ghost use Rattle.ch_witness.specs.Places.{ArePlacesOf, IsFirstAt};

use std::alloc::{AllocError, Global};
use std::marker::Model;

/// Different nodes in the order in which they came, and the place of each.
///
/// A list by node number has the place of each. An entry counts only where that node is at that place, so that
/// all nodes are forgotten at once (Briggs and Torczon 1993). It takes 4 bytes for each number up to the greatest of a
/// node so far.
#[derive(Drop)]
pub struct NodeIndex {
    places: Vec<u32>,
    nodes: Vec<u32>,
}

impl Model for NodeIndex {
    ghost use Rattle.std.specs.Prelude.{◌≤◌, ◌^◌, ℕ, List, length};
    ghost use Rattle.ch_witness.specs.Places.{ArePlacesOf};

    ghost Value = { List ℕ };

    ghost view = { λ i. i.nodes.items };

    ghost invariant = { λ i. ArePlacesOf i.places.items i.nodes.items × (length i.places.items ≤ 2 ^ 32) };
}

impl NodeIndex {
    /// No node. It takes no memory yet.
    pub fn new(alloc: Global) -> NodeIndex
        ensures { result ≡ [] }
    {
        NodeIndex {
            places: Vec::new(alloc),
            nodes: Vec::new(alloc),
        }
    }

    /// Forgets all nodes, and keeps the memory.
    pub fn clear(&mut self)
        ensures { self.new ≡ [] }
    {
        self.nodes.clear();
    }

    /// Returns the place of a node, or `None` where it isn't there.
    pub fn find(&self, node: u32) -> Option<usize>
        ensures found { IfSome result (IsFirstAt self.now node) }
        ensures absent { IfNone result ((k : ℕ) → k < length self.now → slice_index self.now k ≢ node) }
    {
        let place = *self.places.get(node as usize)? as usize;
        let there = *self.nodes.get(place)?;
        if there != node {
            return None;
        }
        Some(place)
    }

    /// Puts in a node that isn't there, behind the others. Fails where memory runs out; the nodes are then as they
    /// were.
    pub fn push(&mut self, node: u32) -> Result<(), AllocError>
        requires absent { (k : ℕ) → k < length self.old → slice_index self.old k ≢ node }
        ensures put { OnOk result (self.new ≡ self.old ++ node ∷ []) }
        ensures stays { OnErr result (self.new ≡ self.old) }
    {
        make_room(&mut self.places, &self.nodes, node)?;
        self.nodes.reserve(1)?;
        self.places[node as usize] = next_place(&self.places, &self.nodes, node);
        self.nodes.push_reserved(node);
        Ok(())
    }
}

/// Makes sure that the node has an entry for its place. Fails where memory runs out.
fn make_room(places: &mut Vec<u32>, nodes: &[u32], node: u32) -> Result<(), AllocError>
    requires placed { ArePlacesOf places.old.items nodes.now }
    requires few { length places.old.items ≤ 2 ^ 32 }
    ensures placed { ArePlacesOf places.new.items nodes.now }
    ensures few { length places.new.items ≤ 2 ^ 32 }
    ensures room { OnOk result (node < length places.new.items) }
{
    let at = node as usize;
    if at < places.len() {
        return Ok(());
    }
    places.resize(at + 1, 0)
}

/// The place behind these nodes, where another one is to go: each has a number of its own, so they are fewer than
/// there are numbers.
fn next_place(places: &[u32], nodes: &[u32], node: u32) -> u32
    requires placed { ArePlacesOf places.now nodes.now }
    requires few { length places.now ≤ 2 ^ 32 }
    requires room { node < length places.now }
    requires absent { (k : ℕ) → k < length nodes.now → slice_index nodes.now k ≢ node }
    ensures { result ≡ length nodes.now }
{
    nodes.len() as u32
}
