ghost use Rattle.std.specs.Prelude.{◌≡◌, Some, false, length};

use crate::label::Label;
use crate::node_index::NodeIndex;
use crate::parent::Parent;
use ch_cost::Cost;
use std::alloc::{AllocError, Global};
use std::cmp::Reverse;
use std::collections::BinaryHeap;

/// The labels of the nodes that a search has come to, and which of them is settled next.
///
/// Its memory grows with the number of these nodes and of the offers, and with the greatest of the nodes. It is kept for
/// the next search.
#[derive(Drop)]
pub struct Frontier {
    /// The nodes that the search has come to.
    pub nodes: NodeIndex,
    /// What is known of each of them, in their order.
    pub labels: Vec<Label>,
    /// Of each offer the cost and the node, as one number.
    pub queue: BinaryHeap<Reverse<u128>>,
    ghost paired: { length labels.items ≡ length nodes },
}

/// A node that was settled, and the way to it.
#[derive(Clone, Copy)]
pub struct Reached {
    pub node: u32,
    pub before: Parent,
    pub cost: Cost,
}

impl Frontier {
    ghost use Rattle.std.specs.Prelude.{◌≡◌, ◌≢◌, ◌<◌, ℕ, None, OnOk, IfSome, IfNone, slice_index};
    ghost use Rattle.std.specs.BinaryHeap.{heap_len};
    ghost use Rattle.ch_witness.specs.Tree.{labels_of};
    ghost use Rattle.ch_witness.specs.Frontier.{IsStartAlone, IsOffered, IsSettledNow};
    ghost use Rattle.ch_witness.specs.Places.{IsFirstAt};

    /// Labels no node. It takes no memory yet.
    pub fn new(alloc: Global) -> Frontier
        ensures { (v : ℕ) → labels_of result v ≡ None }
    {
        Frontier {
            nodes: NodeIndex::new(alloc),
            labels: Vec::new(alloc),
            queue: BinaryHeap::new(alloc),
        }
    }

    /// Forgets all labels, and labels the start alone, as settled at no cost.
    pub fn start(&mut self, start: u32) -> Result<(), AllocError>
        ensures { OnOk result (IsStartAlone start (labels_of self.new)) }
    {
        self.queue.clear();
        self.labels.clear();
        self.nodes.clear();
        self.labels.reserve(1)?;
        self.nodes.push(start)?;
        self.labels.push_reserved(Label {
            cost: Cost::ZERO,
            before: Parent::NONE,
            settled: true,
        });
        Ok(())
    }

    /// Returns what is known of a node, or `None` where the search hasn't come to it.
    pub fn label(&self, node: u32) -> Option<Label>
        ensures { result ≡ labels_of self.now node }
    {
        let place = self.nodes.find(node)?;
        Some(self.labels[place])
    }

    /// Offers a way of this cost to a node, and the step that it goes on from. It opens the node where it is better
    /// than what is known of it.
    pub fn offer(&mut self, node: u32, cost: Cost, before: Parent) -> Result<(), AllocError>
        ensures { OnOk result (IsOffered (labels_of self.old) node cost before (labels_of self.new)) }
    {
        match self.nodes.find(node) {
            Some(at) => self.improve(at, node, cost, before),
            None => self.open(node, cost, before),
        }
    }

    /// The same for a node whose label is at this place.
    fn improve(
        &mut self,
        at: usize,
        node: u32,
        cost: Cost,
        before: Parent,
    ) -> Result<(), AllocError>
        requires { IsFirstAt self.old.nodes node at }
        ensures { OnOk result (IsOffered (labels_of self.old) node cost before (labels_of self.new)) }
    {
        if !self.labels[at].is_improved_by(cost) {
            return Ok(());
        }
        self.queue.push(Reverse(key(cost, node)))?;
        self.labels[at] = opened(cost, before);
        Ok(())
    }

    /// The same for a node that the search hasn't come to.
    fn open(&mut self, node: u32, cost: Cost, before: Parent) -> Result<(), AllocError>
        requires { (k : ℕ) → k < length self.old.nodes → slice_index self.old.nodes k ≢ node }
        ensures { OnOk result (IsOffered (labels_of self.old) node cost before (labels_of self.new)) }
    {
        self.queue.push(Reverse(key(cost, node)))?;
        self.labels.reserve(1)?;
        self.nodes.push(node)?;
        self.labels.push_reserved(opened(cost, before));
        Ok(())
    }

    /// Settles the open node of the least cost, of equal costs the one with the smallest number. `None` where no node
    /// is open.
    pub fn settle_next(&mut self) -> Option<Reached>
        ensures settled { IfSome result (λ r. IsSettledNow (labels_of self.old) r (labels_of self.new)) }
        ensures stays { IfNone result ((v : ℕ) → labels_of self.new v ≡ labels_of self.old v) }
    {
        'entries: while let Some(Reverse(key)) = self.queue.pop() {
            let reached = self.settle(node_of(key));
            if reached.is_some() {
                return reached;
            }
        }
        None
    }

    /// Settles a node where it is open, and does nothing to another one.
    fn settle(&mut self, node: u32) -> Option<Reached>
        ensures settled { IfSome result (λ r. IsSettledNow (labels_of self.old) r (labels_of self.new)) }
        ensures queue { heap_len self.new.queue ≡ heap_len self.old.queue }
        ensures stays { IfNone result ((v : ℕ) → labels_of self.new v ≡ labels_of self.old v) }
    {
        let place = self.nodes.find(node)?;
        let label = self.labels[place];
        if label.settled {
            return None;
        }
        self.labels[place].settled = true;
        Some(Reached {
            node,
            before: label.before,
            cost: label.cost,
        })
    }
}

/// How many bits the number of a node has in a key.
const NODE_BITS: u32 = 25;

/// How many bits the number of arcs has there.
const ARCS_BITS: u32 = 42;

/// The number by which an offer is taken: by its cost, and of equal costs by the node. Its length is at most the bound's,
/// and a way of fewer than 2^16 entries, each of which represents fewer than 2^25 arcs, has fewer than 2^42.
fn key(cost: Cost, node: u32) -> u128 {
    let by_cost = (u128::from(cost.length()) << ARCS_BITS) | u128::from(cost.arcs());
    (by_cost << NODE_BITS) | u128::from(node)
}

/// The node of a key.
fn node_of(key: u128) -> u32 {
    (key % (1 << NODE_BITS)) as u32
}

/// The label of a node that is open, by a way of this cost that goes on from this step.
fn opened(cost: Cost, before: Parent) -> Label
    ensures { result ≡ record { cost = cost; before = before; settled = false } }
{
    Label {
        cost,
        before,
        settled: false,
    }
}
