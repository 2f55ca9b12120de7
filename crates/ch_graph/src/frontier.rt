ghost use Rattle.std.specs.Prelude.{◌≡◌, ◌<◌, length, replicate, slice_set, IfOk, OnOk, IfSome, IfNone};
ghost use Rattle.ch_graph.specs.Search.{IsOffered, IsLeastOpen, NoneOpen};
ghost use Rattle.ch_graph.specs.declared.mark.Mark.TheVariants as mark;

use crate::mark::Mark;
use ch_cost::Cost;
use std::alloc::{AllocError, Global};
use std::cmp::Reverse;
use std::collections::BinaryHeap;
use std::marker::Model;

/// The marks of a search, and which open node has the least cost.
///
/// The queue may hold older, dearer entries of a node; they are passed over when they come up. It holds one entry
/// at most for each offer.
#[derive(Drop)]
pub struct Frontier {
    marks: Vec<Mark<Cost>>,
    queue: BinaryHeap<Reverse<(Cost, u32)>>,
}

impl Model for Frontier {
    ghost use Rattle.std.specs.Prelude.{List};
    ghost use Rattle.std.specs.BinaryHeap.{heap_items};
    ghost use Rattle.ch_cost.specs.declared.cost.Cost.{Cost};
    ghost use Rattle.ch_graph.specs.declared.mark.Mark.{Mark};
    ghost use Rattle.ch_graph.specs.Search.{IsQueueOf};

    ghost Value = { List (Mark Cost) };

    ghost view = { λ f. f.marks.items };

    ghost invariant = { λ f. IsQueueOf f.marks.items (heap_items f.queue) };
}

/// A node that was settled, and the cost of the least walk to it.
#[derive(Clone, Copy)]
pub struct Reached {
    /// The node, numbered from 0.
    pub node: u32,
    /// What the least walk to it costs.
    pub cost: Cost,
}

impl Frontier {
    /// Marks for this many nodes, none of them seen.
    pub fn new(alloc: Global, nodes: u32) -> Result<Frontier, AllocError>
        ensures { IfOk result (λ f. f ≡ replicate nodes mark.Unseen) }
    {
        Ok(Frontier {
            marks: vec![in alloc; Mark::Unseen; nodes as usize]?,
            queue: BinaryHeap::new(alloc),
        })
    }

    /// Offers a walk of this cost to a node. It opens the node where it is better than what is known of it.
    ///
    /// Takes time by the logarithm of the number of entries.
    pub fn offer(&mut self, node: u32, cost: Cost) -> Result<(), AllocError>
        requires { node < length self.old }
        ensures { OnOk result (IsOffered self.old node cost self.new) }
    {
        if self.marks[node as usize].is_improved_by(cost) {
            self.queue.push(Reverse((cost, node)))?;
            self.marks[node as usize] = Mark::Open(cost);
        }
        Ok(())
    }

    /// Settles an open node of the least cost, of equal costs the one with the smallest number. `None` where no
    /// node is open.
    pub fn settle_next(&mut self) -> Option<Reached>
        ensures none { IfNone result (NoneOpen self.old) }
        ensures unchanged { IfNone result (self.new ≡ self.old) }
        ensures least { IfSome result (λ r. IsLeastOpen self.old r.node r.cost) }
        ensures settled { IfSome result (λ r. self.new ≡ slice_set self.old r.node (mark.Settled r.cost)) }
    {
        'entries: while let Some(Reverse((cost, node))) = self.queue.pop() {
            if let Mark::Open(known) = self.marks[node as usize] {
                self.marks[node as usize] = Mark::Settled(known);
                return Some(Reached { node, cost: known });
            }
        }
        None
    }
}
