ghost use Rattle.std.specs.Prelude.{◌≡◌, ◌<◌, ◌+◌, ◌↔◌, [], ◌∷◌, length, replicate, slice_set, All, IfOk, OnOk, IfSome, IfNone, IsTrue, OnSome};
ghost use Rattle.std.specs.BinaryHeap.{heap_items, heap_len, heap_capacity, IsHeap, IsUpperBound};
ghost use Rattle.std.specs.List.Sorted.{IsPermutation};
ghost use Rattle.std.specs.Ordering.{nat_cmp};
ghost use Rattle.ch_graph.specs.declared.mark.Mark.TheVariants.{Unseen, Open, Settled};
ghost use Rattle.ch_graph.specs.Marks.{mark, label_in, Improves};
ghost use Rattle.ch_graph.specs.Queue.{entry_cmp};
ghost use Rattle.ch_query.specs.Marks.{label_cost, costs_of, IsSettledAtMost, IsUpTo, IsLeastOpen, IsStopped};

use crate::label::Label;
use crate::limit::is_up_to;
use crate::mark_list::MarkList;
use ch_cost::Cost;
use std::alloc::{AllocError, Global};
use std::cmp::Reverse;
use std::collections::BinaryHeap;
use std::marker::Model;

/// How many entries a queue or a list of seen nodes has room for at most when it is kept for the next query.
const KEPT: usize = 1 << 16;

/// The marks of one side of a query, one for each rank, and which open node is the next to be settled. A node without a
/// label is unseen, one with a label that may still get less is open, and one whose label stays is settled.
///
/// The marks are made once, and take 4 bytes a node, and 32 more for each that a query sees. The queue is ordered by the
/// lengths of the labels, and for equal lengths by the ranks. That is enough: a side climbs, so of two nodes with labels of
/// one length only that of the lower rank can lead on to the other. The queue may hold older, longer entries of a node;
/// they are passed over when they come up.
#[derive(Drop)]
pub struct Frontier {
    marks: MarkList,
    queue: BinaryHeap<Reverse<(u64, u32)>>,
}

impl Model for Frontier {
    ghost use Rattle.std.specs.Prelude.{List};
    ghost use Rattle.std.specs.BinaryHeap.{heap_items};
    ghost use Rattle.ch_graph.specs.declared.mark.Mark.{Mark};
    ghost use Rattle.ch_query.specs.declared.label.Label.{Label};
    ghost use Rattle.ch_query.specs.Front.{IsQueueOf};

    ghost Value = { List (Mark Label) };

    ghost view = { λ f. f.marks };

    ghost invariant = { λ f. IsQueueOf f.marks (heap_items f.queue) };
}

/// A node that was settled.
#[derive(Clone, Copy)]
pub struct Reached {
    /// Its rank.
    pub rank: u32,
    /// Its label.
    pub label: Label,
}

impl Frontier {
    /// Marks for this many nodes, none of them seen.
    pub fn new(alloc: Global, nodes: u32) -> Result<Frontier, AllocError>
        ensures { IfOk result (λ f. f ≡ replicate nodes Unseen) }
    {
        Ok(Frontier {
            marks: MarkList::new(alloc, nodes)?,
            queue: BinaryHeap::new(alloc),
        })
    }

    /// Forgets what was seen. Takes time by the number of nodes that were seen, and keeps the memory.
    pub fn clear(&mut self)
        ensures { self.new ≡ replicate (length self.old) Unseen }
    {
        self.queue.clear();
        self.marks.clear();
    }

    /// Forgets what was seen and frees the memory of the queue and of the list of seen nodes, where either has room for
    /// more than 65,536 entries. Takes no memory.
    pub fn shrink(&mut self)
        ensures { length self.new ≡ length self.old }
    {
        if (self.queue.capacity() <= KEPT) & (self.marks.capacity() <= KEPT) {
            return;
        }
        free(&mut self.queue);
        self.marks.free();
    }

    /// Returns the label of the node of a rank, if it has one.
    pub fn label(&self, rank: u32) -> Option<Label>
        requires { rank < length self.now }
        ensures { result ≡ label_in (mark self.now rank) }
    {
        self.marks.label(rank)
    }

    /// Returns what the label of the node of a rank costs, if it has one.
    pub fn cost(&self, rank: u32) -> Option<Cost>
        requires { rank < length self.now }
        ensures { result ≡ costs_of self.now rank }
    {
        match self.label(rank) {
            Some(label) => Some(label.cost),
            None => None,
        }
    }

    /// Whether a climb to the node of a rank is better than what is known of it. If the node is settled, the climb costs
    /// at least what its label does, so that open and settled ones need not be distinguished.
    pub fn is_improved_by(&self, rank: u32, cost: Cost) -> bool
        requires rank_in { rank < length self.now }
        requires settled { IsSettledAtMost self.now rank cost }
        ensures { IsTrue result ↔ Improves label_cost cost (mark self.now rank) }
    {
        match self.cost(rank) {
            Some(known) => cost.is_below(known),
            None => true,
        }
    }

    /// Opens the node of a rank with a label that is better than what is known of it.
    ///
    /// Takes time by the logarithm of the number of entries.
    pub fn open(&mut self, rank: u32, label: Label) -> Result<(), AllocError>
        requires rank_in { rank < length self.old }
        requires improves { Improves label_cost label.cost (mark self.old rank) }
        ensures nodes { length self.new ≡ length self.old }
        ensures opened { OnOk result (self.new ≡ slice_set self.old rank (Open label)) }
    {
        self.queue.reserve(1)?;
        self.marks.open(rank, label)?;
        self.queue.push(Reverse((label.cost.length(), rank)))?;
        Ok(())
    }

    /// Settles an open node of the least length, of equal ones that of the lowest rank. `None` where no open node has a
    /// label of at most the limit's length: then none has one below the limit.
    pub fn settle_next(&mut self, limit: Option<Cost>) -> Option<Reached>
        ensures none { IfNone result (IsStopped self.old limit) }
        ensures unchanged { IfNone result (self.new ≡ self.old) }
        ensures least { IfSome result (λ r. IsLeastOpen self.old r.rank r.label) }
        ensures settled { IfSome result (λ r. self.new ≡ slice_set self.old r.rank (Settled r.label)) }
    {
        'entries: while let Some(Reverse((_, rank))) = pop_up_to(&mut self.queue, limit) {
            if let Some(label) = self.marks.settle(rank) {
                return Some(Reached { rank, label });
            }
        }
        None
    }
}

/// Takes the least entry out of a queue, if its length is at most the limit's. `None` where no entry's is.
fn pop_up_to(
    queue: &mut BinaryHeap<Reverse<(u64, u32)>>,
    limit: Option<Cost>,
) -> Option<Reverse<(u64, u32)>>
    requires { IsHeap (entry_cmp nat_cmp) (heap_items queue.old) }
    ensures none { IfNone result (All (λ e. IsUpTo e.0.0 limit → ⊥) (heap_items queue.old)) }
    ensures unchanged { IfNone result (heap_items queue.new ≡ heap_items queue.old) }
    ensures moved { IfSome result (λ e. IsPermutation (heap_items queue.old) (e ∷ heap_items queue.new)) }
    ensures heap { IsHeap (entry_cmp nat_cmp) (heap_items queue.new) }
    ensures top { IfSome result (λ e. IsUpperBound (entry_cmp nat_cmp) e (heap_items queue.old)) }
    ensures len { OnSome result (heap_len queue.new + 1 ≡ heap_len queue.old) }
{
    let Reverse((length, _)) = *queue.peek()?;
    if !is_up_to(length, limit) {
        return None;
    }
    queue.pop()
}

// Takes all entries out of a queue, and frees its memory.
fn free(queue: &mut BinaryHeap<Reverse<(u64, u32)>>)
    ensures queue { heap_items queue.new ≡ [] }
    ensures order { IsHeap (entry_cmp nat_cmp) (heap_items queue.new) }
    ensures room { heap_capacity queue.new ≡ 0 }
{
    queue.clear();
    queue.shrink_to_fit();
}
