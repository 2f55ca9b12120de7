ghost use Rattle.std.specs.Prelude.{◌≡◌, ◌<◌, [], length, replicate, slice_index, slice_set, vec_capacity, IfNone, IfOk, IfSome, OnErr, OnOk};
ghost use Rattle.ch_graph.specs.declared.mark.Mark.TheVariants.{Unseen, Open, Settled};
ghost use Rattle.ch_graph.specs.Marks.{mark, label_in};
ghost use Rattle.ch_query.specs.Touched.{mark_in, mark_at};

use crate::label::Label;
use std::alloc::{AllocError, Global};
use std::marker::Model;

/// A node that was seen, which has a label.
#[derive(Clone, Copy)]
pub struct Touched {
    /// What is known of it.
    pub label: Label,
    /// Its rank.
    pub rank: u32,
    /// Whether the label stays; else the node is open.
    pub settled: bool,
}

/// A mark for each rank.
///
/// Nodes that were seen are in a list, in the order in which they were, and each rank has a place in it. So the marks take
/// 4 bytes a node, and 32 more for each that was seen, which are close together.
#[derive(Drop)]
pub struct MarkList {
    // For each rank the place of its node in the list, counted from 1, or 0 where it isn't seen.
    places: Vec<u32>,
    seen: Vec<Touched>,
}

impl Model for MarkList {
    ghost use Rattle.std.specs.Prelude.{◌<◌, ◌^◌, List, length};
    ghost use Rattle.ch_graph.specs.declared.mark.Mark.{Mark};
    ghost use Rattle.ch_query.specs.declared.label.Label.{Label};
    ghost use Rattle.ch_query.specs.Touched.{marks_in, ArePlaces};

    ghost Value = { List (Mark Label) };

    ghost view = { λ m. marks_in m.seen.items m.places.items };

    ghost invariant = { λ m. ArePlaces m.places.items m.seen.items × (length m.places.items < 2 ^ 32) };
}

impl MarkList {
    ghost use Rattle.ch_query.specs.declared.label.Label.{Label};

    /// Marks for this many nodes, none of them seen.
    pub fn new(alloc: Global, nodes: u32) -> Result<MarkList, AllocError>
        ensures { IfOk result (λ m. m ≡ replicate nodes Unseen) }
    {
        Ok(MarkList {
            places: vec![in alloc; 0u32; nodes as usize]?,
            seen: Vec::new(alloc),
        })
    }

    /// Forgets what was seen. Takes time by the number of nodes that were, and keeps the memory.
    pub fn clear(&mut self)
        ensures { self.new ≡ replicate (length self.old) Unseen }
    {
        'seen: while let Some(seen) = self.seen.pop() {
            self.places[seen.rank as usize] = 0;
        }
    }

    /// Forgets what was seen, and frees the memory of that.
    pub fn free(&mut self)
        ensures { self.new ≡ replicate (length self.old) Unseen }
    {
        self.clear();
        free(&mut self.seen);
    }

    /// For how many seen nodes there is room.
    pub fn capacity(&self) -> usize {
        self.seen.capacity()
    }

    /// Returns the label of the node of a rank, if it has one.
    pub fn label(&self, rank: u32) -> Option<Label>
        requires { rank < length self.now }
        ensures { result ≡ label_in (mark self.now rank) }
    {
        let seen = seen_at(&self.places, &self.seen, rank)?;
        Some(seen.label)
    }

    /// Gives the node of a rank a label that may still get less.
    pub fn open(&mut self, rank: u32, label: Label) -> Result<(), AllocError>
        requires { rank < length self.old }
        ensures opened { OnOk result (self.new ≡ slice_set self.old rank (Open label)) }
        ensures refused { OnErr result (self.new ≡ self.old) }
    {
        let seen = Touched {
            label,
            rank,
            settled: false,
        };
        let place = self.places[rank as usize] as usize;
        if place == 0 {
            self.seen.push(seen)?;
            self.places[rank as usize] = self.seen.len() as u32;
            return Ok(());
        }
        self.seen[place - 1] = seen;
        Ok(())
    }

    /// Settles the node of a rank, if it is open, and returns its label.
    pub fn settle(&mut self, rank: u32) -> Option<Label>
        requires { rank < length self.old }
        ensures open { IfSome result (λ e. mark self.old rank ≡ Open e) }
        ensures settled { IfSome result (λ e. self.new ≡ slice_set self.old rank (Settled e)) }
        ensures closed { IfNone result ((e : Label) → mark self.old rank ≡ Open e → ⊥) }
        ensures unchanged { IfNone result (self.new ≡ self.old) }
    {
        let seen = seen_at(&self.places, &self.seen, rank)?;
        if seen.settled {
            return None;
        }
        let place = self.places[rank as usize] as usize;
        self.seen[place - 1] = Touched {
            label: seen.label,
            rank,
            settled: true,
        };
        Some(seen.label)
    }
}

/// The node of a rank, if it was seen.
fn seen_at(places: &[u32], seen: &[Touched], rank: u32) -> Option<Touched>
    requires { rank < length places.now }
    ensures { mark_in result ≡ mark_at seen.now (slice_index places.now rank) }
{
    let place = places[rank as usize] as usize;
    if place == 0 {
        return None;
    }
    seen.get(place - 1).copied()
}

// Takes all nodes out of a list, and frees its memory.
fn free(seen: &mut Vec<Touched>)
    ensures none { seen.new.items ≡ [] }
    ensures room { vec_capacity seen.new ≡ 0 }
{
    seen.clear();
    seen.shrink_to_fit();
}
