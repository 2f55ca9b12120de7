use crate::proposal::Proposal;
use ch_overlay::{Seen, Shortcut};
use ch_witness::{Aim, Searcher};
use std::alloc::Global;
use std::marker::Model;

/// What proposals are worked out in, one after the other. It keeps their memory, of which 8 bytes for each number up to
/// the greatest of a node that they came to.
#[derive(Drop)]
pub struct Scratch {
    pub(crate) desk: Desk,
}

impl Model for Scratch {
    ghost Value = { Unit {0} };

    ghost view = { λ _. tt };
}

/// What a [`Scratch`] holds.
#[derive(Drop)]
pub(crate) struct Desk {
    /// Makes the searches, and keeps each row that the proposal at hand has read, also for the searches behind.
    pub(crate) searcher: Searcher,
    /// The pairs that are judged now.
    pub(crate) pairs: NeighbourPairs,
    /// Memory for the nodes whose rows a proposal rests on.
    pub(crate) listed: Vec<u32>,
    /// Memory for the rows that a proposal rests on. It has no items.
    pub(crate) rests_on: Vec<Seen>,
    /// Memory for the shortcuts of a proposal.
    pub(crate) shortcuts: Vec<Shortcut>,
}

/// The pairs from one neighbour, and what a search for their ways is given.
#[derive(Drop)]
pub(crate) struct NeighbourPairs {
    /// Those that aren't heavy.
    pub(crate) light: Vec<Shortcut>,
    /// The nodes to which they lead.
    pub(crate) ends: Vec<u32>,
    /// For each of these what lets the search end earlier.
    pub(crate) aims: Vec<Aim>,
}

impl Scratch {
    /// It takes no memory yet.
    pub fn new(alloc: Global) -> Scratch {
        Scratch {
            desk: Desk {
                searcher: Searcher::new(alloc),
                pairs: NeighbourPairs {
                    light: Vec::new(alloc),
                    ends: Vec::new(alloc),
                    aims: Vec::new(alloc),
                },
                listed: Vec::new(alloc),
                rests_on: Vec::new(alloc),
                shortcuts: Vec::new(alloc),
            },
        }
    }

    /// Takes ownership of a proposal that isn't needed any more. Its rows are dropped, and the memory of its lists is kept
    /// for the next proposal, in place of what was kept of an earlier one. Takes no memory.
    pub fn keep(&mut self, proposal: Proposal) {
        let Proposal {
            rests_on,
            shortcuts,
            ..
        } = proposal;
        let mut rests_on = rests_on;
        rests_on.clear();
        self.desk.rests_on = rests_on;
        self.desk.shortcuts = shortcuts;
    }
}
