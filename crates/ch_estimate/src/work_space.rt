ghost use Rattle.std.specs.Prelude.{◌≡◌, ℕ, ◌<◌, ◌^◌, [], ◌∷◌, ◌++◌, length, AllPairs, OnOk, OnErr};
ghost use Rattle.ch_estimate.specs.Notes as told;

use crate::heard::Heard;
use crate::lease::Lease;
use crate::note::Note;
use crate::notes::{lose_all, make_room, note_of};
use ch_contract::Contraction;
use std::alloc::{AllocError, Global};
use std::marker::Model;

/// What an estimator keeps between two questions: the notes of the nodes, up to the greatest that was named, in a list by
/// node, and the lease under which it works.
///
/// It is seen as the entries that it received, which it doesn't keep.
#[derive(Drop)]
pub struct WorkSpace {
    notes: Vec<Note>,
    heard: Heard,
    lease: Lease,
}

impl Model for WorkSpace {
    ghost use Rattle.std.specs.Prelude.{◌≡◌, ℕ, List};
    ghost use Rattle.std.specs.Coded.{coded_list};
    ghost use Rattle.ch_laws.specs.Contraction.{Contraction};
    ghost use Rattle.ch_estimate.specs.Heard.{coded_entry};
    ghost use Rattle.ch_estimate.specs.Notes.{note_in, note_of};

    ghost Value = { List Contraction };

    ghost coded = { coded_list coded_entry };

    ghost view = { λ w. w.heard.entries };

    ghost invariant = { λ w. (x : ℕ) → note_in w.notes.items x ≡ note_of w.heard.entries x };
}

impl WorkSpace {
    /// One that received nothing. Takes no memory.
    pub fn new(alloc: Global, lease: Lease) -> WorkSpace
        ensures { result ≡ [] }
    {
        WorkSpace {
            notes: Vec::new(alloc),
            heard: Heard::new(),
            lease,
        }
    }

    /// What the entries show of a node. Takes constant time.
    pub fn note(&self, node: u32) -> Note
        ensures { result ≡ told.note_of self.now node }
    {
        note_of(&self.notes, node)
    }

    /// Takes in the next entry of the log.
    ///
    /// Takes memory for the notes of all nodes up to the greatest that was named, 8 bytes each, and time for that and for
    /// each neighbour. Refused where that memory is; it is then as it was.
    pub fn told(&mut self, entry: &Contraction) -> Result<(), AllocError>
        requires rank { entry.now.rank ≡ length self.old }
        requires few { entry.now.rank < 2 ^ 25 }
        requires rising { AllPairs (λ x y. x < y) entry.now.neighbours }
        ensures told { OnOk result (self.new ≡ self.old ++ entry.now ∷ []) }
        ensures err { OnErr result (self.new ≡ self.old) }
    {
        let depth = note_of(&self.notes, entry.node).depth;
        let neighbours = entry.neighbours.as_slice();
        make_room(&mut self.notes, neighbours)?;
        lose_all(&mut self.notes, neighbours, depth);
        self.heard = self.heard.and(entry);
        Ok(())
    }
}
