ghost use Rattle.std.specs.Prelude.{◌≡◌, []};
ghost use Rattle.ch_contract.specs.Proposal.{AreFacts};
ghost use Rattle.ch_estimate.specs.Notes.{note_of};

use crate::estimator::Estimator;
use crate::key::Key;
use crate::lease::Lease;
use crate::note::Note;
use crate::work_space::WorkSpace;
use ch_contract::{Contraction, Facts};
use std::alloc::{AllocError, Global};
use std::marker::{Model, PhantomData};

/// An estimator whose keys are those of `K`.
///
/// Seen as the entries that it received.
#[derive(Drop)]
pub struct ByKey<K: Key> {
    space: WorkSpace,
    key: PhantomData<K>,
}

impl<K: Key> Model for ByKey<K> {
    ghost use Rattle.std.specs.Prelude.{List};
    ghost use Rattle.std.specs.Coded.{coded_list};
    ghost use Rattle.ch_laws.specs.Contraction.{Contraction};
    ghost use Rattle.ch_estimate.specs.Heard.{coded_entry};

    ghost Value = { List Contraction };

    ghost coded = { coded_list coded_entry };

    ghost view = { λ e. e.space };
}

impl<K: Key> ByKey<K> {
    /// One that received nothing, and works under this lease. Takes no memory.
    pub fn new(alloc: Global, lease: Lease) -> ByKey<K>
        ensures { result ≡ [] }
    {
        ByKey {
            space: WorkSpace::new(alloc, lease),
            key: PhantomData,
        }
    }
}

impl<K: Key> Estimator for ByKey<K> {
    ghost heard = { λ entries. entries };

    /// The key of the kind, by what it knows of the node.
    fn key(&mut self, facts: &Facts) -> u64
        requires few { AreFacts facts.now }
        ensures heard { self.new ≡ self.old }
        ensures key { result ≡ K.number facts.now (note_of self.old facts.now.node) }
    {
        K::of(facts, self.space.note(facts.node))
    }

    /// Takes memory for the notes of all nodes up to the greatest that was named.
    fn told(&mut self, entry: &Contraction) -> Result<(), AllocError> {
        self.space.told(entry)
    }

    fn note(&self, node: u32) -> Note {
        self.space.note(node)
    }
}
