ghost use Rattle.std.specs.Prelude.{◌≡◌, ◌+◌, ◌<◌, ◌^◌, [], AllPairs, length, OnOk, OnErr};
ghost use Rattle.ch_contract.specs.Proposal.{AreFacts};

use ch_contract::{Contraction, Facts};
use ch_estimate::Estimator;
use std::alloc::AllocError;

/// An estimator of a worker, and how many entries of the log it received.
#[derive(Drop)]
pub struct Listener<E: Estimator> {
    estimator: E,
    told: u32,
    ghost told_is: { told ≡ length (E.heard estimator) },
}

impl<E: Estimator> Listener<E> {
    /// An estimator that received nothing.
    pub(crate) fn new(estimator: E) -> Listener<E>
        requires untold { E.heard estimator ≡ [] }
        ensures { result.told ≡ 0 }
    {
        Listener { estimator, told: 0 }
    }

    /// Returns how many entries it received: the rank of the next.
    pub fn told(&self) -> u32
        ensures { result ≡ self.now.told }
    {
        self.told
    }

    /// The key of a node, by the counts of its proposal.
    pub(crate) fn key(&mut self, facts: &Facts) -> u64
        requires few { AreFacts facts.now }
        ensures { self.new.told ≡ self.old.told }
    {
        self.estimator.key(facts)
    }

    /// Gives it the next entry of the log. Fails where memory runs out; it is then as it was.
    pub fn tell(&mut self, entry: &Contraction) -> Result<(), AllocError>
        requires rank { entry.now.rank ≡ self.old.told }
        requires few { entry.now.rank < 2 ^ 25 }
        requires rising { AllPairs (λ x y. x < y) entry.now.neighbours }
        ensures told { OnOk result (self.new.told ≡ self.old.told + 1) }
        ensures err { OnErr result (self.new.told ≡ self.old.told) }
    {
        self.estimator.told(entry)?;
        self.told += 1;
        Ok(())
    }
}
