use crate::note::Note;
use ch_contract::{Contraction, Facts};
use std::alloc::AllocError;

/// A way to choose the order of contraction, by the contractions that it has received so far.
///
/// No promise on answers rests on one: whatever keys it gives, the hierarchy is right.
pub trait Estimator: Drop {
    ghost use Rattle.std.specs.Prelude.{◌≡◌, ℕ, ◌<◌, ◌^◌, List, [], ◌∷◌, ◌++◌, length, AllPairs, OnOk, OnErr};
    ghost use Rattle.ch_laws.specs.Contraction.{Contraction};
    ghost use Rattle.ch_contract.specs.Proposal.{AreFacts};
    ghost use Rattle.ch_estimate.specs.Notes.{note_of};

    /// The entries that it received, first to last.
    ghost heard: { Self → List Contraction };

    /// A key for a node, by the counts of its proposal: nodes of smaller keys go first. Any number is allowed.
    fn key(&mut self, facts: &Facts) -> u64
        requires few { AreFacts facts.now }
        ensures { heard self.new ≡ heard self.old };

    /// Gives it the next entry of the log.
    ///
    /// Fails where memory runs out; it is then as it was.
    fn told(&mut self, entry: &Contraction) -> Result<(), AllocError>
        requires rank { entry.now.rank ≡ length (heard self.old) }
        requires few { entry.now.rank < 2 ^ 25 }
        requires rising { AllPairs (λ x y. x < y) entry.now.neighbours }
        ensures told { OnOk result (heard self.new ≡ heard self.old ++ entry.now ∷ []) }
        ensures err { OnErr result (heard self.new ≡ heard self.old) };

    /// What it knows of a node: no depth and nobody gone where it was never named.
    fn note(&self, node: u32) -> Note
        ensures { result ≡ note_of (heard self.now) node };
}
