ghost use Rattle.std.specs.Prelude.{◌≡◌, List, [], ◌∷◌, ◌++◌};
ghost use Rattle.std.specs.Coded.{coded_list};
ghost use Rattle.std.specs.Borrow.{ftrue};
ghost use Rattle.ch_laws.specs.Contraction.{Contraction};
ghost use Rattle.ch_estimate.specs.Heard.{coded_entry};

use ch_contract::Contraction;
use std::marker::Model;

/// The entries that an estimator received, first to last. Only proofs read them: it takes no memory.
#[derive(Drop)]
pub struct Heard {
    pub ghost entries: { List Contraction } by { coded_list coded_entry },
}

impl Model for Heard {
    ghost also_owns = { λ _. ftrue };
}

// It owns nothing.
unsafe impl Send for Heard {}

impl Heard {
    /// Of one that received no entry.
    pub fn new() -> Heard
        ensures { result.entries ≡ [] }
    {
        Heard {}
    }

    /// With one more entry at the end.
    pub fn and(&self, _entry: &Contraction) -> Heard
        ensures { result.entries ≡ self.now.entries ++ _entry.now ∷ [] }
    {
        Heard {}
    }
}
