ghost use Rattle.std.specs.Prelude.{◌≡◌, ◌↔◌, IfOk, None};
ghost use Rattle.ch_cost.specs.declared.cost.Cost.{Cost};
ghost use Rattle.ch_overlay.specs.Source.{IsBound, IsSeenRow};
ghost use Rattle.ch_overlay.specs.declared.source.SeeError.TheVariants.{Unseen};
ghost use Rattle.ch_core.specs.World.{StandsIn, stands_at};
ghost use Rattle.ch_core.specs.Keeping.{IsSight};

use crate::reads::Reads;
use ch_cost::Cost;
use ch_overlay::{RowSource, SeeError, Seen};
use std::marker::Model;

/// What a worker has read, and the bound of the graph: a source of rows that returns each row as the worker read it,
/// with its version, and no other.
#[derive(Drop)]
pub struct View<'a> {
    /// What the worker read.
    reads: &'a Reads,
    /// The bound of the graph.
    bound: Cost,
}

impl<'a> Model for View<'a> {
    ghost use Rattle.ch_core.specs.Keeping as keeping;

    ghost Value = { keeping.Sight };

    ghost view = { λ v. record { view = v.reads.now; bound = v.bound } };

    ghost invariant = { λ v. keeping.IsSight (record { view = v.reads.now; bound = v.bound }) };
}

impl<'a> View<'a> {
    /// The view that has these rows, which can be relied on under this bound.
    pub(crate) fn new(reads: &'a Reads, bound: Cost) -> View<'a>
        requires { IsSight (record { view = reads.now; bound = bound }) }
        ensures { result ≡ record { view = reads.now; bound = bound } }
    {
        View { reads, bound }
    }

    /// Returns the row that the worker has of a node, with its version. `Unseen` where it has none, `OutOfMemory`
    /// where the row, which is shared, can't have one more owner.
    pub fn seen(&self, node: u32) -> Result<Seen, SeeError>
        ensures node { IfOk result (λ s. s.node ≡ node) }
        ensures stands { IfOk result (StandsIn self.now.view) }
        ensures row { IfOk result (IsSeenRow self.now.bound) }
        ensures bound { IsBound self.now.bound }
        ensures unseen { (result ≡ Err Unseen) ↔ (stands_at self.now.view node ≡ None) }
    {
        let Some(standing) = self.reads.get(node) else {
            return Err(SeeError::Unseen);
        };
        let seen = standing.seen(node)?;
        Ok(seen)
    }
}

/// A view shows what it has, and stays as it is when it is read.
impl RowSource for View<'_> {
    ghost use Rattle.std.specs.Prelude.{◌≡◌, ◌↔◌, ℕ, IfOk, None, OnErr, refl};
    ghost use Rattle.std.proofs.Common.{sym, subst, ap, ◌∙◌};
    ghost use Rattle.ch_overlay.specs.declared.source.Seen.{Seen};
    ghost use Rattle.ch_overlay.specs.declared.source.SeeError.TheVariants.{Unseen};
    ghost use Rattle.ch_overlay.specs.Source.{row_in, IsBound, IsSeenRow, NamesAlone};
    ghost use Rattle.ch_core.specs.World.{StandsIn, stands_at};
    ghost use Rattle.ch_core.specs.Keeping.{Sight};

    ghost bears = { λ _. Unit {0} };

    ghost shows = { λ v s. StandsIn v.view s };

    ghost stays = { λ a b. b ≡ a };

    ghost whole = { λ _ _. ⊥ };

    ghost bound_of = { λ v. v.bound };

    fn row_of(&mut self, node: u32) -> Result<Seen, SeeError>
        ensures node { IfOk result (λ seen. seen.node ≡ node) }
        ensures row { IfOk result (IsSeenRow self.old.bound) }
        ensures bound { IsBound self.old.bound }
        ensures bears { IfOk result (λ _. Unit {0}) }
        ensures shows { IfOk result (StandsIn self.new.view) }
        ensures stays { self.new ≡ self.old }
        ensures kept { OnErr result (self.new ≡ self.old) }
        ensures found { ⊥ → result ≡ Err Unseen → ⊥ }
        ensures names { ⊥ → IfOk result (λ seen. NamesAlone (λ _. ⊥) (row_in seen)) }
        ensures unseen { (result ≡ Err Unseen) ↔ (stands_at self.old.view node ≡ None) }
    {
        self.seen(node)
    }

    fn bound(&self) -> Cost {
        self.bound
    }

    ghost stays_self = { λ a. refl };

    ghost stays_more = { λ a b c e f. f ∙ e };

    ghost still_shows = { λ a b s e h. subst (λ (v : Sight). StandsIn v.view s) (sym e) h };

    ghost still_whole = { λ a b x e h. h };

    ghost same_bound = { λ a b e. ap (λ (v : Sight). v.bound) e };
}
