ghost use Rattle.std.specs.Prelude.{◌≡◌, ◌↔◌, IfOk};
ghost use Rattle.ch_overlay.specs.declared.source.SeeError.TheVariants as see;
ghost use Rattle.ch_overlay.specs.Source.{row_in, IsSeenRow, NamesAlone};
ghost use Rattle.ch_contract.specs.Ledger.{IsNode};
ghost use Rattle.ch_contract.specs.Commit.{IsRowOf};

use crate::solo::Solo;
use ch_contract::{Ledger, Site};
use ch_cost::Cost;
use ch_laws::bounds_fit;
use ch_overlay::{RowSource, SeeError, Seen};
use std::sync::Arc;

/// Returns the row of a node as it is now. `Unseen` where the node is out of range, `OutOfMemory` where the row has as many
/// owners as there can be.
fn seen(ledger: &Ledger, node: u32) -> Result<Seen, SeeError>
    ensures node { IfOk result (λ seen. seen.node ≡ node) }
    ensures row { IfOk result (IsSeenRow ledger.now.overlay.bound) }
    ensures shows { IfOk result (IsRowOf ledger.now) }
    ensures names { IfOk result (λ seen. NamesAlone (IsNode ledger.now) (row_in seen)) }
    ensures unseen { (result ≡ Err see.Unseen) ↔ (IsNode ledger.now node → ⊥) }
{
    let overlay = ledger.overlay();
    if node >= overlay.nodes() {
        return Err(SeeError::Unseen);
    }
    let version = overlay.version(node);
    let row = Arc::try_clone(overlay.row(node))?;
    Ok(Seen {
        node,
        version,
        row,
        token: None,
    })
}

/// A ledger shows its rows as they are, and is left as it is when they are read.
impl<S: Site> RowSource for Solo<S> {
    ghost use Rattle.std.specs.Prelude.{◌≡◌, ◌↔◌, ℕ, IfOk, OnErr, refl};
    ghost use Rattle.std.proofs.Common.{ap, sym, subst, ◌∙◌};
    ghost use Rattle.ch_overlay.specs.declared.source.Seen.{Seen};
    ghost use Rattle.ch_overlay.specs.declared.source.SeeError.TheVariants as see;
    ghost use Rattle.ch_overlay.specs.Source.{row_in, IsBound, IsSeenRow, NamesAlone};
    ghost use Rattle.ch_contract.specs.Ledger as ledgers;
    ghost use Rattle.ch_contract.specs.Ledger.{IsNode};
    ghost use Rattle.ch_contract.specs.Commit.{IsRowOf};

    ghost bears = { λ _. Unit {0} };

    ghost shows = { λ l s. IsRowOf l s };

    ghost stays = { λ a b. b ≡ a };

    ghost whole = { λ l x. IsNode l x };

    ghost bound_of = { λ l. l.overlay.bound };

    fn row_of(&mut self, node: u32) -> Result<Seen, SeeError> {
        self.ledger.holds();
        bounds_fit();
        seen(&self.ledger, node)
    }

    fn bound(&self) -> Cost {
        self.ledger.holds();
        bounds_fit();
        self.ledger.overlay().bound()
    }

    ghost stays_self = { λ a. refl };

    ghost stays_more = { λ a b c e f. f ∙ e };

    ghost still_shows = { λ a b s e h. subst (λ (l : ledgers.Ledger). IsRowOf l s) (sym e) h };

    ghost still_whole = { λ a b x e h. subst (λ (l : ledgers.Ledger). IsNode l x) (sym e) h };

    ghost same_bound = { λ a b e. ap (λ (l : ledgers.Ledger). l.overlay.bound) e };
}
