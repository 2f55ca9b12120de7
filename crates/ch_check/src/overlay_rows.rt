ghost use Rattle.std.specs.Prelude.{◌≡◌, IfOk};
ghost use Rattle.ch_overlay.specs.Source as sources;
ghost use Rattle.ch_overlay.specs.declared.source.SeeError.TheVariants.{Unseen};
ghost use Rattle.ch_laws.specs.Contraction.{IsAlive};
ghost use Rattle.ch_overlay.specs.Overlay.{state_of};
ghost use Rattle.ch_check.specs.Pairs.{IsOpenRow, IsNode, ShowsRow};

use ch_cost::Cost;
use ch_laws::rows_of_alive_nodes_show_what_remains;
use ch_overlay::{Overlay, Row, RowSource, SeeError, Seen};
use std::marker::Model;
use std::sync::Arc;

/// The rows of an overlay, as a search reads them.
#[derive(Drop)]
pub struct OverlayRows<'a> {
    overlay: &'a Overlay,
}

impl<'a> Model for OverlayRows<'a> {
    ghost use Rattle.ch_overlay.specs.Overlay as overlays;
    ghost use Rattle.ch_overlay.specs.Source.{IsBound};

    ghost Value = { overlays.Overlay };

    ghost view = { λ r. r.overlay.now };

    ghost invariant = { λ r. overlays.IsOverlay r.overlay.now × IsBound r.overlay.now.bound };
}

impl<'a> OverlayRows<'a> {
    ghost use Rattle.ch_overlay.specs.Source.{IsBound};

    /// Reads the rows of this overlay.
    pub fn new(overlay: &'a Overlay) -> OverlayRows<'a>
        requires { IsBound overlay.now.bound }
        ensures { result ≡ overlay.now }
    {
        let _ = overlay.nodes();
        OverlayRows { overlay }
    }

    fn seen(&self, node: u32) -> Result<Seen, SeeError>
        ensures node { IfOk result (λ s. s.node ≡ node) }
        ensures row { IfOk result (sources.IsSeenRow self.now.bound) }
        ensures shows { IfOk result (ShowsRow self.now) }
        ensures bound { IsBound self.now.bound }
        ensures names { IfOk result (λ s. sources.NamesAlone (IsNode self.now) (sources.row_in s)) }
        ensures found { IsNode self.now node → result ≡ Err Unseen → ⊥ }
    {
        if node >= self.overlay.nodes() {
            return Err(SeeError::Unseen);
        }
        let version = self.overlay.version(node);
        let row = Arc::try_clone(self.overlay.row(node))?;
        Ok(Seen {
            node,
            version,
            row,
            token: None,
        })
    }
}

impl RowSource for OverlayRows<'_> {
    ghost use Rattle.std.specs.Prelude.{◌≡◌, ℕ, IfOk, OnErr, refl};
    ghost use Rattle.std.proofs.Common.{sym, subst, ap, ◌∙◌};
    ghost use Rattle.ch_overlay.specs.Overlay.{Overlay};
    ghost use Rattle.ch_overlay.specs.declared.source.Seen.{Seen};
    ghost use Rattle.ch_overlay.specs.declared.source.SeeError.TheVariants.{Unseen};
    ghost use Rattle.ch_overlay.specs.Source.{row_in, IsBound, IsSeenRow, NamesAlone};
    ghost use Rattle.ch_check.specs.Pairs.{IsNode, ShowsRow};

    ghost bears = { λ _. Unit {0} };

    ghost shows = { ShowsRow };

    ghost stays = { λ a b. b ≡ a };

    ghost whole = { IsNode };

    ghost bound_of = { λ o. o.bound };

    fn row_of(&mut self, node: u32) -> Result<Seen, SeeError> {
        self.seen(node)
    }

    fn bound(&self) -> Cost {
        self.overlay.bound()
    }

    ghost stays_self = { λ a. refl };

    ghost stays_more = { λ a b c e f. f ∙ e };

    ghost still_shows = { λ a b s e h. subst (λ (o : Overlay). ShowsRow o s) (sym e) h };

    ghost still_whole = { λ a b x e h. subst (λ (o : Overlay). IsNode o x) (sym e) h };

    ghost same_bound = { λ a b e. ap (λ (o : Overlay). o.bound) e };
}

/// The row of a node that isn't contracted.
pub fn open_row(overlay: &Overlay, node: u32) -> &Row
    requires { IsAlive (state_of overlay.now) node }
    ensures { IsOpenRow overlay.now node result.now }
{
    rows_of_alive_nodes_show_what_remains();
    let _ = overlay.nodes();
    overlay.row(node)
}
