ghost use Rattle.std.specs.Prelude.{◌≡◌, ◌↔◌, IfOk};
ghost use Rattle.ch_overlay.specs.declared.source.SeeError.TheVariants as see;
ghost use Rattle.ch_overlay.specs.Source.{row_in, IsBound, IsSeenRow, NamesAlone};
ghost use Rattle.ch_rowbook.specs.Books.{IsOfBook};
ghost use Rattle.ch_contract.specs.Board.{IsInBook};
ghost use Rattle.ch_contract.specs.Ledger.{IsNode};
ghost use Rattle.ch_contract.specs.Commit.{IsShown};

use crate::ledger::Ledger;
use crate::site::Site;
use ch_laws::bounds_fit;
use ch_overlay::{SeeError, Seen};
use ch_rowbook::Pen;

/// Returns the row of a node as the pen shows it now, with its version, and the token that proves which record of the book
/// has it. `Unseen` where the node is out of range, `OutOfMemory` where the row has as many owners as there can be.
pub fn shown<S: Site>(ledger: &Ledger, pen: &Pen<S>, node: u32) -> Result<Seen, SeeError>
    requires { IsInBook S.graph S.book ledger.now pen.now }
    ensures node { IfOk result (λ seen. seen.node ≡ node) }
    ensures bound { IsBound S.book.bound }
    ensures row { IfOk result (IsSeenRow S.book.bound) }
    ensures bears { IfOk result (IsOfBook S.book) }
    ensures shows { IfOk result (IsShown ledger.now) }
    ensures names { IfOk result (λ seen. NamesAlone (IsNode ledger.now) (row_in seen)) }
    ensures unseen { (result ≡ Err see.Unseen) ↔ (IsNode ledger.now node → ⊥) }
{
    ledger.holds();
    bounds_fit();
    if node >= ledger.overlay().nodes() {
        return Err(SeeError::Unseen);
    }
    let seen = pen.see(node)?;
    Ok(seen)
}
