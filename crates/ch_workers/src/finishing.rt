ghost use Rattle.std.specs.Prelude.{◌≡◌, ◌+◌, ◌<◌, ◌≤◌, IfOk, None, length, map, vec_len};
ghost use Rattle.ch_laws.specs.Contraction.{IsOver};
ghost use Rattle.ch_overlay.specs.Overlay.{state_of};
ghost use Rattle.ch_contract.specs.Ledger.{IsLedger};
ghost use Rattle.ch_rowbook.specs.Blanks.{name_of};
ghost use Rattle.ch_workers.specs.Account.{IsAccount};
ghost use Rattle.ch_workers.specs.Built.{IsBuilt};

use crate::account::is_account;
use crate::built::Built;
use crate::good_options::GoodOptions;
use crate::resources::Resources;
use crate::run::Worked;
use crate::trouble::Trouble;
use crate::workplace::Swept;
use ch_contract::{Board, FinishError, Ledger, Receipt, Site};
use ch_overlay::Overlay;
use ch_rowbook::Blank;
use std::alloc::Global;
use std::marker::Brand;
use std::sync::Wait;
use std::thread::Threads;

/// Contracts what the workers left, and makes the hierarchy, with no index. The rows are dropped beside what comes next.
/// The queue is put in when it is closed.
pub(crate) fn finish<R: Threads + Wait>(
    resources: &mut Resources<'_, R>,
    worked: Worked,
    good: GoodOptions,
) -> Result<Built, Trouble>
    ensures built { IfOk result (IsBuilt worked.ledger.graph (vec_len worked.receipts + 1)) }
    ensures queue { IfOk result (λ b. b.queue ≡ None) }
{
    let Worked { ledger, receipts } = worked;
    let swept = sweep(resources, ledger, good)?;
    let (built, rows) = built_of_swept(resources.alloc, swept, receipts)?;
    resources.dispose_last(rows);
    Ok(built)
}

/// Makes the hierarchy, with no index, if the receipts of the workers and of the sweep account for the log. The rows are
/// returned too, which are needed no longer.
pub(crate) fn built_of_swept(
    alloc: Global,
    swept: Swept,
    receipts: Vec<Vec<Receipt>>,
) -> Result<(Built, Overlay), Trouble>
    requires over { IsOver (state_of swept.ledger.overlay) }
    ensures built { IfOk result (λ made. IsBuilt swept.ledger.graph (vec_len receipts + 1) made.0) }
    ensures queue { IfOk result (λ made. made.0.queue ≡ None) }
{
    let Swept {
        ledger,
        receipts: last,
    } = swept;
    let mut receipts = receipts;
    receipts.reserve(1)?;
    receipts.push_reserved(last);
    if !is_account(alloc, ledger.log(), receipts.as_slice())? {
        return Err(Trouble::Mixed);
    }
    built_of(ledger, receipts)
}

/// Contracts each node that is left, by a board whose book is new. There is none where no node is left.
fn sweep<R: Threads + Wait>(
    resources: &mut Resources<'_, R>,
    ledger: Ledger,
    good: GoodOptions,
) -> Result<Swept, Trouble>
    ensures graph { IfOk result (λ swept. swept.ledger.graph ≡ ledger.graph) }
    ensures over { IfOk result (λ swept. IsOver (state_of swept.ledger.overlay)) }
{
    if ledger.is_over() {
        let receipts = Vec::new(resources.alloc);
        return Ok(Swept { ledger, receipts });
    }
    let rows = ledger.overlay();
    let blank = Blank::new(resources.alloc, rows.nodes(), rows.bound())?;
    sweep_named::<Brand, R>(resources, blank, ledger, good)
}

/// Contracts each node that is left, by a board of a type that names the graph and the book. The book is dropped beside
/// what comes next.
fn sweep_named<S: Site + Send + Sync + 'static, R: Threads + Wait>(
    resources: &mut Resources<'_, R>,
    blank: Blank,
    ledger: Ledger,
    good: GoodOptions,
) -> Result<Swept, Trouble>
    requires of_graph { S.graph ≡ ledger.graph }
    requires of_book { S.book ≡ name_of blank }
    requires nodes { blank.nodes ≡ length ledger.overlay.rows }
    requires bound { blank.bound ≡ ledger.overlay.bound }
    ensures graph { IfOk result (λ swept. swept.ledger.graph ≡ ledger.graph) }
    ensures over { IfOk result (λ swept. IsOver (state_of swept.ledger.overlay)) }
{
    let mut board = match Board::<S>::of_ledger(resources.rt, resources.alloc, blank, ledger) {
        Ok((board, _)) => board,
        Err((_, refused)) => return Err(refused.into()),
    };
    let receipts = board.sweep(resources.rt, good.options.settle)?;
    let (ledger, pen) = board.into_parts();
    resources.dispose(pen);
    Ok(Swept { ledger, receipts })
}

/// The hierarchy and the log of a ledger whose nodes are all contracted, beside the receipts that account for the log; and
/// its rows.
fn built_of(ledger: Ledger, receipts: Vec<Vec<Receipt>>) -> Result<(Built, Overlay), Trouble>
    requires holds { IsLedger ledger }
    requires over { IsOver (state_of ledger.overlay) }
    requires account { IsAccount ledger.log (map (λ v. v.items) receipts.items) }
    ensures built { IfOk result (λ made. IsBuilt ledger.graph (vec_len receipts) made.0) }
    ensures queue { IfOk result (λ made. made.0.queue ≡ None) }
{
    let finished = match ledger.finish() {
        Ok(finished) => finished,
        Err((_, FinishError::OutOfMemory)) => return Err(Trouble::OutOfMemory),
        Err((_, FinishError::NodesLeft)) => unreachable!(),
    };
    let built = Built {
        hierarchy: finished.hierarchy,
        receipts,
        log: finished.log,
        queue: None,
    };
    Ok((built, finished.rows))
}
