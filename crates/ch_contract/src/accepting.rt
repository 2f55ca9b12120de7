ghost use Rattle.std.specs.Prelude.{◌≡◌, ◌↔◌, ℕ, IsTrue, IfNone, IfSome, SomeIff};
ghost use Rattle.ch_overlay.specs.declared.source.Seen.{Seen};
ghost use Rattle.ch_contract.specs.Ledger.{IsGone, version_now};
ghost use Rattle.ch_contract.specs.Proposal.{IsProposal};
ghost use Rattle.ch_contract.specs.Commit.{IsOld, NoneIsOld, IsFirstOld, IsUpToDate, IsRefusal, AgreementIsLawful};

use crate::error::CommitError;
use crate::ledger::Ledger;
use crate::proposal::Proposal;
use ch_laws::verdicts_are_lawful;
use ch_overlay::Seen;

/// A proposal that was made by rows of a ledger, under its bound, is a lawful contraction of it. It does nothing when it
/// runs.
pub fn agreement_is_lawful()
    ensures { AgreementIsLawful }
{
    verdicts_are_lawful();
}

/// Why a proposal isn't up to date, by version numbers alone: its node is contracted already, or else a row has another
/// version now, the first of them. `None` where it is.
///
/// Takes no memory. Looks once at the version of each row that the proposal rests on, and at no entry.
pub fn refusal(ledger: &Ledger, proposal: &Proposal) -> Option<CommitError>
    ensures up_to_date { IfNone result (IsUpToDate ledger.now proposal.now) }
    ensures refused { IfSome result (λ error. IsRefusal ledger.now proposal.now error) }
    ensures holds { IsProposal proposal.now }
{
    let rows = proposal.rests_on();
    if is_contracted(ledger, proposal.node()) {
        return Some(CommitError::Contracted);
    }
    let old = first_old(ledger, rows)?;
    let front = ledger.log().len() as u64;
    Some(CommitError::Stale {
        node: old.node,
        seen: old.seen,
        now: old.now,
        front,
    })
}

/// A row that was seen in another version than its node has now.
#[derive(Clone, Copy)]
struct Old {
    /// The node, which is in range.
    node: u32,
    /// The version that was seen.
    seen: u64,
    /// The version now.
    now: u64,
}

/// Whether a node is in range and contracted.
fn is_contracted(ledger: &Ledger, node: u32) -> bool
    ensures { IsTrue result ↔ IsGone ledger.now node }
{
    let overlay = ledger.overlay();
    if node >= overlay.nodes() {
        return false;
    }
    overlay.row(node).rank.is_some()
}

/// The first of these rows of which the ledger has another version now.
fn first_old(ledger: &Ledger, rows: &[Seen]) -> Option<Old>
    ensures none { IfNone result (NoneIsOld ledger.now rows.now) }
    ensures some { IfSome result (λ old. IsFirstOld ledger.now rows.now old.node old.seen old.now) }
{
    'rows: for seen in rows {
        if let Some(now) = newer(ledger, seen) {
            return Some(Old {
                node: seen.node,
                seen: seen.version,
                now,
            });
        }
    }
    None
}

/// Whether none of these rows has another version now.
pub(crate) fn are_current(ledger: &Ledger, rows: &[Seen]) -> bool
    ensures { IsTrue result ↔ NoneIsOld ledger.now rows.now }
{
    first_old(ledger, rows).is_none()
}

/// The version that the ledger has now, where it is another than the one that was seen. A node out of range has none.
fn newer(ledger: &Ledger, seen: &Seen) -> Option<u64>
    ensures { SomeIff result (IsOld ledger.now seen.now) (version_now ledger.now seen.now.node) }
{
    let overlay = ledger.overlay();
    if seen.node >= overlay.nodes() {
        return None;
    }
    let now = overlay.version(seen.node);
    if seen.version == now {
        return None;
    }
    Some(now)
}
