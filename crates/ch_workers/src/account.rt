ghost use Rattle.std.specs.Prelude.{◌≡◌, ◌++◌, ◌∷◌, [], ◌↔◌, ℕ, List, IfOk, IsTrue, IsFalse, ◌<◌, false, length, map, slice_index_or};
ghost use Rattle.ch_contract.specs.Ledger.{IsLog};
ghost use Rattle.ch_contract.specs.declared.contraction.Receipt.{Receipt};
ghost use Rattle.ch_workers.specs.Account.{IsAccount, Rises, AreApart, AreMarked};

use ch_contract::{Contraction, Receipt};
use std::alloc::{AllocError, Global};

/// Whether the receipts account for the log: each entry has its receipt in exactly one place of one of the lists,
/// there are no others, and each list rises in rank.
///
/// An error where the memory for the marks was refused, one for each entry, which it takes while it runs; the time is
/// that of a look at each receipt and each entry.
pub fn is_account(
    alloc: Global,
    log: &[Contraction],
    receipts: &[Vec<Receipt>],
) -> Result<bool, AllocError>
    requires log { IsLog log.now }
    ensures { IfOk result (λ holds. IsTrue holds ↔ IsAccount log.now (map (λ v. v.items) receipts.now)) }
{
    let mut marks = vec![in alloc; false; log.len()]?;
    'lists: for list in receipts {
        if !rises(list) {
            return Ok(false);
        }
        if !take_list(log, &mut marks, list) {
            return Ok(false);
        }
    }
    Ok(are_set(&marks))
}

/// Whether each mark is set.
fn are_set(marks: &[bool]) -> bool
    ensures { IsTrue result ↔ ((k : ℕ) → k < length marks.now → IsTrue (slice_index_or marks.now k false)) }
{
    marks.iter().all(|mark| *mark)
}

/// Whether each receipt of a list is of a lower rank than those behind it.
fn rises(receipts: &[Receipt]) -> bool
    ensures { IsTrue result ↔ Rises receipts.now }
{
    'places: for place in 1..receipts.len() {
        if receipts[place - 1].rank >= receipts[place].rank {
            return false;
        }
    }
    true
}

/// Marks the ranks of the receipts of a list. False where one is of no entry of the log, or has a mark already.
fn take_list(log: &[Contraction], marks: &mut [bool], receipts: &[Receipt]) -> bool
    requires log { IsLog log.now }
    requires size { length marks.old ≡ length log.now }
    ensures taken { IsTrue result → (done : List Receipt) → AreMarked log.now done marks.old → AreMarked log.now (done ++ receipts.now) marks.new }
    ensures refused { IsFalse result → (done : List Receipt) → AreMarked log.now done marks.old → AreApart log.now (done ++ receipts.now) → ⊥ }
{
    'receipts: for receipt in receipts {
        if !take_receipt(log, marks, *receipt) {
            return false;
        }
    }
    true
}

/// Marks the rank of a receipt. False where it is of no entry of the log, or has a mark already.
fn take_receipt(log: &[Contraction], marks: &mut [bool], receipt: Receipt) -> bool
    requires log { IsLog log.now }
    requires size { length marks.old ≡ length log.now }
    ensures taken { IsTrue result → (done : List Receipt) → AreMarked log.now done marks.old → AreMarked log.now (done ++ receipt ∷ []) marks.new }
    ensures refused { IsFalse result → (done : List Receipt) → AreMarked log.now done marks.old → AreApart log.now (done ++ receipt ∷ []) → ⊥ }
{
    let place = receipt.rank as usize;
    if place >= log.len() {
        return false;
    }
    let entry = &log[place];
    if entry.node != receipt.node {
        return false;
    }
    if marks[place] {
        return false;
    }
    marks[place] = true;
    true
}
