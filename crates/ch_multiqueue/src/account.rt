ghost use Rattle.std.specs.Prelude.{◌≡◌, ◌++◌, AllPairs, IfOk, IfSome, IsPermutation};
ghost use Rattle.ch_multiqueue.specs.Accounts.{all_put, all_taken};
ghost use Rattle.ch_multiqueue.specs.Items.{IsNotAfter};

use crate::item::Item;
use crate::pass::Pass;
use std::alloc::{AllocError, Global};

/// What is left, if what was put is what was taken or is left.
pub(crate) fn where_balanced(left: Vec<Item>, put: Vec<Item>, gone: Vec<Item>) -> Option<Vec<Item>>
    ensures { IfSome result (λ items. (items ≡ left) × (put.items ≡ gone.items)) }
{
    if put.as_slice() == gone.as_slice() {
        Some(left)
    } else {
        None
    }
}

/// All that was put through these passes, in order.
pub(crate) fn put_in_order(alloc: Global, passes: &[Pass]) -> Result<Vec<Item>, AllocError>
    ensures same { IfOk result (λ items. IsPermutation (all_put passes.now) items.items) }
    ensures sorted { IfOk result (λ items. AllPairs IsNotAfter items.items) }
{
    Ok(in_order(put_through(alloc, passes)?))
}

/// All that was taken through these passes or is left, in order.
pub(crate) fn gone_in_order(
    alloc: Global,
    passes: &[Pass],
    left: &[Item],
) -> Result<Vec<Item>, AllocError>
    ensures same { IfOk result (λ items. IsPermutation (all_taken passes.now ++ left.now) items.items) }
    ensures sorted { IfOk result (λ items. AllPairs IsNotAfter items.items) }
{
    let mut gone = taken_through(alloc, passes)?;
    gone.extend_from_slice(left)?;
    Ok(in_order(gone))
}

/// All that was put through these passes, one account behind the other.
fn put_through(alloc: Global, passes: &[Pass]) -> Result<Vec<Item>, AllocError>
    ensures { IfOk result (λ items. items.items ≡ all_put passes.now) }
{
    let mut items = Vec::new(alloc);
    'passes: for pass in passes {
        items.extend_from_slice(pass.put())?;
    }
    Ok(items)
}

/// All that was taken through these passes, one account behind the other.
fn taken_through(alloc: Global, passes: &[Pass]) -> Result<Vec<Item>, AllocError>
    ensures { IfOk result (λ items. items.items ≡ all_taken passes.now) }
{
    let mut items = Vec::new(alloc);
    'passes: for pass in passes {
        items.extend_from_slice(pass.taken())?;
    }
    Ok(items)
}

/// The same items, in order.
pub(crate) fn in_order(mut items: Vec<Item>) -> Vec<Item>
    ensures same { IsPermutation items.items result.items }
    ensures sorted { AllPairs IsNotAfter result.items }
{
    items.as_mut_slice().sort_unstable();
    items
}
