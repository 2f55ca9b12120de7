//! Queues: what is pushed is popped, or left when they are closed. By which draws shows in `plain_queue`, beside plain lists.
ghost use Rattle.std.specs.Prelude.{◌<◌, ◌≤◌};

use ch_multiqueue::{CloseError, Item, MultiQueue, Pass};
use std::alloc::{AllocError, Global};
use std::sync::Wait;
use std::test::Fail;
use std::thread;

/// An item of this key and node.
fn item(key: u64, node: u32) -> Item {
    Item { key, node }
}

/// What is left in a queue, or why it isn't closed. Where memory runs out, it is tried once more with what was
/// returned.
fn closed(queue: MultiQueue, passes: Vec<Pass>) -> Result<Vec<Item>, CloseError> {
    match queue.close(passes) {
        Ok(items) => Ok(items),
        Err((error, queue, passes)) => {
            if error == CloseError::OutOfMemory {
                closed_at_once(queue, passes)
            } else {
                Err(error)
            }
        }
    }
}

/// The same, tried once.
fn closed_at_once(queue: MultiQueue, passes: Vec<Pass>) -> Result<Vec<Item>, CloseError> {
    match queue.close(passes) {
        Ok(items) => Ok(items),
        Err((error, _queue, _passes)) => Err(error),
    }
}

/// What is returned where a pass is missing. Fails where the queue is closed, or isn't for another reason.
fn lacking(queue: MultiQueue, passes: Vec<Pass>) -> Result<(MultiQueue, Vec<Pass>), Fail> {
    match queue.close(passes) {
        Ok(_items) => Err(Fail::from("closed with a pass missing")),
        Err((CloseError::PassMissing, queue, passes)) => Ok((queue, passes)),
        Err((error, _queue, _passes)) => Err(Fail::from(error)),
    }
}

/// Whether a queue is closed by this pass, and these items are left.
fn is_left(alloc: Global, queue: MultiQueue, pass: Pass, want: &[Item]) -> Result<bool, Fail> {
    let items = closed(queue, vec![in alloc; pass]?)?;
    Ok(items.as_slice() == want)
}

/// Whether the next item that is popped is this one, or there is none.
fn pops<R: Wait>(
    rt: &R,
    queue: &MultiQueue,
    pass: &mut Pass,
    want: Option<Item>,
) -> Result<bool, AllocError> {
    Ok(queue.pop(rt, pass)? == want)
}

/// Whether an item is taken in.
fn takes<R: Wait>(rt: &R, queue: &MultiQueue, pass: &mut Pass, item: Item) -> bool {
    queue.push(rt, pass, item).is_ok()
}

/// Whether an item that is pushed is popped once.
fn pops_what_is_pushed<R: Wait>(
    rt: &R,
    queue: &MultiQueue,
    pass: &mut Pass,
) -> Result<bool, AllocError> {
    let holds = takes(rt, queue, pass, item(5, 7));
    Ok(holds & pops(rt, queue, pass, Some(item(5, 7)))? & pops(rt, queue, pass, None)?)
}

#[test]
fn what_is_pushed_is_popped(rt: HostRuntime) -> Result<(), Fail> {
    let (queue, mut pass) = MultiQueue::new(rt.alloc(), 4, 11)?;
    let holds = pops_what_is_pushed(&rt, &queue, &mut pass)?;
    assert!(rt; holds & is_left(rt.alloc(), queue, pass, &[])?);
    Ok(())
}

/// Whether both passes push the same item, and the first pops it.
fn pops_one_of_two<R: Wait>(
    rt: &R,
    queue: &MultiQueue,
    first: &mut Pass,
    second: &mut Pass,
) -> Result<bool, AllocError> {
    let holds = takes(rt, queue, first, item(5, 7)) & takes(rt, queue, second, item(5, 7));
    Ok(holds & pops(rt, queue, first, Some(item(5, 7)))?)
}

/// Whether the first pass alone doesn't close a queue and is returned, and both do, with one item left.
fn needs_both(alloc: Global, queue: MultiQueue, first: Pass, second: Pass) -> Result<bool, Fail> {
    let (queue, mut passes) = lacking(queue, vec![in alloc; first]?)?;
    let is_first = passes.iter().map(|pass| pass.number()).eq([0]);
    passes.push(second)?;
    let items = closed(queue, passes)?;
    Ok(is_first & (items.as_slice() == [item(5, 7)].as_slice()))
}

#[test]
fn closed_with_all_passes_alone(rt: HostRuntime) -> Result<(), Fail> {
    let (mut queue, mut first) = MultiQueue::new(rt.alloc(), 2, 1)?;
    let mut second = queue.pass()?;
    let are_numbered = (first.number() == 0) & (second.number() == 1);
    let holds = are_numbered & pops_one_of_two(&rt, &queue, &mut first, &mut second)?;
    assert!(rt; holds & needs_both(rt.alloc(), queue, first, second)?);
    Ok(())
}

/// The first pass of another queue of two heaps.
fn stranger(alloc: Global) -> Result<Pass, AllocError> {
    let (_other, stranger) = MultiQueue::new(alloc, 2, 1)?;
    Ok(stranger)
}

/// Whether a queue isn't closed by these passes, nor then by its second one, which is returned.
fn lacks_one(
    alloc: Global,
    queue: MultiQueue,
    passes: Vec<Pass>,
    second: Pass,
) -> Result<bool, Fail> {
    let (queue, _passes) = lacking(queue, passes)?;
    let (_queue, passes) = lacking(queue, vec![in alloc; second]?)?;
    Ok(passes.len() == 1)
}

#[test]
fn one_pass_of_another_queue_for_two(rt: HostRuntime) -> Result<(), Fail> {
    let (mut queue, first) = MultiQueue::new(rt.alloc(), 2, 1)?;
    let second = queue.pass()?;
    let passes = vec![in rt.alloc(); first, stranger(rt.alloc())?]?;
    assert!(rt; lacks_one(rt.alloc(), queue, passes, second)?);
    Ok(())
}

/// Whether a queue of this many heaps has them, and nothing is popped and nothing left.
fn is_empty<R: Wait>(rt: &R, alloc: Global, heaps: u32) -> Result<bool, Fail>
    requires some { 0 < heaps }
    requires few { heaps ≤ 256 }
{
    let (queue, mut pass) = MultiQueue::new(alloc, heaps, 3)?;
    let holds = (queue.heaps() == heaps as usize) & pops(rt, &queue, &mut pass, None)?;
    Ok(holds & is_left(alloc, queue, pass, &[])?)
}

#[test]
fn an_empty_queue_gives_none(rt: HostRuntime) -> Result<(), Fail> {
    for heaps in [1u32, 2, 256] {
        assert!(rt; is_empty(&rt, rt.alloc(), heaps)?);
    }
    Ok(())
}

/// Whether all items are taken in.
fn takes_all<R: Wait>(rt: &R, queue: &MultiQueue, pass: &mut Pass, items: &[Item]) -> bool {
    let mut holds = true;
    for item in items {
        holds &= takes(rt, queue, pass, *item);
    }
    holds
}

#[test]
fn what_is_left_is_in_order(rt: HostRuntime) -> Result<(), Fail> {
    let put = [
        item(9, 1),
        item(2, 6),
        item(9, 0),
        item(0, 4),
        item(u64::MAX, 3),
        item(2, 6),
        item(2, 5),
    ];
    let want = [
        item(0, 4),
        item(2, 5),
        item(2, 6),
        item(2, 6),
        item(9, 0),
        item(9, 1),
        item(u64::MAX, 3),
    ];
    let (queue, mut pass) = MultiQueue::new(rt.alloc(), 3, 8)?;
    let holds = takes_all(&rt, &queue, &mut pass, &put);
    assert!(rt; holds & is_left(rt.alloc(), queue, pass, &want)?);
    Ok(())
}

/// Pushes 1,000 items of a node and pops 500 times between; what was popped.
fn push_and_pop<R: Wait>(
    rt: &R,
    alloc: Global,
    queue: &MultiQueue,
    pass: &mut Pass,
    node: u32,
) -> Result<Vec<Item>, AllocError> {
    let mut popped = Vec::new(alloc);
    for key in 0..1000u64 {
        if queue.push(rt, pass, item(key, node)).is_err() {
            return Err(AllocError);
        }
        if key % 2 == 1 {
            if let Some(item) = queue.pop(rt, pass)? {
                popped.push(item)?;
            }
        }
    }
    Ok(popped)
}

/// Whether what was popped is what the pass has taken.
fn has_taken(pass: &Pass, popped: Result<Vec<Item>, AllocError>) -> Result<bool, AllocError> {
    let popped = popped?;
    Ok(pass.taken() == popped.as_slice())
}

/// What both passes have taken.
fn taken(alloc: Global, first: &Pass, second: &Pass) -> Result<Vec<Item>, AllocError> {
    let mut all = first.taken().to_vec(alloc)?;
    all.extend_from_slice(second.taken())?;
    Ok(all)
}

/// Whether a list has the items that both threads push, each once.
fn are_those_put(alloc: Global, all: &mut Vec<Item>) -> Result<bool, AllocError> {
    all.as_mut_slice().sort_unstable();
    let mut put = Vec::new(alloc);
    for key in 0..1000u64 {
        put.push(item(key, 0))?;
        put.push(item(key, 1))?;
    }
    Ok(all.as_slice() == put.as_slice())
}

/// Whether what was taken and what is left is what was put.
fn is_nothing_lost(
    alloc: Global,
    queue: MultiQueue,
    first: Pass,
    second: Pass,
) -> Result<bool, Fail> {
    let mut all = taken(alloc, &first, &second)?;
    let items = closed(queue, vec![in alloc; second, first]?)?;
    all.extend_from_slice(items.as_slice())?;
    Ok(are_those_put(alloc, &mut all)?)
}

#[test]
fn two_threads_lose_nothing(rt: HostRuntime) -> Result<(), Fail> {
    let alloc = rt.alloc();
    let (mut queue, mut first) = MultiQueue::new(alloc, 4, 21)?;
    let mut second = queue.pass()?;
    let (by_first, by_second) = thread::join(
        &rt,
        || push_and_pop(&rt, alloc, &queue, &mut first, 0),
        || push_and_pop(&rt, alloc, &queue, &mut second, 1),
    );
    let have_put = (first.put().len() == 1000) & (second.put().len() == 1000);
    let holds = have_put & has_taken(&first, by_first)? & has_taken(&second, by_second)?;
    assert!(rt; holds & is_nothing_lost(alloc, queue, first, second)?);
    Ok(())
}

/// What is returned where the accounts don't agree with what is left. Fails where the queue is closed, or isn't for
/// another reason.
fn mixed(queue: MultiQueue, passes: Vec<Pass>) -> Result<(MultiQueue, Vec<Pass>), Fail> {
    match queue.close(passes) {
        Ok(_items) => Err(Fail::from("closed by accounts that don't agree")),
        Err((CloseError::Mixed, queue, passes)) => Ok((queue, passes)),
        Err((error, _queue, _passes)) => Err(Fail::from(error)),
    }
}

#[test]
fn accounts_of_another_queue_are_mixed(rt: HostRuntime) -> Result<(), Fail> {
    let alloc = rt.alloc();
    let passes = vec![in alloc; stranger(alloc)?]?;
    let (queue, mut pass) = MultiQueue::new(alloc, 2, 1)?;
    let holds = takes(&rt, &queue, &mut pass, item(5, 7));
    let (queue, _passes) = mixed(queue, passes)?;
    assert!(rt; holds & is_left(alloc, queue, pass, &[item(5, 7)])?);
    Ok(())
}

/// Whether the accounts of this pass don't agree with what is left, and it is returned with what it has put.
fn hands_back(alloc: Global, queue: MultiQueue, pass: Pass, put: &[Item]) -> Result<bool, Fail> {
    let (_queue, passes) = mixed(queue, vec![in alloc; pass]?)?;
    let Some(back) = passes.first() else {
        return Ok(false);
    };
    Ok(back.put() == put)
}

#[test]
fn accounts_count_how_often(rt: HostRuntime) -> Result<(), Fail> {
    let alloc = rt.alloc();
    let (once, twice) = ([item(5, 7)], [item(5, 7), item(5, 7)]);
    let (queue, mut pass) = MultiQueue::new(alloc, 1, 1)?;
    let (other, mut stranger) = MultiQueue::new(alloc, 1, 1)?;
    let are_taken = takes_all(&rt, &queue, &mut pass, &twice)
        & takes_all(&rt, &other, &mut stranger, &once);
    let holds = are_taken & hands_back(alloc, queue, stranger, &once)?;
    assert!(rt; holds & hands_back(alloc, other, pass, &twice)?);
    Ok(())
}

#[test]
fn errors_by_name_and_number(rt: HostRuntime) -> Result<(), Fail> {
    let names = [
        (CloseError::OutOfMemory, 1u8, "OutOfMemory"),
        (CloseError::PassMissing, 2, "PassMissing"),
        (CloseError::Mixed, 3, "Mixed"),
    ];
    for (error, number, name) in names {
        let said = format!(in rt.alloc(); "{error}")?;
        assert!(rt; (error as u8 == number) & (said.as_str() == name));
    }
    Ok(())
}
