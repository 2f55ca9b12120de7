//! What leases, estimators and queues return where one growth is refused: `tests/program/refusals` runs each test once for
//! each of its growths.
//!
//! A call that runs out of memory leaves its value as it was, is made again, and has to give what it gives with ample
//! memory. A growth of what a test sets up ends the test with that error.
ghost use Rattle.std.specs.Prelude.{◌≡◌, ◌<◌, ◌^◌, ◌++◌, [], ◌∷◌, length, AllPairs, IfOk, IsTrue};

use ch_contract::Contraction;
use ch_estimate::{Depth, EdgeDifference, Estimator, Lease, Leases, Neighbours, Note};
use ch_multiqueue::{CloseError, Item, MultiQueue, Pass};
use std::alloc::{AllocError, Global};
use std::sync::Wait;
use std::test::Fail;

/// The contraction of node 0, whose neighbours are 1 and 2.
fn first_entry(alloc: Global) -> Result<Contraction, AllocError>
    ensures rank { IfOk result (λ entry. entry.rank ≡ 0) }
    ensures neighbours { IfOk result (λ entry. entry.neighbours ≡ 1 ∷ 2 ∷ []) }
{
    let neighbours = vec![in alloc; 1, 2]?;
    Ok(Contraction {
        node: 0,
        rank: 0,
        neighbours,
        shortcuts: 1,
    })
}

/// The contraction of node 1 behind it, whose neighbour is 2.
fn second_entry(alloc: Global) -> Result<Contraction, AllocError>
    ensures rank { IfOk result (λ entry. entry.rank ≡ 1) }
    ensures neighbours { IfOk result (λ entry. entry.neighbours ≡ 2 ∷ []) }
{
    let neighbours = vec![in alloc; 2]?;
    Ok(Contraction {
        node: 1,
        rank: 1,
        neighbours,
        shortcuts: 0,
    })
}

fn lease(leases: &mut Leases) -> Result<Lease, AllocError> {
    match leases.lease() {
        Ok(lease) => Ok(lease),
        Err(AllocError) => leases.lease(),
    }
}

#[test]
fn leases(rt: HostRuntime) -> Result<(), Fail> {
    let alloc = rt.alloc();
    let mut leases = match Leases::new(alloc) {
        Ok(leases) => leases,
        Err(AllocError) => Leases::new(alloc)?,
    };
    let first = lease(&mut leases)?;
    drop(lease(&mut leases)?);
    drop(first);
    leases.wait(&rt);
    drop(lease(&mut leases)?);
    leases.wait(&rt);
    Ok(())
}

/// The notes of the nodes 0, 1 and 2.
fn notes<E: Estimator>(estimator: &E) -> [Note; 3] {
    [0, 1, 2].map(|node| estimator.note(node))
}

const NONE: [Note; 3] = [Note { depth: 0, gone: 0 }; 3];

const AFTER_ONE: [Note; 3] = [
    Note { depth: 0, gone: 0 },
    Note { depth: 1, gone: 1 },
    Note { depth: 1, gone: 1 },
];

const AFTER_BOTH: [Note; 3] = [
    Note { depth: 0, gone: 0 },
    Note { depth: 1, gone: 1 },
    Note { depth: 2, gone: 2 },
];

/// Whether an estimator receives an entry and has the notes that follow then; while it is refused, those from before.
fn is_told<E: Estimator>(
    estimator: &mut E,
    entry: &Contraction,
    before: [Note; 3],
    after: [Note; 3],
) -> bool
    requires rank { entry.now.rank ≡ length (E.heard estimator.old) }
    requires few { entry.now.rank < 2 ^ 25 }
    requires rising { AllPairs (λ x y. x < y) entry.now.neighbours }
    ensures told { IsTrue result → E.heard estimator.new ≡ E.heard estimator.old ++ entry.now ∷ [] }
{
    match estimator.told(entry) {
        Ok(()) => notes(estimator) == after,
        Err(AllocError) => {
            if notes(estimator) != before {
                return false;
            }
            match estimator.told(entry) {
                Ok(()) => notes(estimator) == after,
                Err(AllocError) => false,
            }
        }
    }
}

/// Whether a new estimator receives both entries.
fn takes_both<E: Estimator>(mut estimator: E, first: &Contraction, second: &Contraction) -> bool
    requires fresh { E.heard estimator ≡ [] }
    requires first_rank { first.now.rank ≡ 0 }
    requires first_neighbours { first.now.neighbours ≡ 1 ∷ 2 ∷ [] }
    requires second_rank { second.now.rank ≡ 1 }
    requires second_neighbours { second.now.neighbours ≡ 2 ∷ [] }
{
    if !is_told(&mut estimator, first, NONE, AFTER_ONE) {
        return false;
    }
    is_told(&mut estimator, second, AFTER_ONE, AFTER_BOTH)
}

/// Whether one estimator of each kind receives the entries.
fn all_hear(
    alloc: Global,
    leases: &mut Leases,
    first: &Contraction,
    second: &Contraction,
) -> Result<bool, AllocError>
    requires first_rank { first.now.rank ≡ 0 }
    requires first_neighbours { first.now.neighbours ≡ 1 ∷ 2 ∷ [] }
    requires second_rank { second.now.rank ≡ 1 }
    requires second_neighbours { second.now.neighbours ≡ 2 ∷ [] }
{
    let by_edges = takes_both(EdgeDifference::new(alloc, leases.lease()?), first, second);
    let by_neighbours = takes_both(Neighbours::new(alloc, leases.lease()?), first, second);
    let by_depth = takes_both(Depth::new(alloc, leases.lease()?), first, second);
    Ok(by_edges & by_neighbours & by_depth)
}

#[test]
fn told(rt: HostRuntime) -> Result<(), Fail> {
    let mut leases = Leases::new(rt.alloc())?;
    let (first, second) = (first_entry(rt.alloc())?, second_entry(rt.alloc())?);
    assert!(rt; all_hear(rt.alloc(), &mut leases, &first, &second)?);
    Ok(())
}

/// Pushes an item, and once more where it is returned.
fn put<R: Wait>(rt: &R, queue: &MultiQueue, pass: &mut Pass, item: Item) -> Result<(), AllocError> {
    match queue.push(rt, pass, item) {
        Ok(()) => Ok(()),
        Err(back) if back == item => queue.push(rt, pass, item).map_err(|_| AllocError),
        Err(_) => Err(AllocError),
    }
}

/// What is left in a queue, which is closed with what it returns where memory runs out.
fn left(queue: MultiQueue, passes: Vec<Pass>) -> Result<Vec<Item>, Fail> {
    match queue.close(passes) {
        Ok(items) => Ok(items),
        Err((CloseError::OutOfMemory, queue, passes)) => match queue.close(passes) {
            Ok(items) => Ok(items),
            Err((error, _, _)) => Err(Fail::from(error)),
        },
        Err((error, _, _)) => Err(Fail::from(error)),
    }
}

fn item(key: u64, node: u32) -> Item {
    Item { key, node }
}

/// Puts the nodes from 0 to 5 in by each pass, each pass by a key of its own.
fn put_twelve<R: Wait>(
    rt: &R,
    queue: &MultiQueue,
    first: &mut Pass,
    second: &mut Pass,
) -> Result<(), AllocError> {
    for node in 0..6u32 {
        put(rt, queue, first, item(5, node))?;
        put(rt, queue, second, item(4, node))?;
    }
    Ok(())
}

fn taken<R: Wait>(rt: &R, queue: &MultiQueue, pass: &mut Pass) -> Result<Option<Item>, AllocError> {
    match queue.pop(rt, pass) {
        Ok(taken) => Ok(taken),
        Err(AllocError) => queue.pop(rt, pass),
    }
}

/// Whether these are the twelve items that were put in.
fn are_twelve(alloc: Global, items: &mut Vec<Item>) -> Result<bool, AllocError> {
    items.as_mut_slice().sort_unstable();
    let mut put = Vec::new(alloc);
    for key in [4, 5] {
        for node in 0..6u32 {
            put.push(item(key, node))?;
        }
    }
    Ok(items.as_slice() == put.as_slice())
}

/// A queue of two heaps, and its first pass.
fn made(alloc: Global) -> Result<(MultiQueue, Pass), AllocError>
    ensures { IfOk result (λ made. made.0.passes ≡ 1) }
{
    match MultiQueue::new(alloc, 2, 1) {
        Ok(made) => Ok(made),
        Err(AllocError) => MultiQueue::new(alloc, 2, 1),
    }
}

/// Whether eleven items are left, and the twelve with the one that was taken.
fn lose_nothing(
    alloc: Global,
    queue: MultiQueue,
    passes: Vec<Pass>,
    taken: Option<Item>,
) -> Result<bool, Fail> {
    let mut items = left(queue, passes)?;
    let are_left = items.len() == 11;
    if let Some(taken) = taken {
        items.push(taken)?;
    }
    Ok(are_left & are_twelve(alloc, &mut items)?)
}

#[test]
fn queue(rt: HostRuntime) -> Result<(), Fail> {
    let alloc = rt.alloc();
    let (mut queue, mut first) = made(alloc)?;
    let mut second = queue.pass()?;
    put_twelve(&rt, &queue, &mut first, &mut second)?;
    let taken = taken(&rt, &queue, &mut first)?;
    let passes = vec![in alloc; first, second]?;
    assert!(rt; lose_nothing(alloc, queue, passes, taken)?);
    Ok(())
}
