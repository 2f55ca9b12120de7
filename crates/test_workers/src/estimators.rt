ghost use Rattle.std.specs.Prelude.{◌≡◌, ℕ, ◌+◌, ◌<◌, ◌≤◌, ◌*◌, ◌^◌, [], ◌∷◌, length, AllPairs, All, IfOk, slice_index_or, slice_get};
ghost use Rattle.ch_laws.specs.Contraction.{Contraction};
ghost use Rattle.ch_contract.specs.Proposal.{AreFacts};

use ch_contract::{Contraction, Facts};
use ch_estimate::{Depth, EdgeDifference, Estimator, Lease, Leases, Neighbours, Note};
use std::alloc::{AllocError, Global};
use std::sync::atomic::{AtomicU64, Ordering};
use std::sync::{Arc, Wait};
use std::test::Fail;
use std::thread;
use std::thread::Threads;
use test_kit::{Drops, Numbered};

/// Gives an estimator a log, from its start.
fn tell(estimator: &mut Box<dyn Estimator + Send>, log: &[Contraction]) -> Result<(), AllocError>
    requires none { heard estimator.old ≡ [] }
    requires few { length log.now < 2 ^ 25 }
    requires ranks { (k : ℕ) (e : Contraction) → k < length log.now → (slice_index_or log.now k e).rank ≡ k }
    requires rising { All (λ e. AllPairs (λ x y. x < y) e.neighbours) log.now }
    ensures told { IfOk result (λ _. heard estimator.new ≡ log.now) }
{
    'entries: for i in 0..log.len() {
        estimator.told(&log[i])?;
    }
    Ok(())
}

/// The contraction of node 0, and then that of node 1.
fn log_of_two(alloc: Global) -> Result<[Contraction; 2], AllocError>
    ensures ranks { IfOk result (λ log. (k : ℕ) (e : Contraction) → k < 2 → (slice_index_or log k e).rank ≡ k) }
    ensures rising { IfOk result (λ log. All (λ e. AllPairs (λ x y. x < y) e.neighbours) log) }
    ensures len { IfOk result (λ log. length log ≡ 2) }
{
    let first = vec![in alloc; 1, 2]?;
    let second = vec![in alloc; 2]?;
    Ok([
        Contraction {
            node: 0,
            rank: 0,
            neighbours: first,
            shortcuts: 1,
        },
        Contraction {
            node: 1,
            rank: 1,
            neighbours: second,
            shortcuts: 0,
        },
    ])
}

/// Counts of a node, as many as a node can have.
fn facts(node: u32, ins: u32, outs: u32, shortcuts: u64) -> Facts
    requires ins { ins < 2 ^ 25 }
    requires outs { outs < 2 ^ 25 }
    requires shortcuts { shortcuts ≤ ins * outs }
    ensures facts { AreFacts result }
    ensures node { result.node ≡ node }
{
    Facts {
        node,
        ins,
        outs,
        shortcuts,
    }
}

/// Whether the nodes have these notes: each node's depth, and how many of its neighbours are gone.
fn has_notes(estimator: &EdgeDifference, notes: &[(u32, u32, u32)]) -> bool {
    notes.iter().all(|(node, depth, gone)| {
        let (depth, gone) = (*depth, *gone);
        estimator.note(*node) == Note { depth, gone }
    })
}

/// Whether an estimator has the notes that follow from each entry.
fn follows(alloc: Global, lease: Lease) -> Result<bool, AllocError> {
    let log = log_of_two(alloc)?;
    let mut estimator = EdgeDifference::new(alloc, lease);
    let mut holds = has_notes(&estimator, &[(1, 0, 0)]);
    estimator.told(&log[0])?;
    holds &= has_notes(&estimator, &[(0, 0, 0), (1, 1, 1), (2, 1, 1)]);
    estimator.told(&log[1])?;
    holds &= has_notes(&estimator, &[(1, 1, 1), (2, 2, 2), (7, 0, 0)]);
    Ok(holds)
}

#[test]
fn notes_of_a_log(rt: HostRuntime) -> Result<(), Fail> {
    let mut leases = Leases::new(rt.alloc())?;
    let lease = leases.lease()?;
    assert!(rt; follows(rt.alloc(), lease)?);
    Ok(())
}

/// Whether the keys are those of a chain, of a star and of an end, before any entry.
fn has_first_keys(estimator: &mut EdgeDifference) -> bool {
    (estimator.key(&facts(0, 1, 1, 1)) == 67_108_863)
        & (estimator.key(&facts(0, 2, 2, 4)) == 67_108_864)
        & (estimator.key(&facts(1, 1, 0, 0)) == 67_108_863)
}

#[test]
fn keys_of_a_chain_and_a_star(rt: HostRuntime) -> Result<(), Fail> {
    let alloc = rt.alloc();
    let mut leases = Leases::new(alloc)?;
    let mut estimator = EdgeDifference::new(alloc, leases.lease()?);
    assert!(rt; has_first_keys(&mut estimator));
    Ok(())
}

/// Does a piece of work in a thread of its own, under a lease, and waits for the lease. Returns whether the work was done
/// then.
fn waits_for_work<R: Threads + Wait>(
    rt: &R,
    alloc: Global,
    leases: &mut Leases,
) -> Result<bool, AllocError> {
    let lease = leases.lease()?;
    let done = Arc::new(alloc, AtomicU64::new(0))?;
    let theirs = Arc::try_clone(&done)?;
    let child = thread::spawn(rt, move || {
        theirs.fetch_add(1, Ordering::SeqCst);
        drop(lease);
    });
    leases.wait(rt);
    let is_done = done.load(Ordering::SeqCst) == 1;
    if let Ok(child) = child {
        child.join(rt);
    }
    Ok(is_done)
}

/// Lends two leases, and has them back.
fn lend_two(leases: &mut Leases) -> Result<(), AllocError> {
    let first = leases.lease()?;
    let second = leases.lease()?;
    drop(first);
    drop(second);
    Ok(())
}

#[test]
fn each_group_is_waited_for(rt: HostRuntime) -> Result<(), Fail> {
    let alloc = rt.alloc();
    let mut leases = Leases::new(alloc)?;
    leases.wait(&rt);
    leases.wait(&rt);
    for _ in 0..8 {
        assert!(rt; waits_for_work(&rt, alloc, &mut leases)?);
        lend_two(&mut leases)?;
        leases.wait(&rt);
        leases.wait(&rt);
    }
    Ok(())
}

/// The contraction of node 0 alone.
fn first_entry(alloc: Global) -> Result<Contraction, AllocError>
    ensures rank { IfOk result (λ e. e.rank ≡ 0) }
    ensures rising { IfOk result (λ e. AllPairs (λ x y. x < y) e.neighbours) }
{
    let neighbours = vec![in alloc; 1, 2]?;
    Ok(Contraction {
        node: 0,
        rank: 0,
        neighbours,
        shortcuts: 1,
    })
}

/// The key of node 1 by its depth, after one entry.
fn key_by_depth(alloc: Global, lease: Lease) -> Result<u64, AllocError> {
    let entry = first_entry(alloc)?;
    let mut depth = Depth::new(alloc, lease);
    depth.told(&entry)?;
    Ok(depth.key(&facts(1, 0, 1, 0)))
}

/// The key of node 2 by its neighbours, after two entries.
fn key_by_neighbours(alloc: Global, lease: Lease) -> Result<u64, AllocError> {
    let log = log_of_two(alloc)?;
    let mut neighbours = Neighbours::new(alloc, lease);
    neighbours.told(&log[0])?;
    neighbours.told(&log[1])?;
    Ok(neighbours.key(&facts(2, 0, 0, 0)))
}

#[test]
fn keys_by_a_log(rt: HostRuntime) -> Result<(), Fail> {
    let alloc = rt.alloc();
    let mut leases = Leases::new(alloc)?;
    let (first, second) = (leases.lease()?, leases.lease()?);
    let holds = key_by_depth(alloc, first)? == 67_108_864;
    assert!(rt; holds & (key_by_neighbours(alloc, second)? == 67_108_866));
    leases.wait(&rt);
    Ok(())
}

#[test]
fn boxes_give_their_leases_back(rt: HostRuntime) -> Result<(), Fail> {
    let alloc = rt.alloc();
    let mut leases = Leases::new(alloc)?;
    let drops = Drops::new(alloc)?;
    let depth = Depth::new(alloc, leases.lease()?);
    let counted = Numbered::new(depth, 0, Arc::try_clone(&drops)?);
    let estimator: Box<dyn Estimator + Send> = Box::new(alloc, counted)?;
    drop(estimator);
    leases.wait(&rt);
    assert!(rt; drops.are_one_each(1));
    Ok(())
}

/// Gives a boxed estimator a log, and returns what it knows of node 2.
fn note_by_a_box(
    mut estimator: Box<dyn Estimator + Send>,
    log: &[Contraction],
) -> Result<Note, AllocError>
    requires none { heard estimator ≡ [] }
    requires few { length log.now < 2 ^ 25 }
    requires ranks { (k : ℕ) (e : Contraction) → k < length log.now → (slice_index_or log.now k e).rank ≡ k }
    requires rising { All (λ e. AllPairs (λ x y. x < y) e.neighbours) log.now }
{
    tell(&mut estimator, log)?;
    Ok(estimator.note(2))
}

#[test]
fn boxes_are_told(rt: HostRuntime) -> Result<(), Fail> {
    let alloc = rt.alloc();
    let mut leases = Leases::new(alloc)?;
    let log = log_of_two(alloc)?;
    let lease = leases.lease()?;
    let depth: Box<dyn Estimator + Send> = Box::new(alloc, Depth::new(alloc, lease))?;
    let note = note_by_a_box(depth, log.as_slice())?;
    assert!(rt; note == Note { depth: 2, gone: 2 });
    leases.wait(&rt);
    Ok(())
}
