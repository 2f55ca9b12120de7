//! What a world returns where one growth is refused: `tests/program/refusals` runs each test once for each of its growths.
//!
//! A call that runs out of memory leaves its value as it was, is made again, and has to give what it gives with ample
//! memory. What is used up by a refused call, as a graph, ends the test with that error, and so does a growth of what the
//! test sets up.
use crate::worlds::{TIE, graph_of};
use ch_contract::{CommitError, Proposal, ProposeError, Receipt, propose};
use ch_core::{Event, Outcome, View, World, run};
use ch_overlay::{RowSource, SeeError, Seen};
use std::alloc::{AllocError, Global};
use std::test::Fail;

/// How many nodes each search settles at most.
const SETTLE: u32 = 64;

/// Shows a worker a version of a node's row.
fn show(world: &mut World, worker: u32, node: u32, version: u64) -> Result<Outcome, AllocError> {
    let read = || Event::Read {
        worker,
        node,
        version,
    };
    match world.step(read()) {
        Ok(outcome) => Ok(outcome),
        Err(AllocError) => world.step(read()),
    }
}

/// Shows both workers all opening rows of four nodes.
fn shown(world: &mut World) -> Result<bool, AllocError> {
    let mut all = true;
    for worker in 0..2 {
        for node in 0..4u32 {
            all &= show(world, worker, node, u64::from(node))? == Outcome::Shown;
        }
    }
    Ok(all)
}

fn row_of(view: &mut View<'_>, node: u32) -> Result<Seen, SeeError> {
    match view.row_of(node) {
        Err(SeeError::OutOfMemory) => view.row_of(node),
        answer => answer,
    }
}

fn proposed(alloc: Global, view: &mut View<'_>, node: u32) -> Result<Proposal, ProposeError> {
    match propose(alloc, view, node, SETTLE) {
        Err(ProposeError::OutOfMemory) => propose(alloc, view, node, SETTLE),
        answer => answer,
    }
}

/// What a worker proposes by what it read.
fn proposal(alloc: Global, world: &World, worker: u32, node: u32) -> Result<Proposal, Fail> {
    if worker >= world.workers() {
        return Err(Fail::new("no such worker"));
    }
    let mut view = world.view(worker);
    row_of(&mut view, node)?;
    Ok(proposed(alloc, &mut view, node)?)
}

/// What is returned for a worker's offer of a node. A refused call leaves the log.
fn offered(alloc: Global, world: &mut World, worker: u32, node: u32) -> Result<Outcome, Fail> {
    let before = world.log().len();
    let proposal = proposal(alloc, world, worker, node)?;
    match world.step(Event::Offer { worker, proposal }) {
        Ok(outcome) => Ok(outcome),
        Err(AllocError) if world.log().len() == before => {
            let proposal = self::proposal(alloc, world, worker, node)?;
            Ok(world.step(Event::Offer { worker, proposal })?)
        }
        Err(AllocError) => Err(Fail::new("a refused contraction is in the log")),
    }
}

#[test]
fn world(rt: HostRuntime) -> Result<(), Fail> {
    let alloc = rt.alloc();
    let mut world = World::new(alloc, graph_of(alloc, 4, &TIE)?, 2)?;
    assert!(rt; shown(&mut world)?);
    let late = proposal(alloc, &world, 1, 1)?;
    let first = offered(alloc, &mut world, 0, 0)?;
    let second = offered(alloc, &mut world, 1, 1)?;
    let stale = CommitError::Stale {
        node: 2,
        seen: 2,
        now: 5,
        front: 1,
    };
    let receipt = Receipt { node: 0, rank: 0 };
    assert!(rt; (first, second) == (Outcome::Committed(receipt), Outcome::Refused(stale)));
    let old = (show(&mut world, 1, 2, 2)?, show(&mut world, 1, 2, 9)?);
    assert!(rt; old == (Outcome::Shown, Outcome::NoSuch));
    assert!(rt; is_forgotten(&mut world, late)?);
    Ok(())
}

/// Whether worker 1 forgets what it read, and its proposal is none then.
fn is_forgotten(world: &mut World, proposal: Proposal) -> Result<bool, AllocError> {
    let forgotten = match world.step(Event::Forget { worker: 1 }) {
        Ok(outcome) => outcome,
        Err(AllocError) => world.step(Event::Forget { worker: 1 })?,
    };
    let offered = world.step(Event::Offer {
        worker: 1,
        proposal,
    })?;
    Ok((forgotten, offered) == (Outcome::Forgotten, Outcome::NoSuch))
}

#[test]
fn run_of_reads(rt: HostRuntime) -> Result<(), Fail> {
    let alloc = rt.alloc();
    let read = Event::Read {
        worker: 0,
        node: 0,
        version: 0,
    };
    let events = vec![in alloc; read, Event::Forget { worker: 0 }]?;
    let (_, outcomes) = run(alloc, graph_of(alloc, 4, &TIE)?, 1, events)?;
    assert!(rt; outcomes.as_slice() == [Outcome::Shown, Outcome::Forgotten].as_slice());
    Ok(())
}
