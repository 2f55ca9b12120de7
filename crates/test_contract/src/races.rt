//! Threads that read the rows of a board's book, while another contracts its nodes.
ghost use Rattle.std.specs.Prelude.{◌≡◌};
ghost use Rattle.ch_graph.specs.Limits.{bound_of};
ghost use Rattle.ch_rowbook.specs.Blanks.{name_of};

use crate::networks::with_blank;
use ch_contract::{Board, Scratch, Site, propose_with};
use ch_graph::{Graph, Road};
use ch_overlay::{Row, SeeError, Seen};
use ch_rowbook::{Blank, Reader};
use std::alloc::{AllocError, Global};
use std::marker::Brand;
use std::sync::atomic::{AtomicU64, Ordering};
use std::sync::{Arc, Wait};
use std::test::Fail;
use std::thread;
use std::thread::Threads;

/// The nodes of a row of the grid.
const WIDTH: u32 = 4;

/// The nodes of the grid, row by row.
const NODES: u32 = 3_000;

/// How many nodes each search settles at most.
const SETTLE: u32 = 16;

/// How often a reader reads all rows at most.
const ROUNDS: u32 = 1_000_000;

/// How often it is looked at most whether the readers have begun.
const LOOKS: u32 = 10_000_000;

/// A row that became current.
#[derive(Drop)]
struct Written {
    node: u32,
    version: u64,
    row: Arc<Row>,
}

/// How many readers have begun, and whether all nodes are contracted.
#[derive(Drop)]
struct Signals {
    begun: AtomicU64,
    ended: AtomicU64,
}

/// Roads both ways between nodes that are next to one another.
fn grid(alloc: Global) -> Result<Vec<Road>, AllocError> {
    let mut roads = Vec::new(alloc);
    for from in 0..NODES {
        for to in [from + 1, from + WIDTH] {
            let wraps = (to == from + 1) & (to % WIDTH == 0);
            if (to < NODES) & !wraps {
                let weight = from % 7;
                roads.push(Road { from, to, weight })?;
                let (from, to) = (to, from);
                roads.push(Road { from, to, weight })?;
            }
        }
    }
    Ok(roads)
}

/// Waits until both readers have begun.
fn wait_for_readers(signals: &Signals) {
    for _ in 0..LOOKS {
        if signals.begun.load(Ordering::SeqCst) == 2 {
            return;
        }
        thread::yield_now();
    }
}

/// Puts the row that the board has of a node behind the others.
fn note<S: Site>(log: &mut Vec<Written>, board: &Board<S>, node: u32) -> Option<()> {
    let overlay = board.overlay();
    if node >= overlay.nodes() {
        return None;
    }
    let row = Arc::try_clone(overlay.row(node)).ok()?;
    let version = overlay.version(node);
    log.push(Written { node, version, row }).ok()
}

/// Contracts a node by what a reader finds, and puts the rows that changed behind the others.
fn contract<S: Site, R: Wait>(
    rt: &R,
    alloc: Global,
    board: &mut Board<S>,
    reader: &mut Reader<S>,
    scratch: &mut Scratch,
    node: u32,
    log: &mut Vec<Written>,
) -> Option<()> {
    let proposal = propose_with(alloc, reader, scratch, node, SETTLE).ok()?;
    board.commit_and_see(rt, &proposal, reader).ok()?;
    note_changes(log, board, node)
}

/// Puts the rows of the node that was contracted last, and of its neighbours, behind the others.
fn note_changes<S: Site>(log: &mut Vec<Written>, board: &Board<S>, node: u32) -> Option<()> {
    note(log, board, node)?;
    let last = board.log().last()?;
    for neighbour in &last.neighbours {
        note(log, board, *neighbour)?;
    }
    Some(())
}

/// Contracts all nodes, once the readers have begun. The rows that were ever current, by their versions.
fn contract_all<S: Site, R: Wait>(
    rt: &R,
    alloc: Global,
    board: &mut Board<S>,
    reader: &mut Reader<S>,
    signals: &Signals,
) -> Option<Vec<Written>> {
    let mut log = Vec::new(alloc);
    note_all(&mut log, board)?;
    wait_for_readers(signals);
    contract_each(rt, alloc, board, reader, &mut log)?;
    Some(log)
}

/// Puts the rows of all nodes behind the others.
fn note_all<S: Site>(log: &mut Vec<Written>, board: &Board<S>) -> Option<()> {
    for node in 0..NODES {
        note(log, board, node)?;
    }
    Some(())
}

/// Contracts all nodes, one by one.
fn contract_each<S: Site, R: Wait>(
    rt: &R,
    alloc: Global,
    board: &mut Board<S>,
    reader: &mut Reader<S>,
    log: &mut Vec<Written>,
) -> Option<()> {
    let mut scratch = Scratch::new(alloc);
    for node in 0..NODES {
        contract(rt, alloc, board, reader, &mut scratch, node, log)?;
    }
    Some(())
}

/// Keeps a row whose version isn't the one that was last found.
fn keep(seen: Seen, last: &mut u64, kept: &mut Vec<Seen>) -> Result<(), AllocError> {
    if seen.version == *last {
        return Ok(());
    }
    *last = seen.version;
    Ok(kept.push(seen)?)
}

/// Reads all rows. Keeps those whose version isn't the one that was last found.
fn read_once<S: Site>(
    reader: &mut Reader<S>,
    found: &mut [u64],
    kept: &mut Vec<Seen>,
) -> Result<(), SeeError> {
    for (node, last) in (0u32..).zip(found) {
        keep(reader.read(node)?, last, kept)?;
    }
    Ok(())
}

/// Reads all rows again and again until all nodes are contracted; what was read, but for what was read just before.
fn read_rows<S: Site>(
    alloc: Global,
    reader: &mut Reader<S>,
    signals: &Signals,
) -> Result<Vec<Seen>, SeeError> {
    let mut kept = Vec::new(alloc);
    let mut found = vec![in alloc; u64::MAX; NODES as usize]?;
    for round in 0..ROUNDS {
        read_once(reader, found.as_mut_slice(), &mut kept)?;
        if round == 0 {
            signals.begun.fetch_add(1, Ordering::SeqCst);
        }
        if signals.ended.load(Ordering::SeqCst) == 1 {
            break;
        }
    }
    Ok(kept)
}

/// Whether what was read is the row of that node at that version.
fn was_written(log: &[Written], seen: &Seen) -> bool {
    let Some(written) = log.get(seen.version as usize) else {
        return false;
    };
    (written.version == seen.version) & (written.node == seen.node) & written.row.is_same(&seen.row)
}

fn were_written(log: &[Written], seen: &[Seen]) -> bool {
    let mut holds = true;
    for seen in seen {
        holds &= was_written(log, seen);
    }
    holds
}

/// Contracts all nodes of a grid while two threads read. Whether each row that was read is the one that was written
/// at its version.
fn race<S: Site + Send + Sync, R: Threads + Wait + Sync>(
    rt: &R,
    alloc: Global,
    blank: Blank,
    graph: Graph,
) -> Result<bool, Fail>
    requires of_graph { S.graph ≡ graph }
    requires of_book { S.book ≡ name_of blank }
    requires nodes { blank.nodes ≡ graph.nodes }
    requires bound { blank.bound ≡ bound_of graph }
{
    let (mut board, mut own): (Board<S>, Reader<S>) = Board::new(rt, alloc, blank, graph)?;
    race_against(rt, alloc, &mut board, &mut own)
}

/// The same, against two readers that are split off this one.
fn race_against<S: Site + Send + Sync, R: Threads + Wait + Sync>(
    rt: &R,
    alloc: Global,
    board: &mut Board<S>,
    own: &mut Reader<S>,
) -> Result<bool, Fail> {
    let first = own.split()?;
    let second = own.split()?;
    Ok(race_of_three(rt, alloc, board, own, first, second))
}

/// Contracts all nodes by one reader, while two others read.
fn race_of_three<S: Site + Send + Sync, R: Threads + Wait + Sync>(
    rt: &R,
    alloc: Global,
    board: &mut Board<S>,
    own: &mut Reader<S>,
    mut first: Reader<S>,
    mut second: Reader<S>,
) -> bool {
    let signals = Signals {
        begun: AtomicU64::new(0),
        ended: AtomicU64::new(0),
    };
    let (log, read) = thread::join(
        rt,
        || {
            let log = contract_all(rt, alloc, board, own, &signals);
            signals.ended.store(1, Ordering::SeqCst);
            log
        },
        || {
            thread::join(
                rt,
                || read_rows(alloc, &mut first, &signals),
                || read_rows(alloc, &mut second, &signals),
            )
        },
    );
    first.join(second);
    let last = read_rows(alloc, &mut first, &signals);
    is_as_written(&log, &read, &last)
}

/// What a reader has read.
type Read = Result<Vec<Seen>, SeeError>;

/// Whether all nodes were contracted, and what two readers read meanwhile, and one of them at last, is what was written.
fn is_as_written(log: &Option<Vec<Written>>, (first, second): &(Read, Read), last: &Read) -> bool {
    match log {
        Some(log) => was_read(log, first) & was_read(log, second) & is_last(log, last),
        None => false,
    }
}

/// Whether each row that was read is the one that was written at its version.
fn was_read(log: &[Written], read: &Read) -> bool {
    match read {
        Ok(seen) => were_written(log, seen),
        Err(_) => false,
    }
}

/// Whether the rows are of contracted nodes, each of the rank of its number.
fn are_done(rows: &[Seen]) -> bool {
    let mut holds = true;
    for seen in rows {
        holds &= seen.row.rank == Some(seen.node);
    }
    holds
}

/// Whether each node was read once, when all were contracted, and its row is the one that was written at its version.
fn is_last(log: &[Written], read: &Read) -> bool {
    match read {
        Ok(last) => { (last.len() == NODES as usize) & are_done(last) & were_written(log, last) }
        Err(_) => false,
    }
}

#[test]
fn readers_find_what_was_committed(rt: HostRuntime) -> Result<(), Fail> {
    let alloc = rt.alloc();
    let (blank, graph) = with_blank(alloc, Graph::checked(NODES, grid(alloc)?)?)?;
    assert!(rt; race::<Brand, HostRuntime>(&rt, alloc, blank, graph)?);
    Ok(())
}
