ghost use Rattle.std.specs.Prelude.{◌≡◌};
ghost use Rattle.ch_overlay.specs.Source.{IsBound};
ghost use Rattle.ch_rowbook.specs.Blanks.{name_of};

use ch_cost::Cost;
use ch_overlay::{Row, SeeError, Seen};
use ch_rowbook::{Blank, Book, BookError, Pen, Reader, open};
use std::alloc::{AllocError, Global};
use std::marker::Brand;
use std::sync::atomic::{AtomicU64, Ordering};
use std::sync::{Arc, Wait};
use std::test::Fail;
use std::thread;
use std::thread::Threads;
use test_kit::{Given, are, are_sound, bound, is_sound, row};

/// The nodes, each of which leads to the next, and the last to the first.
const NODES: u32 = 3;

/// The weights of the rows: those below [`NODES`] plus one are in the opening rows.
const WEIGHTS: u32 = 6_000;

/// How often a reader reads all rows at most.
const ROUNDS: u32 = 40_000;

/// How often the pen looks at most whether the readers have begun.
const LOOKS: u32 = 10_000_000;

/// A row that became current, as its only entry says.
#[derive(Clone, Copy)]
struct Written {
    node: u32,
    version: u64,
    weight: u32,
}

/// What a reader has read.
type Read = Result<Vec<Seen>, SeeError>;

/// How many readers have begun, and whether the pen has ended.
#[derive(Drop)]
struct Signals {
    begun: AtomicU64,
    ended: AtomicU64,
}

/// The node that a node leads to.
fn next(node: u32) -> u32 {
    if node < NODES - 1 { node + 1 } else { 0 }
}

/// The one entry of the row of a node. Its arcs change with its weight, and are another number.
fn entry(node: u32, weight: u32) -> Given {
    (next(node), (u64::from(weight), 1 + weight % 7))
}

/// The row of a node, with one entry.
fn weighted(alloc: Global, node: u32, weight: u32) -> Result<Arc<Row>, AllocError> {
    row(alloc, &[entry(node, weight)], &[])
}

/// Waits until both readers have begun.
fn wait_for_readers(signals: &Signals) {
    for _ in 0..LOOKS {
        if signals.begun.load(Ordering::SeqCst) == 2 {
            return;
        }
        thread::yield_now();
    }
}

/// Writes a row of each weight that isn't in the opening rows, to one node after the other.
fn write_rows<B: Book, R: Wait>(
    rt: &R,
    alloc: Global,
    pen: &mut Pen<B>,
    limit: Cost,
    signals: &Signals,
) -> Result<Vec<Written>, BookError>
    requires nodes { B.book.nodes ≡ 3 }
    requires bound { B.book.bound ≡ limit }
{
    let mut log = Vec::new(alloc);
    for node in 0..NODES {
        let version = pen.version(node);
        let weight = node + 1;
        log.push(Written {
            node,
            version,
            weight,
        })?;
    }
    wait_for_readers(signals);
    for weight in NODES + 1..WEIGHTS {
        let Some(written) = write_row(rt, alloc, pen, limit, weight)? else {
            break;
        };
        log.push(written)?;
    }
    signals.ended.store(1, Ordering::SeqCst);
    Ok(log)
}

/// Writes the row of a weight, if it is one that can be relied on.
fn write_row<B: Book, R: Wait>(
    rt: &R,
    alloc: Global,
    pen: &mut Pen<B>,
    limit: Cost,
    weight: u32,
) -> Result<Option<Written>, BookError>
    requires nodes { B.book.nodes ≡ 3 }
    requires bound { B.book.bound ≡ limit }
{
    let node = weight % NODES;
    let row = weighted(alloc, node, weight)?;
    if !is_sound(node, &row, limit) {
        return Ok(None);
    }
    let version = pen.write(rt, node, row)?;
    Ok(Some(Written {
        node,
        version,
        weight,
    }))
}

/// Reads all rows again and again until the pen has ended; what was read.
fn read_rows<B: Book>(
    alloc: Global,
    reader: &mut Reader<B>,
    signals: &Signals,
) -> Result<Vec<Seen>, SeeError> {
    let mut seen = Vec::new(alloc);
    for round in 0..ROUNDS {
        for node in 0..NODES {
            seen.push(reader.read(node)?)?;
        }
        if round == 0 {
            signals.begun.fetch_add(1, Ordering::SeqCst);
        }
        if signals.ended.load(Ordering::SeqCst) == 1 {
            break;
        }
    }
    Ok(seen)
}

/// Whether what was read is what was written at its version.
fn was_written(log: &[Written], read: &Seen) -> bool {
    let version = read.version;
    let Ok(place) = log.binary_search_by_key(&version, |written| written.version) else {
        return false;
    };
    let Written { node, weight, .. } = log[place];
    (read.node == node) & are(read.row.out(), &[entry(node, weight)]) & read.row.inn().is_empty()
}

/// Whether all that was read was written.
fn were_written(log: &[Written], read: &[Seen]) -> bool {
    read.iter().all(|read| was_written(log, read))
}

/// Whether all that was read are the rows that were written last.
fn were_written_last(log: &[Written], read: &[Seen]) -> bool {
    if log.len() < 3 {
        return false;
    }
    were_written(&log[log.len() - 3..], read)
}

/// Lets a pen write and two readers read at the same time: what was written, and what was read.
fn run<B: Book + Send + Sync, R: Threads + Wait + Sync>(
    rt: &R,
    alloc: Global,
    pen: &mut Pen<B>,
    limit: Cost,
    first: &mut Reader<B>,
    second: &mut Reader<B>,
    signals: &Signals,
) -> (Result<Vec<Written>, BookError>, (Read, Read))
    requires nodes { B.book.nodes ≡ 3 }
    requires bound { B.book.bound ≡ limit }
{
    thread::join(
        rt,
        || write_rows(rt, alloc, pen, limit, signals),
        || {
            thread::join(
                rt,
                || read_rows(alloc, first, signals),
                || read_rows(alloc, second, signals),
            )
        },
    )
}

/// Whether each row that two readers read, while a pen writes, was written.
fn finds_what_was_written<B: Book + Send + Sync, R: Threads + Wait + Sync>(
    rt: &R,
    alloc: Global,
    pen: &mut Pen<B>,
    limit: Cost,
    first: &mut Reader<B>,
) -> Result<bool, Fail>
    requires nodes { B.book.nodes ≡ 3 }
    requires bound { B.book.bound ≡ limit }
{
    let signals = Signals {
        begun: AtomicU64::new(0),
        ended: AtomicU64::new(0),
    };
    let mut second = first.split()?;
    let (log, (by_first, by_second)) = run(rt, alloc, pen, limit, first, &mut second, &signals);
    first.join(second);
    let last = read_rows(alloc, first, &signals);
    Ok(is_log(log, by_first, by_second, last))
}

/// Opens a book of three rows, which have to be such as can be relied on. Whether each row that was read was written.
fn race<B: Book + Send + Sync, R: Threads + Wait + Sync>(
    rt: &R,
    alloc: Global,
    blank: Blank,
    rows: &[Arc<Row>],
    limit: Cost,
) -> Result<bool, Fail>
    requires named { B.book ≡ name_of blank }
    requires nodes { blank.nodes ≡ 3 }
    requires limit { blank.bound ≡ limit }
    requires bound { IsBound limit }
{
    if rows.len() != 3 {
        return Err(Fail::new("there are three opening rows"));
    }
    if !are_sound(rows, limit) {
        return Err(Fail::new("the opening rows can be relied on"));
    }
    let (mut pen, mut first): (Pen<B>, Reader<B>) = open(rt, alloc, blank, rows)?;
    finds_what_was_written(rt, alloc, &mut pen, limit, &mut first)
}

/// Whether the log has a row of each weight, and the readers read its rows, at last those that were written last.
fn is_log(
    written: Result<Vec<Written>, BookError>,
    by_first: Read,
    by_second: Read,
    last: Read,
) -> bool {
    let Ok(log) = written else {
        return false;
    };
    (log.len() == WEIGHTS as usize - 1)
        & was_read(&log, by_first)
        & was_read(&log, by_second)
        & was_read_last(&log, last)
}

/// Whether all that was read was written.
fn was_read(log: &[Written], read: Read) -> bool {
    match read {
        Ok(read) => were_written(log, &read),
        Err(_) => false,
    }
}

/// Whether all that was read are the rows that were written last.
fn was_read_last(log: &[Written], read: Read) -> bool {
    match read {
        Ok(read) => were_written_last(log, &read),
        Err(_) => false,
    }
}

/// The opening rows, with the first weights.
fn opening(alloc: Global) -> Result<Vec<Arc<Row>>, AllocError> {
    let mut rows = Vec::new(alloc);
    for node in 0..NODES {
        rows.push(weighted(alloc, node, node + 1)?)?;
    }
    Ok(rows)
}

/// Whether a race in a book of these rows ends well.
fn is_raced<R: Threads + Wait + Sync>(
    rt: &R,
    alloc: Global,
    rows: &[Arc<Row>],
) -> Result<bool, Fail> {
    let limit = bound();
    let blank = Blank::new(alloc, NODES, limit)?;
    race::<Brand, R>(rt, alloc, blank, rows, limit)
}

#[test]
fn readers_find_what_the_pen_wrote(rt: HostRuntime) -> Result<(), Fail> {
    let rows = opening(rt.alloc())?;
    assert!(rt; is_raced(&rt, rt.alloc(), rows.as_slice())?);
    Ok(())
}
