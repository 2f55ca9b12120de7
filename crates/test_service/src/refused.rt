//! What the commands return where one growth is refused: `tests/program/refusals` runs each test once for each of its
//! growths.
//!
//! A command either does all its work or reports that memory ran out, and has then written whole lines, `prepare`
//! nothing. Made again it does its work. A growth of what a test sets up ends the test with that error. Writers have
//! room from the start, so that none of them runs out of memory.
use crate::answers::{JOINED, NO_PAIRS};
use crate::examples::{EXAMPLES, Example, NO_NODE, ONE_ARC, ONE_ARC_TEXT, ROW, ROW_TEXT};
use crate::kit::{Case, Command, options, run, two_lists};
use ch_estimate::Leases;
use ch_service::{Cause, ServiceError, answer, prepare};
use ch_unpack::UnpackError;
use ch_workers::OpenGate;
use jobs::Order;
use std::alloc::{AllocError, Global};
use std::sync::Wait;
use std::test::Fail;
use std::thread::Threads;

/// Pairs of the row of three nodes, and the lines that answer them.
const PAIRS: &[u8] = b"p aux sp p2p 3\nq 2 3\nq 2 1\nq 3 2\n";

const ANSWERS: &[u8] = b"r 2 3 5 2 2 1 3\nr 2 1 2 1 2 1\nn 3 2\n";

/// Pairs of the graph of one arc, and the lines that answer them.
const BACK_AND_FORTH: &[u8] = b"p aux sp p2p 2\nq 1 2\nq 2 1\n";

const ONE_WAY: &[u8] = b"r 1 2 7 1 1 2\nn 2 1\n";

/// How a command ends, and what it writes.
#[derive(Clone, Copy)]
struct Ended {
    end: Result<(), ServiceError>,
    room: [u8; 128],
    written: usize,
}

impl Ended {
    /// What is reported of a command that has this much of its room left.
    fn new(end: Result<(), ServiceError>, room: [u8; 128], left: usize) -> Ended {
        Ended {
            end,
            room,
            written: room.len().saturating_sub(left),
        }
    }

    /// Whether all was written.
    fn is_done(&self, all: &[u8]) -> bool {
        self.is_so(Ok(()), all)
    }

    /// Whether it ended so, and this was written.
    fn is_so(&self, end: Result<(), ServiceError>, all: &[u8]) -> bool {
        self.end == end && self.room.get(..self.written) == Some(all)
    }

    /// Whether memory ran out, after whole lines of these.
    fn lacks_memory(&self, all: &[u8]) -> bool {
        let Some(lines) = all.get(..self.written) else {
            return false;
        };
        matches!(self.end, Err(error) if error.cause() == Cause::Memory)
            && self.room.get(..self.written) == Some(lines)
            && matches!(lines, [] | [.., b'\n'])
    }
}

/// How a command ends.
fn outcome<R: Threads + Wait + Sync>(rt: &R, alloc: Global, command: Command<'_>) -> Ended {
    let mut room = [0u8; 128];
    let mut out = room.as_mut_slice();
    let end = run(rt, alloc, command, &mut out);
    let left = out.len();
    Ended::new(end, room, left)
}

/// Whether a command ends so and writes all this; where memory runs out it is run again.
fn ends_so<R: Threads + Wait + Sync>(
    rt: &R,
    alloc: Global,
    command: Command<'_>,
    end: Result<(), ServiceError>,
    all: &[u8],
) -> bool {
    let once = outcome(rt, alloc, command);
    if once.lacks_memory(all) {
        outcome(rt, alloc, command).is_so(end, all)
    } else {
        once.is_so(end, all)
    }
}

/// Whether each of these commands ends so.
fn end_so<R: Threads + Wait + Sync>(rt: &R, alloc: Global, cases: &[Case]) -> bool {
    for (command, end, all) in cases {
        if !ends_so(rt, alloc, *command, *end, all) {
            return false;
        }
    }
    true
}

const PREPARED: [Case; 3] = [
    (Command::Prepare(b"p sp 0 0\n"), Ok(()), NO_NODE),
    (Command::Prepare(ONE_ARC_TEXT), Ok(()), ONE_ARC),
    (Command::Prepare(ROW_TEXT), Ok(()), ROW),
];

#[test]
fn prepare_without_workers(rt: HostRuntime) {
    assert!(rt; end_so(&rt, rt.alloc(), &PREPARED));
}

const ROUTED: [Case; 2] = [
    (Command::Route(ONE_ARC, BACK_AND_FORTH), Ok(()), ONE_WAY),
    (Command::Route(ROW, PAIRS), Ok(()), ANSWERS),
];

#[test]
fn route_by_a_file(rt: HostRuntime) {
    assert!(rt; end_so(&rt, rt.alloc(), &ROUTED));
}

const TOO_LONG: ServiceError = ServiceError::Unpack(UnpackError::TooLong);

/// Adds a link of the cascade.
fn push_link(file: &mut Vec<u8>, from: u32, to: u32) -> Result<(), AllocError> {
    let lower = from.min(to);
    file.extend_from_slice(&from.to_be_bytes())?;
    file.extend_from_slice(&to.to_be_bytes())?;
    file.extend_from_slice(&1u64.wrapping_shl(lower).to_be_bytes())?;
    file.extend_from_slice(&lower.checked_sub(1).unwrap_or(u32::MAX).to_be_bytes())
}

/// The file of 38 nodes, each of the rank of its number, in which each two are linked: of the length that two to the lesser
/// number is, by way of the node before the lesser.
fn cascade(alloc: Global) -> Result<Vec<u8>, AllocError> {
    let mut file = Vec::from_slice(alloc, b"RCH1\0\0\0\x26\0\0\0\0\0\0\x05\x7e")?;
    file.extend_from_slice(&158_913_789_915u64.to_be_bytes())?;
    for rank in 0..38u32 {
        file.extend_from_slice(&rank.to_be_bytes())?;
    }
    for from in 0..38u32 {
        for to in 0..38u32 {
            if from != to {
                push_link(&mut file, from, to)?;
            }
        }
    }
    Ok(file)
}

/// Pairs of the cascade of which the last one's route is too long, and the line that answers the one before.
const TO_TOO_LONG: [(&[u8], &[u8]); 2] = [
    (b"p aux sp p2p 1\nq 38 37\n", b""),
    (b"p aux sp p2p 2\nq 3 2\nq 38 37\n", b"r 3 2 2 2 3 1 2\n"),
];

/// Whether each of these routes of a file is too long.
fn are_too_long<R: Threads + Wait + Sync>(
    rt: &R,
    alloc: Global,
    file: &[u8],
    cases: &[(&[u8], &[u8])],
) -> bool {
    for (pairs, answers) in cases {
        if !ends_so(
            rt,
            alloc,
            Command::Route(file, pairs),
            Err(TOO_LONG),
            answers,
        ) {
            return false;
        }
    }
    true
}

#[test]
fn route_that_is_too_long(rt: HostRuntime) -> Result<(), AllocError> {
    let file = cascade(rt.alloc())?;
    assert!(rt; are_too_long(&rt, rt.alloc(), file.as_slice(), &TO_TOO_LONG));
    Ok(())
}

/// Whether each of these examples is answered.
fn are_answered<R: Threads + Wait + Sync>(rt: &R, alloc: Global, examples: &[Example]) -> bool {
    for example in examples {
        let command = Command::Answer(example.graph, example.pairs);
        if !ends_so(rt, alloc, command, Ok(()), example.answers) {
            return false;
        }
    }
    true
}

/// One node alone, one arc, three nodes, and a loop beside parallel arcs.
#[test]
fn answer_without_workers(rt: HostRuntime) {
    assert!(rt; are_answered(&rt, rt.alloc(), &EXAMPLES[..4]));
}

const ONE_INPUT: [Case; 2] = [
    (Command::Joined(JOINED), Ok(()), ONE_WAY),
    (Command::Joined(ONE_ARC_TEXT), Err(NO_PAIRS), b""),
];

#[test]
fn answer_of_one_input(rt: HostRuntime) {
    assert!(rt; end_so(&rt, rt.alloc(), &ONE_INPUT));
}

fn answered_by_two<R: Threads + Wait + Sync>(rt: &R, alloc: Global) -> Result<Ended, AllocError> {
    let mut leases = Leases::new(alloc)?;
    let lists = two_lists(alloc, &mut leases, Order::Edges, Order::Edges)?;
    let mut room = [0u8; 128];
    let mut out = room.as_mut_slice();
    let end = answer(
        rt,
        alloc,
        &mut { ROW_TEXT },
        &mut { PAIRS },
        &mut out,
        options(2),
        lists,
        &mut leases,
        &OpenGate,
    );
    let left = out.len();
    Ok(Ended::new(end, room, left))
}

#[test]
fn answer_by_two_workers(rt: HostRuntime) -> Result<(), Fail> {
    let mut ended = answered_by_two(&rt, rt.alloc())?;
    if ended.lacks_memory(ANSWERS) {
        ended = answered_by_two(&rt, rt.alloc())?;
    }
    assert!(rt; ended.is_done(ANSWERS));
    Ok(())
}

fn prepared_by_two<R: Threads + Wait + Sync>(rt: &R, alloc: Global) -> Result<Ended, AllocError> {
    let mut leases = Leases::new(alloc)?;
    let lists = two_lists(alloc, &mut leases, Order::Edges, Order::Edges)?;
    let mut room = [0u8; 128];
    let mut out = room.as_mut_slice();
    let end = prepare(
        rt,
        alloc,
        &mut { ROW_TEXT },
        &mut out,
        options(2),
        lists,
        &mut leases,
        &OpenGate,
    );
    let left = out.len();
    Ok(Ended::new(end, room, left))
}

/// What is prepared has any order of the nodes, and gives the routes that are least.
#[test]
fn prepare_by_two_workers(rt: HostRuntime) -> Result<(), Fail> {
    let mut ended = prepared_by_two(&rt, rt.alloc())?;
    if ended.lacks_memory(b"") {
        ended = prepared_by_two(&rt, rt.alloc())?;
    }
    let file = ended.room.get(..ended.written).unwrap_or(b"");
    let is_routed = ends_so(
        &rt,
        rt.alloc(),
        Command::Route(file, PAIRS),
        Ok(()),
        ANSWERS,
    );
    assert!(rt; is_routed & (ended.end == Ok(())));
    Ok(())
}
