use ch_cost::Cost;
use ch_graph::Hierarchy;
use hierfile::{HierError, WriteFault, read, read_within, write, write_within};
use std::alloc::{AllocError, Global};
use std::io::{self, ErrorKind, Read, Write};

pub(crate) const MAGIC: u32 = 0x5243_4832;

/// The magic of version 1, whose links have no arcs.
pub(crate) const MAGIC_1: u32 = 0x5243_4831;

const NONE: u32 = u32::MAX;

/// More calls than any reader or writer here gets.
const MANY: u64 = 1 << 40;

// Files of version 2, as numbers of four bytes.

const NO_NODE: [u32; 6] = [MAGIC, 0, 0, 0, 0, 0];

pub(crate) const ONE_ARC: [u32; 14] = [MAGIC, 2, 0, 1, 0, 7, 0, 1, 0, 1, 0, 7, 1, NONE];

/// Two nodes, joined both ways by arcs of weight 0.
const FREE: [u32; 20] = [
    MAGIC, 2, 0, 2, 0, 0, 0, 1, 0, 1, 0, 0, 1, NONE, 1, 0, 0, 0, 1, NONE,
];

/// A row of three nodes, with a shortcut by way of the first.
pub(crate) const ROW: [u32; 27] = [
    MAGIC, 3, 0, 3, 0, 6, 0, 1, 2, 0, 2, 0, 3, 1, NONE, 1, 0, 0, 2, 1, NONE, 1, 2, 0, 5, 2, 0,
];

/// Nodes 1 to 3, each joined to the next by way of node 0.
pub(crate) const BY_WAY_OF_0: [u32; 46] = [
    MAGIC, 4, 0, 6, 0, 4, 0, 1, 2, 3, 0, 2, 0, 1, 1, NONE, 0, 3, 0, 1, 1, NONE, 1, 0, 0, 1, 1,
    NONE, 1, 2, 0, 2, 2, 0, 2, 0, 0, 1, 1, NONE, 2, 3, 0, 2, 2, 0,
];

/// Four nodes, with arcs of the greatest weight.
pub(crate) const HEAVY: [u32; 52] = [
    MAGIC,
    4,
    0,
    7,
    2,
    0xffff_fffd,
    0,
    1,
    2,
    3,
    0,
    1,
    0,
    NONE,
    1,
    NONE,
    0,
    3,
    0,
    NONE,
    1,
    NONE,
    1,
    0,
    0,
    NONE,
    1,
    NONE,
    1,
    3,
    1,
    0xffff_fffe,
    2,
    0,
    2,
    0,
    0,
    NONE,
    1,
    NONE,
    2,
    1,
    1,
    0xffff_fffe,
    2,
    0,
    2,
    3,
    1,
    0xffff_fffe,
    2,
    0,
];

// The same of version 1.

pub(crate) const ONE_ARC_1: [u32; 13] = [MAGIC_1, 2, 0, 1, 0, 7, 0, 1, 0, 1, 0, 7, NONE];

/// A row of three nodes, with a shortcut by way of the first.
pub(crate) const ROW_1: [u32; 24] = [
    MAGIC_1, 3, 0, 3, 0, 6, 0, 1, 2, 0, 2, 0, 3, NONE, 1, 0, 0, 2, NONE, 1, 2, 0, 5, 0,
];

/// Nodes 1 to 3, each joined to the next by way of node 0.
pub(crate) const BY_WAY_OF_0_1: [u32; 40] = [
    MAGIC_1, 4, 0, 6, 0, 4, 0, 1, 2, 3, 0, 2, 0, 1, NONE, 0, 3, 0, 1, NONE, 1, 0, 0, 1, NONE, 1, 2,
    0, 2, 0, 2, 0, 0, 1, NONE, 2, 3, 0, 2, 0,
];

pub(crate) fn bytes(alloc: Global, words: &[u32]) -> Result<Vec<u8>, AllocError> {
    let mut bytes = Vec::new(alloc);
    for word in words {
        bytes.extend_from_slice(&word.to_be_bytes())?;
    }
    Ok(bytes)
}

/// Whether a hierarchy, which has to be of version 2, is written as these bytes.
fn is_written_as(alloc: Global, hierarchy: &Hierarchy, bytes: &[u8]) -> bool {
    if hierarchy.version() != 2 {
        return false;
    }
    let mut written = Vec::new(alloc);
    write(hierarchy, &mut written).is_ok() & (written.as_slice() == bytes)
}

/// Whether bytes are read, and written as they were.
fn are_kept(alloc: Global, bytes: &[u8]) -> bool {
    match read(alloc, &mut { bytes }) {
        Ok(hierarchy) => is_written_as(alloc, &hierarchy, bytes),
        Err(_) => false,
    }
}

/// Whether a file is read, and written as it was.
fn is_kept(alloc: Global, words: &[u32]) -> Result<bool, AllocError> {
    let bytes = bytes(alloc, words)?;
    Ok(are_kept(alloc, bytes.as_slice()))
}

/// Files that are written as they were read.
const KEPT: [&[u32]; 6] = [&NO_NODE, &ONE_ARC, &FREE, &ROW, &HEAVY, &BY_WAY_OF_0];

/// Whether each of these files is.
fn are_files_kept(alloc: Global, files: &[&[u32]]) -> Result<bool, AllocError> {
    for words in files {
        if !is_kept(alloc, words)? {
            return Ok(false);
        }
    }
    Ok(true)
}

#[test]
fn keeps_files(rt: HostRuntime) -> Result<(), AllocError> {
    assert!(rt; are_files_kept(rt.alloc(), &KEPT)?);
    Ok(())
}

/// What a row of three nodes has to say: its version, its bound, and the cost of its last link.
type Numbers = (u8, Cost, Cost);

/// Whether a hierarchy has the numbers of the row.
fn has_numbers(hierarchy: &Hierarchy, (version, bound, cost): Numbers) -> bool {
    let links = hierarchy.links();
    let Some(last) = links.last() else {
        return false;
    };
    (hierarchy.nodes() == 3)
        & (hierarchy.version() == version)
        & (hierarchy.bound() == bound)
        & (links.len() == 3)
        & (last.cost.cost() == cost)
        & (last.middle.node() == Some(0))
}

/// Whether the row of a file is read with its numbers.
fn row_has_numbers(alloc: Global, words: &[u32], numbers: Numbers) -> Result<bool, AllocError> {
    match hierarchy_of(alloc, words)? {
        Some(hierarchy) => Ok(has_numbers(&hierarchy, numbers)),
        None => Ok(false),
    }
}

#[test]
fn reads_numbers(rt: HostRuntime) -> Result<(), AllocError> {
    let numbers = (2, Cost::of_walk(6, 2), Cost::of_walk(5, 2));
    assert!(rt; row_has_numbers(rt.alloc(), &ROW, numbers)?);
    let numbers = (1, Cost::of_walk(6, 0), Cost::of_walk(5, 0));
    assert!(rt; row_has_numbers(rt.alloc(), &ROW_1, numbers)?);
    Ok(())
}

// Of 38 nodes each two are linked, by way of the node below the lower one, in the version of this magic. In version 2 a
// link has as many arcs as it is long, or the greatest number that is kept.
pub(crate) fn cascade(alloc: Global, magic: u32) -> Result<Vec<u32>, AllocError> {
    let mut words = Vec::new(alloc);
    words.extend_from_slice(&[magic, 38, 0, 1406, 36, 0xffff_ffdb])?;
    for rank in 0..38u32 {
        words.push(rank)?;
    }
    for from in 0..38u32 {
        for to in 0..38u32 {
            if from != to {
                push_link(&mut words, magic, from, to)?;
            }
        }
    }
    Ok(words)
}

fn push_link(words: &mut Vec<u32>, magic: u32, from: u32, to: u32) -> Result<(), AllocError> {
    let lower = from.min(to);
    let weight = 1u64.wrapping_shl(lower);
    let low = (weight & 0xffff_ffff) as u32;
    let high = (weight >> 32) as u32;
    words.extend_from_slice(&[from, to, high, low])?;
    if magic == MAGIC {
        words.push(if high == 0 { low } else { u32::MAX })?;
    }
    words.push(lower.checked_sub(1).unwrap_or(NONE))?;
    Ok(())
}

// Returns the hierarchy of a file of these numbers, or `None`.
pub(crate) fn hierarchy_of(alloc: Global, words: &[u32]) -> Result<Option<Hierarchy>, AllocError> {
    let bytes = bytes(alloc, words)?;
    let mut rest = bytes.as_slice();
    Ok(read(alloc, &mut rest).ok())
}

// A reader that gives a few bytes at each call, fails after some calls, and may be interrupted at each other one.
#[derive(Drop)]
struct Pieces<'a> {
    bytes: &'a [u8],
    most: usize,
    calls: u32,
    is_odd: bool,
}

impl Read for Pieces<'_> {
    fn read(&mut self, buf: &mut [u8]) -> io::Result<usize> {
        self.is_odd = !self.is_odd;
        if self.is_odd {
            return Err(io::Error::from(ErrorKind::Interrupted));
        }
        if self.calls == 0 {
            return Err(io::Error::from(ErrorKind::Other));
        }
        self.calls -= 1;
        let count = self.most.min(self.bytes.len()).min(buf.len());
        let (front, rest) = self.bytes.split_at(count);
        buf[..count].copy_from_slice(front);
        self.bytes = rest;
        Ok(count)
    }
}

/// How many bytes a reader gives at a call, after how many calls it fails, the limit of the calls, and the fault or none.
type Reading = (usize, u32, u64, Option<HierError>);

/// How the row is read in pieces.
const READINGS: [Reading; 4] = [
    (1, 1000, 218, None),
    (1, 1000, 217, Some(HierError::Read)),
    (7, 1000, MANY, None),
    (40, 1, MANY, Some(HierError::Read)),
];

/// Whether a file in pieces is read, or refused, in each of these ways.
fn is_read_in_pieces(alloc: Global, bytes: &[u8], readings: &[Reading]) -> bool {
    for (most, calls, limit, expected) in readings {
        let mut pieces = Pieces {
            bytes,
            most: *most,
            calls: *calls,
            is_odd: false,
        };
        if read_within(alloc, &mut pieces, *limit).err() != *expected {
            return false;
        }
    }
    true
}

/// A file as numbers of four bytes, how many bytes of it the first fault takes, and that fault.
type Hostile = (&'static [u32], u32, HierError);

/// A wrong third byte, too many nodes, a rank that came before, a link from a node to itself, and a sum that isn't that of
/// the halves.
const HOSTILE: [Hostile; 5] = [
    (&[0x5243_5832, 0], 3, HierError::BadMagic),
    (&[MAGIC, 0x0200_0001, 0, 0, 0, 0, 0], 24, HierError::TooBig),
    (&[MAGIC, 3, 0, 3, 0, 6, 0, 0, 2], 32, HierError::RankTwice),
    (
        &[MAGIC, 3, 0, 3, 0, 6, 0, 1, 2, 1, 1, 0, 3, 1, NONE, 0],
        60,
        HierError::LinkEnds,
    ),
    (
        &[
            MAGIC, 3, 0, 3, 0, 6, 0, 1, 2, 0, 2, 0, 3, 1, NONE, 1, 0, 0, 2, 1, NONE, 1, 2, 0, 4, 2,
            0,
        ],
        108,
        HierError::HalfSum,
    ),
];

/// Why a file is refused by a reader that gives this many bytes, one at each call, and then fails.
fn refusal_before(alloc: Global, bytes: &[u8], calls: u32) -> Option<HierError> {
    let mut pieces = Pieces {
        bytes,
        most: 1,
        calls,
        is_odd: false,
    };
    read(alloc, &mut pieces).err()
}

/// Whether a fault is reported by a reader that fails right behind it, and not by one that fails a byte before.
fn comes_before_a_failed_read(
    alloc: Global,
    (words, calls, fault): Hostile,
) -> Result<bool, AllocError> {
    let file = bytes(alloc, words)?;
    let before = calls.saturating_sub(1);
    Ok(
        (refusal_before(alloc, file.as_slice(), calls) == Some(fault))
            & (refusal_before(alloc, file.as_slice(), before) == Some(HierError::Read)),
    )
}

/// Whether each of these faults is.
fn come_before_a_failed_read(alloc: Global, cases: &[Hostile]) -> Result<bool, AllocError> {
    for case in cases {
        if !comes_before_a_failed_read(alloc, *case)? {
            return Ok(false);
        }
    }
    Ok(true)
}

#[test]
fn faults_come_before_a_failed_read(rt: HostRuntime) -> Result<(), AllocError> {
    assert!(rt; come_before_a_failed_read(rt.alloc(), &HOSTILE)?);
    Ok(())
}

/// Whether the row is read in pieces as expected.
fn row_is_read(alloc: Global) -> Result<bool, AllocError> {
    let row = bytes(alloc, &ROW)?;
    let is_read = is_read_in_pieces(alloc, row.as_slice(), &READINGS);
    Ok(is_read & (refusal_before(alloc, row.as_slice(), 1) == Some(HierError::Read)))
}

#[test]
fn reads_in_pieces(rt: HostRuntime) -> Result<(), AllocError> {
    assert!(rt; row_is_read(rt.alloc())?);
    Ok(())
}

// A writer that takes a few bytes at each call and this many in all, and is interrupted at each other call.
#[derive(Drop)]
struct Taker {
    taken: Vec<u8>,
    most: usize,
    left: usize,
    is_odd: bool,
}

impl Write for Taker {
    fn write(&mut self, buf: &[u8]) -> io::Result<usize> {
        self.is_odd = !self.is_odd;
        if self.is_odd {
            return Err(io::Error::from(ErrorKind::Interrupted));
        }
        let count = self.most.min(self.left).min(buf.len());
        self.taken.extend_from_slice(&buf[..count])?;
        self.left -= count;
        Ok(count)
    }

    fn flush(&mut self) -> io::Result<()> {
        Ok(())
    }
}

pub(crate) fn row(alloc: Global) -> Result<Option<Hierarchy>, AllocError> {
    hierarchy_of(alloc, &ROW)
}

// How a hierarchy is written in this many calls, if it is of version 2.
fn writes(hierarchy: &Hierarchy, taker: &mut Taker, limit: u64) -> Option<Result<(), WriteFault>> {
    if hierarchy.version() != 2 {
        return None;
    }
    Some(write_within(hierarchy, taker, limit))
}

// How the row is written in this many calls, if it is read.
fn writes_row(
    alloc: Global,
    taker: &mut Taker,
    limit: u64,
) -> Result<Option<Result<(), WriteFault>>, AllocError> {
    match row(alloc)? {
        Some(hierarchy) => Ok(writes(&hierarchy, taker, limit)),
        None => Ok(None),
    }
}

/// How many bytes a writer takes at a call and in all, the limit of the calls, the result, and how many bytes are taken.
type Writing = (usize, usize, u64, Result<(), WriteFault>, usize);

/// Whether the row, of these bytes, is written so.
fn is_taken(
    alloc: Global,
    bytes: &[u8],
    (most, left, limit, expected, count): Writing,
) -> Result<bool, AllocError> {
    let mut taker = Taker {
        taken: Vec::new(alloc),
        most,
        left,
        is_odd: false,
    };
    let is_answered = writes_row(alloc, &mut taker, limit)? == Some(expected);
    Ok(is_answered & (Some(taker.taken.as_slice()) == bytes.get(..count)))
}

/// How the row is written in pieces.
const WRITINGS: [Writing; 5] = [
    (1, 1000, 216, Ok(()), 108),
    (1, 1000, 215, Err(WriteFault { written: 107 }), 107),
    (1000, 30, MANY, Err(WriteFault { written: 30 }), 30),
    (7, 30, MANY, Err(WriteFault { written: 30 }), 30),
    (7, 0, MANY, Err(WriteFault { written: 0 }), 0),
];

/// Whether the row is written in each of these ways.
fn is_written_in_pieces(alloc: Global, writings: &[Writing]) -> Result<bool, AllocError> {
    let row = bytes(alloc, &ROW)?;
    for writing in writings {
        if !is_taken(alloc, row.as_slice(), *writing)? {
            return Ok(false);
        }
    }
    Ok(true)
}

#[test]
fn writes_in_pieces(rt: HostRuntime) -> Result<(), AllocError> {
    assert!(rt; is_written_in_pieces(rt.alloc(), &WRITINGS)?);
    Ok(())
}

#[test]
fn shows_errors(rt: HostRuntime) -> Result<(), AllocError> {
    let name = format!(in rt.alloc(); "{}", HierError::HalfSum)?;
    assert!(rt; name.as_str() == "HalfSum");
    Ok(())
}
