//! Checks of a file against the text of a graph by readers and a writer that fail. `tests/program/small` has texts and
//! files with their verdicts.
use ch_verify::{Unwatched, WriteFault, verify};
use outcomes::{Cause, Input};
use std::io::{self, ErrorKind, Read};

/// The text of one arc.
const ONE_ARC_TEXT: &[u8] = b"p sp 2 1\na 1 2 7\n";

/// The file of its hierarchy: two nodes, one link, bound 7, two ranks, the link.
const ONE_ARC: &[u8] = b"RCH2\0\0\0\x02\0\0\0\0\0\0\0\x01\0\0\0\0\0\0\0\x07\0\0\0\0\0\0\0\x01\
\0\0\0\0\0\0\0\x01\0\0\0\0\0\0\0\x07\0\0\0\x01\xff\xff\xff\xff";

/// A reader that fails.
#[derive(Drop)]
struct Broken;

impl Read for Broken {
    fn read(&mut self, _buf: &mut [u8]) -> io::Result<usize> {
        Err(io::Error::from(ErrorKind::Other))
    }
}

#[test]
fn failed_reads_and_writes(rt: HostRuntime) {
    let alloc = rt.alloc();
    let (mut text, mut file) = (ONE_ARC_TEXT, ONE_ARC);
    let mut room = [0u8; 4];
    let mut out = room.as_mut_slice();
    let unread = verify(alloc, &mut Broken, &mut file, &mut out, &Unwatched);
    assert!(rt; unread == Err(Cause::Read(Input::Graph)));
    let unread = verify(alloc, &mut text, &mut Broken, &mut out, &Unwatched);
    assert!(rt; unread == Err(Cause::Read(Input::Hierarchy)));
    let (mut text, mut file) = (ONE_ARC_TEXT, ONE_ARC);
    let written = verify(alloc, &mut text, &mut file, &mut out, &Unwatched);
    assert!(rt; written == Err(Cause::Write(WriteFault { written: 4 })));
    assert!(rt; room.as_slice() == b"righ".as_slice());
}
