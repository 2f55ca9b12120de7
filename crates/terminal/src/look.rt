use crate::fields::{field, is, is_item};
use std::alloc::Global;
use std::fs;
use std::io::Read;
use std::rt::Files;

/// How many bytes of a line are kept.
const MOST: usize = 120;

/// How many bytes a reader is asked for in a call.
const PIECE: usize = 1 << 13;

/// What a second look at a text found: how it begins, its problem line, and the line that was asked for.
#[derive(Drop)]
pub(crate) struct Look {
    /// Whether there was a file to look at.
    pub(crate) is_seen: bool,
    /// Its first bytes.
    pub(crate) head: Vec<u8>,
    /// Its first line that begins with `p`.
    pub(crate) problem: Vec<u8>,
    /// The line that was asked for.
    pub(crate) line: Vec<u8>,
    /// How many lines before it, or in all, begin with `a` or `q`.
    pub(crate) items: u64,
    wanted: u64,
    number: u64,
    current: Vec<u8>,
}

impl Look {
    /// Nothing that could be looked at.
    pub(crate) fn none(alloc: Global) -> Look {
        Look {
            is_seen: false,
            head: Vec::new(alloc),
            problem: Vec::new(alloc),
            line: Vec::new(alloc),
            items: 0,
            wanted: 0,
            number: 1,
            current: Vec::new(alloc),
        }
    }

    /// Looks at the file once more, up to this line, or to its end if the line is 0. Nothing is found in what can't be
    /// read, and in what is no regular file: a pipe has been read, and waits forever.
    pub(crate) fn at<R: Files + AllocGlobal>(rt: &R, path: &str, wanted: u64) -> Look {
        let mut look = Look::none(rt.alloc());
        if let Some(mut file) = opened(rt, path) {
            look.is_seen = true;
            look.head = head_of(rt, path);
            look.wanted = wanted;
            look.read(&mut file);
        }
        look
    }

    // Reads up to the line.
    fn read<R: Read>(&mut self, file: &mut R) {
        let mut piece = [0u8; PIECE];
        for _ in 0..u64::MAX {
            let count = file.read(&mut piece).unwrap_or(0);
            if count == 0 {
                self.end_line();
                return;
            }
            if self.take_piece(piece.get(..count).unwrap_or(b"")) {
                return;
            }
        }
    }

    // Looks at more bytes; whether the line was among them.
    fn take_piece(&mut self, piece: &[u8]) -> bool {
        for byte in piece {
            if *byte == b'\n' {
                if self.end_line() {
                    return true;
                }
            } else if self.current.len() < MOST {
                let _ = self.current.push(*byte);
            }
        }
        false
    }

    // A line has ended; whether it is the one that was asked for.
    fn end_line(&mut self) -> bool {
        let is_it = self.number == self.wanted;
        let line = self.current.as_slice();
        if is_it {
            copy(line, &mut self.line);
        } else if is_item(line) {
            self.items = self.items.saturating_add(1);
        }
        if is(field(line, 0), "p") && self.problem.is_empty() {
            copy(line, &mut self.problem);
        }
        self.current.clear();
        self.number = self.number.saturating_add(1);
        is_it
    }
}

/// The first bytes of a file, or none of what is no regular file.
pub(crate) fn head_of<R: Files + AllocGlobal>(rt: &R, path: &str) -> Vec<u8> {
    let mut head = Vec::new(rt.alloc());
    if let Some(mut file) = opened(rt, path) {
        let mut piece = [0u8; MOST];
        let count = file.read(&mut piece).unwrap_or(0);
        copy(piece.get(..count).unwrap_or(b""), &mut head);
    }
    head
}

// The file, if it is a regular one that can be opened.
fn opened<R: Files>(rt: &R, path: &str) -> Option<R::File> {
    let found = fs::metadata(rt, path).ok()?;
    if !found.is_file() {
        return None;
    }
    fs::open(rt, path).ok()
}

// Makes a copy of a line, or of a part of it if memory runs out.
fn copy(line: &[u8], to: &mut Vec<u8>) {
    to.clear();
    let _ = to.extend_from_slice(line);
}
