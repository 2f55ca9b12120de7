use crate::examples::{EXAMPLES, Example};
use crate::kit::{Command, answer_alone, ends_so};
use ch_service::{ServiceError, WriteFault, answer_joined};
use ch_unpack::UnpackError;
use ch_workers::BuildError;
use grfile::{GrError, GrErrorKind};
use hierfile::HierError;
use std::alloc::{AllocError, Global};
use std::io::{self, ErrorKind, Write};
use std::sync::Wait;
use std::test::Fail;
use std::thread::Threads;
use test_kit::Uneven;

/// A reader that gives one byte at a call and is interrupted in between. A call of it may fail.
fn uneven_reader(text: &[u8], fails_at: u64) -> Uneven<'_> {
    Uneven::new(text, 2, fails_at)
}

/// How a writer ends.
#[derive(Clone, Copy, PartialEq, Eq)]
enum End {
    Fails,
    TakesNothing,
}

/// A writer that takes at most three bytes at a call and is interrupted in between. It takes `left` bytes in all.
#[derive(Drop)]
struct Short {
    taken: Vec<u8>,
    left: usize,
    is_interrupted: bool,
    end: End,
}

impl Write for Short {
    fn write(&mut self, buf: &[u8]) -> io::Result<usize> {
        self.is_interrupted = !self.is_interrupted;
        if self.is_interrupted {
            return Err(io::Error::from(ErrorKind::Interrupted));
        }
        if self.left == 0 && self.end == End::Fails {
            return Err(io::Error::from(ErrorKind::Other));
        }
        let n = buf.len().min(3).min(self.left);
        self.taken.extend_from_slice(&buf[..n])?;
        self.left -= n;
        Ok(n)
    }

    fn flush(&mut self) -> io::Result<()> {
        Ok(())
    }
}

fn short_writer(alloc: Global, left: usize, end: End) -> Short {
    Short {
        taken: Vec::new(alloc),
        left,
        is_interrupted: false,
        end,
    }
}

/// Whether the writer took the first bytes of these, as many as it was to take in all, and the call said so.
fn is_stopped(ended: Result<(), ServiceError>, out: &Short, whole: &[u8], left: usize) -> bool {
    let written = left as u64;
    let end = if left < whole.len() {
        Err(ServiceError::Write(WriteFault { written }))
    } else {
        Ok(())
    };
    (ended == end) & (out.taken.as_slice() == &whole[..left.min(whole.len())])
}

/// Whether each of these examples is answered.
fn are_right<R: Threads + Wait + Sync>(rt: &R, alloc: Global, examples: &[Example]) -> bool {
    for example in examples {
        let command = Command::Answer(example.graph, example.pairs);
        if !ends_so(rt, alloc, command, Ok(()), example.answers) {
            return false;
        }
    }
    true
}

#[test]
fn worked_examples(rt: HostRuntime) {
    assert!(rt; are_right(&rt, rt.alloc(), &EXAMPLES));
}

/// What comes of a joined input without a second part.
pub(crate) const NO_PAIRS: ServiceError = ServiceError::Queries(GrError {
    kind: GrErrorKind::NoProblemLine,
    line: 0,
});

const GRAPH: &[u8] = b"p sp 2 1\na 1 2 7\n";

const PAIRS: &[u8] = b"p aux sp p2p 2\nq 1 2\nq 2 1\n";

/// Both in one input.
pub(crate) const JOINED: &[u8] = b"p sp 2 1\na 1 2 7\n%\np aux sp p2p 2\nq 1 2\nq 2 1\n";

const ANSWERS: &[u8] = b"r 1 2 7 1 1 2\nn 2 1\n";

/// Where the readers fail, if not at 0.
#[derive(Clone, Copy)]
struct Ends {
    graph_fails_at: u64,
    pairs_fail_at: u64,
}

/// How `answer` ends over such readers and this writer.
fn unevenly<R: Threads + Wait + Sync>(
    rt: &R,
    alloc: Global,
    ends: Ends,
    out: &mut Short,
) -> Result<(), ServiceError> {
    let mut graph = uneven_reader(GRAPH, ends.graph_fails_at);
    let mut pairs = uneven_reader(PAIRS, ends.pairs_fail_at);
    answer_alone(rt, alloc, &mut graph, &mut pairs, out)
}

/// How `answer_joined` ends over such a reader, which fails at this call, and this writer.
fn unevenly_joined<R: Threads + Wait + Sync>(
    rt: &R,
    alloc: Global,
    fails_at: u64,
    out: &mut Short,
) -> Result<(), ServiceError> {
    let mut input = uneven_reader(JOINED, fails_at);
    answer_joined(rt, alloc, &mut input, out)
}

/// Whether two texts are answered as far as the writer takes it.
fn is_two_stopped<R: Threads + Wait + Sync>(rt: &R, alloc: Global, left: usize, end: End) -> bool {
    let ends = Ends {
        graph_fails_at: 0,
        pairs_fail_at: 0,
    };
    let mut out = short_writer(alloc, left, end);
    let result = unevenly(rt, alloc, ends, &mut out);
    is_stopped(result, &out, ANSWERS, left)
}

/// Whether a joined input is.
fn is_joined_stopped<R: Threads + Wait + Sync>(
    rt: &R,
    alloc: Global,
    left: usize,
    end: End,
) -> bool {
    let mut out = short_writer(alloc, left, end);
    let result = unevenly_joined(rt, alloc, 0, &mut out);
    is_stopped(result, &out, ANSWERS, left)
}

/// Whether both are, wherever the writer ends.
fn are_stopped<R: Threads + Wait + Sync>(rt: &R, alloc: Global, end: End) -> bool {
    for left in 0..101usize {
        if !is_two_stopped(rt, alloc, left, end) || !is_joined_stopped(rt, alloc, left, end) {
            return false;
        }
    }
    true
}

#[test]
fn writes_that_fail_or_are_short(rt: HostRuntime) {
    assert!(rt; are_stopped(&rt, rt.alloc(), End::Fails));
    assert!(rt; are_stopped(&rt, rt.alloc(), End::TakesNothing));
}

/// Calls that fail, of the graph's reader and of that of the pairs, and the line that is reported. A byte comes at each
/// call of odd number.
const BROKEN: [(u64, u64, u64); 6] = [
    (1, 0, 1),
    (17, 0, 1),
    (19, 0, 2),
    (33, 0, 2),
    (35, 0, 3),
    (0, 3, 1),
];

/// Whether a call that fails is reported of two texts, and nothing is written.
fn is_two_told<R: Threads + Wait + Sync>(
    rt: &R,
    alloc: Global,
    ends: Ends,
    error: ServiceError,
) -> bool {
    let mut out = short_writer(alloc, 100, End::Fails);
    let result = unevenly(rt, alloc, ends, &mut out);
    (result == Err(error)) & out.taken.is_empty()
}

/// Whether it is reported of a joined input.
fn is_joined_told<R: Threads + Wait + Sync>(
    rt: &R,
    alloc: Global,
    fails_at: u64,
    line: u64,
) -> bool {
    let mut out = short_writer(alloc, 100, End::Fails);
    let result = unevenly_joined(rt, alloc, fails_at, &mut out);
    let error = ServiceError::Graph(GrErrorKind::Read.at(line));
    (result == Err(error)) & out.taken.is_empty()
}

/// Whether a call that fails is reported with its line, of two texts and, of the first text, of a joined input.
fn is_told<R: Threads + Wait + Sync>(rt: &R, alloc: Global, ends: Ends, line: u64) -> bool {
    let fault = GrErrorKind::Read.at(line);
    if ends.pairs_fail_at > 0 {
        return is_two_told(rt, alloc, ends, ServiceError::Queries(fault));
    }
    is_two_told(rt, alloc, ends, ServiceError::Graph(fault))
        & is_joined_told(rt, alloc, ends.graph_fails_at, line)
}

/// Whether each of these is.
fn are_told<R: Threads + Wait + Sync>(rt: &R, alloc: Global, cases: &[(u64, u64, u64)]) -> bool {
    for (graph_fails_at, pairs_fail_at, line) in cases {
        let ends = Ends {
            graph_fails_at: *graph_fails_at,
            pairs_fail_at: *pairs_fail_at,
        };
        if !is_told(rt, alloc, ends, *line) {
            return false;
        }
    }
    true
}

/// Calls that fail of one input that holds both texts, behind its line `%`, and the line that is reported: in the first
/// line of the pairs, and in the second. A byte comes at each call of odd number; the first three lines of the input have
/// 19 bytes, and the fourth 15.
const BROKEN_BEHIND: [(u64, u64); 4] = [(37, 3), (39, 4), (67, 4), (69, 5)];

/// Whether each of these is reported.
fn are_told_behind<R: Threads + Wait + Sync>(rt: &R, alloc: Global, cases: &[(u64, u64)]) -> bool {
    for (fails_at, line) in cases {
        if !is_joined_told(rt, alloc, *fails_at, *line) {
            return false;
        }
    }
    true
}

#[test]
fn reads_that_fail(rt: HostRuntime) {
    assert!(rt; are_told(&rt, rt.alloc(), &BROKEN));
    assert!(rt; are_told_behind(&rt, rt.alloc(), &BROKEN_BEHIND));
}

const OWN: GrError = GrError {
    kind: GrErrorKind::NodeRange,
    line: 2,
};

const MEMORY: GrError = GrError {
    kind: GrErrorKind::OutOfMemory,
    line: 1,
};

const READ: GrError = GrError {
    kind: GrErrorKind::Read,
    line: 1,
};

const SHOWN: [(ServiceError, &str); 16] = [
    (ServiceError::Graph(OWN), "graph: NodeRange line 2"),
    (ServiceError::Queries(OWN), "queries: NodeRange line 2"),
    (ServiceError::Graph(MEMORY), "memory"),
    (ServiceError::Queries(MEMORY), "memory"),
    (ServiceError::Graph(READ), "read"),
    (ServiceError::Queries(READ), "read"),
    (
        ServiceError::Hierarchy(HierError::HalfSum),
        "hierarchy: HalfSum",
    ),
    (ServiceError::Hierarchy(HierError::OutOfMemory), "memory"),
    (ServiceError::Hierarchy(HierError::Read), "read"),
    (ServiceError::Build(BuildError::OutOfMemory), "memory"),
    (ServiceError::Build(BuildError::BadOptions), "options"),
    (ServiceError::Build(BuildError::Mixed), "mixed"),
    (
        ServiceError::Unpack(UnpackError::TooLong),
        "hierarchy: TooLong",
    ),
    (ServiceError::Unpack(UnpackError::OutOfMemory), "memory"),
    (ServiceError::Write(WriteFault { written: 3 }), "write"),
    (ServiceError::OutOfMemory, "memory"),
];

/// Whether each of these errors is shown by its line.
fn are_shown(alloc: Global, cases: &[(ServiceError, &str)]) -> Result<bool, AllocError> {
    for (error, line) in cases {
        let text = format!(in alloc; "{error}")?;
        if text.as_str() != *line {
            return Ok(false);
        }
    }
    Ok(true)
}

#[test]
fn shown(rt: HostRuntime) -> Result<(), Fail> {
    assert!(rt; are_shown(rt.alloc(), &SHOWN)?);
    Ok(())
}
