//! Jobs whose readers or writers fail, and refusals that no text brings about.
use crate::examples::{ONE_ARC, ONE_ARC_TEXT, ROW, ROW_TEXT};
use crate::kit::prepare_alone;
use ch_service::{ServiceError, WriteFault, route};
use ch_unpack::UnpackError;
use ch_workers::BuildError;
use jobs::{Check, Job, Order, Preparation, Renewal, Workers};
use outcomes::Ending;
use performing::perform;
use std::alloc::Global;
use std::io::{self, ErrorKind, Read, Write};
use std::sync::Wait;
use std::thread::Threads;

/// A reader and writer that fails.
#[derive(Drop)]
pub(crate) struct Broken;

impl Read for Broken {
    fn read(&mut self, _buf: &mut [u8]) -> io::Result<usize> {
        Err(io::Error::from(ErrorKind::Other))
    }
}

impl Write for Broken {
    fn write(&mut self, _buf: &[u8]) -> io::Result<usize> {
        Err(io::Error::from(ErrorKind::Other))
    }

    fn flush(&mut self) -> io::Result<()> {
        Ok(())
    }
}

/// What a job reads.
#[derive(Clone, Copy)]
enum Given {
    /// These bytes.
    Bytes(&'static [u8]),
    /// This byte, before a read that fails.
    First(u8),
    /// Nothing: each read fails.
    Nothing,
}

impl Read for Given {
    fn read(&mut self, buf: &mut [u8]) -> io::Result<usize> {
        match *self {
            Given::Bytes(mut rest) => {
                let result = rest.read(buf);
                *self = Given::Bytes(rest);
                result
            }
            Given::First(byte) if !buf.is_empty() => {
                buf[0] = byte;
                *self = Given::Nothing;
                Ok(1)
            }
            _ => Err(io::Error::from(ErrorKind::Other)),
        }
    }
}

const TWO: Job<'static> = Job::Answer {
    graph: "-",
    queries: "pairs.p2p",
};

const JOINED: Job<'static> = Job::Answer {
    graph: "-",
    queries: "-",
};

const PAIRS: &[u8] = b"p aux sp p2p 2\nq 1 2\nq 2 1\n";

/// Whether the job ends with this status, these bytes written, and this line on standard error.
fn is_ended<A: Read, B: Read, R: Threads + Wait + Sync>(
    rt: &R,
    alloc: Global,
    job: &Job<'_>,
    first: &mut A,
    second: &mut B,
    status: u8,
    out: &[u8],
    err: &[u8],
) -> bool {
    let mut written = Vec::new(alloc);
    let mut told = Vec::new(alloc);
    let ended = perform(rt, alloc, job, first, second, &mut written, &mut told);
    (ended == status) & (written.as_slice() == out) & (told.as_slice() == err)
}

const ROUTE: Job<'static> = Job::Route {
    hierarchy: "a.rch",
    queries: "pairs.p2p",
};

const INFO: Job<'static> = Job::Info { hierarchy: "a.rch" };

const CHECK: Job<'static> = Job::Check(Check {
    graph: "a.gr",
    hierarchy: "a.rch",
    progress: false,
});

const RENEW: Job<'static> = Job::Renew(Renewal {
    old: "a.rch",
    graph: "a.gr",
    out: "b.rch",
    progress: false,
});

/// Whether a job ends with status 7 and the line of a failed read, and writes nothing.
fn is_unread<R: Threads + Wait + Sync>(
    rt: &R,
    alloc: Global,
    job: &Job<'_>,
    mut first: Given,
    mut second: Given,
) -> bool {
    let line = b"routecli: read\n";
    is_ended(rt, alloc, job, &mut first, &mut second, 7, b"", line)
}

/// Whether each of these jobs does.
fn are_unread<R: Threads + Wait + Sync>(
    rt: &R,
    alloc: Global,
    cases: &[(Job<'_>, Given, Given)],
) -> bool {
    for (job, first, second) in cases {
        if !is_unread(rt, alloc, job, *first, *second) {
            return false;
        }
    }
    true
}

/// Jobs of which a reader fails at once.
const FAILED: [(Job, Given, Given); 10] = [
    (TWO, Given::Nothing, Given::Bytes(PAIRS)),
    (JOINED, Given::Nothing, Given::Bytes(PAIRS)),
    (ROUTE, Given::Nothing, Given::Bytes(PAIRS)),
    (INFO, Given::Nothing, Given::Bytes(PAIRS)),
    (CHECK, Given::Nothing, Given::Bytes(PAIRS)),
    (RENEW, Given::Nothing, Given::Bytes(ONE_ARC)),
    (TWO, Given::Bytes(ONE_ARC_TEXT), Given::Nothing),
    (ROUTE, Given::Bytes(ONE_ARC), Given::Nothing),
    (CHECK, Given::Bytes(ONE_ARC_TEXT), Given::Nothing),
    (RENEW, Given::Bytes(ONE_ARC_TEXT), Given::Nothing),
];

/// To prepare without workers.
fn preparing() -> Job<'static> {
    Job::Prepare(Preparation {
        graph: "a.gr",
        out: "a.rch",
        workers: Some(Workers::none()),
        seed: 1,
        order: Order::Edges,
        stint: None,
        progress: false,
    })
}

/// Jobs of which a reader fails after the first byte.
const FAILED_SECOND: [(Job, Given, Given); 10] = [
    (TWO, Given::First(b'p'), Given::Bytes(PAIRS)),
    (JOINED, Given::First(b'p'), Given::Bytes(PAIRS)),
    (ROUTE, Given::First(b'R'), Given::Bytes(PAIRS)),
    (INFO, Given::First(b'R'), Given::Bytes(PAIRS)),
    (CHECK, Given::First(b'p'), Given::Bytes(ONE_ARC)),
    (RENEW, Given::First(b'p'), Given::Bytes(ONE_ARC)),
    (TWO, Given::Bytes(ONE_ARC_TEXT), Given::First(b'p')),
    (ROUTE, Given::Bytes(ONE_ARC), Given::First(b'p')),
    (CHECK, Given::Bytes(ONE_ARC_TEXT), Given::First(b'R')),
    (RENEW, Given::Bytes(ONE_ARC_TEXT), Given::First(b'R')),
];

#[test]
fn failed_reads(rt: HostRuntime) {
    assert!(rt; are_unread(&rt, rt.alloc(), &FAILED));
    assert!(rt; are_unread(&rt, rt.alloc(), &FAILED_SECOND));
    let prepare = (preparing(), Given::First(b'p'), Given::Nothing);
    assert!(rt; are_unread(&rt, rt.alloc(), &[prepare]));
}

/// Whether a job ends with status 7 and the line of a failed write, where the writer fails.
fn is_unwritten<R: Threads + Wait + Sync>(
    rt: &R,
    alloc: Global,
    job: &Job<'_>,
    mut first: Given,
    mut second: Given,
) -> bool {
    let mut err = Vec::new(alloc);
    let status = perform(
        rt,
        alloc,
        job,
        &mut first,
        &mut second,
        &mut Broken,
        &mut err,
    );
    (status == 7) & (err.as_slice() == b"routecli: write\n".as_slice())
}

/// Whether each of these jobs does.
fn are_unwritten<R: Threads + Wait + Sync>(
    rt: &R,
    alloc: Global,
    cases: &[(Job<'_>, Given, Given)],
) -> bool {
    for (job, first, second) in cases {
        if !is_unwritten(rt, alloc, job, *first, *second) {
            return false;
        }
    }
    true
}

#[test]
fn failed_writes(rt: HostRuntime) {
    let (graph, pairs) = (Given::Bytes(ONE_ARC_TEXT), Given::Bytes(PAIRS));
    let jobs = [
        (TWO, graph, pairs),
        (INFO, Given::Bytes(ONE_ARC), Given::Nothing),
        (preparing(), graph, Given::Nothing),
        (RENEW, graph, Given::Bytes(ONE_ARC)),
    ];
    assert!(rt; are_unwritten(&rt, rt.alloc(), &jobs));
}

#[test]
fn a_lost_line_keeps_the_status(rt: HostRuntime) {
    let (mut graph, mut pairs) = (b"".as_slice(), PAIRS);
    let mut out = Vec::new(rt.alloc());
    let status = perform(
        &rt,
        rt.alloc(),
        &TWO,
        &mut graph,
        &mut pairs,
        &mut out,
        &mut Broken,
    );
    assert!(rt; status == 3);
}

/// Refusals that no text brings about, or none that is short; the status of each, and the line on standard error.
const REPORTED: [(ServiceError, u8, &[u8]); 3] = [
    (
        ServiceError::Build(BuildError::Mixed),
        8,
        b"routecli: mixed\n",
    ),
    (
        ServiceError::Build(BuildError::OutOfMemory),
        6,
        b"routecli: memory\n",
    ),
    (
        ServiceError::Unpack(UnpackError::TooLong),
        4,
        b"routecli: hierarchy: TooLong\n",
    ),
];

fn is_reported(alloc: Global, error: &ServiceError, status: u8, line: &[u8]) -> bool {
    let mut err = Vec::new(alloc);
    let reported = Ending::Refused(error.cause()).report(&mut err);
    (reported == status) & (err.as_slice() == line)
}

/// Whether each of these refusals is reported so.
fn are_reported(alloc: Global, cases: &[(ServiceError, u8, &[u8])]) -> bool {
    for (error, status, line) in cases {
        if !is_reported(alloc, error, *status, line) {
            return false;
        }
    }
    true
}

#[test]
fn refusals_are_reported(rt: HostRuntime) {
    assert!(rt; are_reported(rt.alloc(), &REPORTED));
}

#[test]
fn a_write_of_routes_that_fails(rt: HostRuntime) {
    let mut room = [0u8; 18];
    let mut out = room.as_mut_slice();
    let (mut hier, mut pairs) = (ONE_ARC, b"p aux sp p2p 2\nq 1 2\nq 2 1\n".as_slice());
    let result = route(rt.alloc(), &mut hier, &mut pairs, &mut out);
    let written = 18;
    let is_stopped = result == Err(ServiceError::Write(WriteFault { written }));
    assert!(rt; is_stopped & (room.as_slice() == b"r 1 2 7 1 1 2\nn 2 ".as_slice()));
}

#[test]
fn a_write_of_a_hierarchy_that_fails(rt: HostRuntime) {
    let mut room = [0u8; 30];
    let mut out = room.as_mut_slice();
    let mut graph = ROW_TEXT;
    let result = prepare_alone(&rt, rt.alloc(), &mut graph, &mut out);
    let written = 30;
    let is_stopped = result == Err(ServiceError::Write(WriteFault { written }));
    assert!(rt; is_stopped & (room.as_slice() == &ROW[..30]));
}
