ghost use Rattle.std.specs.Prelude.{◌≡◌, [], All, IfOk};

use crate::examples::{EXAMPLES, Example, ROW, ROW_TEXT, UNTIED};
use crate::kit::{Lists, estimator_of, one_list, options, two_lists};
use ch_estimate::{Depth, Estimator, Leases};
use ch_service::{ServiceError, answer, prepare, routes_in_memory};
use ch_workers::{BuildError, Gate, OpenGate, Options, Point};
use grfile::{GrError, GrErrorKind};
use jobs::Order;
use std::alloc::{AllocError, Global};
use std::sync::atomic::{AtomicU64, Ordering};
use std::sync::{Arc, Wait};
use std::test::Fail;
use std::thread::{self, Threads};
use test_kit::{Drops, Numbered};

/// Counts the commits that it sees.
#[derive(Drop)]
struct Commits {
    seen: AtomicU64,
}

impl Gate for Commits {
    fn pass(&self, _worker: u32, point: Point) {
        if point == Point::Committed {
            self.seen.fetch_add(1, Ordering::SeqCst);
        }
    }
}

/// The answers to the pairs of a graph, by a hierarchy that one worker builds by the edge difference.
pub(crate) fn answers_by_edges<G: Gate, R: Threads + Wait + Sync>(
    rt: &R,
    alloc: Global,
    mut graph: &[u8],
    mut pairs: &[u8],
    leases: &mut Leases,
    gate: &G,
) -> Result<Vec<u8>, ServiceError> {
    let edges = estimator_of(alloc, leases, Order::Edges)?;
    let lists = one_list(alloc, edges)?;
    let mut out = Vec::new(alloc);
    answer(
        rt,
        alloc,
        &mut graph,
        &mut pairs,
        &mut out,
        options(1),
        lists,
        leases,
        gate,
    )?;
    Ok(out)
}

/// The answers to the pairs of a graph in memory, by a file that two workers prepare, each by a kind of its own.
pub(crate) fn routes_by_two_kinds<R: Threads + Wait + Sync>(
    rt: &R,
    alloc: Global,
    graph: &[u8],
    pairs: &[u8],
    leases: &mut Leases,
) -> Result<Vec<u8>, ServiceError> {
    let lists = two_lists(alloc, leases, Order::Neighbours, Order::Depth)?;
    routes_in_memory(
        rt,
        alloc,
        graph,
        pairs,
        options(2),
        lists,
        leases,
        &OpenGate,
    )
}

/// Whether one worker answers each of these examples.
fn are_answered_by_one<G: Gate, R: Threads + Wait + Sync>(
    rt: &R,
    alloc: Global,
    examples: &[Example],
    leases: &mut Leases,
    gate: &G,
) -> Result<bool, ServiceError> {
    for example in examples {
        let out = answers_by_edges(rt, alloc, example.graph, example.pairs, leases, gate)?;
        if out.as_slice() != example.answers {
            return Ok(false);
        }
    }
    Ok(true)
}

#[test]
fn worked_examples_by_one_worker(rt: HostRuntime) -> Result<(), Fail> {
    let alloc = rt.alloc();
    let mut leases = Leases::new(alloc)?;
    let gate = Commits {
        seen: AtomicU64::new(0),
    };
    let examples = &EXAMPLES[..UNTIED];
    let are_answered = are_answered_by_one(&rt, alloc, examples, &mut leases, &gate)?;
    // All nodes of all examples.
    assert!(rt; are_answered & (gate.seen.load(Ordering::SeqCst) == 33));
    Ok(())
}

/// Whether two workers answer each of these examples.
fn are_answered_by_two<R: Threads + Wait + Sync>(
    rt: &R,
    alloc: Global,
    examples: &[Example],
    leases: &mut Leases,
) -> Result<bool, ServiceError> {
    for example in examples {
        let out = routes_by_two_kinds(rt, alloc, example.graph, example.pairs, leases)?;
        if out.as_slice() != example.answers {
            return Ok(false);
        }
    }
    Ok(true)
}

#[test]
fn worked_examples_by_two_workers(rt: HostRuntime) -> Result<(), Fail> {
    let mut leases = Leases::new(rt.alloc())?;
    let examples = &EXAMPLES[..UNTIED];
    assert!(rt; are_answered_by_two(&rt, rt.alloc(), examples, &mut leases)?);
    Ok(())
}

/// The list of one worker, of an estimator that received nothing and counts its drop here.
fn counted_list(alloc: Global, leases: &mut Leases, drops: &Arc<Drops>) -> Result<Lists, AllocError>
    ensures { IfOk result (λ lists. All (λ list. All (λ estimator. heard estimator ≡ []) list.items) lists.items) }
{
    let depth = Depth::new(alloc, leases.lease()?);
    let counted = Numbered::new(depth, 0, Arc::try_clone(drops)?);
    let estimator: Box<dyn Estimator + Send> = Box::new(alloc, counted)?;
    one_list(alloc, estimator)
}

/// Whether one worker, which has this list, prepares the row by three commits.
fn prepares_alone<R: Threads + Wait + Sync>(
    rt: &R,
    alloc: Global,
    lists: Lists,
    leases: &mut Leases,
) -> bool
    requires { All (λ list. All (λ estimator. heard estimator ≡ []) list.items) lists.items }
{
    let options = Options {
        heaps: 1,
        ..options(1)
    };
    let gate = Commits {
        seen: AtomicU64::new(0),
    };
    let mut graph = ROW_TEXT;
    let mut file = Vec::new(alloc);
    let ended = prepare(
        rt, alloc, &mut graph, &mut file, options, lists, leases, &gate,
    );
    (ended == Ok(())) & (file.as_slice() == ROW) & (gate.seen.load(Ordering::SeqCst) == 3)
}

/// Two texts and options, with which a call that is given the list of one worker is refused.
#[derive(Clone, Copy)]
struct Refused {
    graph: &'static [u8],
    pairs: &'static [u8],
    options: Options,
    error: ServiceError,
}

/// Whether `prepare` refuses the graph's text or the options as it is said, and writes nothing.
fn is_not_prepared<R: Threads + Wait + Sync>(
    rt: &R,
    alloc: Global,
    refused: &Refused,
    lists: Lists,
    leases: &mut Leases,
) -> bool
    requires { All (λ list. All (λ estimator. heard estimator ≡ []) list.items) lists.items }
{
    let mut graph = refused.graph;
    let mut out = Vec::new(alloc);
    let result = prepare(
        rt,
        alloc,
        &mut graph,
        &mut out,
        refused.options,
        lists,
        leases,
        &OpenGate,
    );
    (result == Err(refused.error)) & out.is_empty()
}

/// Whether `answer` refuses the texts or the options as expected, and writes nothing.
fn is_not_answered<R: Threads + Wait + Sync>(
    rt: &R,
    alloc: Global,
    refused: &Refused,
    lists: Lists,
    leases: &mut Leases,
) -> bool
    requires { All (λ list. All (λ estimator. heard estimator ≡ []) list.items) lists.items }
{
    let (mut graph, mut pairs) = (refused.graph, refused.pairs);
    let mut out = Vec::new(alloc);
    let result = answer(
        rt,
        alloc,
        &mut graph,
        &mut pairs,
        &mut out,
        refused.options,
        lists,
        leases,
        &OpenGate,
    );
    (result == Err(refused.error)) & out.is_empty()
}

/// What one worker is given for.
#[derive(Clone, Copy)]
enum Call {
    Prepare,
    Answer,
    /// Texts and options that are good.
    Row,
}

/// Whether a call ends as expected, and drops the estimator.
fn is_dropped<R: Threads + Wait + Sync>(
    rt: &R,
    alloc: Global,
    refused: &Refused,
    call: Call,
    leases: &mut Leases,
) -> Result<bool, AllocError> {
    let drops = Drops::new(alloc)?;
    let lists = counted_list(alloc, leases, &drops)?;
    let is_right = match call {
        Call::Prepare => is_not_prepared(rt, alloc, refused, lists, leases),
        Call::Answer => is_not_answered(rt, alloc, refused, lists, leases),
        Call::Row => prepares_alone(rt, alloc, lists, leases),
    };
    Ok(is_right & drops.are_one_each(1))
}

/// Whether each of these calls is.
fn are_dropped<R: Threads + Wait + Sync>(
    rt: &R,
    alloc: Global,
    cases: &[Refused],
    call: Call,
) -> Result<bool, AllocError> {
    let mut leases = Leases::new(alloc)?;
    for refused in cases {
        if !is_dropped(rt, alloc, refused, call, &mut leases)? {
            return Ok(false);
        }
    }
    Ok(true)
}

const PAIRS: &[u8] = b"p aux sp p2p 1\nq 2 3\n";

/// Options of one worker, good but for what is put in their place.
const ONE: Options = Options {
    workers: 1,
    ..Options::PLAIN
};

/// Options that are bad for the list of one worker.
const BAD: Refused = Refused {
    graph: ROW_TEXT,
    pairs: PAIRS,
    options: Options { workers: 0, ..ONE },
    error: ServiceError::Build(BuildError::BadOptions),
};

const BAD_OPTIONS: [Refused; 6] = [
    BAD,
    Refused {
        options: Options { workers: 2, ..ONE },
        ..BAD
    },
    Refused {
        options: Options { heaps: 5, ..ONE },
        ..BAD
    },
    Refused {
        options: Options { settle: 0, ..ONE },
        ..BAD
    },
    Refused {
        options: Options { turns: 0, ..ONE },
        ..BAD
    },
    Refused {
        options: Options { stint: 0, ..ONE },
        ..BAD
    },
];

#[test]
fn one_worker_prepares_alone(rt: HostRuntime) -> Result<(), Fail> {
    assert!(rt; are_dropped(&rt, rt.alloc(), &[BAD], Call::Row)?);
    Ok(())
}

#[test]
fn options_are_refused_before_a_write(rt: HostRuntime) -> Result<(), Fail> {
    assert!(rt; are_dropped(&rt, rt.alloc(), &BAD_OPTIONS, Call::Prepare)?);
    assert!(rt; are_dropped(&rt, rt.alloc(), &BAD_OPTIONS, Call::Answer)?);
    Ok(())
}

/// Texts that are refused before the options, which are bad too.
const BEFORE_OPTIONS: Refused = Refused {
    graph: b"p sp 3 0\n",
    pairs: b"p max\n",
    options: Options { workers: 65, ..ONE },
    error: ServiceError::OutOfMemory,
};

/// Graphs that are refused so, whatever the pairs.
const REFUSED_GRAPHS: [Refused; 4] = [
    Refused {
        graph: b"",
        error: ServiceError::Graph(GrError {
            kind: GrErrorKind::NoProblemLine,
            line: 0,
        }),
        ..BEFORE_OPTIONS
    },
    Refused {
        graph: b"x\n",
        error: ServiceError::Graph(GrError {
            kind: GrErrorKind::UnknownLine,
            line: 1,
        }),
        ..BEFORE_OPTIONS
    },
    Refused {
        graph: b"p sp 2 1\na 1 3 7\n",
        error: ServiceError::Graph(GrError {
            kind: GrErrorKind::NodeRange,
            line: 2,
        }),
        ..BEFORE_OPTIONS
    },
    Refused {
        graph: b"p sp 2 1\na 1 2 4294967296\n",
        error: ServiceError::Graph(GrError {
            kind: GrErrorKind::WeightTooBig,
            line: 2,
        }),
        ..BEFORE_OPTIONS
    },
];

/// Pairs that are refused so over three nodes.
const REFUSED_PAIRS: [Refused; 5] = [
    Refused {
        pairs: b"x\n",
        error: ServiceError::Queries(GrError {
            kind: GrErrorKind::UnknownLine,
            line: 1,
        }),
        ..BEFORE_OPTIONS
    },
    Refused {
        pairs: b"p aux sp p2p 1\nq 1 4\n",
        error: ServiceError::Queries(GrError {
            kind: GrErrorKind::NodeRange,
            line: 2,
        }),
        ..BEFORE_OPTIONS
    },
    Refused {
        pairs: b"p aux sp p2p 2\nq 1 1\n",
        error: ServiceError::Queries(GrError {
            kind: GrErrorKind::ArcCount,
            line: 2,
        }),
        ..BEFORE_OPTIONS
    },
    Refused {
        pairs: b"p sp 2 1\n",
        error: ServiceError::Queries(GrError {
            kind: GrErrorKind::FieldCount,
            line: 1,
        }),
        ..BEFORE_OPTIONS
    },
    Refused {
        pairs: b"p aux sp sp 1\n",
        error: ServiceError::Queries(GrError {
            kind: GrErrorKind::UnknownLine,
            line: 1,
        }),
        ..BEFORE_OPTIONS
    },
];

#[test]
fn texts_are_refused_before_options(rt: HostRuntime) -> Result<(), Fail> {
    assert!(rt; are_dropped(&rt, rt.alloc(), &REFUSED_GRAPHS, Call::Prepare)?);
    assert!(rt; are_dropped(&rt, rt.alloc(), &REFUSED_GRAPHS, Call::Answer)?);
    assert!(rt; are_dropped(&rt, rt.alloc(), &REFUSED_PAIRS, Call::Answer)?);
    Ok(())
}

/// Whether a graph is refused by `prepare` without workers.
fn is_graph_refused<R: Threads + Wait + Sync>(rt: &R, alloc: Global, leases: &mut Leases) -> bool {
    let mut graph = b"x\n".as_slice();
    let mut out = Vec::new(alloc);
    let result = prepare(
        rt,
        alloc,
        &mut graph,
        &mut out,
        options(0),
        Vec::new(alloc),
        leases,
        &OpenGate,
    );
    result == Err(ServiceError::Graph(GrErrorKind::UnknownLine.at(1)))
}

#[test]
fn a_refused_graph_waits_for_a_lease_elsewhere(rt: HostRuntime) -> Result<(), Fail> {
    let alloc = rt.alloc();
    let mut leases = Leases::new(alloc)?;
    let lease = leases.lease()?;
    let done = Arc::new(alloc, AtomicU64::new(0))?;
    let theirs = Arc::try_clone(&done)?;
    let child = thread::spawn(&rt, move || {
        for _ in 0..1_000_000u32 {
            theirs.fetch_add(1, Ordering::SeqCst);
        }
        drop(lease);
    })?;
    let is_refused = is_graph_refused(&rt, alloc, &mut leases);
    assert!(rt; is_refused & (done.load(Ordering::SeqCst) == 1_000_000));
    child.join(&rt);
    Ok(())
}
