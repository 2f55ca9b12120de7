ghost use Rattle.std.specs.Prelude.{◌≡◌, [], All, IfOk};

use crate::kit::{Keys, Lists};
use ch_contract::{Contraction, Facts};
use ch_estimate::{EdgeDifference, Estimator, Lease, Leases, Note};
use ch_graph::Graph;
use ch_sequential::build_sequential;
use ch_workers::{BuildError, Built, Gate, Options, build};
use std::alloc::{AllocError, Global};
use std::sync::atomic::{AtomicU64, Ordering};
use std::sync::{Arc, Mutex, Wait};
use std::thread::Threads;

/// What an estimator leaves behind: the entries that it received, and how often it was dropped.
#[derive(Drop)]
struct Tape {
    entries: Mutex<Vec<Contraction>>,
    dropped: AtomicU64,
}

impl Tape {
    /// Whether the entries are the first of a log, whole.
    fn is_of<R: Wait>(&self, rt: &R, log: &[Contraction]) -> bool {
        is_prefix(self.entries.lock(rt).as_slice(), log)
    }
}

/// What the estimators of a test leave behind, by the order in which they were made: those of the first list, then those
/// of the next.
#[derive(Drop)]
pub(crate) struct Traces {
    tapes: Vec<Tape>,
    /// How many estimators are in each list.
    each: usize,
    made: AtomicU64,
    /// How often an entry couldn't be written down.
    lost: AtomicU64,
    /// How often one received an entry while an earlier one of its list wasn't dropped.
    early: AtomicU64,
}

impl Traces {
    /// Nothing was received, and nothing dropped: this many lists of this many estimators.
    pub(crate) fn new(alloc: Global, lists: usize, each: usize) -> Result<Arc<Traces>, AllocError> {
        let mut tapes = Vec::new(alloc);
        'lists: for _ in 0..lists {
            'each: for _ in 0..each {
                tapes.push(Tape {
                    entries: Mutex::new(Vec::new(alloc)),
                    dropped: AtomicU64::new(0),
                })?;
            }
        }
        let traces = Arc::new(
            alloc,
            Traces {
                tapes,
                each,
                made: AtomicU64::new(0),
                lost: AtomicU64::new(0),
                early: AtomicU64::new(0),
            },
        )?;
        Ok(traces)
    }

    /// Writes down an entry for the estimator of this number.
    fn write_down(&self, number: usize, entry: &Contraction) -> Result<(), AllocError> {
        if !self.are_gone_before(number) {
            self.early.fetch_add(1, Ordering::SeqCst);
        }
        let copy = copy_of(entry)?;
        match self
            .tapes
            .get(number)
            .and_then(|tape| tape.entries.try_lock())
        {
            Some(mut entries) => Ok(entries.push(copy)?),
            None => {
                self.lost.fetch_add(1, Ordering::SeqCst);
                Ok(())
            }
        }
    }

    /// Whether the estimators that come in a list before this one were dropped.
    fn are_gone_before(&self, number: usize) -> bool {
        let place = number.checked_rem(self.each).unwrap_or(0);
        let Some((before, _)) = self.tapes.split_at_checked(number) else {
            return false;
        };
        let mut holds = true;
        'before: for tape in before.iter().rev().take(place) {
            holds &= tape.dropped.load(Ordering::SeqCst) == 1;
        }
        holds
    }

    /// How many entries the estimator of this number received.
    pub(crate) fn told<R: Wait>(&self, rt: &R, number: usize) -> usize {
        match self.tapes.get(number) {
            Some(tape) => tape.entries.lock(rt).len(),
            None => 0,
        }
    }

    /// Whether each estimator received entries of a log, whole and from the first one on, and nothing before all that
    /// come before it in its list were dropped.
    pub(crate) fn are_of<R: Wait>(&self, rt: &R, log: &[Contraction]) -> bool {
        if self.lost.load(Ordering::SeqCst) > 0 || self.early.load(Ordering::SeqCst) > 0 {
            return false;
        }
        let mut holds = true;
        'tapes: for tape in &self.tapes {
            holds &= tape.is_of(rt, log);
        }
        holds
    }

    /// Whether each was dropped once, the entries are those of a log, and the first ones received this many.
    pub(crate) fn are_told<R: Wait>(&self, rt: &R, log: &[Contraction], told: &[usize]) -> bool {
        let mut holds = self.are_dropped() & self.are_of(rt, log);
        'numbers: for (number, count) in told.iter().enumerate() {
            holds &= self.told(rt, number) == *count;
        }
        holds
    }

    /// How many drops there were.
    pub(crate) fn dropped(&self) -> u64 {
        let mut dropped = 0u64;
        'tapes: for tape in &self.tapes {
            dropped = dropped.wrapping_add(tape.dropped.load(Ordering::SeqCst));
        }
        dropped
    }

    /// Whether each estimator was dropped once.
    pub(crate) fn are_dropped(&self) -> bool {
        let mut holds = true;
        'tapes: for tape in &self.tapes {
            holds &= tape.dropped.load(Ordering::SeqCst) == 1;
        }
        holds
    }
}

/// An entry once more.
fn copy_of(entry: &Contraction) -> Result<Contraction, AllocError> {
    let mut neighbours = Vec::new(*entry.neighbours.allocator());
    neighbours.extend_from_slice(&entry.neighbours)?;
    Ok(Contraction {
        node: entry.node,
        rank: entry.rank,
        neighbours,
        shortcuts: entry.shortcuts,
    })
}

/// Whether these are the first entries of a log, whole.
pub(crate) fn is_prefix(told: &[Contraction], log: &[Contraction]) -> bool {
    let mut holds = told.len() <= log.len();
    'entries: for (told, entry) in told.iter().zip(log) {
        holds &= (told.node == entry.node) & (told.rank == entry.rank);
        holds &= (told.neighbours.as_slice() == entry.neighbours.as_slice())
            & (told.shortcuts == entry.shortcuts);
    }
    holds
}

/// Counts the drop of the estimator of a number.
struct Mark {
    number: usize,
    traces: Arc<Traces>,
}

impl Drop for Mark {
    fn drop(self) {
        let Mark { number, traces } = self;
        if let Some(tape) = traces.tapes.get(number) {
            tape.dropped.fetch_add(1, Ordering::SeqCst);
        }
        drop(traces);
    }
}

/// An estimator that gives the keys that it was made for, and leaves traces.
#[derive(Drop)]
struct Traced {
    inner: EdgeDifference,
    keys: Keys,
    mark: Mark,
}

impl Estimator for Traced {
    ghost heard = { λ t. t.inner };

    fn key(&mut self, facts: &Facts) -> u64 {
        let difference = self.inner.key(facts);
        self.keys.next(difference)
    }

    fn told(&mut self, entry: &Contraction) -> Result<(), AllocError> {
        self.mark.traces.write_down(self.mark.number, entry)?;
        self.inner.told(entry)
    }

    fn note(&self, node: u32) -> Note {
        self.inner.note(node)
    }
}

/// The next estimator, which received nothing.
fn make_traced(
    alloc: Global,
    lease: Lease,
    traces: &Arc<Traces>,
    keys: Keys,
) -> Result<Box<dyn Estimator + Send>, AllocError>
    ensures untold { IfOk result (λ estimator. heard estimator ≡ []) }
{
    let inner = EdgeDifference::new(alloc, lease);
    let traces = Arc::try_clone(traces)?;
    let number = traces.made.fetch_add(1, Ordering::SeqCst) as usize;
    let estimator: Box<dyn Estimator + Send> = Box::new(
        alloc,
        Traced {
            inner,
            keys: keys.of(number),
            mark: Mark { number, traces },
        },
    )?;
    Ok(estimator)
}

/// A list of this many estimators that leave traces.
fn traced_list(
    alloc: Global,
    leases: &mut Leases,
    traces: &Arc<Traces>,
    keys: Keys,
) -> Result<Vec<Box<dyn Estimator + Send>>, AllocError>
    ensures untold { IfOk result (λ list. All (λ estimator. heard estimator ≡ []) list.items) }
{
    let mut list = Vec::new(alloc);
    'places: for _ in 0..traces.each {
        list.push(make_traced(alloc, leases.lease()?, traces, keys)?)?;
    }
    Ok(list)
}

/// The lists of this many workers, of estimators that give such keys and leave traces.
fn traced_lists(
    alloc: Global,
    leases: &mut Leases,
    traces: &Arc<Traces>,
    workers: u32,
    keys: Keys,
) -> Result<Lists, AllocError>
    ensures untold { IfOk result (λ lists. All (λ list. All (λ estimator. heard estimator ≡ []) list.items) lists.items) }
{
    let mut lists = Vec::new(alloc);
    'workers: for _ in 0..workers {
        lists.push(traced_list(alloc, leases, traces, keys)?)?;
    }
    Ok(lists)
}

/// Builds by workers whose estimators give such keys and leave traces.
pub(crate) fn built_by<G: Gate, R: Threads + Wait + Sync>(
    rt: &R,
    alloc: Global,
    graph: Graph,
    options: Options,
    keys: Keys,
    traces: &Arc<Traces>,
    gate: &G,
) -> Result<Result<Built, BuildError>, AllocError> {
    let mut leases = Leases::new(alloc)?;
    let lists = traced_lists(alloc, &mut leases, traces, options.workers, keys)?;
    Ok(build(rt, alloc, graph, options, lists, &mut leases, gate))
}

/// Builds by the calling thread alone, by estimators that give such keys and leave traces.
pub(crate) fn alone_by<G: Gate, R: Wait>(
    rt: &R,
    alloc: Global,
    graph: Graph,
    options: Options,
    keys: Keys,
    traces: &Arc<Traces>,
    gate: &G,
) -> Result<Result<Built, BuildError>, AllocError> {
    let mut leases = Leases::new(alloc)?;
    let lists = traced_lists(alloc, &mut leases, traces, 1, keys)?;
    let built = build_sequential(rt, alloc, graph, options, lists, &mut leases, gate);
    Ok(built)
}
