//! Which nodes workers ask keys for first, and how often they put nodes back where each key is above all before it.
ghost use Rattle.std.specs.Prelude.{◌≡◌, [], IfOk};

use crate::cliques::{cliques, shifts_of};
use crate::kit::{TWO, a_list_each, grid};
use crate::stations::{Both, OneAtATime, Slow, Tally};
use ch_contract::{Contraction, Facts};
use ch_estimate::{EdgeDifference, Estimator, Leases, Note};
use ch_graph::Graph;
use ch_workers::{Built, Gate, OpenGate, Options, build};
use std::alloc::{AllocError, Global};
use std::sync::atomic::{AtomicU64, Ordering};
use std::sync::{Arc, Wait};
use std::test::Fail;
use std::thread::Threads;

/// What the estimators of a test were asked keys for, in the order of the calls.
#[derive(Drop)]
struct Asked {
    /// The first calls: the number of the estimator, counted from 1, in the upper half, and the node in the lower one.
    calls: Vec<AtomicU64>,
    /// How many calls there were.
    count: AtomicU64,
    /// How many estimators were made.
    made: AtomicU64,
}

impl Asked {
    /// Nothing was asked. There is room for this many calls.
    fn new(alloc: Global, room: usize) -> Result<Arc<Asked>, AllocError> {
        let mut calls = Vec::new(alloc);
        'calls: for _ in 0..room {
            calls.push(AtomicU64::new(0))?;
        }
        let asked = Asked {
            calls,
            count: AtomicU64::new(0),
            made: AtomicU64::new(0),
        };
        Ok(Arc::new(alloc, asked)?)
    }

    /// Writes a call down, where there is room, and gives the key: how many calls there were before it.
    fn key(&self, number: u64, node: u32) -> u64 {
        let before = self.count.fetch_add(1, Ordering::SeqCst);
        if let Some(call) = self.calls.get(before as usize) {
            let estimator = number.wrapping_add(1).wrapping_mul(1 << 32);
            call.store(estimator.wrapping_add(u64::from(node)), Ordering::SeqCst);
        }
        before
    }

    /// Whether the worker of this number, whose estimator has it too, began with each node whose remainder by the number
    /// of workers it is, in rising order.
    fn has_begun(&self, number: u32, workers: u32, nodes: u32) -> bool {
        let first = u64::from(number).wrapping_add(1).wrapping_mul(1 << 32);
        let mut next = number;
        'calls: for call in &self.calls {
            let Some(node) = call.load(Ordering::SeqCst).checked_sub(first) else {
                continue;
            };
            if node >= 1 << 32 || next >= nodes {
                continue;
            }
            if node != u64::from(next) {
                return false;
            }
            next = next.wrapping_add(workers);
        }
        next >= nodes
    }

    /// Whether each of the workers has.
    fn have_begun(&self, workers: u32, nodes: u32) -> bool {
        let mut holds = true;
        'workers: for number in 0..workers {
            holds &= self.has_begun(number, workers, nodes);
        }
        holds
    }
}

/// An estimator whose keys rise with each call of any.
#[derive(Drop)]
struct Asking {
    inner: EdgeDifference,
    number: u64,
    asked: Arc<Asked>,
}

impl Estimator for Asking {
    ghost heard = { λ a. a.inner };

    fn key(&mut self, facts: &Facts) -> u64 {
        self.asked.key(self.number, facts.node)
    }

    fn told(&mut self, entry: &Contraction) -> Result<(), AllocError> {
        self.inner.told(entry)
    }

    fn note(&self, node: u32) -> Note {
        self.inner.note(node)
    }
}

/// Builds by workers of whom each has one such estimator.
fn built_by<G: Gate, R: Threads + Wait + Sync>(
    rt: &R,
    alloc: Global,
    graph: Graph,
    options: Options,
    asked: &Arc<Asked>,
    gate: &G,
) -> Result<Built, Fail> {
    let mut leases = Leases::new(alloc)?;
    let lists = a_list_each(
        alloc,
        &mut leases,
        options.workers,
        |lease| -> Result<Box<dyn Estimator + Send>, AllocError>
            ensures { IfOk result (λ estimator. heard estimator ≡ []) }
        {
            let inner = EdgeDifference::new(alloc, lease);
            let asked = Arc::try_clone(asked)?;
            let number = asked.made.fetch_add(1, Ordering::SeqCst);
            Ok(Box::new(
                alloc,
                Asking {
                    inner,
                    number,
                    asked,
                },
            )?)
        },
    )?;
    let built = build(rt, alloc, graph, options, lists, &mut leases, gate)?;
    Ok(built)
}

/// Whether each of this many workers begins with its nodes of the grid.
fn begin<R: Threads + Wait + Sync>(rt: &R, alloc: Global, workers: u32) -> Result<bool, Fail> {
    let asked = Asked::new(alloc, 10_000)?;
    let options = Options { workers, ..TWO };
    let _built = built_by(rt, alloc, grid(alloc)?, options, &asked, &OpenGate)?;
    Ok(asked.have_begun(workers, 25))
}

#[test]
fn each_worker_begins_with_its_nodes(rt: HostRuntime) -> Result<(), Fail> {
    assert!(rt;
        begin(&rt, rt.alloc(), 1)? & begin(&rt, rt.alloc(), 2)? & begin(&rt, rt.alloc(), 3)?
    );
    Ok(())
}

/// Whether each worker took two items for each of its commits, but for one that it put back at last.
fn puts_back_once(tally: &Tally, built: &Built) -> bool {
    let mut holds = true;
    'workers: for (worker, receipts) in built.receipts.iter().take(2).enumerate() {
        let committed = receipts.len() as u64;
        holds &= tally.took(worker).wrapping_sub(committed.wrapping_mul(2)) <= 1;
    }
    holds
}

/// The gate of workers of whom one works at a time, each slow once it has taken an item, who are counted.
type Slowly = Both<Both<OneAtATime, Slow>, Tally>;

/// Whether two workers, who put a node back before each commit, do so once in three shifts or more.
fn requeue<R: Threads + Wait + Sync>(rt: &R, alloc: Global, gate: &Slowly) -> Result<bool, Fail> {
    let asked = Asked::new(alloc, 0)?;
    let options = Options { defer: 1, ..TWO };
    let built = built_by(rt, alloc, cliques(alloc, 200)?, options, &asked, gate)?;
    let is_whole = gate.first.first.was_met() & gate.second.is_of(&built);
    Ok(is_whole & puts_back_once(&gate.second, &built) & (shifts_of(&built) >= 3))
}

// Each key is above all before it, so a worker puts a node back before each of its commits, and once, whether or not a
// shift ends between the two. One works at a time, and each is slow once it has taken an item: so it finds mostly that a
// shift is over by the other's commit, when it has put a node back.
#[test]
fn deferrals_go_on_in_the_next_shift(rt: HostRuntime) -> Result<(), Fail> {
    let gate = Both {
        first: Both {
            first: OneAtATime::new(),
            second: Slow,
        },
        second: Tally::new(),
    };
    assert!(rt; requeue(&rt, rt.alloc(), &gate)?);
    Ok(())
}
