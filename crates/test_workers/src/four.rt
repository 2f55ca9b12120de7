//! Four workers, who work one at a time. Whatever its number, a worker asks its estimator for keys, gives it the log, puts
//! back an item whose key has risen, and searches by the options.
ghost use Rattle.std.specs.Prelude.{◌≡◌, [], IfOk};

use crate::kit::{TWO, a_list_each};
use crate::stations::{Both, OneAtATime, Tally};
use ch_contract::{Contraction, Facts, Receipt};
use ch_estimate::{EdgeDifference, Estimator, Leases, Note};
use ch_graph::{Graph, Road};
use ch_workers::{Built, Gate, Options, build};
use std::alloc::{AllocError, Global};
use std::sync::atomic::{AtomicU64, Ordering};
use std::sync::{Arc, Wait};
use std::test::Fail;
use std::thread::Threads;

/// How many nodes are between the two hubs.
const BETWEEN: u32 = 200;

/// How often each worker commits.
const COMMITS: usize = 5;

/// By keys that rise with each call a worker takes two items for each commit: it puts the first back.
const FOUR: Options = Options {
    workers: 4,
    heaps: 1,
    defer: 1,
    turns: 10,
    ..TWO
};

/// The keys that were given by all estimators, and the entries that each received.
#[derive(Drop)]
struct Counts {
    made: AtomicU64,
    keys: AtomicU64,
    told: [AtomicU64; 4],
}

impl Counts {
    /// Nothing was given or received.
    fn new(alloc: Global) -> Result<Arc<Counts>, AllocError> {
        let counts = Counts {
            made: AtomicU64::new(0),
            keys: AtomicU64::new(0),
            told: [0u8; 4].map(|_| AtomicU64::new(0)),
        };
        Ok(Arc::new(alloc, counts)?)
    }
}

/// An estimator that counts. Its keys rise with each call of any, and those of the hubs are the greatest.
#[derive(Drop)]
struct Counting {
    inner: EdgeDifference,
    number: u64,
    counts: Arc<Counts>,
}

impl Estimator for Counting {
    ghost heard = { λ c. c.inner };

    fn key(&mut self, facts: &Facts) -> u64 {
        let key = self.counts.keys.fetch_add(1, Ordering::SeqCst);
        if facts.node < BETWEEN { key } else { u64::MAX }
    }

    fn told(&mut self, entry: &Contraction) -> Result<(), AllocError> {
        if let Some(told) = self.counts.told.get(self.number as usize) {
            told.fetch_add(1, Ordering::SeqCst);
        }
        self.inner.told(entry)
    }

    fn note(&self, node: u32) -> Note {
        self.inner.note(node)
    }
}

/// Two hubs, which are the last nodes, with an arc of weight 1 to each other node and one back. Where a node between them
/// is contracted, a search has to settle another one to find as short a walk from hub to hub.
fn hubs(alloc: Global) -> Result<Graph, Fail> {
    let mut arcs = Vec::new(alloc);
    'nodes: for node in 0..BETWEEN {
        'hubs: for hub in [BETWEEN, BETWEEN + 1] {
            let weight = 1;
            let (from, to) = (hub, node);
            arcs.push(Road { from, to, weight })?;
            let (from, to) = (node, hub);
            arcs.push(Road { from, to, weight })?;
        }
    }
    Ok(Graph::checked(BETWEEN + 2, arcs)?)
}

/// Builds by four workers of whom each has one such estimator.
fn built_by<G: Gate, R: Threads + Wait + Sync>(
    rt: &R,
    alloc: Global,
    counts: &Arc<Counts>,
    gate: &G,
) -> Result<Built, Fail> {
    let mut leases = Leases::new(alloc)?;
    let lists = a_list_each(
        alloc,
        &mut leases,
        4,
        |lease| -> Result<Box<dyn Estimator + Send>, AllocError>
            ensures { IfOk result (λ estimator. heard estimator ≡ []) }
        {
            let inner = EdgeDifference::new(alloc, lease);
            let counts = Arc::try_clone(counts)?;
            let number = counts.made.fetch_add(1, Ordering::SeqCst);
            Ok(Box::new(
                alloc,
                Counting {
                    inner,
                    number,
                    counts,
                },
            )?)
        },
    )?;
    let built = build(rt, alloc, hubs(alloc)?, FOUR, lists, &mut leases, gate)?;
    Ok(built)
}

/// Whether a worker of these receipts committed as often as it has to, and needed no shortcut, and its estimator received
/// what was committed before its last turn.
fn is_by_the_options(log: &[Contraction], receipts: &[Receipt], told: u64) -> bool {
    let are_plain = receipts.iter().all(|receipt| {
        log.get(receipt.rank as usize)
            .is_some_and(|entry| entry.shortcuts == 0)
    });
    let heard = receipts.last().map(|last| u64::from(last.rank));
    receipts.len() == COMMITS && are_plain && heard == Some(told)
}

/// Whether each of four workers did so.
fn are_by_the_options(built: &Built, counts: &Counts, tally: &Tally) -> bool {
    let log = built.log.as_slice();
    built.receipts.iter().zip(&counts.told).enumerate().all(|(worker, (receipts, told))| {
        tally.took(worker) == FOUR.turns
            && is_by_the_options(log, receipts, told.load(Ordering::SeqCst))
    })
}

#[test]
fn four_workers_obey_their_options(rt: HostRuntime) -> Result<(), Fail> {
    let alloc = rt.alloc();
    let counts = Counts::new(alloc)?;
    let gate = Both {
        first: OneAtATime::new(),
        second: Tally::new(),
    };
    let built = built_by(&rt, alloc, &counts, &gate)?;
    let tally = &gate.second;
    assert!(rt;
        gate.first.was_met()
            & tally.is_of_workers(&built, 4)
            & are_by_the_options(&built, &counts, tally)
    );
    Ok(())
}
