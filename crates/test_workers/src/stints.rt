use crate::costs::are_least;
use crate::kit::{Keys, ONE, TWO, grid, row, tie};
use crate::stations::{Both, Tally, Trail};
use crate::traces::{Traces, built_by};
use ch_contract::Contraction;
use ch_graph::Graph;
use ch_workers::{Gate, Options, Point};
use std::alloc::{AllocError, Global};
use std::sync::atomic::{AtomicU64, Ordering};
use std::sync::{Arc, Wait};
use std::test::Fail;
use std::thread::Threads;

/// Writes down how many estimators were dropped at each point that a single worker passes, as octal digits.
#[derive(Drop)]
struct Drops {
    traces: Arc<Traces>,
    digits: AtomicU64,
}

impl Gate for Drops {
    fn pass(&self, _worker: u32, _point: Point) {
        let digits = self.digits.load(Ordering::SeqCst);
        let more = digits.wrapping_mul(8).wrapping_add(self.traces.dropped());
        self.digits.store(more, Ordering::SeqCst);
    }
}

/// Whether an entry is this one.
fn is_entry(entry: Option<&Contraction>, node: u32, neighbours: &[u32], shortcuts: u64) -> bool {
    match entry {
        Some(entry) => {
            (entry.node == node)
                & (entry.neighbours.as_slice() == neighbours)
                & (entry.shortcuts == shortcuts)
        }
        None => false,
    }
}

impl Drops {
    /// Nothing was dropped yet of what leaves these traces.
    fn of(traces: &Arc<Traces>) -> Result<Drops, AllocError> {
        Ok(Drops {
            traces: Arc::try_clone(traces)?,
            digits: AtomicU64::new(0),
        })
    }

    /// The digits, the last point in the last place.
    fn digits(&self) -> u64 {
        self.digits.load(Ordering::SeqCst)
    }
}

/// Whether the first two entries are those of the row of three nodes.
fn are_of_the_row(log: &[Contraction]) -> bool {
    is_entry(log.first(), 0, &[1, 2], 1) & is_entry(log.get(1), 1, &[2], 0)
}

/// Whether the row is contracted in stints of one commit, as far as a trail and what was dropped at each point say.
fn is_by_one_each<R: Threads + Wait + Sync>(
    rt: &R,
    alloc: Global,
    traces: &Arc<Traces>,
    gate: &Both<Trail, Drops>,
) -> Result<bool, Fail> {
    let options = Options {
        turns: Options::PLAIN.turns,
        defer: 0,
        stint: 1,
        ..ONE
    };
    let built = built_by(rt, alloc, row(alloc)?, options, Keys::Least, traces, gate)??;
    let log = built.log.as_slice();
    let are_digits = (gate.first.digits() == 0o123_123_123_5)
        & (gate.second.digits() == 0o111_111_2);
    Ok(traces.are_told(rt, log, &[0, 2]) & are_of_the_row(log) & are_digits)
}

// The row of three nodes: 1 to 0, and 0 to 2. The first estimator is used until its first commit and receives nothing;
// the second receives the two entries that the log has when the worker takes the last node.
#[test]
fn a_stint_of_one_commit(rt: HostRuntime) -> Result<(), Fail> {
    let traces = Traces::new(rt.alloc(), 1, 2)?;
    let gate = Both {
        first: Trail::new(),
        second: Drops::of(&traces)?,
    };
    assert!(rt; is_by_one_each(&rt, rt.alloc(), &traces, &gate)?);
    Ok(())
}

/// Whether the tie is contracted in stints of two commits, as far as what was dropped at each point says.
fn is_by_two_each<R: Threads + Wait + Sync>(
    rt: &R,
    alloc: Global,
    traces: &Arc<Traces>,
    gate: &Drops,
) -> Result<bool, Fail> {
    let options = Options {
        defer: 0,
        stint: 2,
        ..ONE
    };
    let built = built_by(rt, alloc, tie(alloc)?, options, Keys::Least, traces, gate)??;
    let are_told = traces.are_told(rt, built.log.as_slice(), &[1, 3, 0]);
    Ok(are_told & (gate.digits() == 0o000_000_111_111_3))
}

// The tie of four nodes, whose contractions leave no shortcuts but one: the estimators change behind every second commit.
#[test]
fn a_stint_of_two_commits(rt: HostRuntime) -> Result<(), Fail> {
    let traces = Traces::new(rt.alloc(), 1, 3)?;
    let gate = Drops::of(&traces)?;
    assert!(rt; is_by_two_each(&rt, rt.alloc(), &traces, &gate)?);
    Ok(())
}

/// Whether this many workers of three estimators each, who use the next after each commit, contract a graph whole: each
/// has the receipts of its commits, nothing is left to the sweep, each estimator received a first part of the log and
/// dropped once, and all costs are those of the same graph.
fn do_all<R: Threads + Wait + Sync>(
    rt: &R,
    alloc: Global,
    graph: Graph,
    same: &Graph,
    workers: u32,
    keys: Keys,
) -> Result<bool, Fail> {
    let traces = Traces::new(alloc, workers as usize, 3)?;
    let options = Options {
        workers,
        stint: 1,
        ..TWO
    };
    let tally = Tally::new();
    let built = built_by(rt, alloc, graph, options, keys, &traces, &tally)??;
    let holds = tally.is_of(&built) & traces.are_told(rt, built.log.as_slice(), &[]);
    Ok(holds & are_least(alloc, same, &built.hierarchy)?)
}

/// Whether they contract the grid whole.
fn do_grids<R: Threads + Wait + Sync>(
    rt: &R,
    alloc: Global,
    workers: u32,
    keys: Keys,
) -> Result<bool, Fail> {
    let same = grid(alloc)?;
    do_all(rt, alloc, grid(alloc)?, &same, workers, keys)
}

/// Whether they contract the tie whole.
fn do_ties<R: Threads + Wait + Sync>(
    rt: &R,
    alloc: Global,
    workers: u32,
    keys: Keys,
) -> Result<bool, Fail> {
    let same = tie(alloc)?;
    do_all(rt, alloc, tie(alloc)?, &same, workers, keys)
}

/// Whether each of these numbers of workers contracts both whole, with its keys.
fn all_do_both<R: Threads + Wait + Sync>(
    rt: &R,
    alloc: Global,
    throngs: &[(u32, Keys)],
) -> Result<bool, Fail> {
    let mut holds = true;
    'throngs: for (workers, keys) in throngs {
        holds &= do_grids(rt, alloc, *workers, *keys)? & do_ties(rt, alloc, *workers, *keys)?;
    }
    Ok(holds)
}

/// Numbers of workers, and their keys.
const THRONGS: &[(u32, Keys)] = &[
    (0, Keys::Greatest),
    (1, Keys::Greatest),
    (2, Keys::Greatest),
    (8, Keys::Greatest),
    (0, Keys::Drawn(7)),
    (1, Keys::Drawn(7)),
    (2, Keys::Drawn(7)),
    (8, Keys::Drawn(7)),
];

#[test]
fn the_grid_and_the_tie_by_stints(rt: HostRuntime) -> Result<(), Fail> {
    assert!(rt; all_do_both(&rt, rt.alloc(), THRONGS)?);
    Ok(())
}

// Each of 64 workers has three estimators, so 192 leases are out.
#[test]
fn the_grid_by_64_workers(rt: HostRuntime) -> Result<(), Fail> {
    assert!(rt; do_grids(&rt, rt.alloc(), 64, Keys::Drawn(7))?);
    Ok(())
}
