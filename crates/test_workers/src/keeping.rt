//! What a worker keeps from one shift to the next: how many turns are left to it, whether it has put its nodes into the
//! queue, how far its estimators have come in the log, and for how long it uses the current one.
//!
//! The networks are of cliques, since in a clique each contraction weighs the same until few nodes are left, and shifts are
//! short. How many of them ended at least follows from the receipts and the log: a shift ends once what was committed in
//! it comes to the room.
use crate::cliques::{Course, are_receipts_from, cliques, is_log_of, shifts_of};
use crate::kit::{Keys, ONE, TWO};
use crate::stations::{Both, OneAtATime, Tally};
use crate::traces::{Traces, built_by};
use ch_workers::{Built, Gate, OpenGate, Options};
use std::alloc::{AllocError, Global};
use std::sync::Wait;
use std::test::Fail;
use std::thread::Threads;

/// Whether the log and the receipts of one worker and the sweep are those of a course.
fn is_by_course(alloc: Global, built: &Built, course: &Course) -> Result<bool, AllocError> {
    let [worker, sweep] = built.receipts.as_slice() else {
        return Ok(false);
    };
    let order = course.order.as_slice();
    let are_receipts = are_receipts_from(0, order, worker.as_slice())
        & are_receipts_from(course.own, order, sweep.as_slice());
    let is_log = is_log_of(alloc, built.log.as_slice(), order)?;
    Ok(is_log & are_receipts & (worker.len() == course.own))
}

/// Whether one worker does what it does by the rules on cliques of 100 nodes, node by node, and brings three shifts or more
/// to an end; its three estimators receive what they are to receive by the rules.
fn goes_by_the_rules<R: Threads + Wait + Sync>(
    rt: &R,
    alloc: Global,
    options: Options,
    keys: Keys,
) -> Result<bool, Fail> {
    let traces = Traces::new(alloc, 1, 3)?;
    let tally = Tally::new();
    let graph = cliques(alloc, 100)?;
    let built = built_by(rt, alloc, graph, options, keys, &traces, &tally)??;
    is_of_course(rt, alloc, &traces, &tally, &built, keys, options)
}

/// Whether what was built and heard, and the tally, are those of a course.
fn is_of_course<R: Wait>(
    rt: &R,
    alloc: Global,
    traces: &Traces,
    tally: &Tally,
    built: &Built,
    keys: Keys,
    options: Options,
) -> Result<bool, Fail> {
    let course = Course::new(alloc, 100, options, keys)?;
    let is_tally = (tally.took(0) == course.took)
        & (tally.took(0) <= options.turns)
        & tally.is_of_workers(built, 1);
    let are_told = traces.are_told(rt, built.log.as_slice(), course.told.as_slice());
    Ok(is_by_course(alloc, built, &course)? & is_tally & are_told & (shifts_of(built) >= 3))
}

/// Deferrals, turns and commits by one estimator, as options have them, and keys.
type Rule = (u32, u64, u64, Keys);

const RULES: &[Rule] = &[
    (3, 300, 20, Keys::Drawn(7)),
    (3, 300, 20, Keys::Differences),
    (2, 1 << 32, 40, Keys::Drawn(1)),
    (0, 60, 17, Keys::Drawn(2)),
    (0, 1 << 32, 1 << 40, Keys::Drawn(3)),
];

/// Whether one worker does what it does by the rules with each of these.
fn all_go_by_the_rules<R: Threads + Wait + Sync>(
    rt: &R,
    alloc: Global,
    rules: &[Rule],
) -> Result<bool, Fail> {
    let mut holds = true;
    'rules: for (defer, turns, stint, keys) in rules {
        let options = Options {
            defer: *defer,
            turns: *turns,
            stint: *stint,
            ..ONE
        };
        holds &= goes_by_the_rules(rt, alloc, options, *keys)?;
    }
    Ok(holds)
}

// By drawn keys a node is mostly put back as often as it may before one is committed; a key of the edge difference rises
// with each commit in the node's clique.
#[test]
fn one_worker_goes_by_the_rules(rt: HostRuntime) -> Result<(), Fail> {
    assert!(rt; all_go_by_the_rules(&rt, rt.alloc(), RULES)?);
    Ok(())
}

/// Whether each of two workers has this many receipts.
fn are_both(built: &Built, receipts: usize) -> bool {
    let [first, second, _] = built.receipts.as_slice() else {
        return false;
    };
    (first.len() == receipts) & (second.len() == receipts)
}

/// Whether each estimator of two workers, who used the next after each 20 commits, received what was committed
/// before its last turn: all but the last of its worker's commits so far, at least.
fn have_heard<R: Wait>(rt: &R, traces: &Traces) -> bool {
    let mut holds = true;
    'numbers: for number in 0..6usize {
        let commits = (number % 3).wrapping_add(1).wrapping_mul(20);
        holds &= traces.told(rt, number) >= commits.saturating_sub(1);
    }
    holds
}

/// Whether two workers of three estimators each build by these options, with such keys, cliques of 200 nodes in three
/// shifts or more. Nobody is put back, and the estimators receive what they are to receive: those of 60 turns each, if
/// there are as many, what was committed in their stints.
fn build_cliques<G: Gate, R: Threads + Wait + Sync>(
    rt: &R,
    alloc: Global,
    turns: u64,
    keys: Keys,
    gate: &Both<G, Tally>,
) -> Result<bool, Fail> {
    let traces = Traces::new(alloc, 2, 3)?;
    let options = Options {
        defer: 0,
        turns,
        stint: 20,
        ..TWO
    };
    let graph = cliques(alloc, 200)?;
    let built = built_by(rt, alloc, graph, options, keys, &traces, gate)??;
    let are_told = traces.are_told(rt, built.log.as_slice(), &[]);
    let is_as_wanted = if turns == 60 {
        are_sixty(&gate.second, &built) & have_heard(rt, &traces)
    } else {
        are_once(&gate.second, &built)
    };
    Ok(are_told & is_as_wanted & (shifts_of(&built) >= 3))
}

/// Whether each of two workers took 60 items, and has as many receipts.
fn are_sixty(tally: &Tally, built: &Built) -> bool {
    tally.is_of_workers(built, 2)
        & (tally.took(0) == 60)
        & (tally.took(1) == 60)
        & are_both(built, 60)
}

/// Whether two workers contracted all of 200 nodes, and took each item once, and again where its proposal was refused.
fn are_once(tally: &Tally, built: &Built) -> bool {
    let took = tally.took(0).wrapping_add(tally.took(1));
    let refused = tally.refused(0).wrapping_add(tally.refused(1));
    tally.is_of(built) & (took == refused.wrapping_add(200))
}

// Each turn is a commit, since nobody is put back and one works at a time. So after 60 turns each worker has 60 receipts,
// in three shifts or more, and has come to the third of its estimators; 80 nodes are left to the sweep.
#[test]
fn two_workers_of_sixty_turns(rt: HostRuntime) -> Result<(), Fail> {
    let gate = Both {
        first: OneAtATime::new(),
        second: Tally::new(),
    };
    let holds = build_cliques(&rt, rt.alloc(), 60, Keys::Drawn(5), &gate)?;
    assert!(rt; holds & gate.first.was_met());
    Ok(())
}

// Each node is put into the queue once, and again where its proposal was refused: this many items are taken. The 200
// nodes weigh more than four times the room.
#[test]
fn two_workers_take_each_node_once(rt: HostRuntime) -> Result<(), Fail> {
    let gate = Both {
        first: OpenGate,
        second: Tally::new(),
    };
    assert!(rt; build_cliques(&rt, rt.alloc(), TWO.turns, Keys::Drawn(9), &gate)?);
    Ok(())
}
