use crate::kit::{arc, empty_lists};
use ch_estimate::Leases;
use ch_workers::{BuildError, OpenGate, Options, build};
use std::alloc::Global;
use std::sync::Wait;
use std::test::Fail;
use std::thread::Threads;

/// Options that are good for two lists.
const GOOD: Options = Options {
    workers: 2,
    heaps: 2,
    seed: 7,
    settle: 500,
    defer: 10,
    turns: 1000,
    stint: 1000,
};

/// Options, a number of lists, and whether they are bad.
const LIMITS: &[(Options, u32, bool)] = &[
    (Options { workers: 0, ..GOOD }, 0, false),
    (
        Options {
            workers: 64,
            ..GOOD
        },
        64,
        false,
    ),
    (
        Options {
            workers: 65,
            ..GOOD
        },
        65,
        true,
    ),
    (Options { workers: 0, ..GOOD }, 1, true),
    (Options { workers: 2, ..GOOD }, 2, false),
    (Options { workers: 2, ..GOOD }, 1, true),
    (Options { workers: 2, ..GOOD }, 3, true),
    (Options { heaps: 0, ..GOOD }, 2, true),
    (Options { heaps: 1, ..GOOD }, 2, false),
    (Options { heaps: 4, ..GOOD }, 2, false),
    (Options { heaps: 5, ..GOOD }, 2, true),
    (Options { settle: 0, ..GOOD }, 2, true),
    (Options { settle: 1, ..GOOD }, 2, false),
    (
        Options {
            settle: 65_536,
            ..GOOD
        },
        2,
        false,
    ),
    (
        Options {
            settle: 65_537,
            ..GOOD
        },
        2,
        true,
    ),
    (Options { defer: 0, ..GOOD }, 2, false),
    (
        Options {
            defer: 65_535,
            ..GOOD
        },
        2,
        false,
    ),
    (
        Options {
            defer: 65_536,
            ..GOOD
        },
        2,
        true,
    ),
    (Options { turns: 0, ..GOOD }, 2, true),
    (Options { turns: 1, ..GOOD }, 2, false),
    (
        Options {
            turns: 1_099_511_627_776,
            ..GOOD
        },
        2,
        false,
    ),
    (
        Options {
            turns: 1_099_511_627_777,
            ..GOOD
        },
        2,
        true,
    ),
    (Options { stint: 0, ..GOOD }, 2, true),
    (Options { stint: 1, ..GOOD }, 2, false),
    (
        Options {
            stint: 1_099_511_627_776,
            ..GOOD
        },
        2,
        false,
    ),
    (
        Options {
            stint: 1_099_511_627_777,
            ..GOOD
        },
        2,
        true,
    ),
    (Options { seed: 0, ..GOOD }, 2, false),
    (
        Options {
            seed: u64::MAX,
            ..GOOD
        },
        2,
        false,
    ),
];

/// Whether these options are bad for these lists where they have to be.
fn are_limits(limits: &[(Options, u32, bool)]) -> bool {
    let mut holds = true;
    'limits: for (options, lists, want) in limits {
        holds &= options.are_bad(*lists as usize) == *want;
    }
    holds
}

#[test]
fn numbers_have_limits(rt: HostRuntime) {
    assert!(rt; are_limits(LIMITS));
}

/// Whether a build of one arc is refused by these options with this many empty lists.
fn is_refused<R: Threads + Wait + Sync>(
    rt: &R,
    alloc: Global,
    options: Options,
    lists: u32,
) -> Result<bool, Fail> {
    let mut leases = Leases::new(alloc)?;
    let lists = empty_lists(alloc, lists)?;
    let built = build(
        rt,
        alloc,
        arc(alloc)?,
        options,
        lists,
        &mut leases,
        &OpenGate,
    );
    Ok(matches!(built, Err(BuildError::BadOptions)))
}

/// Whether a build is refused by the options that are bad, and by no others.
fn builds_are_refused<R: Threads + Wait + Sync>(
    rt: &R,
    alloc: Global,
    limits: &[(Options, u32, bool)],
) -> Result<bool, Fail> {
    let mut holds = true;
    'limits: for (options, lists, want) in limits {
        holds &= is_refused(rt, alloc, *options, *lists)? == *want;
    }
    Ok(holds)
}

#[test]
fn bad_options_are_refused(rt: HostRuntime) -> Result<(), Fail> {
    assert!(rt; builds_are_refused(&rt, rt.alloc(), LIMITS)?);
    Ok(())
}

#[test]
fn plain_options(rt: HostRuntime) {
    let plain = Options {
        workers: 0,
        heaps: 2,
        seed: 1,
        settle: 64,
        defer: 16,
        turns: 4_294_967_296,
        stint: 1_099_511_627_776,
    };
    assert!(rt; Options::PLAIN == plain);
}
