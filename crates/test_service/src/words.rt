//! Command lines that name a job, and what is shown where memory runs out. `tests/program/small` has those that are refused
//! or ask for help.
use command_line::command;
use jobs::{Check, Job, Order, Preparation, Renewal, Stint, Stop, Workers, show_stop};
use std::alloc::{AllocError, Global};
use std::test::Fail;

/// The arguments of a command line, none of which has a blank.
fn words(alloc: Global, line: &str) -> Result<Vec<String>, AllocError> {
    let mut words = Vec::new(alloc);
    for word in line.split_ascii_whitespace() {
        words.push(String::from_str(alloc, word)?)?;
    }
    Ok(words)
}

/// A command line that names a job, the job, and whether both texts of it come from standard input.
type Named = (&'static str, Job<'static>, bool);

/// Jobs without options.
const NAMED: [Named; 9] = [
    (
        "routecli answer a.gr b.p2p",
        Job::Answer {
            graph: "a.gr",
            queries: "b.p2p",
        },
        false,
    ),
    (
        "routecli answer - b.p2p",
        Job::Answer {
            graph: "-",
            queries: "b.p2p",
        },
        false,
    ),
    (
        "routecli answer a.gr -",
        Job::Answer {
            graph: "a.gr",
            queries: "-",
        },
        false,
    ),
    (
        "routecli answer - -",
        Job::Answer {
            graph: "-",
            queries: "-",
        },
        true,
    ),
    (
        "routecli route - -",
        Job::Route {
            hierarchy: "-",
            queries: "-",
        },
        false,
    ),
    (
        "routecli info a.rch",
        Job::Info { hierarchy: "a.rch" },
        false,
    ),
    (
        "routecli check a.gr a.rch",
        Job::Check(Check {
            graph: "a.gr",
            hierarchy: "a.rch",
            progress: false,
        }),
        false,
    ),
    (
        "routecli check - --progress -",
        Job::Check(Check {
            graph: "-",
            hierarchy: "-",
            progress: true,
        }),
        false,
    ),
    (
        "routecli renew a.rch b.gr --progress b.rch",
        Job::Renew(Renewal {
            old: "a.rch",
            graph: "b.gr",
            out: "b.rch",
            progress: true,
        }),
        false,
    ),
];

/// A command line, and what it chooses.
#[derive(Clone, Copy)]
struct Chosen {
    line: &'static str,
    workers: Option<u32>,
    seed: u64,
    order: Order,
    stint: Option<u64>,
    progress: bool,
}

const CHOSEN: [Chosen; 12] = [
    Chosen {
        line: "routecli prepare a.gr a.rch",
        workers: Some(4),
        seed: 1,
        order: Order::Edges,
        stint: None,
        progress: false,
    },
    Chosen {
        line: "routecli prepare --workers 0 --seed 0 --order neighbours a.gr a.rch",
        workers: Some(0),
        seed: 0,
        order: Order::Neighbours,
        stint: None,
        progress: false,
    },
    Chosen {
        line: "routecli prepare a.gr a.rch --order depth --seed 18446744073709551615 --workers 64",
        workers: Some(64),
        seed: 18_446_744_073_709_551_615,
        order: Order::Depth,
        stint: None,
        progress: false,
    },
    Chosen {
        line: "routecli prepare --order=edges a.gr --workers=1 a.rch --seed=7",
        workers: Some(1),
        seed: 7,
        order: Order::Edges,
        stint: None,
        progress: false,
    },
    Chosen {
        line: "routecli prepare a.gr --sequential a.rch --seed 3",
        workers: None,
        seed: 3,
        order: Order::Edges,
        stint: None,
        progress: false,
    },
    Chosen {
        line: "routecli prepare --workers 63 a.gr a.rch",
        workers: Some(63),
        seed: 1,
        order: Order::Edges,
        stint: None,
        progress: false,
    },
    Chosen {
        line: "routecli prepare a.gr --seed 12 a.rch",
        workers: Some(4),
        seed: 12,
        order: Order::Edges,
        stint: None,
        progress: false,
    },
    Chosen {
        line: "routecli prepare a.gr a.rch --order balanced",
        workers: Some(4),
        seed: 1,
        order: Order::Balanced,
        stint: None,
        progress: false,
    },
    Chosen {
        line: "routecli prepare --stint 1 a.gr a.rch",
        workers: Some(4),
        seed: 1,
        order: Order::Edges,
        stint: Some(1),
        progress: false,
    },
    Chosen {
        line: "routecli prepare a.gr --stint=1099511627776 --order neighbours a.rch",
        workers: Some(4),
        seed: 1,
        order: Order::Neighbours,
        stint: Some(1_099_511_627_776),
        progress: false,
    },
    Chosen {
        line: "routecli prepare --workers 2 a.gr a.rch --stint 0001000",
        workers: Some(2),
        seed: 1,
        order: Order::Edges,
        stint: Some(1_000),
        progress: false,
    },
    Chosen {
        line: "routecli prepare --progress a.gr a.rch",
        workers: Some(4),
        seed: 1,
        order: Order::Edges,
        stint: None,
        progress: true,
    },
];

/// The job that is chosen.
fn job_of(chosen: &Chosen) -> Option<Job<'static>> {
    let stint = match chosen.stint {
        Some(commits) => Some(Stint::new(commits)?),
        None => None,
    };
    let workers = match chosen.workers {
        Some(count) => Some(Workers::new(count)?),
        None => None,
    };
    Some(Job::Prepare(Preparation {
        graph: "a.gr",
        out: "a.rch",
        workers,
        seed: chosen.seed,
        order: chosen.order,
        stint,
        progress: chosen.progress,
    }))
}

/// Whether a command line names this job, and both texts of it come from standard input as it is said.
fn names(alloc: Global, line: &str, job: Option<Job<'_>>, is_joined: bool) -> Result<bool, Fail> {
    let words = words(alloc, line)?;
    let named = command(alloc, words.as_slice()).ok().ok_or("a job")?;
    Ok((named.job.is_joined() == is_joined) & (Some(named.job) == job) & !named.explain)
}

/// Command lines of each command that ask for explanations.
const EXPLAINED: [&str; 6] = [
    "routecli answer --explain a.gr b.p2p",
    "routecli prepare a.gr --explain a.rch",
    "routecli prepare --progress a.gr a.rch --explain",
    "routecli route a.rch b.p2p --explain",
    "routecli info a.rch --explain",
    "routecli check a.gr --explain a.rch",
];

/// Whether a command line asks for explanations.
fn explains(alloc: Global, line: &str) -> Result<bool, Fail> {
    let words = words(alloc, line)?;
    let named = command(alloc, words.as_slice()).ok().ok_or("a job")?;
    Ok(named.explain)
}

/// Whether each of these asks for explanations.
fn are_explained(alloc: Global, lines: &[&str]) -> Result<bool, Fail> {
    for line in lines {
        if !explains(alloc, line)? {
            return Ok(false);
        }
    }
    Ok(true)
}

#[test]
fn arguments_that_ask_for_explanations(rt: HostRuntime) -> Result<(), Fail> {
    assert!(rt; are_explained(rt.alloc(), &EXPLAINED)?);
    Ok(())
}

/// Whether each of these names its job.
fn are_named(alloc: Global, cases: &[Named]) -> Result<bool, Fail> {
    for (line, job, is_joined) in cases {
        if !names(alloc, line, Some(*job), *is_joined)? {
            return Ok(false);
        }
    }
    Ok(true)
}

/// Whether each of these chooses as it is said.
fn are_chosen(alloc: Global, cases: &[Chosen]) -> Result<bool, Fail> {
    for chosen in cases {
        if !names(alloc, chosen.line, job_of(chosen), false)? {
            return Ok(false);
        }
    }
    Ok(true)
}

#[test]
fn arguments_that_name_a_job(rt: HostRuntime) -> Result<(), Fail> {
    assert!(rt; are_named(rt.alloc(), &NAMED)?);
    assert!(rt; are_chosen(rt.alloc(), &CHOSEN)?);
    Ok(())
}

/// Whether the user is shown this line alone, on standard error, with this status.
fn shows_line(alloc: Global, why: &Stop, status: u8, line: &[u8]) -> bool {
    let mut out = Vec::new(alloc);
    let mut err = Vec::new(alloc);
    let shown = show_stop(why, &mut out, &mut err);
    (shown == status) & out.is_empty() & (err.as_slice() == line)
}

#[test]
fn out_of_memory(rt: HostRuntime) {
    assert!(rt; shows_line(rt.alloc(), &Stop::OutOfMemory, 6, b"routecli: memory\n"));
}
