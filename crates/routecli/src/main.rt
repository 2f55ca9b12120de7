//! The program `routecli`: prepares hierarchies of road graphs, checks them, and answers pairs of nodes with shortest
//! paths.
//!
//! Uses `command_line`, which turns the program's arguments into a [`Job`], `performing`, which does it over readers
//! and writers, `outcomes`, by which it ends, `whole_file`, by which the file of a hierarchy is whole or not there, and
//! `terminal`, which shows how far a preparation has come and helps a user whose call was refused. `main` opens the files.
#![tactic(auto)]

ghost use Rattle.std.specs.Prelude.{IfErr, IfOk, IfSome};
ghost use Rattle.outcomes.specs.Outcomes.{status_after};
ghost use Rattle.performing.specs.Status.{IsAnsweringStatus, IsCheckingStatus, IsInformingStatus, IsPreparingStatus, IsRenewingStatus, IsRoutingStatus};
ghost use Rattle.routecli.specs.Opening.{IsUnopened};

use ch_check::{Unwatched, Watch};
use ch_workers::{Gate, OpenGate};
use command_line::command;
use jobs::{Check, Job, Preparation, Renewal, Stop, show_stop};
use outcomes::{Cause, Ending, Input, WriteFault};
use performing::{
    perform_answer, perform_check, perform_info, perform_joined, perform_route, prepare_whole,
    refuse_unwritable, renew_whole,
};
use std::env::{Env, FillError};
use std::io::{ErrorKind, IsTerminal};
use std::process::ExitCode;
use std::rt::{Files, Stderr};
use std::sync::Wait;
use std::thread::Threads;
use std::time::Clock;
use std::{env, fs, io};
use terminal::{Cleared, Ended, Failure, Kept, Meter, Watched, conclude, warn_of, write_end};
use whole_file::{OutFile, is_one_file, obstacle};

/// The environment variable that asks for explanations everywhere.
const EXPLAIN: &str = "ROUTECLI_EXPLAIN";

fn main(rt: HostRuntime) -> ExitCode {
    let mut out = rt.stdout();
    let mut err = rt.stderr();
    let words = match words(&rt) {
        Ok(words) => words,
        Err(why) => return ExitCode::from(show_stop(&why, &mut out, &mut err)),
    };
    let call = match command(rt.alloc(), words.as_slice()) {
        Ok(call) => call,
        Err(why) => return ExitCode::from(show_stop(&why, &mut out, &mut err)),
    };
    let explains = call.explain || err.is_terminal() || is_asked(&rt, EXPLAIN);
    if explains {
        warn_of(&rt, &call.job, &mut err);
    }
    if would_be_one(&rt, &call.job) {
        return ExitCode::from(show_stop(&Stop::OneFile, &mut out, &mut err));
    }
    let mut input = Kept::new("standard input", rt.stdin());
    let mut out = Kept::new("standard output", out);
    let done = match perform(&rt, &call.job, &mut input, &mut out, err) {
        Ok(ended) => ended,
        Err(ended) => ended,
    };
    let failure = done.failure.or(input.failure()).or(out.failure());
    let ended = Ended { failure, ..done };
    let is_silent = err.is_terminal() && is_broken_pipe(out.failure());
    let status = conclude(&rt, &call.job, &ended, explains, is_silent, &mut err);
    ExitCode::from(status)
}

// Whether this environment variable is set, and neither empty nor 0.
fn is_asked<R: Env>(rt: &R, name: &str) -> bool {
    let mut value = [0u8; 2];
    match rt.var(name, &mut value) {
        Ok(length) => length > 1 || length == 1 && value[0] != b'0',
        Err(FillError::TooLong) => true,
        Err(FillError::NotPresent) => false,
    }
}

// Whether a write failed since its reader has closed the pipe: it has seen enough, and needs no message at a terminal.
fn is_broken_pipe(failure: Option<Failure<'_>>) -> bool {
    match failure {
        Some(failure) => failure.error.kind() == ErrorKind::BrokenPipe,
        None => false,
    }
}

// Whether the file of a hierarchy would be made in place of its graph.
fn would_be_one<R: Files>(rt: &R, job: &Job<'_>) -> bool {
    match job {
        Job::Prepare(preparation) => is_one_file(rt, preparation.graph, preparation.out),
        Job::Renew(renewal) => is_one_file(rt, renewal.graph, renewal.out),
        _ => false,
    }
}

// Does the job, or says which file can't be opened.
fn perform<'a, R: Files + AllocGlobal + Clock + Threads + Wait + Sync, Q: io::Read, W: io::Write>(
    rt: &R,
    job: &Job<'a>,
    input: &mut Q,
    out: &mut W,
    terminal: Stderr,
) -> Result<Ended<'a>, Ended<'a>> {
    match *job {
        Job::Answer { .. } if job.is_joined() => Ok(Ended {
            outcome: perform_joined(rt, rt.alloc(), input, out),
            failure: None,
        }),
        Job::Answer { graph, queries } => answer(rt, graph, queries, out),
        Job::Route { hierarchy, queries } => route(rt, hierarchy, queries, out),
        Job::Info { hierarchy } => info(rt, hierarchy, out),
        Job::Check(check) => self::check(rt, &check, out, terminal),
        Job::Prepare(preparation) => prepare(rt, &preparation, terminal),
        Job::Renew(renewal) => renew(rt, &renewal, out, terminal),
    }
}

// Answers the pairs of one file over the graph of another.
fn answer<'a, R: Files + AllocGlobal + Threads + Wait + Sync, W: io::Write>(
    rt: &R,
    graph: &'a str,
    queries: &'a str,
    out: &mut W,
) -> Result<Ended<'a>, Ended<'a>>
    ensures done { IfOk result (λ ended. IsAnsweringStatus (status_after ended.outcome)) }
    ensures unopened { IfErr result IsUnopened }
{
    let first = open(rt, Input::Graph, graph);
    let second = open(rt, Input::Queries, queries);
    let (mut first, mut second) = (first?, second?);
    Ok(Ended {
        outcome: perform_answer(rt, rt.alloc(), &mut first, &mut second, out),
        failure: first.failure().or(second.failure()),
    })
}

// Answers the pairs of one file by the hierarchy of another.
fn route<'a, R: Files + AllocGlobal, W: io::Write>(
    rt: &R,
    hierarchy: &'a str,
    queries: &'a str,
    out: &mut W,
) -> Result<Ended<'a>, Ended<'a>>
    ensures done { IfOk result (λ ended. IsRoutingStatus (status_after ended.outcome)) }
    ensures unopened { IfErr result IsUnopened }
{
    let first = open(rt, Input::Hierarchy, hierarchy);
    let second = open(rt, Input::Queries, queries);
    let (mut first, mut second) = (first?, second?);
    Ok(Ended {
        outcome: perform_route(rt.alloc(), &mut first, &mut second, out),
        failure: first.failure().or(second.failure()),
    })
}

// Prints what the hierarchy of a file has.
fn info<'a, R: Files + AllocGlobal, W: io::Write>(
    rt: &R,
    hierarchy: &'a str,
    out: &mut W,
) -> Result<Ended<'a>, Ended<'a>>
    ensures done { IfOk result (λ ended. IsInformingStatus (status_after ended.outcome)) }
    ensures unopened { IfErr result IsUnopened }
{
    let mut file = open(rt, Input::Hierarchy, hierarchy)?;
    Ok(Ended {
        outcome: perform_info(rt.alloc(), &mut file, out),
        failure: file.failure(),
    })
}

// Checks the hierarchy of one file against the graph of another.
fn check<'a, R: Files + AllocGlobal + Clock, W: io::Write>(
    rt: &R,
    check: &Check<'a>,
    out: &mut W,
    terminal: Stderr,
) -> Result<Ended<'a>, Ended<'a>>
    ensures done { IfOk result (λ ended. IsCheckingStatus (status_after ended.outcome)) }
    ensures unopened { IfErr result IsUnopened }
{
    let first = open(rt, Input::Graph, check.graph);
    let second = open(rt, Input::Hierarchy, check.hierarchy);
    let (mut first, mut second) = (first?, second?);
    Ok(Ended {
        outcome: check_files(rt, check.progress, &mut first, &mut second, out, terminal),
        failure: first.failure().or(second.failure()),
    })
}

// Checks a hierarchy's file against a graph's text, and shows how far it has come if standard error is a terminal.
fn check_files<R: AllocGlobal + Clock, G: io::Read + Drop, H: io::Read, W: io::Write>(
    rt: &R,
    is_asked: bool,
    graph: &mut G,
    hierarchy: &mut H,
    out: &mut W,
    terminal: Stderr,
) -> Ending
    ensures { IsCheckingStatus (status_after result) }
{
    if terminal.is_terminal() {
        if let Ok(meter) = Meter::new(rt, terminal, is_asked) {
            let mut graph = Watched::new(graph, &meter);
            let mut out = Cleared::new(&meter, out);
            let outcome = perform_check(rt.alloc(), &mut graph, hierarchy, &mut out, &meter);
            meter.clear();
            return outcome;
        }
    }
    perform_check(rt.alloc(), graph, hierarchy, out, &Unwatched)
}

// Prepares a hierarchy, and shows how far it has come if standard error is a terminal.
fn prepare<'a, R: Files + AllocGlobal + Clock + Threads + Wait + Sync>(
    rt: &R,
    preparation: &Preparation<'a>,
    terminal: Stderr,
) -> Result<Ended<'a>, Ended<'a>>
    ensures done { IfOk result (λ ended. IsPreparingStatus (status_after ended.outcome)) }
    ensures unopened { IfErr result IsUnopened }
{
    let mut graph = open(rt, Input::Graph, preparation.graph)?;
    let ended = prepare_of(rt, preparation, &mut graph, terminal);
    Ok(Ended {
        outcome: ended.outcome,
        failure: ended.failure.or(graph.failure()),
    })
}

// Prepares a hierarchy of a graph's text. At a terminal a meter shows how far it has come, and at the end what was made, if
// that is asked for.
fn prepare_of<'a, R: Files + AllocGlobal + Clock + Threads + Wait + Sync, G: io::Read + Drop>(
    rt: &R,
    preparation: &Preparation<'a>,
    graph: &mut G,
    terminal: Stderr,
) -> Ended<'a>
    ensures { IsPreparingStatus (status_after result.outcome) }
{
    if terminal.is_terminal() {
        if let Ok(meter) = Meter::new(rt, terminal, preparation.progress) {
            let mut graph = Watched::new(graph, &meter);
            let ended = prepare_file(rt, preparation, &mut graph, &meter);
            meter.clear();
            let (out, is_asked) = (preparation.out, preparation.progress);
            show_end(rt, out, is_asked, ended.outcome, &meter);
            return ended;
        }
    }
    prepare_file(rt, preparation, graph, &OpenGate)
}

// Shows what was made, if it was, and that is asked for.
fn show_end<R: Files + Clock>(
    rt: &R,
    out: &str,
    is_asked: bool,
    outcome: Ending,
    meter: &Meter<'_, R>,
) {
    if !is_asked || outcome != Ending::Done {
        return;
    }
    if let Ok(made) = fs::metadata(rt, out) {
        let (nodes, millis) = (meter.announced(), meter.millis());
        write_end(&mut meter.terminal(), out, made.len(), nodes, millis);
    }
}

// Prepares a hierarchy of a graph's text, and makes its file. If no file can be made there, nothing is built.
fn prepare_file<'a, R: Files + AllocGlobal + Threads + Wait + Sync, G: io::Read, P: Gate>(
    rt: &R,
    preparation: &Preparation<'a>,
    graph: &mut G,
    gate: &P,
) -> Ended<'a>
    ensures { IsPreparingStatus (status_after result.outcome) }
{
    if let Some(ended) = ended_by_obstacle(rt, preparation.out, graph) {
        return ended;
    }
    let mut destination = OutFile::new(rt, preparation.out);
    let outcome = prepare_whole(rt, rt.alloc(), preparation, graph, &mut destination, gate);
    Ended {
        outcome,
        failure: Failure::of(preparation.out, destination.failure()),
    }
}

// Makes the hierarchy of a graph in the order of an old one. Where that has other nodes, it prints so.
fn renew<'a, R: Files + AllocGlobal + Clock, W: io::Write>(
    rt: &R,
    renewal: &Renewal<'a>,
    out: &mut W,
    terminal: Stderr,
) -> Result<Ended<'a>, Ended<'a>>
    ensures done { IfOk result (λ ended. IsRenewingStatus (status_after ended.outcome)) }
    ensures unopened { IfErr result IsUnopened }
{
    let first = open(rt, Input::Graph, renewal.graph);
    let second = open(rt, Input::Hierarchy, renewal.old);
    let (mut first, mut second) = (first?, second?);
    let ended = renew_of(rt, renewal, &mut first, &mut second, terminal);
    Ok(Ended {
        outcome: tell_other_nodes(ended.outcome, out),
        failure: ended.failure.or(first.failure()).or(second.failure()),
    })
}

// Prints the verdict of a renewal whose old hierarchy has other nodes. Returns how the job ends: refused, if that can't be printed.
fn tell_other_nodes<W: io::Write>(outcome: Ending, out: &mut W) -> Ending
    requires { IsRenewingStatus (status_after outcome) }
    ensures { IsRenewingStatus (status_after result) }
{
    if outcome == Ending::Wrong && out.write_all(b"wrong: nodes\n").is_err() {
        return Ending::Refused(Cause::Write(WriteFault { written: 0 }));
    }
    outcome
}

// Makes it of a graph's text and an old file. At a terminal a meter shows how far it has come, and at the end what was
// made, if that is asked for.
fn renew_of<'a, R: Files + AllocGlobal + Clock, G: io::Read + Drop, H: io::Read>(
    rt: &R,
    renewal: &Renewal<'a>,
    graph: &mut G,
    old: &mut H,
    terminal: Stderr,
) -> Ended<'a>
    ensures { IsRenewingStatus (status_after result.outcome) }
{
    if terminal.is_terminal() {
        if let Ok(meter) = Meter::new(rt, terminal, renewal.progress) {
            let mut graph = Watched::new(graph, &meter);
            let ended = renew_file(rt, renewal.out, &mut graph, old, &meter);
            meter.clear();
            show_end(rt, renewal.out, renewal.progress, ended.outcome, &meter);
            return ended;
        }
    }
    renew_file(rt, renewal.out, graph, old, &Unwatched)
}

// Makes it, and its file. If no file can be made there, nothing is built.
fn renew_file<'a, R: Files + AllocGlobal, G: io::Read, H: io::Read, V: Watch>(
    rt: &R,
    out: &'a str,
    graph: &mut G,
    old: &mut H,
    watch: &V,
) -> Ended<'a>
    ensures { IsRenewingStatus (status_after result.outcome) }
{
    if let Some(ended) = ended_by_obstacle(rt, out, graph) {
        return ended;
    }
    let mut destination = OutFile::new(rt, out);
    let outcome = renew_whole(rt.alloc(), graph, old, &mut destination, watch);
    Ended {
        outcome,
        failure: Failure::of(out, destination.failure()),
    }
}

// How a job ends whose file can't be made there: by the fault of its graph's text, if that has one, and else by the obstacle.
fn ended_by_obstacle<'a, R: Files + AllocGlobal, G: io::Read>(
    rt: &R,
    out: &'a str,
    graph: &mut G,
) -> Option<Ended<'a>>
    ensures preparing { IfSome result (λ ended. IsPreparingStatus (status_after ended.outcome)) }
    ensures renewing { IfSome result (λ ended. IsRenewingStatus (status_after ended.outcome)) }
{
    let (name, error) = obstacle(rt, out)?;
    let outcome = refuse_unwritable(rt.alloc(), graph);
    let failure = match outcome {
        Ending::Refused(Cause::Write(_)) => Some(Failure { name, error }),
        _ => None,
    };
    Some(Ended { outcome, failure })
}

// The arguments of the command line, the program's name first.
fn words<R: Env + AllocGlobal>(rt: &R) -> Result<Vec<String>, Stop> {
    match env::args(rt) {
        Ok(words) => words.collect(rt.alloc()).map_err(|_| Stop::OutOfMemory),
        Err(error) if error.kind() == ErrorKind::OutOfMemory => Err(Stop::OutOfMemory),
        Err(_) => Err(Stop::NotText),
    }
}

// Opens an input.
fn open<'a, R: Files>(rt: &R, input: Input, name: &'a str) -> Result<Kept<'a, R::File>, Ended<'a>>
    ensures { IfErr result IsUnopened }
{
    match fs::open(rt, name) {
        Ok(file) => Ok(Kept::new(name, file)),
        Err(error) if error.kind() == ErrorKind::OutOfMemory => Err(Ended {
            outcome: Ending::Refused(Cause::Memory),
            failure: None,
        }),
        Err(error) => Err(Ended {
            outcome: Ending::Refused(Cause::Read(input)),
            failure: Some(Failure { name, error }),
        }),
    }
}
