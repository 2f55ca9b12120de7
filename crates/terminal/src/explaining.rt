use crate::fields::{field, number_of};
use crate::hints::{Text, hint};
use crate::look::{Look, head_of};
use crate::shown::Shown;
use crate::sorts::{file_of, text_of};
use grfile::GrError;
use hierfile::HierError;
use jobs::Job;
use outcomes::{Cause, Ending, Input};
use std::fs;
use std::io::{Error, Write};
use std::rt::Files;

/// What couldn't be opened, read, written or flushed, and why.
#[derive(Clone, Copy)]
pub struct Failure<'a> {
    /// Its name: a file, a folder, or standard input or output.
    pub name: &'a str,
    /// Why it failed.
    pub error: Error,
}

impl<'a> Failure<'a> {
    /// Returns the failure of what has this name, if it failed.
    pub fn of(name: &'a str, error: Option<Error>) -> Option<Failure<'a>> {
        let error = error?;
        Some(Failure { name, error })
    }
}

/// How a job ended, and what failed at it.
#[derive(Clone, Copy)]
pub struct Ended<'a> {
    /// How it ended.
    pub outcome: Ending,
    /// What failed, if something did.
    pub failure: Option<Failure<'a>>,
}

const NO_MEMORY: &str =
    "the system refused memory: is a limit set, or is the machine too small for this network?";

const NO_FILE: &str = "no file that prepare made";

/// Explains how a job ended, in some lines below the one that the program prints at a refusal.
///
/// The files of the job are read once more, if they are regular files. If nothing is known that would help, nothing is
/// written.
pub fn explain<R: Files + AllocGlobal, E: Write>(
    rt: &R,
    job: &Job<'_>,
    ended: &Ended<'_>,
    err: &mut E,
) {
    if let Some(what) = of_hierarchy(job, ended.outcome) {
        return explain_hierarchy(rt, job, what, err);
    }
    let Ending::Refused(cause) = ended.outcome else {
        return;
    };
    match cause {
        Cause::Graph(fault) => explain_text(rt, job, Input::Graph, fault, err),
        Cause::Queries(fault) => explain_text(rt, job, Input::Queries, fault, err),
        Cause::Hierarchy(_) => explain_magic(rt, job, err),
        Cause::Read(_) | Cause::Write(_) | Cause::Flush => explain_failure(ended.failure, err),
        Cause::Memory => {
            let _ = writeln!(err, "  {NO_MEMORY}");
        }
        _ => {}
    }
}

// What is said of the file of a hierarchy, behind its name, if it is at fault and begins as a hierarchy does.
fn of_hierarchy(job: &Job<'_>, outcome: Ending) -> Option<&'static str> {
    let cause = match outcome {
        Ending::Done => return None,
        Ending::Wrong if matches!(job, Job::Renew(_)) => return Some("has other nodes:"),
        Ending::Wrong => return Some("gives wrong answers: is it of another graph?"),
        Ending::NotShown => return Some("may be right or wrong:"),
        Ending::Refused(cause) => cause,
    };
    match cause {
        Cause::OldVersion => Some("is of version 1, which can't be checked:"),
        Cause::TooLong => Some("is the hierarchy of no graph:"),
        Cause::Hierarchy(HierError::BadMagic) => None,
        Cause::Hierarchy(HierError::Truncated) => Some("ends too early: copy it again, or"),
        Cause::Hierarchy(_) => Some("is damaged, or wasn't made by prepare: copy it again, or"),
        _ => None,
    }
}

// Says of the file of the hierarchy what this is, and what may be done. If it is cut, and announces how long it is, that is
// said too.
fn explain_hierarchy<R: Files + AllocGlobal, E: Write>(
    rt: &R,
    job: &Job<'_>,
    what: &str,
    err: &mut E,
) {
    let path = path_of(job, Input::Hierarchy).unwrap_or("the hierarchy");
    let graph = path_of(job, Input::Graph).unwrap_or("its graph");
    let _ = writeln!(err, "  {path} {what} prepare it again of {graph}");
    let head = head_of(rt, path);
    let (Ok(found), Some(wanted)) = (fs::metadata(rt, path), announced(head.as_slice())) else {
        return;
    };
    let have = found.len();
    if u128::from(have) < wanted {
        let _ = writeln!(err, "  it has {have} bytes: the first announce {wanted}");
    }
}

// Says what a file is that doesn't begin as a hierarchy does.
fn explain_magic<R: Files + AllocGlobal, E: Write>(rt: &R, job: &Job<'_>, err: &mut E) {
    let path = path_of(job, Input::Hierarchy).unwrap_or("the hierarchy");
    let call = call_of(job);
    let head = head_of(rt, path);
    let head = head.as_slice();
    let _ = if head.starts_with(b"RCH") {
        writeln!(err, "  {path} is of an unknown version: prepare it again")
    } else if let Some(file) = file_of(head) {
        writeln!(err, "  {path} {file}")
    } else if let Some(line) = text_of(head) {
        writeln!(err, "  {path} begins with {line}, and the call is {call}")
    } else {
        writeln!(err, "  {path} is {NO_FILE}, and the call is {call}")
    };
}

// Names what couldn't be read or written, and says why.
fn explain_failure<E: Write>(failure: Option<Failure<'_>>, err: &mut E) {
    let Some(Failure { name, error }) = failure else {
        return;
    };
    let _ = writeln!(err, "  {name}: {error}");
    if name == "-" {
        let _ = writeln!(err, "  - is a file here: standard input is /dev/stdin");
    }
}

// How the program is called for such a job.
fn call_of(job: &Job<'_>) -> &'static str {
    match job {
        Job::Answer { .. } => "routecli answer GRAPH QUERIES",
        Job::Prepare(_) => "routecli prepare GRAPH OUT",
        Job::Route { .. } => "routecli route HIER QUERIES",
        Job::Info { .. } => "routecli info HIER",
        Job::Check(_) => "routecli check GRAPH HIER",
        Job::Renew(_) => "routecli renew OLD GRAPH OUT",
    }
}

// The file of an input of the job, if it reads one by its name.
fn path_of<'a>(job: &Job<'a>, input: Input) -> Option<&'a str> {
    let (graph, queries, hierarchy) = match *job {
        Job::Answer { .. } if job.is_joined() => (None, None, None),
        Job::Answer { graph, queries } => (Some(graph), Some(queries), None),
        Job::Prepare(preparation) => (Some(preparation.graph), None, None),
        Job::Route { hierarchy, queries } => (None, Some(queries), Some(hierarchy)),
        Job::Info { hierarchy } => (None, None, Some(hierarchy)),
        Job::Check(check) => (Some(check.graph), None, Some(check.hierarchy)),
        Job::Renew(renewal) => (Some(renewal.graph), None, Some(renewal.old)),
    };
    match input {
        Input::Graph => graph,
        Input::Queries => queries,
        Input::Hierarchy => hierarchy,
    }
}

// Explains the fault of a text, and shows the line that has it.
fn explain_text<R: Files + AllocGlobal, E: Write>(
    rt: &R,
    job: &Job<'_>,
    input: Input,
    fault: GrError,
    err: &mut E,
) {
    let mut look = Look::none(rt.alloc());
    if let Some(path) = path_of(job, input) {
        look = Look::at(rt, path, fault.line);
        let line = look.line.as_slice();
        let _ = if line.is_empty() {
            writeln!(err, "  {path}")
        } else {
            writeln!(err, "  {path}:{}: {}", fault.line, Shown(line))
        };
    }
    let is_pairs = input == Input::Queries;
    let text = Text {
        is_pairs,
        is_joined: job.is_joined(),
        nodes: nodes_of(rt, job, is_pairs, &look),
        look: &look,
    };
    hint(fault.kind, &text, call_of(job), err);
}

// How many nodes a text may name: those that the graph announces, or those of the hierarchy.
fn nodes_of<R: Files + AllocGlobal>(
    rt: &R,
    job: &Job<'_>,
    is_pairs: bool,
    look: &Look,
) -> Option<u64> {
    if !is_pairs {
        return number_of(field(look.problem.as_slice(), 2));
    }
    if let Some(path) = path_of(job, Input::Hierarchy) {
        return word_at(head_of(rt, path).as_slice(), 4).map(u64::from);
    }
    let graph = Look::at(rt, path_of(job, Input::Graph)?, 0);
    number_of(field(graph.problem.as_slice(), 2))
}

// How many bytes the file of a hierarchy has that begins so, if that is known.
fn announced(head: &[u8]) -> Option<u128> {
    let nodes = u128::from(word_at(head, 4)?);
    let links = u128::from(word_at(head, 8)?) * 0x1_0000_0000 + u128::from(word_at(head, 12)?);
    let link = if head.starts_with(b"RCH1") { 20 } else { 24 };
    Some(24 + 4 * nodes + link * links)
}

// The number in the four bytes from this place on.
fn word_at(head: &[u8], at: usize) -> Option<u32> {
    let bytes = head.get(at..)?.first_chunk::<4>()?;
    Some(u32::from_be_bytes(*bytes))
}
