ghost use Rattle.std.specs.Prelude.{◌≡◌, [], All, IfOk};

use ch_estimate::{Depth, EdgeDifference, Estimator, Leases, Neighbours};
use ch_service::{ServiceError, answer, answer_joined, prepare, route};
use ch_workers::{OpenGate, Options};
use jobs::Order;
use std::alloc::{AllocError, Global};
use std::io::{Read, Write};
use std::sync::Wait;
use std::thread::Threads;

/// The estimators of each worker.
pub(crate) type Lists = Vec<Vec<Box<dyn Estimator + Send>>>;

/// Options of this many workers.
pub(crate) fn options(workers: u32) -> Options
    ensures { result.workers ≡ workers }
{
    Options {
        workers,
        ..Options::PLAIN
    }
}

/// Prepares without workers.
pub(crate) fn prepare_alone<G: Read, W: Write, R: Threads + Wait + Sync>(
    rt: &R,
    alloc: Global,
    gr: &mut G,
    out: &mut W,
) -> Result<(), ServiceError> {
    let mut leases = Leases::new(alloc)?;
    let lists = Vec::new(alloc);
    prepare(
        rt,
        alloc,
        gr,
        out,
        options(0),
        lists,
        &mut leases,
        &OpenGate,
    )
}

/// Answers without workers.
pub(crate) fn answer_alone<G: Read, Q: Read, W: Write, R: Threads + Wait + Sync>(
    rt: &R,
    alloc: Global,
    gr: &mut G,
    queries: &mut Q,
    out: &mut W,
) -> Result<(), ServiceError> {
    let mut leases = Leases::new(alloc)?;
    let lists = Vec::new(alloc);
    answer(
        rt,
        alloc,
        gr,
        queries,
        out,
        options(0),
        lists,
        &mut leases,
        &OpenGate,
    )
}

/// A command, and the texts or the file that it reads.
#[derive(Clone, Copy)]
pub(crate) enum Command<'a> {
    /// `prepare` without workers, of a graph.
    Prepare(&'a [u8]),
    /// `route`, by a file and of pairs.
    Route(&'a [u8], &'a [u8]),
    /// `answer` without workers, of a graph and of pairs.
    Answer(&'a [u8], &'a [u8]),
    /// `answer_joined`, of one input.
    Joined(&'a [u8]),
}

/// How a command ends.
pub(crate) fn run<W: Write, R: Threads + Wait + Sync>(
    rt: &R,
    alloc: Global,
    command: Command<'_>,
    out: &mut W,
) -> Result<(), ServiceError> {
    match command {
        Command::Prepare(mut graph) => prepare_alone(rt, alloc, &mut graph, out),
        Command::Route(mut hier, mut pairs) => route(alloc, &mut hier, &mut pairs, out),
        Command::Answer(mut graph, mut pairs) => {
            answer_alone(rt, alloc, &mut graph, &mut pairs, out)
        }
        Command::Joined(mut input) => answer_joined(rt, alloc, &mut input, out),
    }
}

/// Whether a command ends so, and writes this.
pub(crate) fn ends_so<R: Threads + Wait + Sync>(
    rt: &R,
    alloc: Global,
    command: Command<'_>,
    end: Result<(), ServiceError>,
    written: &[u8],
) -> bool {
    let mut out = Vec::new(alloc);
    let result = run(rt, alloc, command, &mut out);
    (result == end) & (out.as_slice() == written)
}

/// A command, how it ends, and what it writes.
pub(crate) type Case = (Command<'static>, Result<(), ServiceError>, &'static [u8]);

/// An estimator of this kind, or by depth where it is none of the first, which received nothing.
pub(crate) fn estimator_of(
    alloc: Global,
    leases: &mut Leases,
    kind: Order,
) -> Result<Box<dyn Estimator + Send>, AllocError>
    ensures untold { IfOk result (λ estimator. heard estimator ≡ []) }
{
    let lease = leases.lease()?;
    match kind {
        Order::Edges => Ok(Box::new(alloc, EdgeDifference::new(alloc, lease))?),
        Order::Neighbours => Ok(Box::new(alloc, Neighbours::new(alloc, lease))?),
        _ => Ok(Box::new(alloc, Depth::new(alloc, lease))?),
    }
}

/// Puts in the list of one more worker, which has this estimator alone.
fn add_list(
    alloc: Global,
    lists: &mut Lists,
    estimator: Box<dyn Estimator + Send>,
) -> Result<(), AllocError>
    requires untold { heard estimator ≡ [] }
    requires before { All (λ list. All (λ estimator. heard estimator ≡ []) list.items) lists.old.items }
    ensures after { IfOk result (λ _. All (λ list. All (λ estimator. heard estimator ≡ []) list.items) lists.new.items) }
{
    let mut list = Vec::new(alloc);
    list.push(estimator)?;
    lists.push(list)?;
    Ok(())
}

/// The list of one worker, which has this estimator alone.
pub(crate) fn one_list(
    alloc: Global,
    estimator: Box<dyn Estimator + Send>,
) -> Result<Lists, AllocError>
    requires untold { heard estimator ≡ [] }
    ensures untold { IfOk result (λ lists. All (λ list. All (λ estimator. heard estimator ≡ []) list.items) lists.items) }
{
    let mut lists = Vec::new(alloc);
    add_list(alloc, &mut lists, estimator)?;
    Ok(lists)
}

/// The lists of two workers, each of which has one of these estimators.
fn one_list_each(
    alloc: Global,
    first: Box<dyn Estimator + Send>,
    second: Box<dyn Estimator + Send>,
) -> Result<Lists, AllocError>
    requires first { heard first ≡ [] }
    requires second { heard second ≡ [] }
    ensures untold { IfOk result (λ lists. All (λ list. All (λ estimator. heard estimator ≡ []) list.items) lists.items) }
{
    let mut lists = one_list(alloc, first)?;
    add_list(alloc, &mut lists, second)?;
    Ok(lists)
}

/// The lists of two workers, each of which has one estimator of its kind.
pub(crate) fn two_lists(
    alloc: Global,
    leases: &mut Leases,
    first: Order,
    second: Order,
) -> Result<Lists, AllocError>
    ensures untold { IfOk result (λ lists. All (λ list. All (λ estimator. heard estimator ≡ []) list.items) lists.items) }
{
    let one = estimator_of(alloc, leases, first)?;
    let other = estimator_of(alloc, leases, second)?;
    one_list_each(alloc, one, other)
}
