ghost use Rattle.std.specs.Prelude.{◌≡◌, ◌<◌, ◌≤◌, IfOk, length, vec_len};
ghost use Rattle.ch_rowbook.specs.Blanks.{name_of};

use crate::at_board::work_at;
use crate::build_state::BuildState;
use crate::gate::Gate;
use crate::good_options::CrewOptions;
use crate::resources::Resources;
use crate::trouble::Trouble;
use crate::worker::Worker;
use ch_contract::{Board, Ledger, Site};
use ch_estimate::Estimator;
use ch_multiqueue::MultiQueue;
use ch_rowbook::{Blank, Reader};
use std::alloc::{AllocError, Global};
use std::marker::Brand;
use std::sync::Wait;
use std::thread;
use std::thread::Threads;

/// What goes on from one shift to the next: the rows and the log, the queue of the nodes that wait, and the workers.
#[derive(Drop)]
pub(crate) struct Work<E: Estimator> {
    pub(crate) ledger: Ledger,
    pub(crate) queue: MultiQueue,
    pub(crate) workers: Vec<Worker<E>>,
}

/// A worker on shift, with a reader of the board's book.
#[derive(Drop)]
struct OnShift<S: Site, E: Estimator> {
    worker: Worker<E>,
    reader: Reader<S>,
}

/// Lets the workers go on for a shift: by a board whose book is new, so that it keeps no row that isn't current, until
/// each of them has ended or enough nodes are contracted for the book to be renewed.
pub(crate) fn shift<E: Estimator + Send, G: Gate, R: Threads + Wait + Sync>(
    resources: &mut Resources<'_, R>,
    work: Work<E>,
    crew: CrewOptions,
    gate: &G,
) -> Result<Work<E>, Trouble>
    ensures graph { IfOk result (λ after. after.ledger.graph ≡ work.ledger.graph) }
    ensures count { IfOk result (λ after. vec_len after.workers ≡ vec_len work.workers) }
    ensures queue { IfOk result (λ after. after.queue ≡ work.queue) }
{
    let rows = work.ledger.overlay();
    let blank = Blank::new(resources.alloc, rows.nodes(), rows.bound())?;
    shift_named::<Brand, E, G, R>(resources, blank, work, crew, gate)
}

/// Lets the workers go on for a shift, by a board of a type that names the graph and the book.
fn shift_named<
    S: Site + Send + Sync + 'static,
    E: Estimator + Send,
    G: Gate,
    R: Threads + Wait + Sync,
>(
    resources: &mut Resources<'_, R>,
    blank: Blank,
    work: Work<E>,
    crew: CrewOptions,
    gate: &G,
) -> Result<Work<E>, Trouble>
    requires of_graph { S.graph ≡ work.ledger.graph }
    requires of_book { S.book ≡ name_of blank }
    requires nodes { blank.nodes ≡ length work.ledger.overlay.rows }
    requires bound { blank.bound ≡ work.ledger.overlay.bound }
    ensures graph { IfOk result (λ after. after.ledger.graph ≡ work.ledger.graph) }
    ensures count { IfOk result (λ after. vec_len after.workers ≡ vec_len work.workers) }
    ensures queue { IfOk result (λ after. after.queue ≡ work.queue) }
{
    let Work {
        ledger,
        queue,
        workers,
    } = work;
    let (board, mut reader) = match Board::<S>::of_ledger(
        resources.rt,
        resources.alloc,
        blank,
        ledger,
    ) {
        Ok(made) => made,
        Err((_, refused)) => return Err(refused.into()),
    };
    let mut on_shift = begin(resources.alloc, &mut reader, workers)?;
    drop(reader);
    let shared = BuildState::new(resources.alloc, board, queue, crew);
    run_all(resources.rt, &shared, gate, on_shift.as_mut_slice());
    let workers = end(resources.alloc, on_shift)?;
    let (board, queue) = shared.into_parts();
    let (ledger, pen) = board.into_parts();
    resources.dispose(pen);
    Ok(Work {
        ledger,
        queue,
        workers,
    })
}

/// Gives each worker a reader that is split off this one.
fn begin<S: Site, E: Estimator>(
    alloc: Global,
    reader: &mut Reader<S>,
    workers: Vec<Worker<E>>,
) -> Result<Vec<OnShift<S, E>>, AllocError>
    ensures count { IfOk result (λ on_shift. vec_len on_shift ≡ vec_len workers) }
{
    let mut on_shift = Vec::new(alloc);
    'workers: for worker in workers {
        let reader = reader.split()?;
        on_shift.push(OnShift { worker, reader })?;
    }
    Ok(on_shift)
}

/// The workers without their readers.
fn end<S: Site, E: Estimator>(
    alloc: Global,
    on_shift: Vec<OnShift<S, E>>,
) -> Result<Vec<Worker<E>>, AllocError>
    ensures count { IfOk result (λ workers. vec_len workers ≡ vec_len on_shift) }
{
    let mut workers = Vec::new(alloc);
    'workers: for one in on_shift {
        workers.push(one.worker)?;
    }
    Ok(workers)
}

/// Lends each worker that hasn't ended to a thread of its own, and joins them all. A worker whose thread can't be started
/// does nothing.
fn run_all<
    's,
    'w: 's,
    E: Estimator + Send,
    S: Site + Send + Sync,
    G: Gate,
    R: Threads + Wait + Sync,
>(rt: &'s R, shared: &'s BuildState<S>, gate: &'s G, on_shift: &'w mut [OnShift<S, E>]) {
    thread::scope(thread::scope_env(), rt, |scope| {
        'workers: for one in on_shift.iter_mut() {
            if !one.worker.has_ended {
                let _ = scope.spawn(move || work_at(
                    rt,
                    shared,
                    gate,
                    &mut one.worker,
                    &mut one.reader,
                ));
            }
        }
    });
}
