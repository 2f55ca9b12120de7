ghost use Rattle.std.specs.Prelude.{◌≡◌, ◌+◌, ◌*◌, ◌/◌, ◌≤◌, ◌<◌, ◌^◌, All, AllPairs, IfOk, IfSome, IsTrue, max, min};
ghost use Rattle.ch_rowbook.specs.Books.{IsOfBook};
ghost use Rattle.ch_contract.specs.Ready.{IsReadyFor};

use crate::good_options::CrewOptions;
use crate::listener::Listener;
use ch_contract::{Board, CommitError, Contraction, Facts, Proposal, Ready, Receipt, Site};
use ch_estimate::Estimator;
use ch_multiqueue::MultiQueue;
use ch_rowbook::Reader;
use crossbeam_utils::{Backoff, CachePadded};
use std::alloc::{AllocError, Global};
use std::sync::atomic::{AtomicBool, AtomicU64, AtomicUsize, Ordering};
use std::sync::{Mutex, MutexGuard, Wait};

/// How often a thread looks at a lock that another one holds, before it sleeps until the lock is free. A commit takes less
/// time than to sleep and to be woken does.
const SPINS: u32 = 100;

/// What the rows that are replaced in a shift may weigh for each node of the network, in entries.
const ENTRIES_PER_NODE: u64 = 12;

/// How many nodes are contracted at least before a shift is over.
const MIN_CONTRACTIONS: u64 = 16;

/// What the workers of a build share in a shift: the board behind its lock, the queue of the nodes that wait, and the
/// options.
///
/// What is written often has cache lines of its own, behind the board: threads that wait for the lock read `is_held`
/// and leave the lines that its holder works with alone.
#[derive(Drop)]
pub(crate) struct BuildState<S: Site> {
    pub(crate) alloc: Global,
    pub(crate) board: Mutex<Board<S>>,
    /// Whether a thread holds the board's lock. It says when a try is worth while, and nothing rests on it.
    is_held: CachePadded<AtomicBool>,
    /// How many entries the log has. It is stored before the lock is let go.
    entries: CachePadded<AtomicUsize>,
    /// How many neighbours an entry of the log has at most. It is stored before the number of entries is.
    widest: CachePadded<AtomicUsize>,
    /// What the rows weigh that were replaced so far, by all workers together.
    replaced: CachePadded<AtomicU64>,
    pub(crate) queue: MultiQueue,
    pub(crate) crew: CrewOptions,
    pub(crate) nodes: u32,
    /// What the rows weigh after whose replacement a shift is over, by all workers together.
    pub(crate) room: u64,
}

/// A hold of the board's lock, which is over when this is dropped.
struct Hold<'a, S: Site> {
    board: MutexGuard<'a, Board<S>>,
    is_held: &'a AtomicBool,
}

impl<S: Site> Drop for Hold<'_, S> {
    fn drop(self) {
        let Self { board, is_held } = self;
        is_held.store(false, Ordering::Relaxed);
        drop(board);
    }
}

impl<S: Site> BuildState<S> {
    /// The board is put behind its lock.
    pub(crate) fn new(
        alloc: Global,
        board: Board<S>,
        queue: MultiQueue,
        crew: CrewOptions,
    ) -> BuildState<S>
        ensures queue { result.queue ≡ queue }
        ensures room { result.room ≡ max 16 (12 * S.graph.nodes) }
    {
        let nodes = board.graph().nodes();
        let room = MIN_CONTRACTIONS.max(ENTRIES_PER_NODE * u64::from(nodes));
        let entries = board.log().len();
        let widest = widest(board.log());
        BuildState {
            alloc,
            board: Mutex::new(board),
            is_held: CachePadded::new(AtomicBool::new(false)),
            entries: CachePadded::new(AtomicUsize::new(entries)),
            widest: CachePadded::new(AtomicUsize::new(widest)),
            replaced: CachePadded::new(AtomicU64::new(0)),
            queue,
            crew,
            nodes,
            room,
        }
    }

    /// The board and the queue, which nobody shares any more.
    pub(crate) fn into_parts(self) -> (Board<S>, MultiQueue)
        ensures { result.1 ≡ self.queue }
    {
        let BuildState { board, queue, .. } = self;
        (board.into_inner(), queue)
    }

    /// Takes the board's lock.
    fn hold<R: Wait>(&self, rt: &R) -> Hold<'_, S> {
        let board = self.lock(rt);
        self.is_held.store(true, Ordering::Relaxed);
        Hold {
            board,
            is_held: &self.is_held,
        }
    }

    /// The board behind its lock, which is looked at for a while, in pauses that grow, and then waited for. It is tried
    /// only where it seems free: each try takes the cache line of the lock from its holder.
    fn lock<R: Wait>(&self, rt: &R) -> MutexGuard<'_, Board<S>> {
        let backoff = Backoff::new();
        'looks: for _ in 0..SPINS {
            if !self.is_held.load(Ordering::Relaxed) {
                if let Some(board) = self.board.try_lock() {
                    return board;
                }
            }
            backoff.spin();
        }
        self.board.lock(rt)
    }

    /// Commits a proposal that was made by a reader of the board's book, with its new rows where they are ready, and lets
    /// this reader see what changed, under one hold of the board's lock.
    pub(crate) fn commit<R: Wait>(
        &self,
        rt: &R,
        proposal: &Proposal,
        ready: Option<Ready>,
        reader: &mut Reader<S>,
    ) -> Result<Receipt, CommitError>
        requires of_book { All (IsOfBook S.book) proposal.now.rests_on }
        requires bound { proposal.now.bound ≡ S.book.bound }
        requires ready { IfSome ready (IsReadyFor proposal.now) }
        requires beside { IfSome ready (λ r. All (IsOfBook S.book) r.beside) }
    {
        let mut hold = self.hold(rt);
        let committed = hold.board.commit_ready(rt, proposal, ready, reader);
        let log = hold.board.log();
        if let Some(last) = log.last() {
            self.widest
                .fetch_max(last.neighbours.len(), Ordering::Relaxed);
        }
        self.entries.store(log.len(), Ordering::Release);
        committed
    }

    /// Adds what the rows weigh that a commit replaced. Returns whether the shift is over with them.
    pub(crate) fn is_over_with(&self, replaced_entries: u64) -> bool
        ensures { self.now.room ≤ replaced_entries → IsTrue result }
    {
        let before = self.replaced.fetch_add(replaced_entries, Ordering::Relaxed);
        before.saturating_add(replaced_entries) >= self.room
    }

    /// Gives a listener the entry of this rank, which is its next, by a copy, if the log has it. Returns how many entries
    /// the log has.
    pub(crate) fn tell_next<E: Estimator, R: Wait>(
        &self,
        rt: &R,
        rank: u32,
        copy: &mut Contraction,
        listener: &mut Listener<E>,
    ) -> Result<usize, AllocError>
        requires next { rank ≡ listener.old.told }
        ensures told { IfOk result (λ count. rank < count → listener.new.told ≡ listener.old.told + 1) }
        ensures few { IfOk result (λ count. rank < count → listener.new.told ≤ 2 ^ 25) }
        ensures kept { IfOk result (λ count. count ≤ rank → listener.new.told ≡ listener.old.told) }
    {
        let count = self.copy_entry(rt, rank, copy)?;
        if (rank as usize) < count {
            listener.tell(copy)?;
        }
        Ok(count)
    }

    /// Copies the entry of this rank, if the log has it, under one hold of the board's lock. Returns how many entries the
    /// log has. There is room for the copy before the lock is taken, so that nothing is allocated under it.
    fn copy_entry<R: Wait>(
        &self,
        rt: &R,
        rank: u32,
        copy: &mut Contraction,
    ) -> Result<usize, AllocError>
        ensures rank { IfOk result (λ count. rank < count → copy.new.rank ≡ rank) }
        ensures few { IfOk result (λ count. rank < count → copy.new.rank < 2 ^ 25) }
        ensures rising { IfOk result (λ count. rank < count → AllPairs (λ x y. x < y) copy.new.neighbours) }
    {
        copy.neighbours.clear();
        copy.neighbours
            .reserve(self.widest.load(Ordering::Relaxed))?;
        let hold = self.hold(rt);
        let log = hold.board.log();
        if (rank as usize) < log.len() {
            copy_to(&log[rank as usize], copy)?;
        }
        Ok(log.len())
    }

    /// Passes a listener each entry of the log that it hasn't received, in order, as a copy, which takes one hold of the
    /// board's lock each. An entry that comes after the last of these holds waits for the next call. If the listener has
    /// received all of them, no lock is taken.
    pub(crate) fn tell_all<E: Estimator, R: Wait>(
        &self,
        rt: &R,
        copy: &mut Contraction,
        listener: &mut Listener<E>,
    ) -> Result<(), AllocError> {
        if listener.told() as usize >= self.entries.load(Ordering::Acquire) {
            return Ok(());
        }
        'entries: while self.tell_next(rt, listener.told(), copy, listener)?
            > listener.told() as usize
        {}
        Ok(())
    }
}

/// How many neighbours an entry of the log has at most.
fn widest(log: &[Contraction]) -> usize {
    let mut most = 0usize;
    for entry in log {
        most = most.max(entry.neighbours.len());
    }
    most
}

/// What the rows weigh, in entries or so, that are replaced where a node is contracted: for each of its arcs a row that has
/// about as many, and what a row takes besides. A sixteenth of the room is the most.
pub(crate) fn replaced_entries(facts: Facts, room: u64) -> u64
    ensures { result ≡ min ((facts.ins + facts.outs) * (facts.ins + facts.outs + 6)) (room / 16) }
{
    let arcs = u64::from(facts.ins) + u64::from(facts.outs);
    arcs.saturating_mul(arcs + 6).min(room / MIN_CONTRACTIONS)
}

/// Makes a copy the same as an entry of the log. It keeps its memory.
fn copy_to(entry: &Contraction, copy: &mut Contraction) -> Result<(), AllocError>
    ensures { IfOk result (λ _. copy.new ≡ entry.now) }
{
    copy.node = entry.node;
    copy.rank = entry.rank;
    copy.neighbours.clear();
    copy.neighbours.extend_from_slice(&entry.neighbours)?;
    copy.shortcuts = entry.shortcuts;
    Ok(())
}
