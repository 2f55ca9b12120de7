ghost use Rattle.std.specs.Prelude.{◌≡◌, ◌<◌, All, IfOk, IfSome};

use crate::gate::{Gate, Point};
use crate::good_options::CrewOptions;
use crate::listeners::Listeners;
use crate::workplace::Workplace;
use ch_contract::{CommitError, Contraction, Facts, Proposal, ProposeError, Receipt, Scratch};
use ch_estimate::Estimator;
use ch_multiqueue::{Item, MultiQueue, Pass};
use std::alloc::AllocError;
use std::sync::Wait;

/// Memory ran out, or a proposal didn't fit the board. The worker ends.
#[derive(Drop)]
struct Refused;

impl From<AllocError> for Refused {
    fn from(_refused: AllocError) -> Refused {
        Refused
    }
}

/// How a worker's shift was over.
#[derive(Drop)]
enum Shift {
    /// As many rows were replaced as may be, by all workers together. The worker goes on in the next shift.
    GoesOn,
    /// The worker has taken all its turns, or found no item.
    Ended,
}

/// How a turn went.
#[derive(Drop)]
enum Turn {
    /// An item was taken. If its node was contracted, these are the counts of the proposal.
    Taken(Option<Facts>),
    /// No item was found.
    NoItem,
}

/// What a worker finds at each workplace: the runtime, the queue of the nodes that wait, the gate, and the options.
#[derive(Drop)]
pub(crate) struct Hall<'a, G: Gate, R: Wait> {
    pub(crate) rt: &'a R,
    pub(crate) queue: &'a MultiQueue,
    pub(crate) gate: &'a G,
    pub(crate) crew: CrewOptions,
}

/// What a worker has of its own, in the builder's list.
#[derive(Drop)]
pub(crate) struct Worker<E: Estimator> {
    pub(crate) number: u32,
    pub(crate) pass: Pass,
    pub(crate) listeners: Listeners<E>,
    pub(crate) scratch: Scratch,
    pub(crate) entry: Contraction,
    pub(crate) deferred: u32,
    pub(crate) receipts: Vec<Receipt>,
    /// How many turns it may still take.
    pub(crate) turns: u64,
    /// Whether its nodes were put into the queue.
    pub(crate) is_ready: bool,
    /// Whether it takes no turn any more, and its estimators were dropped.
    pub(crate) has_ended: bool,
}

/// Lets a worker that hasn't ended go on until the shift is over or it ends. Where it ends, it drops its estimators and
/// passes the gate.
pub(crate) fn work<P: Workplace, E: Estimator, G: Gate, R: Wait>(
    hall: &Hall<'_, G, R>,
    place: &mut P,
    worker: &mut Worker<E>,
) {
    if let Ok(Shift::GoesOn) = worker.go_on(hall, place) {
        return;
    }
    worker.has_ended = true;
    worker.listeners.clear();
    hall.gate.pass(worker.number, Point::Done);
}

impl<E: Estimator> Worker<E> {
    /// Puts its nodes into the queue, if it hasn't yet, and takes turns until the shift is over.
    fn go_on<P: Workplace, G: Gate, R: Wait>(
        &mut self,
        hall: &Hall<'_, G, R>,
        place: &mut P,
    ) -> Result<Shift, Refused> {
        if !self.is_ready {
            self.put_all(hall, place)?;
            self.is_ready = true;
        }
        let turns = self.turns;
        'turns: for turn in 0..turns {
            let Turn::Taken(contracted) = self.turn(hall, place)? else {
                return Ok(Shift::Ended);
            };
            if place.is_over_with(contracted) {
                self.turns = turns - turn - 1;
                return Ok(Shift::GoesOn);
            }
        }
        Ok(Shift::Ended)
    }

    /// Puts each node that is its own, by the remainder of its number, into the queue.
    fn put_all<P: Workplace, G: Gate, R: Wait>(
        &mut self,
        hall: &Hall<'_, G, R>,
        place: &mut P,
    ) -> Result<(), Refused> {
        let workers = hall.crew.options.workers;
        let nodes = place.nodes();
        'nodes: for node in 0..nodes {
            if node % workers == self.number {
                self.put(hall, place, node)?;
            }
        }
        Ok(())
    }

    /// Puts a node into the queue, with the key that its estimator gives it. A contracted node is left out.
    fn put<P: Workplace, G: Gate, R: Wait>(
        &mut self,
        hall: &Hall<'_, G, R>,
        place: &mut P,
        node: u32,
    ) -> Result<(), Refused> {
        let Some(proposal) = self.propose(hall, place, node)? else {
            return Ok(());
        };
        let key = self.key(&proposal);
        self.scratch.keep(proposal);
        self.push(hall, Item { key, node })
    }

    /// Takes an item, if there is one, and commits the contraction of its node or puts it back.
    fn turn<P: Workplace, G: Gate, R: Wait>(
        &mut self,
        hall: &Hall<'_, G, R>,
        place: &mut P,
    ) -> Result<Turn, Refused> {
        let Some(item) = hall.queue.pop(hall.rt, &mut self.pass)? else {
            return Ok(Turn::NoItem);
        };
        hall.gate.pass(self.number, Point::Took);
        let Some(proposal) = self.propose(hall, place, item.node)? else {
            return Ok(Turn::Taken(None));
        };
        self.catch_up(place)?;
        let key = self.key(&proposal);
        if self.requeue(hall, item, key)? {
            self.scratch.keep(proposal);
            return Ok(Turn::Taken(None));
        }
        hall.gate.pass(self.number, Point::Proposed);
        let facts = proposal.facts();
        let committed = self.commit(hall, place, item, &proposal)?;
        self.scratch.keep(proposal);
        Ok(Turn::Taken(if committed { Some(facts) } else { None }))
    }

    /// Puts an item into the queue.
    fn push<G: Gate, R: Wait>(&mut self, hall: &Hall<'_, G, R>, item: Item) -> Result<(), Refused> {
        match hall.queue.push(hall.rt, &mut self.pass, item) {
            Ok(()) => Ok(()),
            Err(_item) => Err(Refused),
        }
    }

    /// Works out the contraction of a node by the rows that its workplace shows, or returns `None` where it is contracted
    /// already. It takes no lock.
    fn propose<P: Workplace, G: Gate, R: Wait>(
        &mut self,
        hall: &Hall<'_, G, R>,
        place: &mut P,
        node: u32,
    ) -> Result<Option<Proposal>, Refused>
        ensures { IfOk result (λ found. IfSome found (P.fits place.new)) }
    {
        let settle = hall.crew.options.settle;
        match place.propose(&mut self.scratch, node, settle) {
            Ok(proposal) => Ok(Some(proposal)),
            Err(ProposeError::OutOfMemory) => Err(Refused),
            Err(ProposeError::Unseen | ProposeError::Contracted) => Ok(None),
        }
    }

    /// Gives its current estimator, if it has one, what it hasn't received of the log.
    fn catch_up<P: Workplace>(&mut self, place: &P) -> Result<(), Refused> {
        if let Some(listener) = self.listeners.current() {
            place.tell_all(&mut self.entry, listener)?;
        }
        Ok(())
    }

    /// The key that its current estimator gives, or 0 where it has none.
    fn key(&mut self, proposal: &Proposal) -> u64 {
        match self.listeners.current() {
            Some(listener) => listener.key(&proposal.facts()),
            None => 0,
        }
    }

    /// Puts an item back with the key that its node has now, where that is greater and the worker hasn't put back as
    /// many items as it may since its last commit. Returns whether it did.
    fn requeue<G: Gate, R: Wait>(
        &mut self,
        hall: &Hall<'_, G, R>,
        item: Item,
        key: u64,
    ) -> Result<bool, Refused> {
        if key <= item.key || self.deferred >= hall.crew.options.defer {
            return Ok(false);
        }
        self.deferred += 1;
        let node = item.node;
        self.push(hall, Item { key, node })?;
        Ok(true)
    }

    /// Commits a proposal and keeps the receipt, or puts the item back where a row has changed. Returns whether it was
    /// committed. Where that ends the stint of its estimator, it goes on with the next.
    fn commit<P: Workplace, G: Gate, R: Wait>(
        &mut self,
        hall: &Hall<'_, G, R>,
        place: &mut P,
        item: Item,
        proposal: &Proposal,
    ) -> Result<bool, Refused>
        requires { P.fits place.old proposal.now }
    {
        self.receipts.reserve(1)?;
        match place.commit(proposal) {
            Ok(receipt) => {
                self.receipts.push_reserved(receipt);
                self.deferred = 0;
                hall.gate.pass(self.number, Point::Committed);
                self.listeners.committed(hall.crew.options.stint);
                Ok(true)
            }
            Err(CommitError::Stale { .. }) => {
                self.push(hall, item)?;
                hall.gate.pass(self.number, Point::Refused);
                Ok(false)
            }
            Err(CommitError::Contracted) => Ok(false),
            Err(CommitError::OutOfMemory | CommitError::Slot) => Err(Refused),
        }
    }
}
