ghost use Rattle.std.specs.Prelude.{◌≡◌, ◌↔◌, ◌<◌, [], IfOk, OnErr, IfNone, IfSome, IsTrue, All, length, replicate};
ghost use Rattle.ch_graph.specs.Limits.{bound_of};
ghost use Rattle.ch_laws.specs.Contraction.{IsReached};
ghost use Rattle.ch_overlay.specs.Overlay.{state_of};
ghost use Rattle.ch_contract.specs.Ledger.{IsContracted, IsLog};
ghost use Rattle.ch_contract.specs.Commit.{IsContractedYet, IsRefusal};
ghost use Rattle.ch_contract.specs.Proposal.{IsProposal};
ghost use Rattle.ch_core.specs.declared.event.Event.TheVariants as events;
ghost use Rattle.ch_core.specs.declared.event.Outcome.TheVariants as outcomes;
ghost use Rattle.ch_core.specs.World.{IsOpening, MayOffer, IsCurrent, IsAccepted, view_of};
ghost use Rattle.ch_core.specs.Steps.{IsStep, IsLawful};
ghost use Rattle.ch_core.specs.Keeping.{IsWorld};

use crate::book::{RowVersion, append, opening_book, standing, versions_of};
use crate::event::{Event, Outcome};
use crate::offering::all_stand;
use crate::reads::Reads;
use crate::view::View;
use ch_contract::{
    CommitError, Contraction, Ledger, Proposal, Receipt, agreement_is_lawful, refusal,
    versions_from,
};
use ch_graph::Graph;
use ch_laws::bounds_fit;
use ch_overlay::{Overlay, changes_write_their_rows};
use std::alloc::{AllocError, Global};
use std::marker::Model;

/// A graph under contraction, every version that its rows ever had, and what each worker read of them.
///
/// The rows are those that the log leads to from the graph by lawful contractions, whatever the workers read and
/// offer, and in whatever order.
#[derive(Drop)]
pub struct World {
    /// The graph, its rows that are current, and the log.
    ledger: Ledger,
    /// All versions that the rows had, each at its number.
    book: Vec<RowVersion>,
    /// What each worker read.
    views: Vec<Reads>,
}

impl Model for World {
    ghost use Rattle.ch_core.specs.World as worlds;
    ghost use Rattle.ch_core.specs.Keeping.{IsWorld};

    ghost Value = { worlds.World };

    ghost view = { λ w. record { ledger = w.ledger; book = w.book.items; views = w.views.items } };

    ghost invariant = { λ w. IsWorld (record { ledger = w.ledger; book = w.book.items; views = w.views.items }) };
}

impl World {
    /// Returns the world of this graph with this many workers: no node is contracted, node x has the version x, and
    /// no worker has read a row.
    ///
    /// Takes memory for the rows, an entry for each end of an arc, for the book and for the workers.
    pub fn new(alloc: Global, graph: Graph, workers: u32) -> Result<World, AllocError>
        ensures opens { IfOk result (λ w. IsOpening graph workers w) }
    {
        let ledger = Ledger::new(alloc, graph)?;
        let book = opening_book(alloc, ledger.overlay())?;
        let views = empty_views(alloc, workers)?;
        ledger.holds();
        bounds_fit();
        Ok(World {
            ledger,
            book,
            views,
        })
    }

    /// Returns the graph that the world was made of.
    pub fn graph(&self) -> &Graph
        ensures { result.now ≡ self.now.ledger.graph }
    {
        self.ledger.graph()
    }

    /// Returns the rows of the nodes that are current, and their versions.
    pub fn overlay(&self) -> &Overlay
        ensures { result.now ≡ self.now.ledger.overlay }
    {
        self.ledger.overlay()
    }

    /// Returns what was done so far, first to last: the entry of rank k is at k.
    pub fn log(&self) -> &[Contraction]
        ensures entries { result.now ≡ self.now.ledger.log }
        ensures reached { IsReached self.now.ledger.graph self.now.ledger.log (state_of self.now.ledger.overlay) }
        ensures log { IsLog self.now.ledger.log }
        ensures holds { IsWorld self.now }
    {
        self.ledger.log()
    }

    /// A law: what always holds of a world.
    pub fn holds(&self)
        ensures { IsWorld self.now }
    {
        let _ = self.views.len();
    }

    /// Returns the number of workers.
    pub fn workers(&self) -> u32
        ensures { result ≡ length self.now.views }
    {
        self.views.len() as u32
    }

    /// Returns what a worker, which is in range, has read, as a source of rows. Takes no memory.
    pub fn view(&self, worker: u32) -> View<'_>
        requires { worker < length self.now.views }
        ensures view { result.view ≡ view_of self.now worker }
        ensures bound { result.bound ≡ bound_of self.now.ledger.graph }
    {
        View::new(&self.views[worker as usize], self.ledger.overlay().bound())
    }

    /// One event, and what is returned for it.
    ///
    /// `NoSuch`, which is tested first, where there is no such worker, no such version of the node, or where an offer
    /// is under another bound than the graph's or rests on a row that the worker doesn't have with this version and
    /// content. Of an offer then `Contracted` where its node is, or else `Stale` where a version isn't current, by the
    /// first such row, or else it is accepted: nothing but versions is compared. After one of these refusals, and where
    /// memory runs out, the world is as it was. Takes memory for a row that a worker reads and for the rows that
    /// change; a step costs what it touches.
    pub fn step(&mut self, event: Event) -> Result<Outcome, AllocError>
        ensures step { IfOk result (λ outcome. IsStep self.old event outcome self.new) }
        ensures lawful { IfOk result (λ outcome. IsLawful self.old event outcome self.new) }
        ensures err { OnErr result (self.new ≡ self.old) }
    {
        match event {
            Event::Read {
                worker,
                node,
                version,
            } => self.read(worker, node, version),
            Event::Offer { worker, proposal } => self.offer(worker, &proposal),
            Event::Forget { worker } => Ok(self.forget(worker)),
        }
    }

    /// A worker reads a version of a node.
    fn read(&mut self, worker: u32, node: u32, version: u64) -> Result<Outcome, AllocError>
        ensures step { IfOk result (λ outcome. IsStep self.old (events.Read worker node version) outcome self.new) }
        ensures err { OnErr result (self.new ≡ self.old) }
    {
        if worker as usize >= self.views.len() {
            return Ok(Outcome::NoSuch);
        }
        let found = standing(self.book.as_slice(), node, version)?;
        let Some(row) = found else {
            return Ok(Outcome::NoSuch);
        };
        let view = &mut self.views[worker as usize];
        view.put(node, row)?;
        Ok(Outcome::Shown)
    }

    /// A worker forgets what it read.
    fn forget(&mut self, worker: u32) -> Outcome
        ensures step { IsStep self.old (events.Forget worker) result self.new }
    {
        if worker as usize >= self.views.len() {
            return Outcome::NoSuch;
        }
        let view = &mut self.views[worker as usize];
        view.clear();
        Outcome::Forgotten
    }

    /// A worker offers a proposal.
    fn offer(&mut self, worker: u32, proposal: &Proposal) -> Result<Outcome, AllocError>
        ensures step { IfOk result (λ outcome. IsStep self.old (events.Offer worker proposal.now) outcome self.new) }
        ensures lawful { IfOk result (λ outcome. IsLawful self.old (events.Offer worker proposal.now) outcome self.new) }
        ensures err { OnErr result (self.new ≡ self.old) }
    {
        if !self.may_offer(worker, proposal) {
            return Ok(Outcome::NoSuch);
        }
        if let Some(error) = self.refusal(worker, proposal) {
            return Ok(Outcome::Refused(error));
        }
        let receipt = self.accept(worker, proposal)?;
        Ok(Outcome::Committed(receipt))
    }

    /// Whether there is such a worker, and the proposal is under the bound of the graph and by rows of its view.
    fn may_offer(&self, worker: u32, proposal: &Proposal) -> bool
        ensures { IsTrue result ↔ MayOffer self.now worker proposal.now }
    {
        if worker as usize >= self.views.len() {
            return false;
        }
        let view = &self.views[worker as usize];
        proposal.bound() == self.ledger.overlay().bound() && all_stand(view, proposal.rests_on())
    }

    /// Why an offer that the worker may make isn't accepted, or `None` where it is.
    fn refusal(&self, worker: u32, proposal: &Proposal) -> Option<CommitError>
        requires { MayOffer self.now worker proposal.now }
        ensures waits { IfNone result (IsContractedYet self.now.ledger proposal.now → ⊥) }
        ensures current { IfNone result (All (IsCurrent self.now) proposal.now.rests_on) }
        ensures refused { IfSome result (λ error. IsRefusal self.now.ledger proposal.now error) }
        ensures holds { IsProposal proposal.now }
    {
        refusal(&self.ledger, proposal)
    }

    /// Contracts the node of a proposal, all of whose rows are current. Takes memory for the new rows.
    fn accept(&mut self, worker: u32, proposal: &Proposal) -> Result<Receipt, AllocError>
        requires may { MayOffer self.old worker proposal.now }
        requires waits { IsContractedYet self.old.ledger proposal.now → ⊥ }
        requires current { All (IsCurrent self.old) proposal.now.rests_on }
        requires holds { IsProposal proposal.now }
        ensures accepted { IfOk result (λ receipt. IsAccepted self.old worker proposal.now receipt self.new) }
        ensures lawful { IfOk result (λ receipt. IsContracted self.old.ledger proposal.now.node proposal.now.shortcuts receipt self.new.ledger) }
        ensures err { OnErr result (self.new ≡ self.old) }
    {
        agreement_is_lawful();
        changes_write_their_rows();
        let alloc = *self.book.allocator();
        let planned = self.ledger.plan(proposal.node(), proposal.shortcuts())?;
        let fresh = versions_of(alloc, planned.rows())?;
        let count = fresh.len();
        let first = self.book.len() as u64;
        let versions = versions_from(alloc, first, count)?;
        self.book.reserve(count)?;
        let receipt = self.ledger.enter(planned, versions.as_slice());
        append(&mut self.book, fresh);
        self.ledger.holds();
        Ok(receipt)
    }
}

/// The views of this many workers that have read nothing.
fn empty_views(alloc: Global, workers: u32) -> Result<Vec<Reads>, AllocError>
    ensures { IfOk result (λ views. views.items ≡ replicate workers []) }
{
    let mut views = Vec::with_capacity(alloc, workers as usize)?;
    'workers: for _ in 0..workers {
        views.push(Reads::new(alloc))?;
    }
    Ok(views)
}
