ghost use Rattle.std.specs.Prelude.{◌≡◌, ◌<◌, ◌≤◌, ◌↔◌, ℕ, [], IfOk, IfErr, IfSome, IsErrOf, IsTrue, OnErr, All, length, map, slice_index};
ghost use Rattle.ch_graph.specs.Limits.{bound_of};
ghost use Rattle.ch_graph.specs.Hierarchy.{IsRight};
ghost use Rattle.ch_laws.specs.Contraction.{IsStart, IsAlive, IsMade};
ghost use Rattle.ch_overlay.specs.Overlay.{state_of};
ghost use Rattle.ch_rowbook.specs.Blanks.{name_of};
ghost use Rattle.ch_rowbook.specs.Books.{IsOfBook};
ghost use Rattle.ch_rowbook.specs.Words.{IsBelow};
ghost use Rattle.ch_contract.specs.declared.error.CommitError.TheVariants as commits;
ghost use Rattle.ch_contract.specs.Ledger.{IsLedger, IsLog, IsNode, AreLawful, IsContracted, version_now, versions_now};
ghost use Rattle.ch_rowbook.specs.declared.error.BookError.TheVariants as books;
ghost use Rattle.ch_contract.specs.Board.{IsRefusedAPlace};
ghost use Rattle.ch_contract.specs.Commit.{IsContractedYet, NoneIsOld, IsRowOf, Agrees, IsStale};
ghost use Rattle.ch_contract.specs.Finish.{HasNodesLeft};
ghost use Rattle.ch_contract.specs.Ready.{IsReadyFor, FitsLedger};
ghost use Rattle.ch_contract.specs.Sweep.{IsSwept, IsPartlySwept, IsVisited};

use crate::accepting::{agreement_is_lawful, are_current, refusal};
use crate::contraction::{Contraction, Receipt};
use crate::error::{CommitError, FinishError, ProposeError, SweepError};
use crate::finish::hierarchy_of;
use crate::ledger::Ledger;
use crate::proposal::Proposal;
use crate::proposing::propose_with;
use crate::ready::Ready;
use crate::scratch::Scratch;
use crate::shown::shown;
use crate::site::Site;
use ch_cost::Cost;
use ch_graph::{Graph, Hierarchy};
use ch_laws::bounds_fit;
use ch_overlay::{Overlay, Prepared, RowSource, SeeError, Seen, Shortcut, changes_are_sound};
use ch_rowbook::{Blank, BookError, Laid, Pen, Reader, open};
use std::alloc::{AllocError, Global};
use std::marker::Model;
use std::sync::Wait;

/// A graph whose nodes are contracted by proposals, and the log of their contractions.
///
/// The type names the graph, and the book that holds the rows for readers. Whatever happens to a board, its rows are
/// those that its log leads to from that graph by lawful contractions, and they are the current rows of the book.
#[derive(Drop)]
pub struct Board<S: Site> {
    ledger: Ledger,
    pen: Pen<S>,
}

impl<S: Site> Model for Board<S> {
    ghost use Rattle.ch_contract.specs.Ledger as ledgers;
    ghost use Rattle.ch_contract.specs.Board.{IsInBook};

    ghost Value = { ledgers.Ledger };

    ghost view = { λ b. b.ledger };

    ghost invariant = { λ b. IsInBook S.graph S.book b.ledger b.pen };
}

impl<S: Site> Board<S> {
    /// Returns a board of this graph, with no node contracted, whose rows are in the book that the blank is opened
    /// as; and a reader of that book. The blank has the graph's number of nodes and its bound.
    ///
    /// Takes memory for the rows, an entry for each end of an arc, for a record a row, and for the log of all
    /// contractions. Waits while another thread makes room for records. On a refusal the blank is dropped.
    pub fn new<R: Wait>(
        rt: &R,
        alloc: Global,
        blank: Blank,
        graph: Graph,
    ) -> Result<(Board<S>, Reader<S>), BookError>
        requires of_graph { S.graph ≡ graph }
        requires of_book { S.book ≡ name_of blank }
        requires nodes { blank.nodes ≡ graph.nodes }
        requires bound { blank.bound ≡ bound_of graph }
        ensures log { IfOk result (λ made. made.0.log ≡ []) }
        ensures start { IfOk result (λ made. IsStart graph (state_of made.0.overlay)) }
        ensures front { IfOk result (λ made. (x : ℕ) → x < graph.nodes → slice_index made.1 x ≡ version_now made.0 x) }
    {
        let ledger = Ledger::new(alloc, graph)?;
        ledger.holds();
        match Board::of_ledger(rt, alloc, blank, ledger) {
            Ok(made) => Ok(made),
            Err((_, refused)) => Err(refused),
        }
    }

    /// Returns the board of a ledger, whose rows are in the book that the blank is opened as; and a reader of that
    /// book.
    ///
    /// The rows get versions anew, and nothing else of the ledger changes. So a ledger that is taken out of a board goes
    /// on with a new book, which keeps no earlier version of a row. On a refusal it is returned as it was, and the
    /// blank is dropped. Takes memory for a record a row, and waits while another thread makes room for records.
    pub fn of_ledger<R: Wait>(
        rt: &R,
        alloc: Global,
        blank: Blank,
        ledger: Ledger,
    ) -> Result<(Board<S>, Reader<S>), (Ledger, BookError)>
        requires of_graph { S.graph ≡ ledger.graph }
        requires of_book { S.book ≡ name_of blank }
        requires nodes { blank.nodes ≡ length ledger.overlay.rows }
        requires bound { blank.bound ≡ ledger.overlay.bound }
        ensures same { IfOk result (λ made. made.0 ≡ record ledger { overlay = record ledger.overlay { versions = versions_now made.0 } }) }
        ensures front { IfOk result (λ made. (x : ℕ) → IsNode ledger x → slice_index made.1 x ≡ version_now made.0 x) }
        ensures back { IfErr result (λ refused. refused.0 ≡ ledger) }
    {
        bounds_fit();
        let mut ledger = ledger;
        ledger.holds();
        let (pen, reader) = match open(rt, alloc, blank, ledger.overlay().rows()) {
            Ok(opened) => opened,
            Err(refused) => return Err((ledger, refused)),
        };
        let versions = match pen.versions(alloc) {
            Ok(versions) => versions,
            Err(_) => return Err((ledger, BookError::OutOfMemory)),
        };
        ledger.renumber(versions.as_slice());
        Ok((Board { ledger, pen }, reader))
    }

    /// Returns the ledger, and the pen, with which the book's records go if no reader is left. Takes no memory.
    pub fn into_parts(self) -> (Ledger, Pen<S>)
        ensures same { result.0 ≡ self }
        ensures named { result.0.graph ≡ S.graph }
    {
        (self.ledger, self.pen)
    }

    /// Returns the graph that the board was made of.
    pub fn graph(&self) -> &Graph
        ensures graph { result.now ≡ self.now.graph }
        ensures named { result.now ≡ S.graph }
    {
        self.ledger.graph()
    }

    /// Returns the rows of the nodes, as the contractions so far left them.
    pub fn overlay(&self) -> &Overlay
        ensures { result.now ≡ self.now.overlay }
    {
        self.ledger.overlay()
    }

    /// Returns what was done so far, first to last: the entry of rank k is at k.
    pub fn log(&self) -> &[Contraction]
        ensures entries { result.now ≡ self.now.log }
        ensures log { IsLog self.now.log }
        ensures holds { IsLedger self.now }
        ensures named { self.now.graph ≡ S.graph }
    {
        self.ledger.log()
    }

    /// A law: what always holds of a board.
    pub fn holds(&self)
        ensures ledger { IsLedger self.now }
        ensures bound { self.now.overlay.bound ≡ S.book.bound }
    {
        self.ledger.holds()
    }

    /// Contracts the node of a proposal, whose rows are still the board's, and returns a receipt.
    ///
    /// The proposal was made by the board itself or by a reader of its book. Refused, in this order, where the node is
    /// contracted already, where a row that the proposal rests on has another version now, where memory runs out, and where
    /// the book gives one of the new rows a place that isn't above the earlier ones (`Slot`), since places in the book are
    /// the versions: all memory, for the new rows, for lists and for the records, is taken before the first row has
    /// its place. The board is then as it was. No row is compared: an answer of the book whose version is current has the
    /// current row.
    ///
    /// The new rows are all laid, first the node's and then those of its neighbours by rising number, before the first is
    /// shown. They are shown in that order too, by this code and by no clause: they are of different nodes, so nothing
    /// rests on it. Takes memory for the rows that change, and waits while another thread makes room for records.
    pub fn commit<R: Wait>(&mut self, rt: &R, proposal: Proposal) -> Result<Receipt, CommitError>
        requires of_book { All (IsOfBook S.book) proposal.rests_on }
        requires bound { proposal.bound ≡ S.book.bound }
        ensures ok { IfOk result (λ receipt. IsContracted self.old proposal.node proposal.shortcuts receipt self.new) }
        ensures err { OnErr result (self.new ≡ self.old) }
        ensures contracted { (result ≡ Err commits.Contracted) ↔ IsContractedYet self.old proposal }
        ensures stale { (node seen now front : ℕ) → (result ≡ Err (commits.Stale node seen now front)) ↔ IsStale self.old proposal node seen now front }
        ensures slot { result ≡ Err commits.Slot → IsRefusedAPlace S.book self.old proposal.node proposal.shortcuts }
    {
        self.accept(rt, &proposal, None)
    }

    /// Commits a proposal, as [`Board::commit`] does, and gives a reader of the board's book the versions as they are then,
    /// so that it reads no older row from there on. On a refusal the reader is as it was, too. The proposal is left to the
    /// caller, who may drop it where no lock is held.
    pub fn commit_and_see<R: Wait>(
        &mut self,
        rt: &R,
        proposal: &Proposal,
        reader: &mut Reader<S>,
    ) -> Result<Receipt, CommitError>
        requires of_book { All (IsOfBook S.book) proposal.now.rests_on }
        requires bound { proposal.now.bound ≡ S.book.bound }
        ensures ok { IfOk result (λ receipt. IsContracted self.old proposal.now.node proposal.now.shortcuts receipt self.new) }
        ensures err { OnErr result (self.new ≡ self.old) }
        ensures seen { IfOk result (λ _. (x : ℕ) → IsNode self.new x → slice_index reader.new x ≡ version_now self.new x) }
        ensures unseen { OnErr result (reader.new ≡ reader.old) }
        ensures risen { IsBelow reader.old reader.new }
        ensures contracted { (result ≡ Err commits.Contracted) ↔ IsContractedYet self.old proposal.now }
        ensures stale { (node seen now front : ℕ) → (result ≡ Err (commits.Stale node seen now front)) ↔ IsStale self.old proposal.now node seen now front }
        ensures slot { result ≡ Err commits.Slot → IsRefusedAPlace S.book self.old proposal.now.node proposal.now.shortcuts }
    {
        self.commit_ready(rt, proposal, None, reader)
    }

    /// Commits a proposal, as [`Board::commit_and_see`] does, with the new rows that [`make_ready`](crate::make_ready) made
    /// for it before, if there are some. What it promises is the same with them and without.
    ///
    /// Where a row that was read for them beside the proposal has changed since, the new rows are made here. Where they
    /// still fit, one row is made: the node's, which gets its rank.
    pub fn commit_ready<R: Wait>(
        &mut self,
        rt: &R,
        proposal: &Proposal,
        ready: Option<Ready>,
        reader: &mut Reader<S>,
    ) -> Result<Receipt, CommitError>
        requires of_book { All (IsOfBook S.book) proposal.now.rests_on }
        requires bound { proposal.now.bound ≡ S.book.bound }
        requires ready { IfSome ready (IsReadyFor proposal.now) }
        requires beside { IfSome ready (λ r. All (IsOfBook S.book) r.beside) }
        ensures ok { IfOk result (λ receipt. IsContracted self.old proposal.now.node proposal.now.shortcuts receipt self.new) }
        ensures err { OnErr result (self.new ≡ self.old) }
        ensures seen { IfOk result (λ _. (x : ℕ) → IsNode self.new x → slice_index reader.new x ≡ version_now self.new x) }
        ensures unseen { OnErr result (reader.new ≡ reader.old) }
        ensures risen { IsBelow reader.old reader.new }
        ensures contracted { (result ≡ Err commits.Contracted) ↔ IsContractedYet self.old proposal.now }
        ensures stale { (node seen now front : ℕ) → (result ≡ Err (commits.Stale node seen now front)) ↔ IsStale self.old proposal.now node seen now front }
        ensures slot { result ≡ Err commits.Slot → IsRefusedAPlace S.book self.old proposal.now.node proposal.now.shortcuts }
    {
        match self.accept(rt, proposal, ready) {
            Ok(receipt) => {
                self.pen.synchronise(reader);
                Ok(receipt)
            }
            Err(refused) => Err(refused),
        }
    }

    /// Commits a proposal, by the new rows that were made for it before if there are some. The public calls are this one,
    /// and a reader that gets the versions.
    fn accept<R: Wait>(
        &mut self,
        rt: &R,
        proposal: &Proposal,
        ready: Option<Ready>,
    ) -> Result<Receipt, CommitError>
        requires of_book { All (IsOfBook S.book) proposal.now.rests_on }
        requires bound { proposal.now.bound ≡ S.book.bound }
        requires ready { IfSome ready (IsReadyFor proposal.now) }
        requires beside { IfSome ready (λ r. All (IsOfBook S.book) r.beside) }
        ensures ok { IfOk result (λ receipt. IsContracted self.old proposal.now.node proposal.now.shortcuts receipt self.new) }
        ensures err { OnErr result (self.new ≡ self.old) }
        ensures contracted { (result ≡ Err commits.Contracted) ↔ IsContractedYet self.old proposal.now }
        ensures stale { (node seen now front : ℕ) → (result ≡ Err (commits.Stale node seen now front)) ↔ IsStale self.old proposal.now node seen now front }
        ensures slot { result ≡ Err commits.Slot → IsRefusedAPlace S.book self.old proposal.now.node proposal.now.shortcuts }
    {
        agreement_is_lawful();
        if let Some(refused) = refusal(&self.ledger, proposal) {
            return Err(refused);
        }
        self.agree(proposal);
        let prepared = self.fitting(proposal, ready);
        match self.contract(rt, proposal.node(), proposal.shortcuts(), prepared) {
            Ok(handed) => Ok(handed),
            Err(BookError::OutOfMemory) => Err(CommitError::OutOfMemory),
            Err(BookError::Slot) => Err(CommitError::Slot),
        }
    }

    /// A law: rows of the book whose versions are current are the board's. It does nothing when it runs but look at their
    /// records.
    fn agree(&self, proposal: &Proposal)
        requires of_book { All (IsOfBook S.book) proposal.now.rests_on }
        requires bound { proposal.now.bound ≡ S.book.bound }
        requires current { NoneIsOld self.now proposal.now.rests_on }
        ensures agrees { Agrees self.now proposal.now }
        ensures holds { IsLedger self.now }
    {
        self.ledger.holds();
        self.agree_all(proposal.rests_on());
    }

    /// The same law of a list of rows.
    fn agree_all(&self, rows: &[Seen])
        requires of_book { All (IsOfBook S.book) rows.now }
        requires current { NoneIsOld self.now rows.now }
        ensures { All (IsRowOf self.now) rows.now }
    {
        'rows: for seen in rows {
            self.pen.agrees(seen);
        }
    }

    /// The new rows that were made before, where the rows that were read for them beside the proposal are current. Those
    /// that the proposal rests on are.
    fn fitting(&self, proposal: &Proposal, ready: Option<Ready>) -> Option<Prepared>
        requires agrees { Agrees self.now proposal.now }
        requires lawful { AreLawful self.now proposal.now.node proposal.now.shortcuts }
        requires ready { IfSome ready (IsReadyFor proposal.now) }
        requires beside { IfSome ready (λ r. All (IsOfBook S.book) r.beside) }
        ensures { IfSome result (FitsLedger self.now proposal.now.node proposal.now.shortcuts) }
    {
        let Ready { prepared, beside } = ready?;
        if !are_current(&self.ledger, beside.as_slice()) {
            return None;
        }
        self.agree_all(beside.as_slice());
        Some(prepared)
    }

    /// Contracts a node and puts these shortcuts in, by new rows that were made before if there are some. They are laid,
    /// and then shown.
    fn contract<R: Wait>(
        &mut self,
        rt: &R,
        node: u32,
        shortcuts: &[Shortcut],
        prepared: Option<Prepared>,
    ) -> Result<Receipt, BookError>
        requires lawful { AreLawful self.old node shortcuts.now }
        requires fits { IfSome prepared (FitsLedger self.old node shortcuts.now) }
        ensures ok { IfOk result (λ receipt. IsContracted self.old node shortcuts.now receipt self.new) }
        ensures err { OnErr result (self.new ≡ self.old) }
        ensures slot { result ≡ Err books.Slot → IsRefusedAPlace S.book self.old node shortcuts.now }
    {
        self.ledger.holds();
        changes_are_sound();
        let alloc = self.ledger.allocator();
        let planned = self.ledger.planned(node, shortcuts, prepared)?;
        let room: Vec<u64> = Vec::with_capacity(alloc, planned.rows().len())?;
        let laid = self.pen.lay_all(rt, alloc, planned.rows())?;
        let versions = versions_of(room, laid.as_slice())?;
        self.pen.show_all(laid.as_slice());
        let receipt = self.ledger.enter(planned, versions.as_slice());
        self.ledger.holds();
        Ok(receipt)
    }

    /// Contracts each node that isn't contracted, by rising number, by proposals whose searches settle at most
    /// `settle` nodes (1 to 65,536), and returns their receipts.
    ///
    /// The more nodes a search settles, the fewer shortcuts are put in, and the longer the sweep takes. After a refusal
    /// the contractions that were made are in the log. Takes memory for the receipts, for the searches, and for the
    /// rows that change, and waits as [`Board::commit`] does.
    pub fn sweep<R: Wait>(&mut self, rt: &R, settle: u32) -> Result<Vec<Receipt>, SweepError>
        requires low { 0 < settle }
        requires high { settle ≤ 65536 }
        ensures swept { IfOk result (λ receipts. IsSwept self.old receipts.items self.new) }
        ensures refused { OnErr result (IsPartlySwept self.old self.new) }
    {
        let nodes = self.overlay().nodes();
        let alloc = self.ledger.allocator();
        let mut scratch = Scratch::new(alloc);
        let mut receipts = Vec::with_capacity(alloc, self.overlay().alive() as usize)?;
        'nodes: for node in 0..nodes {
            self.visit(rt, node, settle, &mut scratch, &mut receipts)?;
        }
        Ok(receipts)
    }

    /// Contracts the node unless it is contracted already, and puts its receipt behind the others.
    fn visit<R: Wait>(
        &mut self,
        rt: &R,
        node: u32,
        settle: u32,
        scratch: &mut Scratch,
        receipts: &mut Vec<Receipt>,
    ) -> Result<(), SweepError>
        requires in_range { IsNode self.old node }
        requires low { 0 < settle }
        requires high { settle ≤ 65536 }
        ensures ok { IfOk result (λ _. IsVisited self.old node receipts.old.items self.new receipts.new.items) }
        ensures err { OnErr result (self.new ≡ self.old) }
    {
        if !self.is_alive(node) {
            return Ok(());
        }
        receipts.reserve(1)?;
        let proposal = self.proposed(node, settle, scratch)?;
        let receipt = self.taken(rt, proposal)?;
        receipts.push_reserved(receipt);
        Ok(())
    }

    /// Whether a node isn't contracted.
    fn is_alive(&self, node: u32) -> bool
        requires { IsNode self.now node }
        ensures { IsTrue result ↔ IsAlive (state_of self.now.overlay) node }
    {
        self.holds();
        self.overlay().row(node).rank.is_none()
    }

    /// A proposal of a node that isn't contracted, by the rows as they are.
    fn proposed(
        &mut self,
        node: u32,
        settle: u32,
        scratch: &mut Scratch,
    ) -> Result<Proposal, AllocError>
        requires alive { IsAlive (state_of self.old.overlay) node }
        requires low { 0 < settle }
        requires high { settle ≤ 65536 }
        ensures node { IfOk result (λ p. p.node ≡ node) }
        ensures of_book { IfOk result (λ p. All (IsOfBook S.book) p.rests_on) }
        ensures bound { IfOk result (λ p. p.bound ≡ S.book.bound) }
        ensures current { IfOk result (λ p. NoneIsOld self.old p.rests_on) }
        ensures same { self.new ≡ self.old }
    {
        self.holds();
        let alloc = self.ledger.allocator();
        match propose_with(alloc, self, scratch, node, settle) {
            Ok(proposal) => Ok(proposal),
            Err(ProposeError::OutOfMemory) => Err(AllocError),
            Err(ProposeError::Unseen) => unreachable!(),
            Err(ProposeError::Contracted) => unreachable!(),
        }
    }

    /// Contracts the node of a proposal by rows that are all current.
    fn taken<R: Wait>(&mut self, rt: &R, proposal: Proposal) -> Result<Receipt, SweepError>
        requires waits { IsContractedYet self.old proposal → ⊥ }
        requires of_book { All (IsOfBook S.book) proposal.rests_on }
        requires bound { proposal.bound ≡ S.book.bound }
        requires current { NoneIsOld self.old proposal.rests_on }
        ensures ok { IfOk result (λ receipt. IsContracted self.old proposal.node proposal.shortcuts receipt self.new) }
        ensures err { OnErr result (self.new ≡ self.old) }
    {
        match self.commit(rt, proposal) {
            Ok(receipt) => Ok(receipt),
            Err(CommitError::OutOfMemory) => Err(SweepError::OutOfMemory),
            Err(CommitError::Slot) => Err(SweepError::Slot),
            Err(CommitError::Contracted) => unreachable!(),
            Err(CommitError::Stale { .. }) => unreachable!(),
        }
    }

    /// Returns the hierarchy that the contractions lead to: the rank of a node is the number of nodes that were
    /// contracted before it, and the links are the arcs that the rows have, by their ends. It is right for the graph.
    ///
    /// Refused while a node isn't contracted, which is tested first, or where memory runs out; the board is returned as
    /// it was. Takes memory for the ranks, the links, their index and the places of their halves, and the time of a sort of
    /// the links.
    pub fn into_hierarchy(self) -> Result<Hierarchy, (Board<S>, FinishError)>
        ensures made { IfOk result (λ h. IsMade self.graph (state_of self.overlay) h) }
        ensures right { IfOk result (λ h. IsRight S.graph h) }
        ensures left { IsErrOf result (self, FinishError.NodesLeft) ↔ HasNodesLeft self }
        ensures back { IfErr result (λ refused. refused.0 ≡ self) }
    {
        match hierarchy_of(&self.ledger) {
            Ok(hierarchy) => Ok(hierarchy),
            Err(error) => Err((self, error)),
        }
    }
}

/// The versions of these rows, in order, in the memory of an empty list that has room for them.
fn versions_of<S: Site>(room: Vec<u64>, laid: &[Laid<S>]) -> Result<Vec<u64>, AllocError>
    requires { room.items ≡ [] }
    ensures { IfOk result (λ versions. versions.items ≡ map (λ l. l.token.index) laid.now) }
{
    let mut versions = room;
    'laid: for at in 0..laid.len() {
        versions.push(laid[at].version())?;
    }
    Ok(versions)
}

/// A board shows its rows as they are, and is left as it is when they are read.
impl<S: Site> RowSource for Board<S> {
    ghost use Rattle.std.specs.Prelude.{◌≡◌, ◌↔◌, ◌<◌, ℕ, IfOk, OnErr, length, refl};
    ghost use Rattle.std.proofs.Common.{sym, subst, ◌∙◌};
    ghost use Rattle.ch_overlay.specs.declared.source.Seen.{Seen};
    ghost use Rattle.ch_overlay.specs.declared.source.SeeError.TheVariants as see;
    ghost use Rattle.ch_overlay.specs.Source.{row_in, IsBound, IsSeenRow, NamesAlone};
    ghost use Rattle.ch_rowbook.specs.Books.{IsOfBook};
    ghost use Rattle.ch_contract.specs.Ledger as ledgers;
    ghost use Rattle.ch_contract.specs.Ledger.{IsNode};
    ghost use Rattle.ch_contract.specs.Commit.{IsShown};

    ghost bears = { λ s. IsOfBook S.book s };

    ghost shows = { λ b s. IsShown b s };

    ghost stays = { λ a b. b ≡ a };

    ghost whole = { λ b x. IsNode b x };

    ghost bound_of = { λ _. S.book.bound };

    fn row_of(&mut self, node: u32) -> Result<Seen, SeeError>
        ensures node { IfOk result (λ seen. seen.node ≡ node) }
        ensures row { IfOk result (IsSeenRow S.book.bound) }
        ensures bound { IsBound S.book.bound }
        ensures bears { IfOk result (IsOfBook S.book) }
        ensures shows { IfOk result (IsShown self.new) }
        ensures stays { self.new ≡ self.old }
        ensures found { IsNode self.old node → result ≡ Err see.Unseen → ⊥ }
        ensures names { IsNode self.old node → IfOk result (λ seen. NamesAlone (IsNode self.new) (row_in seen)) }
        ensures kept { OnErr result (self.new ≡ self.old) }
        ensures unseen { (result ≡ Err see.Unseen) ↔ (IsNode self.old node → ⊥) }
    {
        shown(&self.ledger, &self.pen, node)
    }

    fn bound(&self) -> Cost {
        self.ledger.holds();
        bounds_fit();
        self.ledger.overlay().bound()
    }

    ghost stays_self = { λ a. refl };

    ghost stays_more = { λ a b c e f. f ∙ e };

    ghost still_shows = { λ a b s e h. subst (λ (b : ledgers.Ledger). IsShown b s) (sym e) h };

    ghost still_whole = { λ a b x e h. subst (λ (b : ledgers.Ledger). IsNode b x) (sym e) h };

    ghost same_bound = { λ a b e. refl };
}
