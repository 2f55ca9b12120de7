ghost use Rattle.std.specs.Prelude.{◌≡◌, ◌+◌, ◌<◌, ◌^◌, ℕ, List, ◌↔◌, IfOk, IfSome, IsFalse, IsTrue, All, length, map, drop};
ghost use Rattle.std.specs.List.{zip, range_with_len};
ghost use Rattle.std.specs.Arc.{arc_value};
ghost use Rattle.ch_laws.specs.declared.shortcut.Shortcut.{Shortcut};
ghost use Rattle.ch_laws.specs.Contraction.{IsOver, IsPlan};
ghost use Rattle.ch_overlay.specs.Overlay.{IsStartOverlay, state_of};
ghost use Rattle.ch_overlay.specs.Change.{IsChange, puts, changed_nodes};
ghost use Rattle.ch_overlay.specs.Prepared.{Fits};
ghost use Rattle.ch_contract.specs.Ledger.{IsLedger, IsStartLedger, IsLog, AreLawful, IsContracted, versions_now};
ghost use Rattle.ch_contract.specs.Ledger as ledgers;
ghost use Rattle.ch_contract.specs.Finish.{HasNodesLeft, IsFinish};
ghost use Rattle.ch_contract.specs.Planned.{IsPlanned, WasPlanned, AreNewVersions};
ghost use Rattle.ch_contract.specs.Planned as plans;
ghost use Rattle.ch_contract.specs.Ready.{FitsLedger};

use crate::contraction::{Contraction, Receipt};
use crate::error::FinishError;
use crate::finish::{Finished, plain_hierarchy_of};
use ch_graph::Graph;
use ch_laws::{plan_is_lawful, reached_goes_on};
use ch_overlay::{Change, Overlay, Prepared, Row, Shortcut};
use std::alloc::{AllocError, Global};
use std::marker::Model;
use std::sync::Arc;
use std::thread::Threads;

/// A graph whose nodes are contracted one by one: its rows, and the log of the contractions that made them.
///
/// Whatever happens to a ledger, its rows are those that its log leads to from its graph by lawful contractions: each
/// pair of neighbours of a contracted node got a shortcut, was heavy, or had another walk as cheap. The versions of its
/// rows come from its caller: a [`Board`](crate::Board) takes those of its book, others [`versions_from`].
#[derive(Drop)]
pub struct Ledger {
    alloc: Global,
    graph: Graph,
    overlay: Overlay,
    log: Vec<Contraction>,
}

impl Model for Ledger {
    ghost use Rattle.std.specs.Prelude.{◌≤◌, length, vec_capacity};
    ghost use Rattle.ch_contract.specs.Ledger as ledgers;

    ghost Value = { ledgers.Ledger };

    ghost view = { λ l. record { graph = l.graph; overlay = l.overlay; log = l.log.items } };

    ghost invariant = { λ l. ledgers.IsLedger (record { graph = l.graph; overlay = l.overlay; log = l.log.items }) × (length l.overlay.rows ≤ vec_capacity l.log) };
}

/// A contraction whose new rows are made and whose entry is written, and that isn't entered yet.
#[derive(Drop)]
pub struct Planned {
    change: Change,
    entry: Contraction,
}

impl Model for Planned {
    ghost use Rattle.ch_contract.specs.Planned as planned;

    ghost Value = { planned.Planned };

    ghost view = { λ p. record { change = p.change; entry = p.entry } };
}

impl Planned {
    /// Returns the new rows, each with its node: first the row of the contracted node, and then those of its
    /// neighbours, by rising number.
    pub fn rows(&self) -> &[(u32, Arc<Row>)]
        ensures { map (λ a. (a.0, arc_value a.1)) result.now ≡ self.now.change.rows }
    {
        self.change.rows()
    }
}

impl Ledger {
    /// Returns the ledger of this graph, with no node contracted. Node x has the version x.
    ///
    /// Takes memory for the rows, an entry for each end of an arc, and for the log of all contractions.
    pub fn new(alloc: Global, graph: Graph) -> Result<Ledger, AllocError>
        ensures { IfOk result (IsStartLedger graph) }
    {
        let overlay = Overlay::start(alloc, &graph)?;
        Ledger::opened(alloc, graph, overlay)
    }

    /// The same ledger as [`Ledger::new`] makes. Up to this many threads make its rows.
    pub fn new_by<R: Threads + Sync>(
        rt: &R,
        alloc: Global,
        graph: Graph,
        threads: u32,
    ) -> Result<Ledger, AllocError>
        ensures { IfOk result (IsStartLedger graph) }
    {
        let overlay = Overlay::start_by(rt, alloc, &graph, threads)?;
        Ledger::opened(alloc, graph, overlay)
    }

    /// The ledger of this graph and its opening rows, with no node contracted.
    fn opened(alloc: Global, graph: Graph, overlay: Overlay) -> Result<Ledger, AllocError>
        requires { IsStartOverlay graph overlay }
        ensures { IfOk result (IsStartLedger graph) }
    {
        let nodes = overlay.nodes();
        let log = Vec::with_capacity(alloc, nodes as usize)?;
        Ok(Ledger {
            alloc,
            graph,
            overlay,
            log,
        })
    }

    /// Returns the graph that the ledger was made of.
    pub fn graph(&self) -> &Graph
        ensures { result.now ≡ self.now.graph }
    {
        &self.graph
    }

    /// Returns the rows of the nodes, as the contractions so far left them.
    pub fn overlay(&self) -> &Overlay
        ensures { result.now ≡ self.now.overlay }
    {
        &self.overlay
    }

    /// Returns what was done so far, first to last: the contraction of the node of rank k is at k.
    pub fn log(&self) -> &[Contraction]
        ensures entries { result.now ≡ self.now.log }
        ensures log { IsLog self.now.log }
        ensures holds { IsLedger self.now }
    {
        self.log.as_slice()
    }

    /// Whether each node is contracted. Takes no memory, and a time that doesn't depend on their number.
    pub fn is_over(&self) -> bool
        ensures over { IsTrue result ↔ IsOver (state_of self.now.overlay) }
        ensures left { IsFalse result ↔ HasNodesLeft self.now }
    {
        self.holds();
        self.overlay().alive() == 0
    }

    /// A law: what always holds of a ledger.
    pub fn holds(&self)
        ensures { IsLedger self.now }
    {
        let _ = self.log.len();
    }

    /// Returns the hierarchy that the contractions lead to, the log, and the rows: the rank of a node is the number
    /// of nodes that were contracted before it, and the links are the arcs that the rows have, by their ends. It is
    /// right for the graph, and has no index yet, so that the rows can be dropped before or beside the making of one.
    ///
    /// Refused while a node isn't contracted, which is tested first, or where memory runs out; the ledger is returned as
    /// it was. Takes memory for the ranks and the links, and the time of a sort of these.
    pub fn finish(self) -> Result<Finished, (Ledger, FinishError)>
        ensures { IsFinish self result }
    {
        match plain_hierarchy_of(&self) {
            Ok(hierarchy) => Ok(Finished {
                hierarchy,
                log: self.log,
                rows: self.overlay,
            }),
            Err(error) => Err((self, error)),
        }
    }

    /// What its rows and its log are allocated by.
    pub(crate) fn allocator(&self) -> Global {
        self.alloc
    }

    /// Gives each node's row a version anew. Nothing else changes. Takes no memory.
    pub fn renumber(&mut self, versions: &[u64])
        requires { length versions.now ≡ length self.old.overlay.rows }
        ensures { self.new ≡ record self.old { overlay = record self.old.overlay { versions = versions.now } } }
    {
        self.overlay.renumber(versions);
    }

    /// Returns the contraction of a node that puts these shortcuts in. Nothing changes yet, and nothing can be
    /// refused any more. Takes memory for the new rows and the entry.
    pub fn plan(&self, node: u32, shortcuts: &[Shortcut]) -> Result<Planned, AllocError>
        requires { AreLawful self.now node shortcuts.now }
        ensures { IfOk result (λ planned. IsPlanned self.now node shortcuts.now planned) }
    {
        self.planned(node, shortcuts, None)
    }

    /// The same contraction, by new rows that were made before if there are some.
    pub(crate) fn planned(
        &self,
        node: u32,
        shortcuts: &[Shortcut],
        prepared: Option<Prepared>,
    ) -> Result<Planned, AllocError>
        requires lawful { AreLawful self.now node shortcuts.now }
        requires fits { IfSome prepared (FitsLedger self.now node shortcuts.now) }
        ensures { IfOk result (λ planned. IsPlanned self.now node shortcuts.now planned) }
    {
        let rank = self.overlay.nodes() - self.overlay.alive();
        let change = change_of(&self.overlay, node, shortcuts, prepared)?;
        let neighbours = neighbours_in(self.alloc, change.rows())?;
        let entry = Contraction {
            node,
            rank,
            neighbours,
            shortcuts: shortcuts.len() as u64,
        };
        Ok(Planned { change, entry })
    }

    /// Contracts the node of what was planned: the new rows become current, with these versions, one for each in the
    /// order of [`Planned::rows`], rising, and above all that were given so far; and the entry is at the end of the
    /// log. Takes no memory.
    pub fn enter(&mut self, planned: Planned, versions: &[u64]) -> Receipt
        requires planned { WasPlanned self.old planned }
        requires versions { AreNewVersions self.old planned versions.now }
        ensures contracted { (node : ℕ) (put : List Shortcut) → IsPlanned self.old node put planned → IsContracted self.old node put result self.new }
        ensures rows { self.new.overlay.rows ≡ puts self.old.overlay.rows planned.change.rows }
        ensures versions { versions_now self.new ≡ puts (versions_now self.old) (zip (changed_nodes planned.change) versions.now) }
    {
        let Planned { change, entry } = planned;
        let receipt = Receipt {
            node: entry.node,
            rank: entry.rank,
        };
        plan_is_lawful();
        reached_goes_on();
        self.overlay.apply(change, versions);
        self.log.push_reserved(entry);
        receipt
    }
}

/// Returns this many versions, from this one on. New rows may get them where all earlier ones are below.
pub fn versions_from(alloc: Global, first: u64, count: usize) -> Result<Vec<u64>, AllocError>
    requires { first + count < 2 ^ 64 }
    ensures items { IfOk result (λ versions. versions.items ≡ range_with_len first count) }
    ensures new { IfOk result (λ versions. (l : ledgers.Ledger) (p : plans.Planned) → count ≡ length p.change.rows → All (λ v. v < first) (versions_now l) → AreNewVersions l p versions.items) }
{
    let mut versions = Vec::with_capacity(alloc, count)?;
    for i in 0..count as u64 {
        versions.push(first + i)?;
    }
    Ok(versions)
}

/// The change that contracts a node and puts these shortcuts in, by new rows that were made before if there are some.
fn change_of(
    overlay: &Overlay,
    node: u32,
    shortcuts: &[Shortcut],
    prepared: Option<Prepared>,
) -> Result<Change, AllocError>
    requires plan { IsPlan overlay.now.bound (state_of overlay.now) node shortcuts.now }
    requires node { IfSome prepared (λ p. p.node ≡ node) }
    requires fits { IfSome prepared (Fits overlay.now shortcuts.now) }
    ensures node { IfOk result (λ change. change.node ≡ node) }
    ensures change { IfOk result (λ change. IsChange overlay.now shortcuts.now change) }
{
    match prepared {
        Some(prepared) => overlay.plan_by(prepared),
        None => overlay.plan(node, shortcuts),
    }
}

/// The nodes of the rows behind the first.
fn neighbours_in(alloc: Global, rows: &[(u32, Arc<Row>)]) -> Result<Vec<u32>, AllocError>
    requires { 0 < length rows.now }
    ensures { IfOk result (λ nodes. nodes.items ≡ map (λ row. row.0) (drop 1 rows.now)) }
{
    rows[1..].iter().map(|row| row.0).collect(alloc)
}
