ghost use Rattle.std.specs.Prelude.{◌≡◌, ◌+◌, ◌<◌, ◌∷◌, List, Some, IfOk, All, AllPairs, length, map, slice_index};
ghost use Rattle.std.specs.List.{zip};
ghost use Rattle.std.specs.Arc.{arc_value};
ghost use Rattle.ch_laws.specs.declared.shortcut.Shortcut.{Shortcut};
ghost use Rattle.ch_laws.specs.Contraction.{IsPlan, contracted};
ghost use Rattle.ch_overlay.specs.Opening.{AreLeast, AreOpening};
ghost use Rattle.ch_overlay.specs.Overlay.{IsOverlay, IsStartOverlay, row_at, state_of};
ghost use Rattle.ch_overlay.specs.Records.{AreSoundRows, ChangesAreSound};
ghost use Rattle.ch_overlay.specs.Prepared.{Fits};
ghost use Rattle.ch_overlay.specs.Change.{AreRenewed, IsChange, IsOf, changed_nodes, puts};

use crate::change::{Change, put_rows, put_versions};
use crate::least::least_arcs;
use crate::opening::{first_versions, rows_of, shared, shared_rows};
use crate::prepared::{Prepared, prepare, ranked_row};
use crate::row::Row;
use ch_cost::Cost;
use ch_graph::{Graph, Road};
use ch_laws::{
    Shortcut, rows_are_the_state, rows_of_alive_nodes_show_what_remains,
    rows_of_least_arcs_are_the_start, updated_rows_are_the_next,
};
use std::alloc::{AllocError, Global};
use std::marker::Model;
use std::sync::Arc;
use std::thread::Threads;

/// The rows of a graph's nodes under contraction, and a version number for each.
///
/// A row that changes gets a new version, so that equal versions of a node mean equal rows.
#[derive(Drop)]
pub struct Overlay {
    bound: Cost,
    rows: Vec<Arc<Row>>,
    versions: Vec<u64>,
    order: Vec<u32>,
}

impl Model for Overlay {
    ghost use Rattle.std.specs.Prelude.{◌≤◌, length, map, vec_capacity};
    ghost use Rattle.std.specs.Arc.{arc_value};
    ghost use Rattle.ch_overlay.specs.Overlay as overlays;

    ghost Value = { overlays.Overlay };

    ghost view = { λ o. record { bound = o.bound; rows = map arc_value o.rows.items; versions = o.versions.items; order = o.order.items } };

    ghost invariant = { λ o. overlays.IsOverlay (record { bound = o.bound; rows = map arc_value o.rows.items; versions = o.versions.items; order = o.order.items }) × (length o.rows.items ≤ vec_capacity o.order) };
}

impl Overlay {
    /// Returns the rows of a graph in which no node is contracted: for each ordered pair of different nodes that has
    /// an arc, the least one. Node x has the version x.
    ///
    /// Takes memory for the rows and, while it works, for a copy of the arcs, and the time of a sort of these.
    pub fn start(alloc: Global, graph: &Graph) -> Result<Overlay, AllocError>
        ensures { IfOk result (IsStartOverlay graph.now) }
    {
        let least = least_arcs(alloc, graph.arcs())?;
        let rows = rows_of(alloc, least.as_slice(), 0, graph.nodes())?;
        Overlay::opened(alloc, graph, least.as_slice(), shared(alloc, rows)?)
    }

    /// The same rows as [`Overlay::start`] makes, by up to this many threads, for which it waits. One thread sorts the
    /// arcs.
    pub fn start_by<R: Threads + Sync>(
        rt: &R,
        alloc: Global,
        graph: &Graph,
        threads: u32,
    ) -> Result<Overlay, AllocError>
        ensures { IfOk result (IsStartOverlay graph.now) }
    {
        let least = least_arcs(alloc, graph.arcs())?;
        let rows = shared_rows(rt, alloc, least.as_slice(), 0, graph.nodes(), threads)?;
        Overlay::opened(alloc, graph, least.as_slice(), rows)
    }

    /// The overlay of a graph in which no node is contracted, with these rows.
    fn opened(
        alloc: Global,
        graph: &Graph,
        least: &[Road],
        rows: Vec<Arc<Row>>,
    ) -> Result<Overlay, AllocError>
        requires least { AreLeast graph.now.arcs least.now }
        requires rows { AreOpening least.now 0 graph.now.nodes (map arc_value rows.items) }
        ensures { IfOk result (IsStartOverlay graph.now) }
    {
        rows_of_least_arcs_are_the_start();
        let nodes = graph.nodes();
        let versions = first_versions(alloc, nodes)?;
        let order = Vec::with_capacity(alloc, nodes as usize)?;
        Ok(Overlay {
            bound: graph.bound(),
            rows,
            versions,
            order,
        })
    }

    /// Returns the number of nodes, contracted or not.
    pub fn nodes(&self) -> u32
        ensures count { result ≡ length self.now.rows }
        ensures holds { IsOverlay self.now }
    {
        self.rows.len() as u32
    }

    /// Returns the number of nodes that aren't contracted.
    pub fn alive(&self) -> u32
        ensures { result + length self.now.order ≡ length self.now.rows }
    {
        (self.rows.len() - self.order.len()) as u32
    }

    /// How many nodes are contracted.
    fn contracted(&self) -> u32
        ensures { result ≡ length self.now.order }
    {
        self.order.len() as u32
    }

    /// Returns what no cost of an entry is above: the bound of the graph.
    pub fn bound(&self) -> Cost
        ensures { result ≡ self.now.bound }
    {
        self.bound
    }

    /// Returns the row of a node, which is in range.
    pub fn row(&self, node: u32) -> &Arc<Row>
        requires { node < length self.now.rows }
        ensures { arc_value result.now ≡ row_at self.now.rows node }
    {
        &self.rows[node as usize]
    }

    /// Returns the rows of all nodes, by their numbers.
    pub fn rows(&self) -> &[Arc<Row>]
        ensures rows { map arc_value result.now ≡ self.now.rows }
        ensures sound { AreSoundRows self.now.bound self.now.rows }
    {
        self.rows.as_slice()
    }

    /// Returns the version of a node's row. The node is in range.
    pub fn version(&self, node: u32) -> u64
        requires { node < length self.now.rows }
        ensures { result ≡ slice_index self.now.versions node }
    {
        self.versions[node as usize]
    }

    /// Gives each node's row a version anew: these are the versions so far. Nothing else changes. Takes no memory.
    pub fn renumber(&mut self, versions: &[u64])
        requires count { length versions.now ≡ length self.old.rows }
        ensures { self.new ≡ record self.old { versions = versions.now } }
    {
        self.versions.as_mut_slice().copy_from_slice(versions);
    }

    /// Returns the new rows of a contraction of `node` that puts these shortcuts in. Nothing changes yet.
    ///
    /// The node isn't contracted. Each shortcut is from a node with an arc to `node` to another one with an arc from
    /// it, at most one for each pair, and costs the sum of the two arcs, at most the bound and less than the arc of
    /// the pair where it has one. Takes memory for the rows; sorts the shortcuts, and is linear in the entries of the
    /// rows otherwise.
    pub fn plan(&self, node: u32, shortcuts: &[Shortcut]) -> Result<Change, AllocError>
        requires { IsPlan self.now.bound (state_of self.now) node shortcuts.now }
        ensures node { IfOk result (λ change. change.node ≡ node) }
        ensures change { IfOk result (λ change. IsChange self.now shortcuts.now change) }
    {
        let alloc = *self.rows.allocator();
        let row = self.row(node);
        let nodes = row.named(alloc)?;
        let near = near_rows(alloc, self.rows.as_slice(), nodes.as_slice())?;
        let prepared = prepare(alloc, node, row, near.as_slice(), shortcuts)?;
        let change = self.plan_by(prepared)?;
        Ok(change)
    }

    /// Returns the change of rows that were made before: the node gets its rank, the number of nodes that are contracted.
    /// Nothing changes yet. It is the change of [`Overlay::plan`] where the rows fit, and takes memory for one row.
    pub fn plan_by(&self, prepared: Prepared) -> Result<Change, AllocError>
        ensures node { IfOk result (λ change. change.node ≡ prepared.node) }
        ensures rows { IfOk result (λ change. change.rows ≡ (prepared.node, record prepared.row { rank = Some (length self.now.order) }) ∷ prepared.others) }
        ensures change { IfOk result (λ change. (put : List Shortcut) → Fits self.now put prepared → IsChange self.now put change) }
    {
        rows_of_alive_nodes_show_what_remains();
        let alloc = *self.rows.allocator();
        let Prepared { node, row, others } = prepared;
        let ranked = ranked_row(alloc, row, self.contracted())?;
        let mut rows = others;
        rows.insert(0, (node, ranked))?;
        Ok(Change { node, rows })
    }

    /// Contracts the node of a change, which was planned from this overlay: its rows become the rows of their nodes,
    /// with these versions, one for each in the order of [`Change::rows`], rising, and above all that were given so
    /// far.
    ///
    /// Takes no memory, and looks at no other row.
    pub fn apply(&mut self, change: Change, versions: &[u64])
        requires planned { IsOf self.old change }
        requires count { length versions.now ≡ length change.rows }
        requires rising { AllPairs (λ a b. a < b) versions.now }
        requires above { All (λ a. All (λ b. a < b) versions.now) self.old.versions }
        ensures state { (put : List Shortcut) → IsChange self.old put change → state_of self.new ≡ contracted (state_of self.old) change.node put }
        ensures rows { self.new.rows ≡ puts self.old.rows change.rows }
        ensures versions { self.new.versions ≡ puts self.old.versions (zip (changed_nodes change) versions.now) }
        ensures renewed { AreRenewed (changed_nodes change) self.old.versions self.new.versions }
        ensures bound { self.new.bound ≡ self.old.bound }
        ensures holds { IsOverlay self.new }
    {
        updated_rows_are_the_next();
        rows_are_the_state();
        let Change { node, rows } = change;
        put_versions(self.versions.as_mut_slice(), rows.as_slice(), versions);
        put_rows(self.rows.as_mut_slice(), rows);
        self.order.push_reserved(node);
    }
}

/// The rows of a change can be relied on, as those of the overlay that it was planned from. It does nothing when it
/// runs.
pub fn changes_are_sound()
    ensures { ChangesAreSound }
{
    updated_rows_are_the_next();
    rows_are_the_state();
}

/// The rows of these nodes, each with its node.
fn near_rows<'a>(
    alloc: Global,
    rows: &'a [Arc<Row>],
    nodes: &[u32],
) -> Result<Vec<(u32, &'a Row)>, AllocError>
    requires { All (λ x. x < length rows.now) nodes.now }
    ensures nodes { IfOk result (λ near. map (λ a. a.0) near.items ≡ nodes.now) }
    ensures rows { IfOk result (λ near. All (λ a. a.1.now ≡ row_at (map arc_value rows.now) a.0) near.items) }
{
    let mut near = Vec::with_capacity(alloc, nodes.len())?;
    for node in nodes {
        let row: &Row = &rows[*node as usize];
        near.push((*node, row))?;
    }
    Ok(near)
}
