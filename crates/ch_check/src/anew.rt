ghost use Rattle.std.specs.Prelude.{◌≡◌, ◌≢◌, ◌≤◌, ◌^◌, ℕ, [], Contains, OnOk};
ghost use Rattle.ch_graph.specs.Graph.{Graph};
ghost use Rattle.ch_laws.specs.Contraction.{IsAlive};
ghost use Rattle.ch_overlay.specs.Overlay.{state_of};
ghost use Rattle.ch_overlay.specs.Source.{IsBound};
ghost use Rattle.ch_witness.specs.Kept.{kept_of};
ghost use Rattle.ch_check.specs.Pairs.{AreJoined, AreRowsOf, AreSorted, IsAdded, IsAnew, IsDue, IsOpenRow, Joins, share_of};
ghost use Rattle.ch_check.specs.Replay.{IsReplay, MayPut};

use crate::buffers::Buffers;
use crate::overlay_rows::open_row;
use crate::pairs::{has_direct, has_two_arcs};
use ch_laws::{Entry, Shortcut, bounds_fit, verdicts_are_lawful};
use ch_overlay::{Overlay, Row, light_pair};
use std::alloc::AllocError;

/// A contraction whose shortcuts no hierarchy names.
#[derive(Clone, Copy)]
pub struct AnewTask<'a> {
    /// The rows as the contractions so far left them.
    pub overlay: &'a Overlay,
    /// The node.
    pub node: u32,
    /// Its row.
    pub row: &'a Row,
    /// How many nodes a search settles at most.
    pub settle: u32,
}

/// Works out the shortcuts of a contraction of a node, and leaves them in the buffers.
///
/// A pair of neighbours gets one unless it is heavy, or there is a way around the node that costs at most as much: of one
/// arc, of two, or one that a search finds that settles at most `settle` nodes. Takes memory for the rows that are read.
pub fn work_out_anew(
    overlay: &Overlay,
    buffers: &mut Buffers,
    node: u32,
    settle: u32,
) -> Result<(), AllocError>
    requires reached { (g : Graph) × IsReplay (record { graph = g; overlay = overlay.now }) }
    requires alive { IsAlive (state_of overlay.now) node }
    requires some { 1 ≤ settle }
    requires few { settle ≤ 2 ^ 16 }
    ensures { OnOk result (MayPut overlay.now node buffers.new.shortcuts.items) }
{
    verdicts_are_lawful();
    bounds_fit();
    let row = open_row(overlay, node);
    buffers.clear();
    let task = AnewTask {
        overlay,
        node,
        row,
        settle,
    };
    join_all(&task, buffers)
}

/// Works out the pairs from each neighbour.
fn join_all(task: &AnewTask<'_>, buffers: &mut Buffers) -> Result<(), AllocError>
    requires task { IsAnew task.now }
    requires begun { buffers.old.shortcuts.items ≡ [] }
    requires kept { AreRowsOf task.now.overlay.now (kept_of buffers.old.finder.searcher.rows) }
    ensures { OnOk result (AreJoined task.now.overlay.now task.now.node task.now.row.now task.now.row.now.inn
        buffers.new.shortcuts.items) }
{
    let row = task.row;
    'inns: for into in row.inn() {
        join_from(task, buffers, into)?;
    }
    Ok(())
}

/// Works out the pairs from the neighbour that this arc leaves, and adds the shortcuts that they get.
fn join_from(task: &AnewTask<'_>, buffers: &mut Buffers, into: &Entry) -> Result<(), AllocError>
    requires task { IsAnew task.now }
    requires among { Contains task.now.row.now.inn into.now }
    requires kept { AreRowsOf task.now.overlay.now (kept_of buffers.old.finder.searcher.rows) }
    ensures joined { OnOk result (Joins task.now.overlay.now task.now.node task.now.row.now into.now
        buffers.old.shortcuts.items buffers.new.shortcuts.items) }
    ensures kept { OnOk result (AreRowsOf task.now.overlay.now (kept_of buffers.new.finder.searcher.rows)) }
{
    let from = into.other;
    let first = open_row(task.overlay, from);
    find_pairs(task, first, into, &mut buffers.pairs.put)?;
    let left = buffers.finder.leave(
        task.overlay,
        task.node,
        from,
        &buffers.pairs.put,
        task.settle,
    )?;
    buffers.shortcuts.extend_from_slice(&left)?;
    Ok(())
}

/// Finds the pairs of an arc into the node and one of those out of it for which there is no way of one arc or two. `first`
/// is the row of the neighbour that the arc into the node leaves. They take the place of what was there.
fn find_pairs(
    task: &AnewTask<'_>,
    first: &Row,
    into: &Entry,
    pairs: &mut Vec<Shortcut>,
) -> Result<(), AllocError>
    requires task { IsAnew task.now }
    requires first { IsOpenRow task.now.overlay.now into.now.other first.now }
    requires start { into.now.other ≢ task.now.node }
    ensures { OnOk result (AreSorted task.now.overlay.now task.now.node first.now into.now task.now.row.now.out
        pairs.new.items []) }
{
    pairs.clear();
    let row = task.row;
    'outs: for out in row.out() {
        let found = long_pair(task, first, into, out);
        add(found, pairs)?;
    }
    Ok(())
}

/// The pair of two arcs, where it isn't heavy and there is no way of one arc or two that costs at most as much.
fn long_pair(task: &AnewTask<'_>, first: &Row, into: &Entry, out: &Entry) -> Option<Shortcut>
    requires limit { IsBound task.now.overlay.now.bound }
    requires first { IsOpenRow task.now.overlay.now into.now.other first.now }
    requires start { into.now.other ≢ task.now.node }
    requires alive { IsAlive (state_of task.now.overlay.now) out.now.other }
    requires end { out.now.other ≢ task.now.node }
    ensures { IsDue task.now.overlay.now task.now.node first.now into.now out.now (share_of result) }
{
    let Some(pair) = light_pair(task.overlay.bound(), into, out) else {
        return None;
    };
    if has_direct(first.out(), &pair) {
        return None;
    }
    let last = open_row(task.overlay, out.other);
    if has_two_arcs(first.out(), last.inn(), task.node, &pair) {
        return None;
    }
    Some(pair)
}

/// Adds a pair, if there is one.
fn add(found: Option<Shortcut>, pairs: &mut Vec<Shortcut>) -> Result<(), AllocError>
    ensures { OnOk result (IsAdded (share_of found) pairs.old.items [] pairs.new.items []) }
{
    if let Some(pair) = found {
        pairs.push(pair)?;
    }
    Ok(())
}
