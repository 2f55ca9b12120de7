ghost use Rattle.std.specs.Prelude.{◌≢◌, IsFalse, IsTrue, OnOk};
ghost use Rattle.ch_laws.specs.Contraction.{IsAlive};
ghost use Rattle.ch_laws.specs.Rows.{Rises};
ghost use Rattle.ch_overlay.specs.Overlay.{state_of};
ghost use Rattle.ch_overlay.specs.Source.{IsBound};
ghost use Rattle.ch_check.specs.Pairs.{AreSorted, CostMore, IsAdded, IsDue, IsOpenRow, IsTask};
ghost use Rattle.ch_check.specs.Pairs.{LeadsBy, LeadsDirectly, LeadsOver};

use crate::buffers::PairLists;
use crate::overlay_rows::open_row;
use crate::share::Share;
use ch_graph::Hierarchy;
use ch_laws::{Entry, Shortcut};
use ch_overlay::{Overlay, Row, entry_for, light_pair};
use std::alloc::AllocError;

/// What the pairs by way of a node have in common.
#[derive(Clone, Copy)]
pub struct ContractionTask<'a> {
    /// The rows as the contractions so far left them.
    pub overlay: &'a Overlay,
    /// Its links say which pairs are to get a shortcut.
    pub hierarchy: &'a Hierarchy,
    /// The node.
    pub node: u32,
    /// Its row.
    pub row: &'a Row,
}

/// Finds what is due for each pair of an arc into the node and one of those out of it. `first` is the row of the neighbour
/// that the arc into the node leaves. It takes the place of what was there.
pub fn sort_pairs(
    task: &ContractionTask<'_>,
    first: &Row,
    into: &Entry,
    pairs: &mut PairLists,
) -> Result<(), AllocError>
    requires task { IsTask task.now }
    requires first { IsOpenRow task.now.overlay.now into.now.other first.now }
    requires start { into.now.other ≢ task.now.node }
    ensures { OnOk result (AreSorted task.now.overlay.now task.now.node first.now into.now task.now.row.now.out
        pairs.new.put.items pairs.new.owed.items) }
{
    pairs.put.clear();
    pairs.owed.clear();
    let row = task.row;
    'outs: for out in row.out() {
        let share = due(task, first, into, out);
        add(share, &mut pairs.put, &mut pairs.owed)?;
    }
    Ok(())
}

/// What is due for the pair of two arcs. What the hierarchy says of it isn't relied on: a shortcut is put only where it is
/// lawful, and what isn't put is owed a way.
fn due(task: &ContractionTask<'_>, first: &Row, into: &Entry, out: &Entry) -> Share
    requires limit { IsBound task.now.overlay.now.bound }
    requires first { IsOpenRow task.now.overlay.now into.now.other first.now }
    requires start { into.now.other ≢ task.now.node }
    requires alive { IsAlive (state_of task.now.overlay.now) out.now.other }
    requires end { out.now.other ≢ task.now.node }
    ensures { IsDue task.now.overlay.now task.now.node first.now into.now out.now result }
{
    let Some(pair) = light_pair(task.overlay.bound(), into, out) else {
        return Share::Spared;
    };
    if has_direct(first.out(), &pair) {
        return Share::Spared;
    }
    if is_wanted(task.hierarchy, &pair, task.node) {
        return Share::Put(pair);
    }
    let last = open_row(task.overlay, out.other);
    if has_two_arcs(first.out(), last.inn(), task.node, &pair) {
        return Share::Spared;
    }
    Share::Owed(pair)
}

/// Adds a pair to those that it is due to.
fn add(share: Share, put: &mut Vec<Shortcut>, owed: &mut Vec<Shortcut>) -> Result<(), AllocError>
    ensures { OnOk result (IsAdded share put.old.items owed.old.items put.new.items owed.new.items) }
{
    match share {
        Share::Spared => Ok(()),
        Share::Put(pair) => {
            put.push(pair)?;
            Ok(())
        }
        Share::Owed(pair) => {
            owed.push(pair)?;
            Ok(())
        }
    }
}

/// Whether one of these arcs leads where the pair does and costs no more.
pub fn has_direct(outs: &[Entry], pair: &Shortcut) -> bool
    requires rises { Rises outs.now }
    ensures yes { IsTrue result → LeadsDirectly outs.now pair.now }
    ensures no { IsFalse result → CostMore outs.now pair.now }
{
    let Some(entry) = entry_for(outs, pair.to) else {
        return false;
    };
    entry.cost.cost().is_at_most(pair.cost.cost())
}

/// Whether one of these arcs and one of those out of its end lead around a node to where the pair does, and cost no more
/// together. `inns` are the arcs into that end.
pub fn has_two_arcs(outs: &[Entry], inns: &[Entry], via: u32, pair: &Shortcut) -> bool
    requires rises { Rises outs.now }
    ensures { IsTrue result → LeadsOver outs.now inns.now via pair.now }
{
    'inns: for arc in inns {
        if is_last(outs, arc, via, pair) {
            return true;
        }
    }
    false
}

/// Whether this arc is the last of two, of which the first is one of these.
fn is_last(outs: &[Entry], arc: &Entry, via: u32, pair: &Shortcut) -> bool
    requires rises { Rises outs.now }
    ensures { IsTrue result → LeadsBy outs.now arc.now via pair.now }
{
    let enough = pair.cost.cost();
    let cost = arc.cost.cost();
    if arc.other == via || !cost.is_below(enough) {
        return false;
    }
    let Some(first) = entry_for(outs, arc.other) else {
        return false;
    };
    let Some(sum) = first.cost.cost().checked_plus(cost) else {
        return false;
    };
    sum.is_at_most(enough)
}

/// Whether the hierarchy asks for a shortcut for the pair by way of this node: it has the link, or a lighter one, which a
/// later contraction puts in its place.
fn is_wanted(hierarchy: &Hierarchy, pair: &Shortcut, via: u32) -> bool {
    let Some(id) = hierarchy.find(pair.from, pair.to) else {
        return false;
    };
    let link = &hierarchy.links()[id.0];
    let cost = link.cost.cost();
    let wanted = pair.cost.cost();
    cost.is_below(wanted) || (cost == wanted && link.middle.node() == Some(via))
}
