ghost use Rattle.std.specs.Prelude.{◌≡◌, [], Contains, OnOk};
ghost use Rattle.ch_laws.specs.Contraction.{IsAlive};
ghost use Rattle.ch_overlay.specs.Overlay.{state_of};
ghost use Rattle.ch_witness.specs.Kept.{kept_of};
ghost use Rattle.ch_check.specs.Pairs.{AreJoined, IsTask, Joins, AreRowsOf};
ghost use Rattle.ch_check.specs.Replay.{MayPut};

use crate::buffers::Buffers;
use crate::fault::Fault;
use crate::overlay_rows::open_row;
use crate::pairs::{ContractionTask, sort_pairs};
use crate::replay::Replay;
use ch_graph::Hierarchy;
use ch_laws::{Entry, bounds_fit, verdicts_are_lawful};

/// Works out the shortcuts of a contraction of a node, and leaves them in the buffers.
///
/// What the hierarchy has says which pairs get one, where that is lawful. For each other pair there has to be an arc or a
/// way around the node that costs as little.
pub fn work_out(
    replay: &Replay<'_>,
    hierarchy: &Hierarchy,
    buffers: &mut Buffers,
    node: u32,
) -> Result<(), Fault>
    requires alive { IsAlive (state_of replay.now.overlay) node }
    ensures { OnOk result (MayPut replay.now.overlay node buffers.new.shortcuts.items) }
{
    verdicts_are_lawful();
    bounds_fit();
    replay.holds();
    let overlay = replay.overlay();
    let row = open_row(overlay, node);
    buffers.clear();
    let task = ContractionTask {
        overlay,
        hierarchy,
        node,
        row,
    };
    join_all(&task, buffers)
}

/// Works out the pairs from each neighbour.
fn join_all(task: &ContractionTask<'_>, buffers: &mut Buffers) -> Result<(), Fault>
    requires task { IsTask task.now }
    requires begun { buffers.old.shortcuts.items ≡ [] }
    requires kept { AreRowsOf task.now.overlay.now (kept_of buffers.old.finder.searcher.rows) }
    ensures { OnOk result (AreJoined task.now.overlay.now task.now.node task.now.row.now task.now.row.now.inn
        buffers.new.shortcuts.items) }
{
    let row = task.row;
    'inns: for into in row.inn() {
        join_from(task, buffers, into)?;
    }
    Ok(())
}

/// Works out the pairs from the neighbour that this arc leaves, and adds the shortcuts that they get.
fn join_from(task: &ContractionTask<'_>, buffers: &mut Buffers, into: &Entry) -> Result<(), Fault>
    requires task { IsTask task.now }
    requires among { Contains task.now.row.now.inn into.now }
    requires kept { AreRowsOf task.now.overlay.now (kept_of buffers.old.finder.searcher.rows) }
    ensures joined { OnOk result (Joins task.now.overlay.now task.now.node task.now.row.now into.now
        buffers.old.shortcuts.items buffers.new.shortcuts.items) }
    ensures kept { OnOk result (AreRowsOf task.now.overlay.now (kept_of buffers.new.finder.searcher.rows)) }
{
    let from = into.other;
    let first = open_row(task.overlay, from);
    sort_pairs(task, first, into, &mut buffers.pairs)?;
    buffers
        .finder
        .find_ways(task.overlay, task.node, from, &buffers.pairs.owed)?;
    buffers.shortcuts.extend_from_slice(&buffers.pairs.put)?;
    Ok(())
}
