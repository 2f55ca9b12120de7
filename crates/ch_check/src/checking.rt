ghost use Rattle.std.specs.Prelude.{◌≡◌, ◌≢◌, Err, OnOk, [], length};
ghost use Rattle.ch_graph.specs.Hierarchy.{IsRight};
ghost use Rattle.ch_graph.specs.Limits.{bound_of};
ghost use Rattle.ch_graph.specs.declared.version.Version.TheVariants.{One, Two};
ghost use Rattle.ch_laws.specs.Contraction.{IsAlive};
ghost use Rattle.ch_overlay.specs.Overlay.{state_of};
ghost use Rattle.ch_check.specs.Ranks.{AreInOrder};
ghost use Rattle.ch_check.specs.Replay.{IsContracted};
ghost use Rattle.ch_check.specs.declared.error.CheckError.TheVariants.{Bound, Nodes, Version};

use crate::buffers::Buffers;
use crate::comparing::{compare, compare_row};
use crate::error::CheckError;
use crate::fault::Fault;
use crate::ranks::nodes_by_rank;
use crate::replay::Replay;
use crate::watch::{Unwatched, Watch};
use crate::working::work_out;
use ch_graph::{Graph, Hierarchy};
use ch_laws::reached_hierarchy_is_right;
use std::alloc::Global;

/// Checks that a hierarchy is right for a graph, whoever made it.
///
/// The nodes are contracted once more in the order of their ranks, with the shortcuts that the hierarchy has where these
/// are lawful, and the arcs that this leads to are compared with the links. So nothing of the hierarchy is believed: if
/// the result is `Ok`, it is right.
///
/// It is complete for what `ch_contract` makes by searches that settle 64 nodes, and for all that searches of at most
/// 65,536 nodes could have made if the check needs no more than 256 settled nodes for each link, and 4,194,304 beside:
/// beyond that it gives up ([`CheckError::Work`]). That is argued, and tested on small graphs, and not proved. An error is
/// no proof that the hierarchy is wrong, but for [`CheckError::Nodes`]; [`is_refuted_by`](crate::is_refuted_by) may give
/// one. A hierarchy of version 1 gives [`CheckError::Version`].
///
/// Takes memory for the rows, an entry for each end of an arc, and time by the pairs of neighbours of the nodes, by the
/// arcs into the ends of those pairs that have no link, and by searches for those that have no way of two arcs either. A
/// link is looked for often, so an index ([`Hierarchy::into_indexed`]) saves time.
pub fn check(alloc: Global, graph: &Graph, hierarchy: &Hierarchy) -> Result<(), CheckError>
    ensures right { OnOk result (IsRight graph.now hierarchy.now) }
    ensures version { OnOk result (hierarchy.now.version ≡ Two) }
    ensures wrong { result ≡ Err Nodes → IsRight graph.now hierarchy.now → ⊥ }
    ensures nodes { result ≡ Err Nodes → length hierarchy.now.ranks ≢ graph.now.nodes }
    ensures same { result ≢ Err Nodes → length hierarchy.now.ranks ≡ graph.now.nodes }
    ensures old { result ≡ Err Version → hierarchy.now.version ≡ One }
    ensures bound { result ≡ Err Bound → hierarchy.now.bound ≢ bound_of graph.now }
{
    check_watched(alloc, graph, hierarchy, &Unwatched)
}

/// The same as [`check`]. The watch sees how many nodes are contracted.
pub fn check_watched<W: Watch>(
    alloc: Global,
    graph: &Graph,
    hierarchy: &Hierarchy,
    watch: &W,
) -> Result<(), CheckError>
    ensures right { OnOk result (IsRight graph.now hierarchy.now) }
    ensures version { OnOk result (hierarchy.now.version ≡ Two) }
    ensures wrong { result ≡ Err Nodes → IsRight graph.now hierarchy.now → ⊥ }
    ensures nodes { result ≡ Err Nodes → length hierarchy.now.ranks ≢ graph.now.nodes }
    ensures same { result ≢ Err Nodes → length hierarchy.now.ranks ≡ graph.now.nodes }
    ensures old { result ≡ Err Version → hierarchy.now.version ≡ One }
    ensures bound { result ≡ Err Bound → hierarchy.now.bound ≢ bound_of graph.now }
{
    if hierarchy.nodes() != graph.nodes() {
        return Err(CheckError::Nodes);
    }
    if hierarchy.version() != 2 {
        return Err(CheckError::Version);
    }
    if hierarchy.bound() != graph.bound() {
        return Err(CheckError::Bound);
    }
    replay_all(alloc, graph, hierarchy, watch)?;
    Ok(())
}

/// Contracts all nodes once more, and compares what comes of it with the links.
fn replay_all<W: Watch>(
    alloc: Global,
    graph: &Graph,
    hierarchy: &Hierarchy,
    watch: &W,
) -> Result<(), Fault>
    requires nodes { length hierarchy.now.ranks ≡ graph.now.nodes }
    requires version { hierarchy.now.version ≡ Two }
    requires bound { hierarchy.now.bound ≡ bound_of graph.now }
    ensures { OnOk result (IsRight graph.now hierarchy.now) }
{
    reached_hierarchy_is_right();
    let _ = hierarchy.nodes();
    let order = nodes_by_rank(alloc, hierarchy)?;
    let mut replay = Replay::start(alloc, graph)?;
    contract_all(alloc, &mut replay, hierarchy, &order, watch)?;
    replay.holds();
    compare(hierarchy, replay.overlay())
}

/// Contracts all nodes in the order of their ranks.
fn contract_all<W: Watch>(
    alloc: Global,
    replay: &mut Replay<'_>,
    hierarchy: &Hierarchy,
    order: &[u32],
    watch: &W,
) -> Result<(), Fault>
    requires order { AreInOrder hierarchy.now.ranks order.now }
    requires nodes { length hierarchy.now.ranks ≡ length replay.old.overlay.rows }
    requires none { replay.old.overlay.order ≡ [] }
    ensures order { OnOk result (replay.new.overlay.order ≡ order.now) }
    ensures graph { OnOk result (replay.new.graph ≡ replay.old.graph) }
    ensures nodes { OnOk result (length replay.new.overlay.rows ≡ length replay.old.overlay.rows) }
{
    let mut buffers = Buffers::new(alloc, hierarchy.links().len());
    let mut done = 0u32;
    'order: for node in order {
        contract(alloc, replay, hierarchy, &mut buffers, *node)?;
        done = done.saturating_add(1);
        watch.contracted(done);
    }
    Ok(())
}

/// Contracts a node. Its row is compared before, since no contraction changes it any more.
fn contract(
    alloc: Global,
    replay: &mut Replay<'_>,
    hierarchy: &Hierarchy,
    buffers: &mut Buffers,
    node: u32,
) -> Result<(), Fault>
    requires { IsAlive (state_of replay.old.overlay) node }
    ensures { OnOk result (IsContracted replay.old node replay.new) }
{
    compare_row(hierarchy, replay.overlay().row(node), node)?;
    work_out(replay, hierarchy, buffers, node)?;
    replay.contract(alloc, node, &buffers.shortcuts)?;
    Ok(())
}
