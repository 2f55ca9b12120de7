ghost use Rattle.std.specs.Prelude.{◌≡◌, ◌+◌, ◌<◌, ◌^◌, [], IfOk, OnOk, length};
ghost use Rattle.std.specs.List.{range_with_len};
ghost use Rattle.ch_check.specs.Replay.{IsContracted, IsReplay, MayPut};

use ch_graph::Graph;
use ch_laws::{Shortcut, plan_is_lawful, reached_goes_on};
use ch_overlay::{Overlay, changes_write_their_rows};
use std::alloc::{AllocError, Global};
use std::marker::Model;

/// A graph whose nodes are contracted once more: whatever happens to it, its rows are those that lawful contractions lead
/// to from the graph.
#[derive(Drop)]
pub struct Replay<'a> {
    graph: &'a Graph,
    overlay: Overlay,
    /// The first version that no row had yet.
    next: u64,
}

impl<'a> Model for Replay<'a> {
    ghost use Rattle.ch_check.specs.Replay as replays;

    ghost Value = { replays.Replay };

    ghost view = { λ r. record { graph = r.graph.now; overlay = r.overlay } };

    ghost invariant = { λ r. replays.IsReplay (record { graph = r.graph.now; overlay = r.overlay }) × replays.HasVersions r.overlay r.next };
}

impl<'a> Replay<'a> {
    /// The graph with no node contracted. Takes memory for the rows, and for a copy of the arcs while it works.
    pub fn start(alloc: Global, graph: &'a Graph) -> Result<Replay<'a>, AllocError>
        ensures graph { IfOk result (λ r. r.graph ≡ graph.now) }
        ensures order { IfOk result (λ r. r.overlay.order ≡ []) }
        ensures nodes { IfOk result (λ r. length r.overlay.rows ≡ graph.now.nodes) }
    {
        let overlay = Overlay::start(alloc, graph)?;
        let _ = overlay.nodes();
        let next = u64::from(graph.nodes());
        Ok(Replay {
            graph,
            overlay,
            next,
        })
    }

    /// The rows as the contractions so far left them.
    pub fn overlay(&self) -> &Overlay
        ensures { result.now ≡ self.now.overlay }
    {
        &self.overlay
    }

    /// A law: what always holds of a replay.
    pub fn holds(&self)
        ensures { IsReplay self.now }
    {
        let _ = self.overlay.nodes();
    }

    /// Contracts a node, and puts these shortcuts in. Takes memory for the rows that change.
    pub fn contract(
        &mut self,
        alloc: Global,
        node: u32,
        shortcuts: &[Shortcut],
    ) -> Result<(), AllocError>
        requires { MayPut self.old.overlay node shortcuts.now }
        ensures { OnOk result (IsContracted self.old node self.new) }
    {
        plan_is_lawful();
        reached_goes_on();
        changes_write_their_rows();
        let _ = self.overlay.alive();
        let _ = self.overlay.nodes();
        let change = self.overlay.plan(node, shortcuts)?;
        let count = change.rows().len();
        let versions = versions_from(alloc, self.next, count)?;
        self.overlay.apply(change, versions.as_slice());
        self.next += count as u64;
        Ok(())
    }
}

/// This many versions, from this one on.
fn versions_from(alloc: Global, first: u64, count: usize) -> Result<Vec<u64>, AllocError>
    requires { first + count < 2 ^ 64 }
    ensures { IfOk result (λ versions. versions.items ≡ range_with_len first count) }
{
    let mut versions = Vec::with_capacity(alloc, count)?;
    for i in 0..count as u64 {
        versions.push(first + i)?;
    }
    Ok(versions)
}
