ghost use Rattle.std.specs.Prelude.{IfOk};
ghost use Rattle.ch_graph.specs.Outgoing.{IsLinked};

use crate::graph::Graph;
use std::alloc::{AllocError, Global};

/// The arcs of a graph by the node that they leave: a list for each node, linked from its last arc to its first.
#[derive(Drop)]
pub struct Outgoing {
    /// For each node the place of the last arc that leaves it.
    pub last: Vec<Option<u32>>,
    /// For each arc the place of the one before it that leaves the same node.
    pub before: Vec<Option<u32>>,
}

impl Outgoing {
    /// Links the arcs of a graph, in one pass over them.
    pub fn new(alloc: Global, graph: &Graph) -> Result<Outgoing, AllocError>
        ensures { IfOk result (λ o. IsLinked graph.now o.last.items o.before.items) }
    {
        let nodes = graph.nodes();
        let arcs = graph.arcs();
        let mut last = vec![in alloc; None; nodes as usize]?;
        let mut before = vec![in alloc; None; arcs.len()]?;
        for at in 0..arcs.len() {
            let from = arcs[at].from as usize;
            before[at] = last[from];
            last[from] = Some(at as u32);
        }
        Ok(Outgoing { last, before })
    }
}
