ghost use Rattle.std.specs.Prelude.{◌↔◌, IsTrue};
ghost use Rattle.ch_graph.specs.Limits.{IsRoad};

/// An arc of a road graph, in one direction. A road in two directions is two of them.
#[derive(Clone, Copy, Debug, PartialEq, Eq)]
pub struct Road {
    /// The node that it leaves, numbered from 0.
    pub from: u32,
    /// The node that it comes to, numbered from 0.
    pub to: u32,
    /// Its weight, in the unit of the graph's text; 0 for an arc that takes nothing.
    pub weight: u32,
}

impl Road {
    /// Whether it may be an arc of a graph of this many nodes: both ends are nodes.
    pub fn is_allowed(self, nodes: u32) -> bool
        ensures { IsTrue result ↔ IsRoad nodes self }
    {
        (self.from < nodes) & (self.to < nodes)
    }
}
