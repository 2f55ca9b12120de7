ghost use Rattle.std.specs.Prelude.{◌≡◌, ◌<◌, ◌↔◌, All, IfErr, IfNone, IfOk, IfSome, IsTrue};
ghost use Rattle.ch_cost.specs.Cost.{IsWithin};
ghost use Rattle.ch_graph.specs.Graph.{IsDistance};
ghost use Rattle.ch_graph.specs.Limits.{IsRoad, IsFirstBad, IsGraph, IsGraphRefusal, bound_of};
ghost use Rattle.ch_graph.specs.LeastArcs.{IsWalkThrough};

use crate::error::GraphError;
use crate::road::Road;
use crate::{search, step};
use ch_cost::Cost;
use std::alloc::AllocError;
use std::marker::Model;

/// A directed graph whose arcs have weights. Its nodes are the numbers below [`Graph::nodes`].
///
/// Loops and parallel arcs are kept. A graph holds its list of arcs and nothing else that grows.
#[derive(Drop)]
pub struct Graph {
    nodes: u32,
    arcs: Vec<Road>,
    heaviest: u32,
}

impl Model for Graph {
    ghost use Rattle.std.specs.Prelude.{◌≡◌};
    ghost use Rattle.ch_graph.specs.Graph as graphs;
    ghost use Rattle.ch_graph.specs.Limits as limits;

    ghost Value = { graphs.Graph };

    ghost view = { λ g. record { nodes = g.nodes; arcs = g.arcs.items } };

    ghost invariant = { λ g. limits.IsGraph (record { nodes = g.nodes; arcs = g.arcs.items }) × (g.heaviest ≡ limits.heaviest g.arcs.items) };
}

impl Graph {
    /// Returns the graph of these arcs, in this order, between this many nodes.
    ///
    /// There are at most 2^25 nodes and 2^27 arcs, each end is below `nodes`, and a weight may be 0. Takes no
    /// memory, and looks at each arc once.
    pub fn new(nodes: u32, arcs: Vec<Road>) -> Graph
        requires { IsGraph (record { nodes = nodes; arcs = arcs.items }) }
        ensures { result ≡ record { nodes = nodes; arcs = arcs.items } }
    {
        let mut heaviest = 0u32;
        for arc in &arcs {
            heaviest = heaviest.max(arc.weight);
        }
        Graph {
            nodes,
            arcs,
            heaviest,
        }
    }

    /// Returns the graph of these arcs, as [`Graph::new`] makes it, where they are within the limits, and else why
    /// they aren't.
    ///
    /// Takes no memory, and looks at each arc twice. The arcs are dropped where they are refused.
    pub fn checked(nodes: u32, arcs: Vec<Road>) -> Result<Graph, GraphError>
        ensures graph { IfOk result (λ g. g ≡ record { nodes = nodes; arcs = arcs.items }) }
        ensures refused { IfErr result (IsGraphRefusal nodes arcs.items) }
    {
        if nodes > 1 << 25 {
            return Err(GraphError::TooManyNodes);
        }
        if arcs.len() > 1 << 27 {
            return Err(GraphError::TooManyArcs);
        }
        if let Some(place) = first_bad(nodes, arcs.as_slice()) {
            return Err(GraphError::BadArc(place));
        }
        Ok(Graph::new(nodes, arcs))
    }

    /// Returns the number of nodes.
    pub fn nodes(&self) -> u32
        ensures count { result ≡ self.now.nodes }
        ensures graph { IsGraph self.now }
    {
        self.nodes
    }

    /// Returns the arcs, in the order in which they were given.
    pub fn arcs(&self) -> &[Road]
        ensures list { result.now ≡ self.now.arcs }
        ensures graph { IsGraph self.now }
    {
        self.arcs.as_slice()
    }

    /// Returns what a walk that repeats no node costs at most: one arc less than there are nodes, each of the greatest
    /// weight of an arc.
    pub fn bound(&self) -> Cost
        ensures { result ≡ bound_of self.now }
    {
        Cost::of_arcs(self.nodes.saturating_sub(1), self.heaviest)
    }

    /// Returns the least cost over all walks from `source` to `target`, or `None` where there is no walk.
    ///
    /// By Dijkstra's algorithm (1959). Of N nodes and M arcs it takes time by (N + M) log N, and memory for a mark a node
    /// (a cost and a state), a place of an arc a node and one an arc, and for a queue of at most M + 1 entries. Fails only
    /// where memory runs out.
    ///
    /// In this graph the line from 0 to 1 is one arc, and each other line is two of one weight, there and back:
    ///
    /// ```text
    ///      2         3
    /// 0 -----> 1 --------- 2
    ///          |           |
    ///        1 |           | 5
    ///          |           |
    ///          4 --------- 3
    ///                1
    /// ```
    ///
    /// From 0 to 3 the least cost is 2 + 1 + 1 = 4, of three arcs, over 1 and 4. From 2 to 3 two walks have the length 5,
    /// and the result is the cost of the one with fewer arcs, of one. From 3 to 0 there is no walk; from 3 to 3 there is
    /// the one of no arc, which costs nothing.
    pub fn least(&self, source: u32, target: u32) -> Result<Option<Cost>, AllocError>
        requires source_in { source < self.now.nodes }
        requires target_in { target < self.now.nodes }
        ensures distance { IfOk result (IsDistance self.now source target) }
        ensures bounded { IfOk result (λ found. IfSome found (λ c. IsWithin c (bound_of self.now))) }
    {
        let alloc = *self.arcs.allocator();
        search::least_cost(alloc, self, source, target)
    }

    /// Whether these nodes are a walk of this cost, where each step takes the least arc between its two nodes.
    ///
    /// The list of one node is a walk that costs nothing, and the empty list is none. The nodes and the cost may be
    /// any. Takes no memory, and looks at each arc once for each step.
    pub fn is_walk(&self, nodes: &[u32], cost: Cost) -> bool
        ensures { IsTrue result ↔ IsWalkThrough self.now nodes.now cost }
    {
        let Some((first, rest)) = nodes.split_first() else {
            return false;
        };
        self.has_nodes(nodes) && step::least_arcs_cost(self, *first, rest, cost)
    }

    /// Whether each of these is a node.
    fn has_nodes(&self, nodes: &[u32]) -> bool
        ensures { IsTrue result ↔ All (λ x. x < self.now.nodes) nodes.now }
    {
        let count = self.nodes;
        nodes.iter().all(|node| *node < count)
    }
}

// Returns the place of the first of these arcs that isn't allowed between this many nodes, or `None` where each is.
fn first_bad(nodes: u32, arcs: &[Road]) -> Option<usize>
    ensures found { IfSome result (IsFirstBad nodes arcs.now) }
    ensures none { IfNone result (All (IsRoad nodes) arcs.now) }
{
    'arcs: for place in 0..arcs.len() {
        if !arcs[place].is_allowed(nodes) {
            return Some(place);
        }
    }
    None
}
