ghost use Rattle.std.specs.Prelude.{◌≡◌, IfOk, length};
ghost use Rattle.ch_graph.specs.Limits.{bound_of};

use ch_contract::Ledger;
use ch_graph::{Graph, Road};
use ch_rowbook::Blank;
use std::alloc::{AllocError, Global};
use std::test::Fail;

/// An arc: its two nodes, and its weight.
pub type Line = (u32, u32, u32);

/// The greatest weight.
pub const MOST: u32 = u32::MAX;

/// The row of three nodes: 1, 0, 2.
pub const ROW: &[Line] = &[(1, 0, 2), (0, 2, 3)];

/// The row of three nodes, and node 3 behind it.
pub const ONWARD: &[Line] = &[(1, 0, 2), (0, 2, 3), (2, 3, 1)];

/// Two ways from 2 to 3 that cost the same, over 0 and over 1.
pub const TIE: &[Line] = &[(2, 0, 1), (0, 3, 1), (2, 1, 1), (1, 3, 1)];

/// From 1 to 2 an arc, and a way over 0 of the same length.
pub const FEWEST: &[Line] = &[(1, 0, 0), (0, 2, 5), (1, 2, 5)];

/// Ways of length 3 from 3 to 4: one of two arcs over 0, and one of three arcs over 1 and 2.
pub const LONGER: &[Line] = &[(3, 0, 2), (0, 4, 1), (3, 1, 1), (1, 2, 1), (2, 4, 1)];

/// Arcs of weight 0.
pub const FREE: &[Line] = &[(0, 1, 0), (1, 0, 0)];

/// A loop, and parallel arcs.
pub const PARALLEL: &[Line] = &[(0, 0, 12), (0, 1, 9), (0, 1, 4), (0, 1, 6)];

/// At node 1 the way from 2 to 3 costs four times the greatest weight, which is above the bound of three times.
pub const HEAVY: &[Line] = &[(2, 0, MOST), (0, 1, MOST), (1, 0, MOST), (0, 3, MOST)];

/// The graph of these arcs, which have to be allowed.
pub fn graph_of(alloc: Global, nodes: u32, lines: &[Line]) -> Result<Graph, Fail> {
    let mut roads = Vec::new(alloc);
    for (from, to, weight) in lines {
        roads.push(Road {
            from: *from,
            to: *to,
            weight: *weight,
        })?;
    }
    let graph = Graph::checked(nodes, roads)?;
    Ok(graph)
}

/// A blank book for the rows of this graph, and the graph.
pub fn with_blank(alloc: Global, graph: Graph) -> Result<(Blank, Graph), AllocError>
    ensures nodes { IfOk result (λ made. made.0.nodes ≡ made.1.nodes) }
    ensures bound { IfOk result (λ made. made.0.bound ≡ bound_of made.1) }
{
    let blank = Blank::new(alloc, graph.nodes(), graph.bound())?;
    Ok((blank, graph))
}

/// A blank book for the rows of this ledger, and the ledger.
pub fn with_book(alloc: Global, ledger: Ledger) -> Result<(Blank, Ledger), AllocError>
    ensures nodes { IfOk result (λ made. made.0.nodes ≡ length made.1.overlay.rows) }
    ensures bound { IfOk result (λ made. made.0.bound ≡ made.1.overlay.bound) }
{
    let blank = Blank::new(alloc, ledger.overlay().nodes(), ledger.overlay().bound())?;
    Ok((blank, ledger))
}
