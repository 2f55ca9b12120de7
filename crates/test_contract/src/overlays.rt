ghost use Rattle.std.specs.Prelude.{◌≡◌, [], IfOk};

use crate::networks::{FREE, Line, PARALLEL, ROW, graph_of};
use ch_cost::Cost;
use ch_overlay::{Entry, Middle, Overlay, Row};
use std::alloc::{AllocError, Global};
use std::sync::Arc;
use std::test::Fail;

/// The entries of a row: the other node of each, and its weight.
pub type Entries = &'static [(u32, u32)];

/// The rows in which a graph begins: of each node, by its number, the arcs out of it and into it.
#[derive(Clone, Copy)]
struct Opening {
    nodes: u32,
    lines: &'static [Line],
    rows: &'static [(Entries, Entries)],
    /// What this many arcs of this weight cost.
    bound: (u32, u32),
}

const OPENINGS: &[Opening] = &[
    Opening {
        nodes: 3,
        lines: ROW,
        rows: &[(&[(2, 3)], &[(1, 2)]), (&[(0, 2)], &[]), (&[], &[(0, 3)])],
        bound: (2, 3),
    },
    Opening {
        nodes: 2,
        lines: PARALLEL,
        rows: &[(&[(1, 4)], &[]), (&[], &[(0, 4)])],
        bound: (1, 12),
    },
    Opening {
        nodes: 2,
        lines: FREE,
        rows: &[(&[(1, 0)], &[(1, 0)]), (&[(0, 0)], &[(0, 0)])],
        bound: (1, 0),
    },
];

/// Node 1 leads to node 2 itself, and by way of node 0.
pub const DIRECT: &[Line] = &[(1, 0, 2), (0, 2, 3), (1, 2, 4)];

/// A new row: its node, its arcs out and in, and its rank.
pub type Changed = (u32, Entries, Entries, Option<u32>);

/// The new rows when node 0 is contracted without a shortcut.
pub const CHANGED: &[Changed] = &[
    (0, &[(2, 3)], &[(1, 2)], Some(0)),
    (1, &[(2, 4)], &[], None),
    (2, &[], &[(1, 4)], None),
];

fn are_entries(entries: &[Entry], expected: Entries) -> bool {
    let mut holds = entries.len() == expected.len();
    for (entry, (other, weight)) in entries.iter().zip(expected) {
        holds &= (entry.other == *other) & (entry.middle == Middle::NONE);
        holds &= entry.cost.cost() == Cost::of_weight(*weight);
    }
    holds
}

fn is_row(row: &Row, out: Entries, inn: Entries, rank: Option<u32>) -> bool {
    are_entries(row.out(), out) & are_entries(row.inn(), inn) & (row.rank == rank)
}

/// The overlay of the graph of these arcs.
fn overlay_of(alloc: Global, nodes: u32, lines: &[Line]) -> Result<Overlay, Fail>
    ensures { IfOk result (λ o. o.order ≡ []) }
{
    let graph = graph_of(alloc, nodes, lines)?;
    let overlay = Overlay::start(alloc, &graph)?;
    Ok(overlay)
}

/// Whether each node has its row, the version of its number, and no rank.
fn begins(overlay: &Overlay, opening: &Opening) -> bool {
    let (count, heaviest) = opening.bound;
    let nodes = overlay.nodes();
    let mut holds = (overlay.bound() == Cost::of_arcs(count, heaviest))
        & (overlay.alive() == nodes);
    for node in 0..nodes {
        if let Some((out, inn)) = opening.rows.get(node as usize) {
            holds &= is_row(overlay.row(node), out, inn, None);
        }
        holds &= overlay.version(node) == u64::from(node);
    }
    holds & (nodes as usize == opening.rows.len())
}

/// Whether a node, which isn't the greatest number, has a middle, and that isn't the one of no node.
fn has_middle(node: u32) -> bool {
    if node >= u32::MAX {
        return false;
    }
    let middle = Middle::at(node);
    (middle.node() == Some(node)) & (middle == Middle::at(node)) & (middle != Middle::NONE)
}

#[test]
fn a_middle_is_a_node_or_none(rt: HostRuntime) -> Result<(), Fail> {
    assert!(rt; has_middle(0) & has_middle(1) & has_middle(u32::MAX - 1));
    assert!(rt; (Middle::NONE.node() == None) & (Middle::NONE == Middle::NONE));
    assert!(rt; Middle::at(1) != Middle::at(2));
    Ok(())
}

/// Whether graphs begin in their rows.
fn all_begin(alloc: Global, openings: &[Opening]) -> Result<bool, Fail> {
    let mut holds = true;
    for opening in openings {
        let overlay = overlay_of(alloc, opening.nodes, opening.lines)?;
        holds &= begins(&overlay, opening);
    }
    Ok(holds)
}

#[test]
fn opening_rows(rt: HostRuntime) -> Result<(), Fail> {
    assert!(rt; all_begin(rt.alloc(), OPENINGS)?);
    Ok(())
}

/// Whether the rows are these.
pub fn are_changed(rows: &[(u32, Arc<Row>)], expected: &[Changed]) -> bool {
    let mut holds = rows.len() == expected.len();
    for ((at, row), (node, out, inn, rank)) in rows.iter().zip(expected) {
        holds &= (at == node) & is_row(row, out, inn, *rank);
    }
    holds
}

/// Whether the contraction of node 0 of three nodes without a shortcut brings the new rows.
fn brings_new_rows(overlay: &Overlay) -> Result<bool, AllocError>
    requires { overlay.now.order ≡ [] }
{
    if overlay.nodes() != 3 {
        return Ok(false);
    }
    Ok(are_changed(overlay.plan(0, &[])?.rows(), CHANGED))
}

#[test]
fn rows_without_a_shortcut(rt: HostRuntime) -> Result<(), Fail> {
    let overlay = overlay_of(rt.alloc(), 3, DIRECT)?;
    assert!(rt; brings_new_rows(&overlay)?);
    Ok(())
}
