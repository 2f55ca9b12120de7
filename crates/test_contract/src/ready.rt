//! Commits with new rows that were made before.
ghost use Rattle.std.specs.Prelude.{◌≡◌};
ghost use Rattle.ch_graph.specs.Limits.{bound_of};
ghost use Rattle.ch_rowbook.specs.Blanks.{name_of};

use crate::networks::{FREE, Line, ONWARD, ROW, graph_of, with_blank};
use crate::readers::{Version, finds_row};
use ch_contract::{Board, Receipt, Site, make_ready, propose};
use ch_graph::Graph;
use ch_overlay::SeeError;
use ch_rowbook::{Blank, Reader};
use std::alloc::Global;
use std::marker::Brand;
use std::sync::Wait;
use std::test::Fail;

/// The rows of [`ROW`] once node 0 is contracted.
const AT_ONCE: &[Version] = &[
    (3, &[(2, (3, 1), None)], &[(1, (2, 1), None)], Some(0)),
    (4, &[(2, (5, 2), Some(0))], &[], None),
    (5, &[], &[(1, (5, 2), Some(0))], None),
];

/// The rows of [`ONWARD`] once node 3 is contracted, and then node 0. Node 2, which node 0 leads to, has lost its arc.
const AFTER_ANOTHER: &[Version] = &[
    (6, &[(2, (3, 1), None)], &[(1, (2, 1), None)], Some(1)),
    (7, &[(2, (5, 2), Some(0))], &[], None),
    (8, &[], &[(1, (5, 2), Some(0))], None),
    (4, &[], &[(2, (1, 1), None)], Some(0)),
];

/// The rows of [`FREE`] once node 0 is contracted, whose proposal rests on its own row alone.
const ALONE: &[Version] = &[
    (2, &[(1, (0, 1), None)], &[(1, (0, 1), None)], Some(0)),
    (3, &[], &[], None),
];

/// Whether a reader finds these rows, by their nodes.
fn finds<S: Site>(reader: &mut Reader<S>, rows: &[Version]) -> Result<bool, SeeError> {
    let mut holds = true;
    for (node, row) in (0u32..).zip(rows) {
        holds &= finds_row(reader, node, row)?;
    }
    Ok(holds)
}

/// Makes the rows of node 0 ready, contracts these nodes, and then node 0 with its rows.
fn commit_late<S: Site, R: Wait>(
    rt: &R,
    alloc: Global,
    board: &mut Board<S>,
    reader: &mut Reader<S>,
    between: &[u32],
) -> Result<Receipt, Fail> {
    let proposal = propose(alloc, reader, 0, 64)?;
    let ready = make_ready(alloc, reader, &proposal)?;
    for node in between {
        let other = propose(alloc, board, *node, 64)?;
        board.commit(rt, other)?;
    }
    Ok(board.commit_ready(rt, &proposal, Some(ready), reader)?)
}

/// Whether a reader finds these rows once node 0 of a board is contracted so, and its rank is how many were before it.
fn comes_to<S: Site, R: Wait>(
    rt: &R,
    alloc: Global,
    board: &mut Board<S>,
    reader: &mut Reader<S>,
    between: &[u32],
    rows: &[Version],
) -> Result<bool, Fail> {
    let receipt = commit_late(rt, alloc, board, reader, between)?;
    Ok((receipt.rank as usize == between.len()) & finds(reader, rows)?)
}

/// The same, of a board of this graph.
fn leads_to<S: Site, R: Wait>(
    rt: &R,
    alloc: Global,
    blank: Blank,
    graph: Graph,
    between: &[u32],
    rows: &[Version],
) -> Result<bool, Fail>
    requires of_graph { S.graph ≡ graph }
    requires of_book { S.book ≡ name_of blank }
    requires nodes { blank.nodes ≡ graph.nodes }
    requires bound { blank.bound ≡ bound_of graph }
{
    let (mut board, mut reader): (Board<S>, Reader<S>) = Board::new(rt, alloc, blank, graph)?;
    comes_to(rt, alloc, &mut board, &mut reader, between, rows)
}

/// Whether the rows of this network are these once these nodes are contracted, and then node 0 by rows that were made
/// before.
fn are_rows<R: Wait>(
    rt: &R,
    alloc: Global,
    nodes: u32,
    lines: &[Line],
    between: &[u32],
    rows: &[Version],
) -> Result<bool, Fail> {
    let (blank, graph) = with_blank(alloc, graph_of(alloc, nodes, lines)?)?;
    leads_to::<Brand, R>(rt, alloc, blank, graph, between, rows)
}

#[test]
fn rows_are_made_before(rt: HostRuntime) -> Result<(), Fail> {
    assert!(rt; are_rows(&rt, rt.alloc(), 3, ROW, &[], AT_ONCE)?);
    Ok(())
}

#[test]
fn row_that_was_read_beside_has_changed(rt: HostRuntime) -> Result<(), Fail> {
    assert!(rt; are_rows(&rt, rt.alloc(), 4, ONWARD, &[3], AFTER_ANOTHER)?);
    Ok(())
}

#[test]
fn no_row_but_the_nodes_own_is_under_the_proposal(rt: HostRuntime) -> Result<(), Fail> {
    assert!(rt; are_rows(&rt, rt.alloc(), 2, FREE, &[], ALONE)?);
    Ok(())
}
