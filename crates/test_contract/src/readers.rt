//! What the readers of a board's book find.
ghost use Rattle.std.specs.Prelude.{◌≡◌, length};
ghost use Rattle.ch_graph.specs.Limits.{bound_of};
ghost use Rattle.ch_rowbook.specs.Blanks.{name_of};

use crate::networks::{ROW, graph_of, with_blank, with_book};
use crate::shelf::{Numbers, cost_of};
use ch_contract::{Board, CommitError, Ledger, ProposeError, Receipt, Site, propose};
use ch_graph::Graph;
use ch_overlay::{Entry, SeeError, Seen};
use ch_rowbook::{Blank, Reader};
use std::alloc::Global;
use std::marker::Brand;
use std::sync::Wait;
use std::test::Fail;

/// Entries of a row: the other node, the cost and the middle of each.
pub type Entries = &'static [(u32, Numbers, Option<u32>)];

/// A row of the book: its version, its arcs out of the node and into it, and the node's rank.
pub type Version = (u64, Entries, Entries, Option<u32>);

/// The rows of the row of three nodes, by their nodes.
const OPENING: &[Version] = &[
    (0, &[(2, (3, 1), None)], &[(1, (2, 1), None)], None),
    (1, &[(0, (2, 1), None)], &[], None),
    (2, &[], &[(0, (3, 1), None)], None),
];

/// Its rows once node 0 is contracted, which were laid behind the others.
const LATER: &[Version] = &[
    (3, &[(2, (3, 1), None)], &[(1, (2, 1), None)], Some(0)),
    (4, &[(2, (5, 2), Some(0))], &[], None),
    (5, &[], &[(1, (5, 2), Some(0))], None),
];

/// The same rows in a book that was opened then.
const ANEW: &[Version] = &[
    (0, &[(2, (3, 1), None)], &[(1, (2, 1), None)], Some(0)),
    (1, &[(2, (5, 2), Some(0))], &[], None),
    (2, &[], &[(1, (5, 2), Some(0))], None),
];

/// Whether entries are these.
pub fn are(entries: &[Entry], expected: Entries) -> bool {
    let mut holds = entries.len() == expected.len();
    for (entry, (other, numbers, middle)) in entries.iter().zip(expected) {
        holds &= (entry.other == *other) & (entry.middle.node() == *middle);
        holds &= entry.cost.cost() == cost_of(*numbers);
    }
    holds
}

/// Whether an answer is of this node, and has this version and its row.
fn is_of(seen: &Seen, node: u32, (version, out, inn, rank): &Version) -> bool {
    (seen.node == node)
        & (seen.version == *version)
        & are(seen.row.out(), out)
        & are(seen.row.inn(), inn)
        & (seen.row.rank == *rank)
}

/// Whether a reader finds this row of the node.
pub fn finds_row<S: Site>(
    reader: &mut Reader<S>,
    node: u32,
    row: &Version,
) -> Result<bool, SeeError> {
    Ok(is_of(&reader.read(node)?, node, row))
}

/// Whether a reader finds no row of the node.
fn finds_none<S: Site>(reader: &mut Reader<S>, node: u32) -> bool {
    reader.read(node).err() == Some(SeeError::Unseen)
}

/// Whether a reader finds these three rows, and none besides.
fn finds<S: Site>(reader: &mut Reader<S>, rows: &[Version]) -> Result<bool, SeeError> {
    let mut holds = rows.len() == 3;
    for (node, row) in (0u32..).zip(rows) {
        holds &= finds_row(reader, node, row)?;
    }
    Ok(holds & finds_none(reader, 3))
}

/// Whether two readers find these rows, and none besides.
fn both_find<S: Site>(
    first: &mut Reader<S>,
    second: &mut Reader<S>,
    rows: &[Version],
) -> Result<bool, SeeError> {
    Ok(finds(first, rows)? & finds(second, rows)?)
}

/// Proposes node 0 twice by what a reader finds, and offers both. Whether the first alone is taken.
fn takes_one<S: Site, R: Wait>(
    rt: &R,
    alloc: Global,
    board: &mut Board<S>,
    reader: &mut Reader<S>,
) -> Result<bool, ProposeError> {
    let first = propose(alloc, reader, 0, 64)?;
    let second = propose(alloc, reader, 0, 64)?;
    let taken = board.commit_and_see(rt, &first, reader);
    let again = board.commit_and_see(rt, &second, reader);
    Ok((taken == Ok(Receipt { node: 0, rank: 0 })) & (again == Err(CommitError::Contracted)))
}

/// Proposes node 0 twice by what a reader of the board's book finds, and offers both. Whether the first proposal alone
/// changes the rows that this reader finds, and another that was split off before.
fn follows<S: Site, R: Wait>(
    rt: &R,
    alloc: Global,
    blank: Blank,
    graph: Graph,
) -> Result<bool, Fail>
    requires of_graph { S.graph ≡ graph }
    requires of_book { S.book ≡ name_of blank }
    requires nodes { blank.nodes ≡ graph.nodes }
    requires bound { blank.bound ≡ bound_of graph }
{
    let (mut board, mut reader): (Board<S>, Reader<S>) = Board::new(rt, alloc, blank, graph)?;
    are_two(rt, alloc, &mut board, &mut reader)
}

/// Whether a reader and another that is split off first both follow.
fn are_two<S: Site, R: Wait>(
    rt: &R,
    alloc: Global,
    board: &mut Board<S>,
    reader: &mut Reader<S>,
) -> Result<bool, Fail> {
    let mut early = reader.split()?;
    follow(rt, alloc, board, reader, &mut early)
}

/// Whether two readers find the opening rows, and then those once node 0 is contracted.
fn follow<S: Site, R: Wait>(
    rt: &R,
    alloc: Global,
    board: &mut Board<S>,
    reader: &mut Reader<S>,
    early: &mut Reader<S>,
) -> Result<bool, Fail> {
    let opening = both_find(reader, early, OPENING)?;
    let takes_one = takes_one(rt, alloc, board, reader)?;
    let later = both_find(reader, early, LATER)?;
    Ok(opening & takes_one & later)
}

#[test]
fn readers_find_the_rows_of_a_board(rt: HostRuntime) -> Result<(), Fail> {
    let alloc = rt.alloc();
    let (blank, graph) = with_blank(alloc, graph_of(alloc, 3, ROW)?)?;
    assert!(rt; follows::<Brand, HostRuntime>(&rt, alloc, blank, graph)?);
    Ok(())
}

/// What is taken out of a board once node 0 is contracted.
fn taken_out<S: Site, R: Wait>(
    rt: &R,
    alloc: Global,
    blank: Blank,
    graph: Graph,
) -> Result<Ledger, Fail>
    requires of_graph { S.graph ≡ graph }
    requires of_book { S.book ≡ name_of blank }
    requires nodes { blank.nodes ≡ graph.nodes }
    requires bound { blank.bound ≡ bound_of graph }
{
    let (mut board, mut reader): (Board<S>, Reader<S>) = Board::new(rt, alloc, blank, graph)?;
    contract(rt, alloc, &mut board, &mut reader)?;
    Ok(board.into_parts().0)
}

/// Contracts node 0 by what the reader finds.
fn contract<S: Site, R: Wait>(
    rt: &R,
    alloc: Global,
    board: &mut Board<S>,
    reader: &mut Reader<S>,
) -> Result<Receipt, Fail> {
    let proposal = propose(alloc, reader, 0, 64)?;
    Ok(board.commit(rt, proposal)?)
}

/// Whether a ledger goes on with a new book, whose reader finds the rows as they are, and commits what that one proposes.
fn goes_on<S: Site, R: Wait>(
    rt: &R,
    alloc: Global,
    blank: Blank,
    ledger: Ledger,
) -> Result<bool, Fail>
    requires of_graph { S.graph ≡ ledger.graph }
    requires of_book { S.book ≡ name_of blank }
    requires nodes { blank.nodes ≡ length ledger.overlay.rows }
    requires bound { blank.bound ≡ ledger.overlay.bound }
{
    match Board::<S>::of_ledger(rt, alloc, blank, ledger) {
        Ok((mut board, mut reader)) => contracts_second(rt, alloc, &mut board, &mut reader),
        Err((_, refused)) => Err(refused.into()),
    }
}

/// Whether the reader finds the rows as they are, and node 1 is contracted by what it finds.
fn contracts_second<S: Site, R: Wait>(
    rt: &R,
    alloc: Global,
    board: &mut Board<S>,
    reader: &mut Reader<S>,
) -> Result<bool, Fail> {
    let holds = finds(reader, ANEW)?;
    let proposal = propose(alloc, reader, 1, 64)?;
    let taken = board.commit_and_see(rt, &proposal, reader);
    Ok(holds & (taken == Ok(Receipt { node: 1, rank: 1 })) & (board.log().len() == 2))
}

#[test]
fn a_ledger_goes_on_with_a_new_book(rt: HostRuntime) -> Result<(), Fail> {
    let alloc = rt.alloc();
    let (blank, graph) = with_blank(alloc, graph_of(alloc, 3, ROW)?)?;
    let ledger = taken_out::<Brand, HostRuntime>(&rt, alloc, blank, graph)?;
    let (blank, ledger) = with_book(alloc, ledger)?;
    assert!(rt; goes_on::<Brand, HostRuntime>(&rt, alloc, blank, ledger)?);
    Ok(())
}
