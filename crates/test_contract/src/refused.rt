//! What rows, searches, proposals and boards return where one growth is refused: `tests/program/refusals` runs each test
//! once for each of its growths.
//!
//! A call that runs out of memory leaves its value as it was, is made again, and has to give what it gives with ample
//! memory. What is used up by a refused call, as a graph, ends the test with that error, and so does a growth of what the
//! test sets up.
mod rows;
mod worlds;

ghost use Rattle.std.specs.Prelude.{◌≡◌, [], All, IfOk, length};
ghost use Rattle.ch_graph.specs.Limits.{bound_of};
ghost use Rattle.ch_rowbook.specs.Blanks.{name_of};
ghost use Rattle.ch_contract.specs.Ready.{IsReadyFor};

use crate::boards::{Linked, are_links, finished};
use crate::networks::{Line, ROW, TIE, graph_of, with_blank, with_book};
use crate::proposals::are_of;
use crate::readers::are;
use crate::searches::is_one_way;
use crate::shelf::{Lead, Shelf};
use ch_contract::{
    Board, CommitError, FinishError, Ledger, Proposal, ProposeError, Ready, Receipt, Site,
    SweepError, make_ready, propose,
};
use ch_cost::Cost;
use ch_graph::{Graph, Hierarchy};
use ch_overlay::{Overlay, Row, RowSource, SeeError, Seen};
use ch_rowbook::{Blank, BookError, Reader};
use ch_witness::{SearchError, search};
use std::alloc::{AllocError, Global};
use std::marker::Brand;
use std::sync::{Arc, Wait};
use std::test::Fail;

/// How many nodes each search settles at most.
const SETTLE: u32 = 64;

/// The overlay of a graph.
fn started(alloc: Global, graph: &Graph) -> Result<Overlay, AllocError>
    ensures { IfOk result (λ o. o.order ≡ []) }
{
    match Overlay::start(alloc, graph) {
        Ok(overlay) => Ok(overlay),
        Err(AllocError) => Overlay::start(alloc, graph),
    }
}

/// Whether the contraction of node 0 without a shortcut changes the rows of these nodes.
fn changes(overlay: &Overlay, nodes: &[u32]) -> Result<bool, AllocError>
    requires { overlay.now.order ≡ [] }
{
    if overlay.nodes() == 0 {
        return Ok(false);
    }
    let change = match overlay.plan(0, &[]) {
        Ok(change) => change,
        Err(AllocError) => overlay.plan(0, &[])?,
    };
    Ok(are_rows_of(change.rows(), nodes))
}

/// Whether the rows are of these nodes, in this order.
fn are_rows_of(rows: &[(u32, Arc<Row>)], nodes: &[u32]) -> bool {
    let mut holds = rows.len() == nodes.len();
    for ((at, _), node) in rows.iter().zip(nodes) {
        holds &= at == node;
    }
    holds
}

/// A number of nodes, arcs, and the nodes whose rows change with the contraction of node 0.
type Changing = (u32, &'static [Line], &'static [u32]);

const CHANGES: &[Changing] = &[(3, ROW, &[0, 1, 2]), (4, TIE, &[0, 2, 3])];

/// Whether the rows of those nodes change.
fn all_change(alloc: Global, cases: &[Changing]) -> Result<bool, Fail> {
    let mut holds = true;
    for (nodes, lines, changed) in cases {
        let graph = graph_of(alloc, *nodes, lines)?;
        holds &= changes(&started(alloc, &graph)?, changed)?;
    }
    Ok(holds)
}

#[test]
fn start_and_plan(rt: HostRuntime) -> Result<(), Fail> {
    assert!(rt; all_change(rt.alloc(), CHANGES)?);
    Ok(())
}

/// Node 3 is reached from node 2 by way of 0 or of 1, at the same cost.
const TIED: &[Lead] = &[
    (2, 0, (1, 1)),
    (0, 3, (1, 1)),
    (2, 1, (1, 1)),
    (1, 3, (1, 1)),
];

/// Whether the one way from node 2 to node 3 that a search round node 0 finds is that by way of 1.
fn finds_way(alloc: Global, shelf: &mut Shelf) -> Result<bool, SearchError> {
    let cutoff = Cost::of_walk(2, 2);
    if !shelf.allows(cutoff) {
        return Ok(false);
    }
    let found = search(alloc, shelf, 2, 0, cutoff, &[3], SETTLE)?;
    Ok(is_one_way(&found.ways, Some((&[2, 1, 3], (2, 2)))))
}

/// Whether it does, by a shelf of the tie.
fn tied_finds_way(alloc: Global) -> Result<bool, Fail> {
    let mut shelf = Shelf::new(alloc, 4, TIED, (3, 1), None)?;
    let answer = match finds_way(alloc, &mut shelf) {
        Err(SearchError::OutOfMemory) => finds_way(alloc, &mut shelf),
        answer => answer,
    };
    Ok(answer?)
}

#[test]
fn search_round_a_node(rt: HostRuntime) -> Result<(), Fail> {
    assert!(rt; tied_finds_way(rt.alloc())?);
    Ok(())
}

fn proposed<S: RowSource>(
    alloc: Global,
    source: &mut S,
    node: u32,
) -> Result<Proposal, ProposeError> {
    match propose(alloc, source, node, SETTLE) {
        Err(ProposeError::OutOfMemory) => propose(alloc, source, node, SETTLE),
        answer => answer,
    }
}

fn row_of<S: RowSource>(source: &mut S, node: u32) -> Result<Seen, SeeError> {
    match source.row_of(node) {
        Err(SeeError::OutOfMemory) => source.row_of(node),
        answer => answer,
    }
}

/// Whether the proposal of node 0 of the tie rests on the rows that it has to, and has no shortcut.
fn needs_none(alloc: Global, shelf: &mut Shelf) -> Result<bool, ProposeError> {
    let proposal = proposed(alloc, shelf, 0)?;
    Ok(are_of(proposal.rests_on(), &[0, 2, 1]) & proposal.shortcuts().is_empty())
}

/// Whether it does, by a shelf of the tie.
fn tied_needs_none(alloc: Global) -> Result<bool, Fail> {
    let mut shelf = Shelf::new(alloc, 4, TIED, (3, 1), None)?;
    Ok(needs_none(alloc, &mut shelf)?)
}

#[test]
fn propose_by_a_shelf(rt: HostRuntime) -> Result<(), Fail> {
    assert!(rt; tied_needs_none(rt.alloc())?);
    Ok(())
}

/// Commits a node of a board. A refused call leaves the log.
fn committed<S: Site, R: Wait>(
    rt: &R,
    alloc: Global,
    board: &mut Board<S>,
    node: u32,
) -> Result<Receipt, Fail> {
    let before = board.log().len();
    let proposal = propose(alloc, board, node, SETTLE)?;
    match board.commit(rt, proposal) {
        Err(CommitError::OutOfMemory) => committed_again(rt, alloc, board, node, before),
        answer => Ok(answer?),
    }
}

/// Commits a node for which memory ran out, with this many contractions in the log.
fn committed_again<S: Site, R: Wait>(
    rt: &R,
    alloc: Global,
    board: &mut Board<S>,
    node: u32,
    before: usize,
) -> Result<Receipt, Fail> {
    if board.log().len() != before {
        return Err(Fail::new("a refused contraction is in the log"));
    }
    let proposal = propose(alloc, board, node, SETTLE)?;
    Ok(board.commit(rt, proposal)?)
}

/// Commits a node as [`committed`] does, and has the reader take a glance at what changed.
fn committed_and_seen<S: Site, R: Wait>(
    rt: &R,
    alloc: Global,
    board: &mut Board<S>,
    reader: &mut Reader<S>,
    node: u32,
) -> Result<Receipt, Fail> {
    let before = board.log().len();
    let proposal = propose(alloc, reader, node, SETTLE)?;
    match board.commit_and_see(rt, &proposal, reader) {
        Err(CommitError::OutOfMemory) => seen_again(rt, alloc, board, reader, node, before),
        answer => Ok(answer?),
    }
}

/// Commits a node as [`committed_again`] does, and has the reader take a glance at what changed.
fn seen_again<S: Site, R: Wait>(
    rt: &R,
    alloc: Global,
    board: &mut Board<S>,
    reader: &mut Reader<S>,
    node: u32,
    before: usize,
) -> Result<Receipt, Fail> {
    if board.log().len() != before {
        return Err(Fail::new("a refused contraction is in the log"));
    }
    let proposal = propose(alloc, reader, node, SETTLE)?;
    Ok(board.commit_and_see(rt, &proposal, reader)?)
}

/// The new rows of a proposal.
fn ready_rows<S: RowSource>(
    alloc: Global,
    source: &mut S,
    proposal: &Proposal,
) -> Result<Ready, SeeError>
    ensures ready { IfOk result (IsReadyFor proposal.now) }
    ensures bears { IfOk result (λ r. All S.bears r.beside) }
{
    match make_ready(alloc, source, proposal) {
        Err(SeeError::OutOfMemory) => make_ready(alloc, source, proposal),
        answer => answer,
    }
}

/// Commits a node as [`committed_and_seen`] does, with new rows that are made before.
fn committed_ready<S: Site, R: Wait>(
    rt: &R,
    alloc: Global,
    board: &mut Board<S>,
    reader: &mut Reader<S>,
    node: u32,
) -> Result<Receipt, Fail> {
    let before = board.log().len();
    let proposal = propose(alloc, reader, node, SETTLE)?;
    let ready = ready_rows(alloc, reader, &proposal)?;
    match board.commit_ready(rt, &proposal, Some(ready), reader) {
        Err(CommitError::OutOfMemory) => seen_again(rt, alloc, board, reader, node, before),
        answer => Ok(answer?),
    }
}

/// Contracts the nodes that are left: whether a receipt is returned for each.
fn sweep<S: Site, R: Wait>(rt: &R, board: &mut Board<S>) -> Result<bool, SweepError> {
    let left = board.overlay().alive() as usize;
    Ok(board.sweep(rt, SETTLE)?.len() == left)
}

/// Contracts the nodes that are left, and then those that a refused sweep left: whether a receipt is returned for each of
/// these.
fn swept<S: Site, R: Wait>(rt: &R, board: &mut Board<S>) -> Result<bool, SweepError> {
    match sweep(rt, board) {
        Err(SweepError::OutOfMemory) => sweep(rt, board),
        answer => answer,
    }
}

/// The hierarchy of a board, by what is returned where memory runs out.
fn hierarchy_of<S: Site>(board: Board<S>) -> Result<Hierarchy, FinishError> {
    match board.into_hierarchy() {
        Ok(hierarchy) => Ok(hierarchy),
        Err((back, FinishError::OutOfMemory)) => finished(back),
        Err((_, error)) => Err(error),
    }
}

/// The links of the row of three nodes with node 0 at the bottom.
const LINKS: &[Linked] = &[
    (0, 2, (3, 1), None),
    (1, 0, (2, 1), None),
    (1, 2, (5, 2), Some(0)),
];

/// Whether the nodes of a board of the row of three nodes are all contracted, node 0 by a commit.
fn is_contracted<S: Site, R: Wait>(
    rt: &R,
    alloc: Global,
    board: &mut Board<S>,
) -> Result<bool, Fail> {
    let is_first = row_of(board, 1)?.version == 1;
    let receipt = committed(rt, alloc, board, 0)?;
    let swept = swept(rt, board)?;
    Ok(is_first & (receipt == Receipt { node: 0, rank: 0 }) & swept & (board.log().len() == 3))
}

/// Whether a board of the row of three nodes comes to its hierarchy, with node 0 contracted by a commit.
fn comes_to<S: Site, R: Wait>(
    rt: &R,
    alloc: Global,
    blank: Blank,
    graph: Graph,
) -> Result<bool, Fail>
    requires of_graph { S.graph ≡ graph }
    requires of_book { S.book ≡ name_of blank }
    requires nodes { blank.nodes ≡ graph.nodes }
    requires bound { blank.bound ≡ bound_of graph }
{
    let (mut board, _): (Board<S>, Reader<S>) = Board::new(rt, alloc, blank, graph)?;
    let holds = is_contracted(rt, alloc, &mut board)?;
    Ok(holds & has_links(board)?)
}

/// Whether the hierarchy of a board has the links of the row of three nodes.
fn has_links<S: Site>(board: Board<S>) -> Result<bool, FinishError> {
    Ok(are_links(hierarchy_of(board)?.links(), LINKS))
}

#[test]
fn board(rt: HostRuntime) -> Result<(), Fail> {
    let alloc = rt.alloc();
    let (blank, graph) = with_blank(alloc, graph_of(alloc, 3, ROW)?)?;
    assert!(rt; comes_to::<Brand, HostRuntime>(&rt, alloc, blank, graph)?);
    Ok(())
}

/// Whether a ledger goes on with a new book, and has no contraction yet. It is returned where memory runs out.
fn goes_on<S: Site, R: Wait>(
    rt: &R,
    alloc: Global,
    blank: Blank,
    ledger: Ledger,
) -> Result<bool, (Ledger, BookError)>
    requires of_graph { S.graph ≡ ledger.graph }
    requires of_book { S.book ≡ name_of blank }
    requires nodes { blank.nodes ≡ length ledger.overlay.rows }
    requires bound { blank.bound ≡ ledger.overlay.bound }
{
    match Board::<S>::of_ledger(rt, alloc, blank, ledger) {
        Ok((board, _)) => Ok(board.log().is_empty()),
        Err(refused) => Err(refused),
    }
}

/// Whether a ledger that was returned goes on with another book.
fn goes_on_again<R: Wait>(rt: &R, alloc: Global, ledger: Ledger) -> Result<bool, AllocError> {
    let (blank, ledger) = with_book(alloc, ledger)?;
    Ok(matches!(goes_on::<Brand, R>(rt, alloc, blank, ledger), Ok(true)))
}

#[test]
fn ledger_in_a_book(rt: HostRuntime) -> Result<(), Fail> {
    let alloc = rt.alloc();
    let (blank, ledger) = with_book(alloc, Ledger::new(alloc, graph_of(alloc, 3, ROW)?)?)?;
    let holds = match goes_on::<Brand, HostRuntime>(&rt, alloc, blank, ledger) {
        Err((ledger, BookError::OutOfMemory)) => goes_on_again(&rt, alloc, ledger)?,
        answer => matches!(answer, Ok(true)),
    };
    assert!(rt; holds);
    Ok(())
}

/// Whether a node is proposed with one shortcut.
fn has_shortcut<S: RowSource>(
    alloc: Global,
    source: &mut S,
    node: u32,
) -> Result<bool, ProposeError> {
    let proposal = proposed(alloc, source, node)?;
    Ok(proposal.shortcuts().len() == 1)
}

/// Whether a proposal is refused since the row of node 2 has changed with the first contraction. Its version is later where
/// rows were laid in vain.
fn is_stale(answer: Result<Receipt, CommitError>) -> bool {
    let Err(
        CommitError::Stale {
            node,
            seen,
            now,
            front,
        },
    ) = answer
    else {
        return false;
    };
    ((node, seen, front) == (2, 2, 1)) & (now >= 5)
}

/// Whether both middle nodes are contracted, the first by what the reader finds, and an earlier proposal of the second is
/// stale, which takes no memory.
fn are_contracted<S: Site, R: Wait>(
    rt: &R,
    alloc: Global,
    board: &mut Board<S>,
    reader: &mut Reader<S>,
) -> Result<bool, Fail> {
    let early = propose(alloc, reader, 1, SETTLE)?;
    let first = committed_and_seen(rt, alloc, board, reader, 0)?;
    let is_stale = is_stale(board.commit_and_see(rt, &early, reader));
    let has_shortcut = has_shortcut(alloc, reader, 1)?;
    let second = committed(rt, alloc, board, 1)?;
    Ok(is_stale & has_shortcut & ((first.rank, second.rank) == (0, 1)))
}

/// Whether both middle nodes of the tie are contracted, the first by what a reader of the board's book finds.
fn is_seen<S: Site, R: Wait>(
    rt: &R,
    alloc: Global,
    blank: Blank,
    graph: Graph,
) -> Result<bool, Fail>
    requires of_graph { S.graph ≡ graph }
    requires of_book { S.book ≡ name_of blank }
    requires nodes { blank.nodes ≡ graph.nodes }
    requires bound { blank.bound ≡ bound_of graph }
{
    let (mut board, mut reader): (Board<S>, Reader<S>) = Board::new(rt, alloc, blank, graph)?;
    are_contracted(rt, alloc, &mut board, &mut reader)
}

#[test]
fn board_and_reader(rt: HostRuntime) -> Result<(), Fail> {
    let alloc = rt.alloc();
    let (blank, graph) = with_blank(alloc, graph_of(alloc, 4, TIE)?)?;
    assert!(rt; is_seen::<Brand, HostRuntime>(&rt, alloc, blank, graph)?);
    Ok(())
}

/// Whether a reader finds the later row of node 1, which leads to node 2 by way of node 0.
fn finds_later_row<S: Site>(reader: &mut Reader<S>) -> Result<bool, SeeError> {
    let seen = row_of(reader, 1)?;
    let is_later = are(seen.row.out(), &[(2, (5, 2), Some(0))]) & are(seen.row.inn(), &[]);
    Ok((seen.version > 1) & is_later)
}

/// Whether a reader of the row of three nodes and one that was split off before both find what a commit of node 0 changes.
fn both_find_later_row<S: Site, R: Wait>(
    rt: &R,
    alloc: Global,
    board: &mut Board<S>,
    reader: &mut Reader<S>,
) -> Result<bool, Fail> {
    let mut early = match reader.split() {
        Ok(early) => early,
        Err(AllocError) => reader.split()?,
    };
    let receipt = committed_and_seen(rt, alloc, board, reader, 0)?;
    let holds = finds_later_row(reader)? & finds_later_row(&mut early)?;
    Ok(holds & (receipt == Receipt { node: 0, rank: 0 }))
}

/// The same, of a board of this graph, which has to be the row of three nodes.
fn are_found<S: Site, R: Wait>(
    rt: &R,
    alloc: Global,
    blank: Blank,
    graph: Graph,
) -> Result<bool, Fail>
    requires of_graph { S.graph ≡ graph }
    requires of_book { S.book ≡ name_of blank }
    requires nodes { blank.nodes ≡ graph.nodes }
    requires bound { blank.bound ≡ bound_of graph }
{
    let (mut board, mut reader): (Board<S>, Reader<S>) = Board::new(rt, alloc, blank, graph)?;
    both_find_later_row(rt, alloc, &mut board, &mut reader)
}

#[test]
fn commit_and_readers(rt: HostRuntime) -> Result<(), Fail> {
    let alloc = rt.alloc();
    let (blank, graph) = with_blank(alloc, graph_of(alloc, 3, ROW)?)?;
    assert!(rt; are_found::<Brand, HostRuntime>(&rt, alloc, blank, graph)?);
    Ok(())
}

/// Whether a reader of the row of three nodes finds what a commit of node 0 changes, with rows that were made before.
fn finds_ready_row<S: Site, R: Wait>(
    rt: &R,
    alloc: Global,
    board: &mut Board<S>,
    reader: &mut Reader<S>,
) -> Result<bool, Fail> {
    let receipt = committed_ready(rt, alloc, board, reader, 0)?;
    Ok(finds_later_row(reader)? & (receipt == Receipt { node: 0, rank: 0 }))
}

/// The same, of a board of this graph, which has to be the row of three nodes.
fn is_ready<S: Site, R: Wait>(
    rt: &R,
    alloc: Global,
    blank: Blank,
    graph: Graph,
) -> Result<bool, Fail>
    requires of_graph { S.graph ≡ graph }
    requires of_book { S.book ≡ name_of blank }
    requires nodes { blank.nodes ≡ graph.nodes }
    requires bound { blank.bound ≡ bound_of graph }
{
    let (mut board, mut reader): (Board<S>, Reader<S>) = Board::new(rt, alloc, blank, graph)?;
    finds_ready_row(rt, alloc, &mut board, &mut reader)
}

#[test]
fn commit_of_ready_rows(rt: HostRuntime) -> Result<(), Fail> {
    let alloc = rt.alloc();
    let (blank, graph) = with_blank(alloc, graph_of(alloc, 3, ROW)?)?;
    assert!(rt; is_ready::<Brand, HostRuntime>(&rt, alloc, blank, graph)?);
    Ok(())
}
