ghost use Rattle.std.specs.Prelude.{◌≡◌};
ghost use Rattle.ch_graph.specs.Limits.{bound_of};
ghost use Rattle.ch_rowbook.specs.Blanks.{name_of};
ghost use Rattle.ch_witness.specs.Kept.{AreKept, OfTheirNodes, kept_of};

use crate::networks::{self, graph_of, with_blank};
use crate::proposals::are_of;
use crate::shelf::{Lead, Numbers, Shelf, cost_of};
use ch_contract::{Board, Site};
use ch_cost::Cost;
use ch_graph::Graph;
use ch_overlay::RowSource;
use ch_rowbook::{Blank, Reader};
use ch_witness::{Aim, Rule, SearchError, Searcher, Traced, Way, search};
use std::alloc::{AllocError, Global};
use std::marker::Brand;
use std::mem;
use std::sync::Wait;
use std::test::Fail;

/// Node 3 is reached from node 2 by way of 0 or of 1, at the same cost.
const TIE: &[Lead] = &[
    (2, 0, (1, 1)),
    (0, 3, (1, 1)),
    (2, 1, (1, 1)),
    (1, 3, (1, 1)),
];

/// The same, but the way over 0 is of more arcs.
const FEWEST: &[Lead] = &[
    (2, 0, (1, 1)),
    (0, 3, (1, 2)),
    (2, 1, (1, 1)),
    (1, 3, (1, 1)),
];

/// Node 3 is reached from node 2 over three arcs.
const CHAIN: &[Lead] = &[(2, 1, (1, 1)), (1, 0, (1, 1)), (0, 3, (1, 1))];

/// The same with two arcs of weight 0.
const SHORT_CHAIN: &[Lead] = &[(2, 1, (0, 1)), (1, 0, (1, 1)), (0, 3, (0, 1))];

/// A way as a test gives it: its nodes and its cost.
type Wanted = (&'static [u32], Numbers);

/// A search from node 2 to node 3: what leads from node to node and the one node that has a rank, the node to avoid, the
/// cutoff and how many nodes are settled; the way, if there is one, and the nodes that are asked for.
type Case = (
    &'static [Lead],
    Option<u32>,
    (u32, Numbers, u32),
    Option<Wanted>,
    &'static [u32],
);

const BY_1: Option<Wanted> = Some((&[2, 1, 3], (2, 2)));

const CASES: &[Case] = &[
    // The target is settled third, and its row isn't read.
    (TIE, None, (0, (2, 2), 64), BY_1, &[2, 1]),
    (TIE, None, (0, (2, 2), 2), BY_1, &[2, 1]),
    (TIE, None, (0, (2, 2), 1), None, &[2]),
    (TIE, None, (0, (1, 2), 64), None, &[2, 1]),
    (TIE, None, (0, (2, 1), 64), None, &[2, 1]),
    // Node 9 isn't there: of the two ways of equal cost the first is kept, and each row is read once.
    (
        TIE,
        None,
        (9, (2, 2), 64),
        Some((&[2, 0, 3], (2, 2))),
        &[2, 0, 1],
    ),
    // A cutoff may have more arcs than the bound, whose length is 3.
    (TIE, None, (0, (2, 9), 64), BY_1, &[2, 1]),
    (TIE, None, (0, (1, 9), 64), None, &[2, 1]),
    // Of two ways of one length that of fewer arcs is found.
    (FEWEST, None, (9, (2, 3), 64), BY_1, &[2, 0, 1]),
    // A direct arc to a target that isn't settled.
    (
        &[(2, 3, (1, 1))],
        None,
        (0, (1, 1), 1),
        Some((&[2, 3], (1, 1))),
        &[2],
    ),
    // Over three arcs, and not where one of their nodes is avoided.
    (
        CHAIN,
        None,
        (9, (3, 3), 64),
        Some((&[2, 1, 0, 3], (3, 3))),
        &[2, 1, 0],
    ),
    (CHAIN, None, (0, (3, 3), 64), None, &[2, 1]),
    // A shorter way than the cutoff may be of more arcs.
    (
        SHORT_CHAIN,
        None,
        (9, (2, 2), 64),
        Some((&[2, 1, 0, 3], (1, 3))),
        &[2, 1, 0],
    ),
    (SHORT_CHAIN, None, (9, (1, 2), 64), None, &[2, 1, 0]),
    // A search doesn't go on from a ranked row.
    (TIE, Some(1), (0, (2, 2), 64), None, &[2, 1]),
];

/// Whether the one way is this, or there is none where none is given.
pub fn is_one_way(ways: &[Option<Way>], expected: Option<(&[u32], Numbers)>) -> bool {
    if ways.len() != 1 {
        return false;
    }
    match (&ways[0], expected) {
        (Some(way), Some((nodes, numbers))) => {
            (way.nodes.as_slice() == nodes) & (way.cost == cost_of(numbers))
        }
        (way, expected) => way.is_none() & expected.is_none(),
    }
}

/// Whether a search that avoids a node finds the way within the cutoff, or none where none is given.
fn finds_round<S: RowSource>(
    alloc: Global,
    source: &mut S,
    (avoid, cutoff, settle): (u32, Numbers, u32),
    way: Option<Wanted>,
) -> Result<bool, SearchError> {
    let cutoff = cost_of(cutoff);
    if avoid == 2
        || avoid == 3
        || settle == 0
        || settle > 64
        || !cutoff.is_at_most(source.bound())
    {
        return Ok(false);
    }
    let found = search(alloc, source, 2, avoid, cutoff, &[3], settle)?;
    Ok(is_one_way(&found.ways, way))
}

/// Whether a search by a shelf of the case's rows finds its way, and asks for those that it needs.
fn comes_true(alloc: Global, (leads, ranked, rule, way, asked): &Case) -> Result<bool, Fail> {
    let mut shelf = Shelf::new(alloc, 4, leads, (3, 1), *ranked)?;
    let holds = finds_round(alloc, &mut shelf, *rule, *way)?;
    Ok(holds & (shelf.asked.as_slice() == *asked))
}

/// Whether all cases do.
fn all_come_true(alloc: Global, cases: &[Case]) -> Result<bool, Fail> {
    let mut holds = true;
    for case in cases {
        holds &= comes_true(alloc, case)?;
    }
    Ok(holds)
}

#[test]
fn one_search(rt: HostRuntime) -> Result<(), Fail> {
    assert!(rt; all_come_true(rt.alloc(), CASES)?);
    Ok(())
}

/// Whether the first four cases, which are those of the tie without ranks, come true by these rows.
fn finds_by_opening_rows<S: RowSource>(
    alloc: Global,
    source: &mut S,
    cases: &[Case],
) -> Result<bool, SearchError> {
    let mut holds = true;
    for (_, _, rule, way, _) in cases.iter().take(4) {
        holds &= finds_round(alloc, source, *rule, *way)?;
    }
    Ok(holds)
}

/// Whether they come true by a board of this graph, and by its reader.
fn both_find<S: Site, R: Wait>(
    rt: &R,
    alloc: Global,
    blank: Blank,
    graph: Graph,
    cases: &[Case],
) -> Result<bool, Fail>
    requires of_graph { S.graph ≡ graph }
    requires of_book { S.book ≡ name_of blank }
    requires nodes { blank.nodes ≡ graph.nodes }
    requires bound { blank.bound ≡ bound_of graph }
{
    let (mut board, mut reader): (Board<S>, Reader<S>) = Board::new(rt, alloc, blank, graph)?;
    let by_board = finds_by_opening_rows(alloc, &mut board, cases)?;
    Ok(by_board & finds_by_opening_rows(alloc, &mut reader, cases)?)
}

#[test]
fn searches_by_a_board_and_its_reader(rt: HostRuntime) -> Result<(), Fail> {
    let alloc = rt.alloc();
    let (blank, graph) = with_blank(alloc, graph_of(alloc, 4, networks::TIE)?)?;
    assert!(rt; both_find::<Brand, HostRuntime>(&rt, alloc, blank, graph, CASES)?);
    Ok(())
}

/// Whether nodes 1 and 2 are returned, whose rows were read, node 1 once though it is named twice, and not node 3.
fn hands_out(alloc: Global, searcher: &mut Searcher) -> Result<bool, AllocError>
    requires { OfTheirNodes (kept_of searcher.old.rows) }
{
    let listed = searcher.rows.take_listed(&[1, 2, 3, 1], Vec::new(alloc))?;
    Ok(are_of(&listed, &[1, 2]))
}

/// Whether a search from node 2 to node 3 that avoids node 0 finds the way by node 1.
fn finds_by(
    alloc: Global,
    searcher: &mut Searcher,
    shelf: &mut Shelf,
    traced: &mut Traced,
) -> Result<bool, SearchError>
    requires { AreKept (λ _. Unit {0}) (λ _. Unit {0}) shelf.old (kept_of searcher.old.rows) }
    ensures { AreKept (λ _. Unit {0}) (λ _. Unit {0}) shelf.new (kept_of searcher.new.rows) }
{
    let (from, avoid, cutoff) = (2, 0, Cost::of_walk(2, 2));
    if !shelf.allows(cutoff) {
        return Ok(false);
    }
    let rule = Rule {
        from,
        avoid,
        cutoff,
    };
    let earlier = mem::replace(traced, Traced::new(alloc));
    *traced = searcher.search(alloc, shelf, rule, &[3], &[], 64, earlier)?;
    Ok(is_one_way(&traced.ways, BY_1))
}

/// Whether two searches of one searcher find the same way, and it returns what they have read.
fn finds_twice(alloc: Global, shelf: &mut Shelf) -> Result<bool, Fail> {
    let mut searcher = Searcher::new(alloc);
    let mut traced = Traced::new(alloc);
    let first = finds_by(alloc, &mut searcher, shelf, &mut traced)?;
    let second = finds_by(alloc, &mut searcher, shelf, &mut traced)?;
    Ok(first & second & hands_out(alloc, &mut searcher)?)
}

/// Whether they do by a shelf of the tie, and ask it for each row once.
fn asks_once(alloc: Global) -> Result<bool, Fail> {
    let mut shelf = Shelf::new(alloc, 4, TIE, (3, 1), None)?;
    let holds = finds_twice(alloc, &mut shelf)?;
    Ok(holds & (shelf.asked.as_slice() == [2u32, 1].as_slice()))
}

#[test]
fn two_searches_ask_for_a_row_once(rt: HostRuntime) -> Result<(), Fail> {
    assert!(rt; asks_once(rt.alloc())?);
    Ok(())
}

/// A search from node 2 to node 3 that knows something of it: what leads from node to node, what a way is to cost at most,
/// and what the last arc costs at least; the way, if there is one, and the nodes that are asked for.
type AimCase = (
    &'static [Lead],
    (Numbers, Numbers),
    Option<Wanted>,
    &'static [u32],
);

const AIM_CASES: &[AimCase] = &[
    // The second way costs no less than the first, so the row of its node isn't read.
    (TIE, ((2, 2), (1, 1)), Some((&[2, 0, 3], (2, 2))), &[2, 0]),
    (
        CHAIN,
        ((3, 3), (1, 1)),
        Some((&[2, 1, 0, 3], (3, 3))),
        &[2, 1, 0],
    ),
    // What is settled third is too far off for the last arc.
    (CHAIN, ((2, 2), (1, 1)), None, &[2, 1]),
    // It isn't where a shorter way of more arcs is enough.
    (
        SHORT_CHAIN,
        ((2, 2), (0, 1)),
        Some((&[2, 1, 0, 3], (1, 3))),
        &[2, 1, 0],
    ),
    // What is wrong of an aim may cost the way.
    (CHAIN, ((3, 3), (3, 1)), None, &[2]),
];

/// Whether a search that has this aim finds the way, or none where none is given.
fn finds(
    alloc: Global,
    shelf: &mut Shelf,
    aim: Aim,
    way: Option<Wanted>,
) -> Result<bool, SearchError> {
    let cutoff = Cost::of_walk(3, 3);
    if !shelf.allows(cutoff) {
        return Ok(false);
    }
    let rule = Rule {
        from: 2,
        avoid: 9,
        cutoff,
    };
    let mut searcher = Searcher::new(alloc);
    let none = Traced::new(alloc);
    let found = searcher.search(alloc, shelf, rule, &[3], &[aim], 64, none)?;
    Ok(is_one_way(&found.ways, way))
}

/// Whether a search with its aim, by a shelf of the case's rows, finds its way, and asks for those that it needs.
fn is_aimed(alloc: Global, (leads, aim, way, asked): &AimCase) -> Result<bool, Fail> {
    let aim = Aim {
        enough: cost_of(aim.0),
        last_arc: cost_of(aim.1),
    };
    let mut shelf = Shelf::new(alloc, 4, leads, (3, 1), None)?;
    let holds = finds(alloc, &mut shelf, aim, *way)?;
    Ok(holds & (shelf.asked.as_slice() == *asked))
}

/// Whether all cases do.
fn all_are_aimed(alloc: Global, cases: &[AimCase]) -> Result<bool, Fail> {
    let mut holds = true;
    for case in cases {
        holds &= is_aimed(alloc, case)?;
    }
    Ok(holds)
}

#[test]
fn a_search_with_an_aim(rt: HostRuntime) -> Result<(), Fail> {
    assert!(rt; all_are_aimed(rt.alloc(), AIM_CASES)?);
    Ok(())
}
