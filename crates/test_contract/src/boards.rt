ghost use Rattle.std.specs.Prelude.{◌≡◌};
ghost use Rattle.ch_graph.specs.Limits.{bound_of};
ghost use Rattle.ch_rowbook.specs.Blanks.{name_of};

use crate::networks::{
    FEWEST, FREE, HEAVY, LONGER, Line, MOST, PARALLEL, ROW, TIE, graph_of, with_blank,
};
use crate::proposals::{Judged, are_of, are_shortcuts, are_verdicts};
use crate::shelf::{Lead, Numbers, cost_of};
use ch_contract::{
    Board, CommitError, Contraction, Facts, FinishError, Finished, Ledger, Proposal, ProposeError,
    Receipt, Site, SweepError, Verdict, propose,
};
use ch_graph::{Graph, Hierarchy, Link, Road};
use ch_rowbook::{Blank, Reader};
use std::alloc::Global;
use std::marker::Brand;
use std::sync::Wait;
use std::test::Fail;

/// How many nodes each search settles at most.
const SETTLE: u32 = 64;

/// A node, and how many arcs lead into it and out of it, from and to nodes that aren't contracted.
type Degrees = (u32, u32, u32);

/// A proposal, and what the board returns for it: its node, the nodes of the rows that it rests on, its verdicts, and its
/// shortcuts.
type Offer = (
    Degrees,
    &'static [u32],
    &'static [Judged],
    &'static [Lead],
    Result<Receipt, CommitError>,
);

/// A link: its ends, its cost and its middle.
pub type Linked = (u32, u32, Numbers, Option<u32>);

/// The length of an arc of the greatest weight.
const ONE: u64 = MOST as u64;

/// That of two.
const TWO: u64 = 8_589_934_590;

/// A board on which each node gets the rank of its number, and what it comes to.
#[derive(Clone, Copy)]
struct Case {
    nodes: u32,
    lines: &'static [Line],
    /// The proposals of a turn are worked out by the rows as they are, and then offered one by one. The sweep goes on
    /// from there.
    turns: &'static [&'static [Offer]],
    /// By rising node its neighbours, as the log has them, and how many shortcuts were put in.
    log: &'static [(&'static [u32], u64)],
    links: &'static [Linked],
    bound: Numbers,
}

const ROW_OF_THREE: Case = Case {
    nodes: 3,
    lines: ROW,
    turns: &[],
    log: &[(&[1, 2], 1), (&[2], 0), (&[], 0)],
    links: &[
        (0, 2, (3, 1), None),
        (1, 0, (2, 1), None),
        (1, 2, (5, 2), Some(0)),
    ],
    bound: (6, 2),
};

const TIE_OF_FOUR: Case = Case {
    nodes: 4,
    lines: TIE,
    turns: &[],
    log: &[(&[2, 3], 0), (&[2, 3], 1), (&[3], 0), (&[], 0)],
    links: &[
        (0, 3, (1, 1), None),
        (1, 3, (1, 1), None),
        (2, 0, (1, 1), None),
        (2, 1, (1, 1), None),
        (2, 3, (2, 2), Some(1)),
    ],
    bound: (3, 3),
};

const HEAVIEST_WEIGHTS: Case = Case {
    nodes: 4,
    lines: HEAVY,
    turns: &[],
    log: &[(&[1, 2, 3], 3), (&[2, 3], 0), (&[3], 0), (&[], 0)],
    links: &[
        (0, 1, (ONE, 1), None),
        (0, 3, (ONE, 1), None),
        (1, 0, (ONE, 1), None),
        (1, 3, (TWO, 2), Some(0)),
        (2, 0, (ONE, 1), None),
        (2, 1, (TWO, 2), Some(0)),
        (2, 3, (TWO, 2), Some(0)),
    ],
    bound: (12_884_901_885, 3),
};

/// Of two proposals of one node the first is taken, and then the node is contracted for good.
const ROW_BY_COMMITS: Case = Case {
    turns: &[&[
        (
            (0, 1, 1),
            &[0, 1],
            &[(1, 2, Some(Verdict::Shortcut)), (2, 1, None)],
            &[(1, 2, (5, 2))],
            Ok(Receipt { node: 0, rank: 0 }),
        ),
        (
            (0, 1, 1),
            &[0, 1],
            &[(1, 2, Some(Verdict::Shortcut))],
            &[(1, 2, (5, 2))],
            Err(CommitError::Contracted),
        ),
    ]],
    ..ROW_OF_THREE
};

/// Both middle nodes are proposed by the opening rows. The second proposal rests on a row that the first contraction
/// changes, and the next proposal of its node puts a shortcut in.
const TIE_BY_COMMITS: Case = Case {
    turns: &[
        &[
            (
                (0, 1, 1),
                &[0, 2, 1],
                &[(2, 3, Some(Verdict::Witness))],
                &[],
                Ok(Receipt { node: 0, rank: 0 }),
            ),
            (
                (1, 1, 1),
                &[1, 2, 0],
                &[(2, 3, Some(Verdict::Witness))],
                &[],
                Err(CommitError::Stale {
                    node: 2,
                    seen: 2,
                    now: 5,
                    front: 1,
                }),
            ),
        ],
        &[(
            (1, 1, 1),
            &[1, 2],
            &[(2, 3, Some(Verdict::Shortcut))],
            &[(2, 3, (2, 2))],
            Ok(Receipt { node: 1, rank: 1 }),
        )],
    ],
    ..TIE_OF_FOUR
};

/// Once node 0 is contracted, the pair of node 1 from 2 to 3 is heavy: its two shortcuts cost 17,179,869,180 together.
const HEAVY_BY_COMMITS: Case = Case {
    turns: &[
        &[(
            (0, 2, 2),
            &[0, 1, 2],
            &[
                (1, 3, Some(Verdict::Shortcut)),
                (2, 1, Some(Verdict::Shortcut)),
                (2, 3, Some(Verdict::Shortcut)),
            ],
            &[(1, 3, (TWO, 2)), (2, 1, (TWO, 2)), (2, 3, (TWO, 2))],
            Ok(Receipt { node: 0, rank: 0 }),
        )],
        &[(
            (1, 1, 1),
            &[1, 2],
            &[(2, 3, Some(Verdict::Heavy))],
            &[],
            Ok(Receipt { node: 1, rank: 1 }),
        )],
    ],
    ..HEAVIEST_WEIGHTS
};

const CASES: &[Case] = &[
    ROW_OF_THREE,
    TIE_OF_FOUR,
    HEAVIEST_WEIGHTS,
    ROW_BY_COMMITS,
    TIE_BY_COMMITS,
    HEAVY_BY_COMMITS,
    // Parallel arcs and a loop.
    Case {
        nodes: 2,
        lines: PARALLEL,
        turns: &[],
        log: &[(&[1], 0), (&[], 0)],
        links: &[(0, 1, (4, 1), None)],
        bound: (12, 1),
    },
    // No shortcut where an arc is as short.
    Case {
        nodes: 3,
        lines: FEWEST,
        turns: &[],
        log: &[(&[1, 2], 0), (&[2], 0), (&[], 0)],
        links: &[
            (0, 2, (5, 1), None),
            (1, 0, (0, 1), None),
            (1, 2, (5, 1), None),
        ],
        bound: (10, 2),
    },
    // A shortcut where another way is as short, but of more arcs.
    Case {
        nodes: 5,
        lines: LONGER,
        turns: &[],
        log: &[
            (&[3, 4], 1),
            (&[2, 3], 1),
            (&[3, 4], 0),
            (&[4], 0),
            (&[], 0),
        ],
        links: &[
            (0, 4, (1, 1), None),
            (1, 2, (1, 1), None),
            (2, 4, (1, 1), None),
            (3, 0, (2, 1), None),
            (3, 1, (1, 1), None),
            (3, 2, (2, 2), Some(1)),
            (3, 4, (3, 2), Some(0)),
        ],
        bound: (8, 4),
    },
    // Arcs of weight 0.
    Case {
        nodes: 2,
        lines: FREE,
        turns: &[],
        log: &[(&[1], 0), (&[], 0)],
        links: &[(0, 1, (0, 1), None), (1, 0, (0, 1), None)],
        bound: (0, 1),
    },
    // No nodes.
    Case {
        nodes: 0,
        lines: &[],
        turns: &[],
        log: &[],
        links: &[],
        bound: (0, 0),
    },
];

/// How a hierarchy is taken out of a board.
#[derive(Clone, Copy)]
enum End {
    /// As a whole.
    Board,
    /// By its ledger, which gives the log and the rows besides.
    Ledger,
}

/// Whether a board of the graph returns what the case expects for the offers, and what is taken out of it then is the
/// case's.
fn comes_to<S: Site, R: Wait>(
    rt: &R,
    alloc: Global,
    blank: Blank,
    graph: Graph,
    case: &Case,
    end: End,
) -> Result<bool, Fail>
    requires of_graph { S.graph ≡ graph }
    requires of_book { S.book ≡ name_of blank }
    requires nodes { blank.nodes ≡ graph.nodes }
    requires bound { blank.bound ≡ bound_of graph }
{
    let (board, _): (Board<S>, Reader<S>) = Board::new(rt, alloc, blank, graph)?;
    Ok(goes_well(rt, alloc, board, case, end)?)
}

/// Whether a fresh board does.
fn goes_well<S: Site, R: Wait>(
    rt: &R,
    alloc: Global,
    board: Board<S>,
    case: &Case,
    end: End,
) -> Result<bool, SweepError> {
    let mut board = board;
    let holds = takes_turns(rt, alloc, &mut board, case)?;
    Ok(holds & is_finished(board, case, end))
}

/// The hierarchy of a board, which is lost where it has none.
pub fn finished<S: Site>(board: Board<S>) -> Result<Hierarchy, FinishError> {
    match board.into_hierarchy() {
        Ok(hierarchy) => Ok(hierarchy),
        Err((_, error)) => Err(error),
    }
}

/// Whether what is taken out of a board is the hierarchy of the case, and its log and its rows where they come with it.
fn is_finished<S: Site>(board: Board<S>, case: &Case, end: End) -> bool {
    match end {
        End::Board => match finished(board) {
            Ok(hierarchy) => is_hierarchy(&hierarchy, case),
            Err(_) => false,
        },
        End::Ledger => is_given(board.into_parts().0.finish(), case),
    }
}

/// Whether the hierarchy of the case was given away, its log and its rows.
fn is_given(given: Result<Finished, (Ledger, FinishError)>, case: &Case) -> bool {
    match given {
        Ok(finished) => {
            is_hierarchy(&finished.hierarchy, case)
                & is_log(finished.log.as_slice(), case.log)
                & (finished.rows.nodes() == case.nodes)
                & (finished.rows.alive() == 0)
        }
        Err(_) => false,
    }
}

/// Whether the board returns what is expected for the offers of each turn, and the sweep then contracts what is left.
fn takes_turns<S: Site, R: Wait>(
    rt: &R,
    alloc: Global,
    board: &mut Board<S>,
    case: &Case,
) -> Result<bool, SweepError> {
    let mut holds = true;
    for offers in case.turns {
        holds &= answers(rt, alloc, board, offers);
    }
    Ok(holds & is_swept(rt, alloc, board, case)?)
}

/// Whether no contracted node is proposed, and no other number than a node's, and the sweep contracts the others.
fn is_swept<S: Site, R: Wait>(
    rt: &R,
    alloc: Global,
    board: &mut Board<S>,
    case: &Case,
) -> Result<bool, SweepError> {
    let contracted = board.log().len() as u32;
    let mut holds = refuses(alloc, board, case.nodes, ProposeError::Unseen);
    for node in 0..contracted {
        holds &= refuses(alloc, board, node, ProposeError::Contracted);
    }
    let receipts = board.sweep(rt, SETTLE)?;
    let many = receipts.len() == case.nodes.saturating_sub(contracted) as usize;
    Ok(holds & many & in_order(&receipts, contracted) & is_log(board.log(), case.log))
}

/// Whether the proposals by the rows as they are, and then the board's results for them, are as expected.
///
/// An offer is worked out before those in front of it are, and committed after them.
fn answers<S: Site, R: Wait>(
    rt: &R,
    alloc: Global,
    board: &mut Board<S>,
    offers: &[Offer],
) -> bool {
    let Some((offer, before)) = offers.split_last() else {
        return true;
    };
    let (node, _, _) = offer.0;
    let Ok(proposal) = propose(alloc, board, node, SETTLE) else {
        return false;
    };
    let holds = answers(rt, alloc, board, before) & is_offer(&proposal, offer);
    holds & (board.commit(rt, proposal) == offer.4)
}

/// Whether a proposal rests on the rows of the offer, and has its facts, verdicts and shortcuts.
fn is_offer(proposal: &Proposal, (degrees, rows, verdicts, shortcuts, _): &Offer) -> bool {
    has_facts(proposal, *degrees, shortcuts.len())
        & are_of(proposal.rests_on(), rows)
        & are_verdicts(proposal, verdicts)
        & are_shortcuts(proposal.shortcuts(), shortcuts)
}

/// Whether the facts of a proposal are a node's degrees and this many shortcuts.
fn has_facts(proposal: &Proposal, (node, ins, outs): Degrees, shortcuts: usize) -> bool {
    let facts = Facts {
        node,
        ins,
        outs,
        shortcuts: shortcuts as u64,
    };
    proposal.facts() == facts
}

/// Whether a node isn't proposed, for this reason.
fn refuses<S: Site>(alloc: Global, board: &mut Board<S>, node: u32, reason: ProposeError) -> bool {
    propose(alloc, board, node, SETTLE).err() == Some(reason)
}

/// Whether the receipts are those of the nodes from this one on, each of the rank of its number.
fn in_order(receipts: &[Receipt], first: u32) -> bool {
    let mut holds = true;
    for (node, receipt) in (first..).zip(receipts) {
        holds &= (receipt.node == node) & (receipt.rank == node);
    }
    holds
}

/// Whether the log has an entry for each node, by its number, with these neighbours and this many shortcuts.
fn is_log(entries: &[Contraction], expected: &[(&[u32], u64)]) -> bool {
    let mut holds = entries.len() == expected.len();
    let mut node = 0_u32;
    for (entry, (neighbours, shortcuts)) in entries.iter().zip(expected) {
        holds &= (entry.node == node) & (entry.rank == node);
        holds &= (entry.neighbours.as_slice() == *neighbours) & (entry.shortcuts == *shortcuts);
        node = node.wrapping_add(1);
    }
    holds
}

/// Whether the hierarchy is that of the case, in which each node has the rank of its number.
fn is_hierarchy(hierarchy: &Hierarchy, case: &Case) -> bool {
    let mut holds = hierarchy.nodes() == case.nodes;
    for node in 0..hierarchy.nodes() {
        holds &= hierarchy.rank(node) == node;
    }
    holds & are_links(hierarchy.links(), case.links) & (hierarchy.bound() == cost_of(case.bound))
}

/// Whether the links are these.
pub fn are_links(links: &[Link], expected: &[Linked]) -> bool {
    let mut holds = links.len() == expected.len();
    for (link, (from, to, numbers, middle)) in links.iter().zip(expected) {
        holds &= (link.from == *from) & (link.to == *to);
        holds &= (link.cost.cost() == cost_of(*numbers)) & (link.middle.node() == *middle);
    }
    holds
}

/// Whether a board of the case's graph comes to what the case says.
fn comes_true<R: Wait>(rt: &R, alloc: Global, case: &Case, end: End) -> Result<bool, Fail> {
    let (blank, graph) = with_blank(alloc, graph_of(alloc, case.nodes, case.lines)?)?;
    comes_to::<Brand, R>(rt, alloc, blank, graph, case, end)
}

/// Whether boards of all cases do.
fn all_come_true<R: Wait>(rt: &R, alloc: Global, cases: &[Case], end: End) -> Result<bool, Fail> {
    let mut holds = true;
    for case in cases {
        holds &= comes_true(rt, alloc, case, end)?;
    }
    Ok(holds)
}

/// Whether boards of the table's cases do.
fn table_comes_true<R: Wait>(rt: &R, alloc: Global, end: End) -> Result<bool, Fail> {
    all_come_true(rt, alloc, CASES, end)
}

#[test]
fn boards_come_to_their_hierarchies(rt: HostRuntime) -> Result<(), Fail> {
    assert!(rt; table_comes_true(&rt, rt.alloc(), End::Board)?);
    Ok(())
}

#[test]
fn ledgers_come_to_their_hierarchies(rt: HostRuntime) -> Result<(), Fail> {
    assert!(rt; table_comes_true(&rt, rt.alloc(), End::Ledger)?);
    Ok(())
}

/// Whether a fresh board of the row of three nodes is returned, as it was, in place of a hierarchy.
fn has_nodes_left<S: Site, R: Wait>(
    rt: &R,
    alloc: Global,
    blank: Blank,
    graph: Graph,
) -> Result<bool, Fail>
    requires of_graph { S.graph ≡ graph }
    requires of_book { S.book ≡ name_of blank }
    requires nodes { blank.nodes ≡ graph.nodes }
    requires bound { blank.bound ≡ bound_of graph }
{
    let (board, _): (Board<S>, Reader<S>) = Board::new(rt, alloc, blank, graph)?;
    Ok(is_given_back(board))
}

/// Whether a board of the row of three nodes is returned, with no node contracted.
fn is_given_back<S: Site>(board: Board<S>) -> bool {
    match board.into_hierarchy() {
        Ok(_) => false,
        Err((back, error)) => (error == FinishError::NodesLeft) & is_fresh(&back),
    }
}

/// The arcs of the row of three nodes.
const ROADS: &[Road] = &[
    Road {
        from: 1,
        to: 0,
        weight: 2,
    },
    Road {
        from: 0,
        to: 2,
        weight: 3,
    },
];

/// Whether a board of the row of three nodes has no node contracted.
fn is_fresh<S: Site>(board: &Board<S>) -> bool {
    board.log().is_empty() & (board.overlay().alive() == 3) & (board.graph().arcs() == ROADS)
}

#[test]
fn nodes_left(rt: HostRuntime) -> Result<(), Fail> {
    let alloc = rt.alloc();
    let (blank, graph) = with_blank(alloc, graph_of(alloc, 3, ROW)?)?;
    assert!(rt; has_nodes_left::<Brand, HostRuntime>(&rt, alloc, blank, graph)?);
    Ok(())
}

/// Returns the ledger that is given back, if it has three nodes and none is contracted.
fn given_back(given: Result<Finished, (Ledger, FinishError)>) -> Option<Ledger> {
    match given {
        Ok(_) => None,
        Err((back, error)) => {
            let is_whole = back.log().is_empty() & (back.overlay().alive() == 3);
            if is_whole & (error == FinishError::NodesLeft) {
                Some(back)
            } else {
                None
            }
        }
    }
}

#[test]
fn nodes_left_of_a_ledger(rt: HostRuntime) -> Result<(), Fail> {
    let alloc = rt.alloc();
    let ledger = Ledger::new(alloc, graph_of(alloc, 3, ROW)?)?;
    assert!(rt; given_back(ledger.finish()).is_some());
    Ok(())
}

/// Why a commit is refused, and the number of that.
const NUMBERS: &[(CommitError, u8)] = &[
    (CommitError::Contracted, 1),
    (
        CommitError::Stale {
            node: 0,
            seen: 0,
            now: 3,
            front: 1,
        },
        2,
    ),
    (CommitError::OutOfMemory, 4),
    (CommitError::Slot, 5),
];

/// Whether each refusal has its number.
fn are_numbered(errors: &[(CommitError, u8)]) -> bool {
    let mut holds = true;
    for (error, number) in errors {
        holds &= error.number() == *number;
    }
    holds
}

#[test]
fn commit_errors_by_number(rt: HostRuntime) {
    assert!(rt; are_numbered(NUMBERS));
}
