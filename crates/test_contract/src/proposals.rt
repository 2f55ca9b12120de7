use crate::shelf::{Lead, Shelf, cost_of};
use ch_contract::{Facts, Proposal, ProposeError, Scratch, Verdict, propose, propose_with};
use ch_cost::Cost;
use ch_overlay::{Seen, Shortcut};
use std::alloc::Global;
use std::test::Fail;

/// Node 1 leads to node 0, and node 0 to node 2.
const CHAIN: &[Lead] = &[(1, 0, (2, 1)), (0, 2, (3, 1))];

/// The same, and node 1 leads to node 2 itself at the same length.
const DIRECT: &[Lead] = &[(1, 0, (2, 1)), (0, 2, (3, 1)), (1, 2, (5, 1))];

/// The same, where that is of more arcs.
const ROUNDABOUT: &[Lead] = &[(1, 0, (2, 1)), (0, 2, (3, 1)), (1, 2, (5, 3))];

/// Nodes 0 and 1 lead to one another alone.
const PAIR: &[Lead] = &[(1, 0, (2, 1)), (0, 1, (3, 1))];

/// Node 3 is reached from node 2 by way of 0 or of 1, at the same cost.
const TIE: &[Lead] = &[
    (2, 0, (1, 1)),
    (0, 3, (1, 1)),
    (2, 1, (1, 1)),
    (1, 3, (1, 1)),
];

/// The same, but the way that isn't over 0 is shorter, and of five arcs.
const SHORTER: &[Lead] = &[
    (2, 0, (1, 1)),
    (0, 3, (1, 1)),
    (2, 1, (0, 1)),
    (1, 4, (0, 2)),
    (4, 5, (1, 1)),
    (5, 3, (0, 1)),
];

/// Node 3 is reached from node 2 by way of 1, at a length above the bound's.
const HEAVY: &[Lead] = &[(2, 1, (8_589_934_590, 1)), (1, 3, (8_589_934_590, 1))];

/// The same by more arcs than the bound's.
const MANY: &[Lead] = &[(2, 1, (1, 2)), (1, 3, (1, 2))];

/// Nodes 1 and 2 are joined both ways by node 0, and by node 3 at the same cost.
const SQUARE: &[Lead] = &[
    (0, 1, (1, 1)),
    (0, 2, (1, 1)),
    (1, 0, (1, 1)),
    (1, 3, (1, 1)),
    (2, 0, (1, 1)),
    (2, 3, (1, 1)),
    (3, 1, (1, 1)),
    (3, 2, (1, 1)),
];

/// Nodes 1 and 2 lead to node 3 by way of 0, and by way of 4 at the same cost.
const OVERLAP: &[Lead] = &[
    (1, 0, (1, 1)),
    (2, 0, (1, 1)),
    (0, 3, (1, 1)),
    (1, 4, (1, 1)),
    (2, 4, (1, 1)),
    (4, 3, (1, 1)),
];

/// The verdict on a pair of nodes, or `None` where it isn't one of neighbours.
pub type Judged = (u32, u32, Option<Verdict>);

/// The proposal of a node by a shelf: each node that it rests on is asked for once, and no other.
#[derive(Clone, Copy)]
struct Case {
    leads: &'static [Lead],
    bound: (u16, u32),
    node: u32,
    settle: u32,
    rests_on: &'static [u32],
    verdicts: &'static [Judged],
    ins: u32,
    /// The ends of each shortcut, and what it costs.
    shortcuts: &'static [Lead],
}

/// The first middle node of the tie of four nodes.
const TIED: Case = Case {
    leads: TIE,
    bound: (3, 1),
    node: 0,
    settle: 64,
    rests_on: &[0, 2, 1],
    verdicts: &[(2, 3, Some(Verdict::Witness))],
    ins: 1,
    shortcuts: &[],
};

/// The middle node of three.
const CHAINED: Case = Case {
    leads: CHAIN,
    bound: (2, 3),
    node: 0,
    settle: 64,
    rests_on: &[0, 1],
    verdicts: &[(1, 2, Some(Verdict::Shortcut)), (2, 1, None), (1, 1, None)],
    ins: 1,
    shortcuts: &[(1, 2, (5, 2))],
};

/// The middle node of a heavy pair.
const TOO_HEAVY: Case = Case {
    leads: HEAVY,
    bound: (3, u32::MAX),
    node: 1,
    settle: 64,
    rests_on: &[1, 2],
    verdicts: &[(2, 3, Some(Verdict::Heavy))],
    ins: 1,
    shortcuts: &[],
};

const CASES: &[Case] = &[
    // A pair of three nodes, and an arc that is a witness where it isn't of more arcs.
    CHAINED,
    Case {
        leads: DIRECT,
        bound: (2, 5),
        verdicts: &[(1, 2, Some(Verdict::Witness))],
        shortcuts: &[],
        ..CHAINED
    },
    Case {
        leads: ROUNDABOUT,
        bound: (3, 5),
        ..CHAINED
    },
    // No other arc leads on, so the neighbour's row isn't asked for.
    Case {
        leads: PAIR,
        bound: (1, 3),
        node: 0,
        settle: 64,
        rests_on: &[0],
        verdicts: &[(1, 1, None), (0, 1, None)],
        ins: 1,
        shortcuts: &[],
    },
    // The tie of four nodes, and how far a search goes in it.
    TIED,
    Case {
        node: 1,
        rests_on: &[1, 2, 0],
        ..TIED
    },
    Case { settle: 2, ..TIED },
    Case {
        settle: 1,
        rests_on: &[0, 2],
        verdicts: &[(2, 3, Some(Verdict::Shortcut))],
        shortcuts: &[(2, 3, (2, 2))],
        ..TIED
    },
    // A shorter way is a witness, whatever its arcs.
    Case {
        leads: SHORTER,
        bound: (5, 1),
        rests_on: &[0, 2, 1, 4, 5],
        ..TIED
    },
    // A heavy pair, by its length and by its arcs.
    TOO_HEAVY,
    Case {
        leads: MANY,
        ..TOO_HEAVY
    },
    // Two searches that read the same row, after those of both neighbours.
    Case {
        leads: OVERLAP,
        bound: (4, 1),
        node: 0,
        settle: 64,
        rests_on: &[0, 1, 4, 2],
        verdicts: &[
            (1, 3, Some(Verdict::Witness)),
            (2, 3, Some(Verdict::Witness)),
        ],
        ins: 2,
        shortcuts: &[],
    },
];

/// Whether the rows are of these nodes, in this order.
pub fn are_of(rows: &[Seen], nodes: &[u32]) -> bool {
    let mut holds = rows.len() == nodes.len();
    for (seen, node) in rows.iter().zip(nodes) {
        holds &= seen.node == *node;
    }
    holds
}

/// Whether these are all of the nodes, each once, in any order.
fn are_the_same(asked: &[u32], nodes: &[u32]) -> bool {
    let mut holds = asked.len() == nodes.len();
    for node in nodes {
        holds &= asked.contains(node);
    }
    holds
}

/// Whether the shortcuts have these ends and costs.
pub fn are_shortcuts(shortcuts: &[Shortcut], expected: &[Lead]) -> bool {
    let mut holds = shortcuts.len() == expected.len();
    for (shortcut, (from, to, numbers)) in shortcuts.iter().zip(expected) {
        holds &= (shortcut.from == *from) & (shortcut.to == *to);
        holds &= shortcut.cost.cost() == cost_of(*numbers);
    }
    holds
}

/// Whether a proposal has these verdicts.
pub fn are_verdicts(proposal: &Proposal, verdicts: &[Judged]) -> bool {
    let mut holds = true;
    for (from, to, verdict) in verdicts {
        holds &= proposal.verdict(*from, *to) == *verdict;
    }
    holds
}

/// Whether the proposal is that of the case.
fn is_proposed(proposal: &Proposal, case: &Case) -> bool {
    let (count, heaviest) = case.bound;
    let facts = Facts {
        node: case.node,
        ins: case.ins,
        outs: 1,
        shortcuts: case.shortcuts.len() as u64,
    };
    (proposal.node() == case.node)
        & (proposal.bound() == Cost::of_arcs(u32::from(count), heaviest))
        & (proposal.facts() == facts)
        & are_of(proposal.rests_on(), case.rests_on)
        & are_shortcuts(proposal.shortcuts(), case.shortcuts)
        & are_verdicts(proposal, case.verdicts)
}

/// Whether a source answers with the proposal of the case.
fn proposes(alloc: Global, source: &mut Shelf, case: &Case) -> Result<bool, ProposeError> {
    if case.settle == 0 || case.settle > 64 {
        return Ok(false);
    }
    let proposal = propose(alloc, source, case.node, case.settle)?;
    Ok(is_proposed(&proposal, case))
}

/// Whether the case comes true by a shelf of its rows, which is asked for each that it needs once, and for no other.
fn comes_true(alloc: Global, case: &Case) -> Result<bool, Fail> {
    let mut shelf = Shelf::new(alloc, 6, case.leads, case.bound, None)?;
    let holds = proposes(alloc, &mut shelf, case)?;
    Ok(holds & are_the_same(&shelf.asked, case.rests_on))
}

/// Whether all cases do.
fn all_come_true(alloc: Global, cases: &[Case]) -> Result<bool, Fail> {
    let mut holds = true;
    for case in cases {
        holds &= comes_true(alloc, case)?;
    }
    Ok(holds)
}

#[test]
fn proposals_of_a_shelf(rt: HostRuntime) -> Result<(), Fail> {
    assert!(rt; all_come_true(rt.alloc(), CASES)?);
    Ok(())
}

/// Whether a source answers with the proposal of the case in the memory of one before, which it then keeps.
fn proposes_again(
    alloc: Global,
    source: &mut Shelf,
    scratch: &mut Scratch,
    case: &Case,
) -> Result<bool, ProposeError> {
    if case.settle == 0 || case.settle > 64 {
        return Ok(false);
    }
    let proposal = propose_with(alloc, source, scratch, case.node, case.settle)?;
    let holds = is_proposed(&proposal, case);
    scratch.keep(proposal);
    Ok(holds)
}

/// Whether the case comes true twice in the memory of what was proposed before.
fn comes_true_again(alloc: Global, scratch: &mut Scratch, case: &Case) -> Result<bool, Fail> {
    let mut shelf = Shelf::new(alloc, 6, case.leads, case.bound, None)?;
    let first = proposes_again(alloc, &mut shelf, scratch, case)?;
    Ok(first & proposes_again(alloc, &mut shelf, scratch, case)?)
}

/// Whether all cases do in the memory of the ones before.
fn all_come_true_again(alloc: Global, cases: &[Case]) -> Result<bool, Fail> {
    let mut scratch = Scratch::new(alloc);
    let mut holds = true;
    for case in cases {
        holds &= comes_true_again(alloc, &mut scratch, case)?;
    }
    Ok(holds)
}

/// The proposals of all cases, longer and shorter lists in turn, are those that are made anew.
#[test]
fn proposals_in_kept_memory(rt: HostRuntime) -> Result<(), Fail> {
    assert!(rt; all_come_true_again(rt.alloc(), CASES)?);
    Ok(())
}

/// Whether the proposal of node 0 rests on the rows of these nodes, and has no shortcut.
fn needs_none(alloc: Global, source: &mut Shelf, nodes: &[u32]) -> Result<bool, ProposeError> {
    let proposal = propose(alloc, source, 0, 64)?;
    Ok(are_of(proposal.rests_on(), nodes) & proposal.shortcuts().is_empty())
}

/// Whether the middle node of the square needs no shortcut, and each row is asked for once.
fn square_needs_none(alloc: Global) -> Result<bool, Fail> {
    let mut shelf = Shelf::new(alloc, 4, SQUARE, (3, 1), None)?;
    let holds = needs_none(alloc, &mut shelf, &[0, 1, 3, 2])?;
    Ok(holds & (shelf.asked.as_slice() == [0u32, 1, 2, 3].as_slice()))
}

/// Each search knows what the last arc to the other neighbour costs at least, and finds the way over it.
#[test]
fn a_way_between_neighbours(rt: HostRuntime) -> Result<(), Fail> {
    assert!(rt; square_needs_none(rt.alloc())?);
    Ok(())
}

/// A node of the tie that isn't proposed by the rows of the first nodes, of which one may have a rank: why, and which
/// nodes are asked for.
type Refused = (u32, Option<u32>, u32, ProposeError, &'static [u32]);

const REFUSED: &[Refused] = &[
    // A node with a rank: no row is asked for but its own, whether there are others or not.
    (4, Some(0), 0, ProposeError::Contracted, &[0]),
    (1, Some(0), 0, ProposeError::Contracted, &[0]),
    // Without a rank, and the row of its neighbour isn't there.
    (1, None, 0, ProposeError::Unseen, &[0, 2]),
    // No such node.
    (4, Some(0), 4, ProposeError::Unseen, &[4]),
    (0, None, 0, ProposeError::Unseen, &[0]),
];

/// Whether the node isn't proposed, for the reason, and those nodes are asked for.
fn is_refused(alloc: Global, case: Refused) -> Result<bool, Fail> {
    let (rows, ranked, node, reason, asked) = case;
    let mut shelf = Shelf::new(alloc, rows, TIE, (3, 1), ranked)?;
    let answer = propose(alloc, &mut shelf, node, 64).err();
    Ok((answer == Some(reason)) & (shelf.asked.as_slice() == asked))
}

/// Whether each of these is.
fn are_refused(alloc: Global, cases: &[Refused]) -> Result<bool, Fail> {
    let mut holds = true;
    for case in cases {
        holds &= is_refused(alloc, *case)?;
    }
    Ok(holds)
}

#[test]
fn refused_nodes(rt: HostRuntime) -> Result<(), Fail> {
    assert!(rt; are_refused(rt.alloc(), REFUSED)?);
    Ok(())
}
