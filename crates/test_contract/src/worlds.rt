//! What a world returns, event by event.
use ch_contract::{CommitError, Proposal, Receipt, propose};
use ch_core::{Event, Outcome, World, run};
use ch_graph::{Graph, Road};
use std::alloc::{AllocError, Global};
use std::test::Fail;

/// What a worker does, the first number of each.
#[derive(Clone, Copy)]
enum Act {
    /// It reads a node's row of a version.
    Read(u32, u32, u64),
    /// It works out the contraction of a node by what it read, which rests on the rows of these nodes.
    Propose(u32, u32, &'static [u32]),
    /// It offers the proposal that was worked out last, by whomever.
    Offer(u32),
    /// It forgets what it read.
    Forget(u32),
}

/// An act and what is returned for it: nothing where a worker proposes.
type Step = (Act, Option<Outcome>);

/// An arc: its two nodes, and its weight.
type Line = (u32, u32, u32);

/// The tie of four nodes: two ways from 2 to 3 that cost the same, over 0 and over 1.
pub const TIE: [Line; 4] = [(2, 0, 1), (0, 3, 1), (2, 1, 1), (1, 3, 1)];

/// The versions of its nodes once node 0 is contracted.
const TIE_LATER: [u64; 4] = [4, 1, 5, 6];

/// The tie and a loop, by which its bound is another one.
const TIE_AND_LOOP: [Line; 5] = [(2, 0, 1), (0, 3, 1), (2, 1, 1), (1, 3, 1), (3, 3, 9)];

/// Two rows of three nodes.
const ROWS: [Line; 4] = [(0, 1, 1), (1, 2, 1), (3, 4, 1), (4, 5, 1)];

const SHOWN: Option<Outcome> = Some(Outcome::Shown);

const NO_SUCH: Option<Outcome> = Some(Outcome::NoSuch);

const FORGOTTEN: Option<Outcome> = Some(Outcome::Forgotten);

/// What is returned where node 0 is contracted first, and where a proposal then rests on an old row of node 2.
const FIRST: Option<Outcome> = Some(Outcome::Committed(Receipt { node: 0, rank: 0 }));

const STALE: CommitError = CommitError::Stale {
    node: 2,
    seen: 2,
    now: 5,
    front: 1,
};

/// The graph of these arcs.
pub fn graph_of(alloc: Global, nodes: u32, lines: &[Line]) -> Result<Graph, Fail> {
    let roads = lines
        .iter()
        .copied()
        .map(|(from, to, weight)| Road { from, to, weight });
    let graph = Graph::checked(nodes, roads.collect(alloc)?)?;
    Ok(graph)
}

/// What a worker proposes by what it read.
fn proposal(alloc: Global, world: &World, worker: u32, node: u32) -> Result<Proposal, Fail> {
    if worker >= world.workers() {
        return Err(Fail::from("no such worker"));
    }
    let mut view = world.view(worker);
    let proposal = propose(alloc, &mut view, node, 64)?;
    Ok(proposal)
}

/// Whether a proposal rests on the rows of these nodes, in this order.
fn rests_on(proposal: &Proposal, nodes: &[u32]) -> bool {
    proposal
        .rests_on()
        .iter()
        .map(|seen| seen.node)
        .eq(nodes.iter().copied())
}

fn read(worker: u32, node: u32, version: u64) -> Event {
    Event::Read {
        worker,
        node,
        version,
    }
}

/// Returns the event of an act, or `None` where a worker proposes. An offer takes the last proposal.
fn event(act: Act, waiting: &mut Vec<Proposal>) -> Option<Event> {
    match act {
        Act::Read(worker, node, version) => Some(read(worker, node, version)),
        Act::Propose(..) => None,
        Act::Offer(worker) => {
            let proposal = waiting.pop()?;
            Some(Event::Offer { worker, proposal })
        }
        Act::Forget(worker) => Some(Event::Forget { worker }),
    }
}

/// What is returned for an act.
fn answer(
    alloc: Global,
    world: &mut World,
    waiting: &mut Vec<Proposal>,
    act: Act,
) -> Result<Option<Outcome>, Fail> {
    if let Act::Propose(worker, node, rows) = act {
        let proposal = proposal(alloc, world, worker, node)?;
        if !rests_on(&proposal, rows) {
            return Err(Fail::from("a proposal rests on other rows"));
        }
        waiting.push(proposal)?;
    }
    let Some(event) = event(act, waiting) else {
        return Ok(None);
    };
    Ok(Some(world.step(event)?))
}

/// Whether a world returns this for these acts. The proposals that wait come first.
fn answers(
    alloc: Global,
    world: &mut World,
    waiting: Vec<Proposal>,
    script: &[Step],
) -> Result<bool, Fail> {
    let mut waiting = waiting;
    for (act, expected) in script {
        if answer(alloc, world, &mut waiting, *act)? != *expected {
            return Ok(false);
        }
    }
    Ok(true)
}

/// Whether each of two workers is shown the opening version of each node.
fn all_shown(world: &mut World, nodes: u32) -> Result<bool, AllocError> {
    let mut shown = true;
    for worker in 0..2 {
        for node in 0..nodes {
            let outcome = world.step(read(worker, node, u64::from(node)))?;
            shown = shown && outcome == Outcome::Shown;
        }
    }
    Ok(shown)
}

/// Whether these are the current versions of all nodes.
fn has_versions(world: &World, versions: &[u64]) -> bool {
    let overlay = world.overlay();
    let mut same = overlay.nodes() as usize == versions.len();
    for node in 0..overlay.nodes() {
        same = same && versions.get(node as usize) == Some(&overlay.version(node));
    }
    same
}

/// A world of two workers who read the opening version of each node.
fn world_shown(alloc: Global, nodes: u32, lines: &[Line]) -> Result<World, Fail> {
    let mut world = World::new(alloc, graph_of(alloc, nodes, lines)?, 2)?;
    if !all_shown(&mut world, nodes)? {
        return Err(Fail::from("a version isn't shown"));
    }
    Ok(world)
}

/// Whether such a world returns this for these acts, and has these versions then.
fn plays(
    alloc: Global,
    nodes: u32,
    lines: &[Line],
    script: &[Step],
    versions: &[u64],
) -> Result<bool, Fail> {
    let mut world = world_shown(alloc, nodes, lines)?;
    let same = answers(alloc, &mut world, Vec::new(alloc), script)?;
    Ok(same & has_versions(&world, versions))
}

/// The nodes and arcs of a graph, what two workers do who have read its opening rows, and the versions then.
type Play = (u32, &'static [Line], &'static [Step], &'static [u64]);

const PLAYS: [Play; 5] = [
    // The later offer is stale; and another like it, whose rows are forgotten then, is none at all.
    (
        4,
        &TIE,
        &[
            (Act::Propose(1, 1, &[1, 2, 0]), None),
            (Act::Propose(1, 1, &[1, 2, 0]), None),
            (Act::Propose(0, 0, &[0, 2, 1]), None),
            (Act::Offer(0), FIRST),
            (Act::Offer(1), Some(Outcome::Refused(STALE))),
            (Act::Read(1, 2, 2), SHOWN),
            (Act::Read(1, 2, 9), NO_SUCH),
            (Act::Forget(1), FORGOTTEN),
            (Act::Offer(1), NO_SUCH),
        ],
        &TIE_LATER,
    ),
    // Old rows are read.
    (
        4,
        &TIE,
        &[
            (Act::Propose(0, 0, &[0, 2, 1]), None),
            (Act::Offer(0), FIRST),
            (Act::Read(1, 2, 2), SHOWN),
            (Act::Read(1, 2, 5), SHOWN),
            (Act::Read(1, 2, 9), NO_SUCH),
        ],
        &TIE_LATER,
    ),
    // Forgotten rows are not offered.
    (
        4,
        &TIE,
        &[
            (Act::Propose(1, 1, &[1, 2, 0]), None),
            (Act::Forget(1), FORGOTTEN),
            (Act::Offer(1), NO_SUCH),
        ],
        &[0, 1, 2, 3],
    ),
    // What another has read is not offered.
    (
        4,
        &TIE,
        &[
            (Act::Propose(0, 0, &[0, 2, 1]), None),
            (Act::Forget(1), FORGOTTEN),
            (Act::Offer(1), NO_SUCH),
        ],
        &[0, 1, 2, 3],
    ),
    // Offers that share no row.
    (
        6,
        &ROWS,
        &[
            (Act::Propose(1, 4, &[4, 3]), None),
            (Act::Propose(0, 1, &[1, 0]), None),
            (
                Act::Offer(0),
                Some(Outcome::Committed(Receipt { node: 1, rank: 0 })),
            ),
            (
                Act::Offer(1),
                Some(Outcome::Committed(Receipt { node: 4, rank: 1 })),
            ),
        ],
        &[7, 6, 8, 10, 9, 11],
    ),
];

#[test]
fn what_two_workers_do(rt: HostRuntime) -> Result<(), Fail> {
    for (nodes, lines, script, versions) in PLAYS {
        assert!(rt; plays(rt.alloc(), nodes, lines, script, versions)?);
    }
    Ok(())
}

/// Of another node, of no node, and by no worker.
const NOTHING: [Step; 4] = [
    (Act::Read(0, 0, 1), NO_SUCH),
    (Act::Read(0, 4, 4), NO_SUCH),
    (Act::Read(2, 0, 0), NO_SUCH),
    (Act::Forget(2), NO_SUCH),
];

#[test]
fn nothing_there(rt: HostRuntime) -> Result<(), Fail> {
    let alloc = rt.alloc();
    let mut world = World::new(alloc, graph_of(alloc, 4, &TIE)?, 2)?;
    assert!(rt; answers(alloc, &mut world, Vec::new(alloc), &NOTHING)?);
    let sizes = (world.workers(), world.log().len(), world.graph().nodes());
    assert!(rt; sizes == (2, 0, 4) && has_versions(&world, &[0, 1, 2, 3]));
    Ok(())
}

/// What a worker proposes in a world of another bound.
fn foreign(alloc: Global) -> Result<Vec<Proposal>, Fail> {
    let other = world_shown(alloc, 4, &TIE_AND_LOOP)?;
    let mut foreign = Vec::new(alloc);
    foreign.push(proposal(alloc, &other, 0, 0)?)?;
    Ok(foreign)
}

#[test]
fn another_bound(rt: HostRuntime) -> Result<(), Fail> {
    let alloc = rt.alloc();
    let foreign = foreign(alloc)?;
    let mut world = world_shown(alloc, 4, &TIE)?;
    assert!(rt; answers(alloc, &mut world, foreign, &[(Act::Offer(0), NO_SUCH)])?);
    Ok(())
}

#[test]
fn run_of_reads(rt: HostRuntime) -> Result<(), Fail> {
    let alloc = rt.alloc();
    let events = vec![in alloc; read(0, 0, 0), read(0, 0, 1), Event::Forget { worker: 0 }]?;
    let (world, outcomes) = run(alloc, graph_of(alloc, 4, &TIE)?, 1, events)?;
    let expected = [Outcome::Shown, Outcome::NoSuch, Outcome::Forgotten];
    assert!(rt; outcomes.as_slice() == expected.as_slice() && world.log().is_empty());
    Ok(())
}
