ghost use Rattle.std.specs.Prelude.{◌≡◌, ◌∷◌, [], All, IfOk, Ok};
ghost use Rattle.ch_estimate.specs.Leases.{CountId};

use ch_contract::{Contraction, Facts};
use ch_estimate::{EdgeDifference, Estimator, Lease, Leases, Note};
use ch_graph::{Graph, Road};
use ch_workers::{Built, Gate, Options, build};
use std::alloc::{AllocError, Global};
use std::sync::Wait;
use std::test::Fail;
use std::thread::Threads;

/// The options of the small graphs.
pub(crate) const ONE: Options = Options {
    workers: 1,
    heaps: 1,
    turns: 100,
    ..Options::PLAIN
};

/// The options of two workers, with the queue and the turns that the program gives.
pub(crate) const TWO: Options = Options {
    workers: 2,
    ..Options::PLAIN
};

/// The graph of these arcs, each of its two nodes and its weight.
pub(crate) fn graph_of(
    alloc: Global,
    nodes: u32,
    lines: &[(u32, u32, u32)],
) -> Result<Graph, Fail> {
    let mut arcs = Vec::new(alloc);
    'lines: for (from, to, weight) in lines {
        arcs.push(Road {
            from: *from,
            to: *to,
            weight: *weight,
        })?;
    }
    let graph = Graph::checked(nodes, arcs)?;
    Ok(graph)
}

/// Arcs from nodes 1 and 2 into node 0, and from there to nodes 3 and 4.
pub(crate) fn star(alloc: Global) -> Result<Graph, Fail> {
    graph_of(alloc, 5, &[(1, 0, 1), (2, 0, 1), (0, 3, 1), (0, 4, 1)])
}

/// One arc of weight 7, from node 0 to node 1.
pub(crate) fn arc(alloc: Global) -> Result<Graph, Fail> {
    graph_of(alloc, 2, &[(0, 1, 7)])
}

/// The row of three nodes: 1 to 0, and 0 to 2.
pub(crate) fn row(alloc: Global) -> Result<Graph, Fail> {
    graph_of(alloc, 3, &[(1, 0, 2), (0, 2, 3)])
}

/// Two ways from node 2 to node 3, by 0 and by 1, of one length.
pub(crate) fn tie(alloc: Global) -> Result<Graph, Fail> {
    graph_of(alloc, 4, &[(2, 0, 1), (0, 3, 1), (2, 1, 1), (1, 3, 1)])
}

/// The grid of 25 nodes `5i + j`, with both directions between nodes next to each other, of weights from 1 to 7.
pub(crate) fn grid(alloc: Global) -> Result<Graph, Fail> {
    let mut arcs = Vec::new(alloc);
    'nodes: for node in 0..25u32 {
        if node % 5 != 4 {
            add_both(&mut arcs, node, node + 1)?;
        }
        if node < 20 {
            add_both(&mut arcs, node, node + 5)?;
        }
    }
    let graph = Graph::checked(25, arcs)?;
    Ok(graph)
}

/// Puts in the arcs between two nodes of the grid, in both directions. Their weight is 1 and the product of the numbers
/// of the nodes, counted from 1, by its remainder of 7.
fn add_both(arcs: &mut Vec<Road>, a: u32, b: u32) -> Result<(), AllocError> {
    let product = a.wrapping_add(1).wrapping_mul(b.wrapping_add(1));
    let weight = 1 + product % 7;
    arcs.push(Road {
        from: a,
        to: b,
        weight,
    })?;
    arcs.push(Road {
        from: b,
        to: a,
        weight,
    })?;
    Ok(())
}

/// The keys that the estimators of a test give.
#[derive(Clone, Copy)]
pub(crate) enum Keys {
    /// Those of the edge difference.
    Differences,
    /// The greatest number, always.
    Greatest,
    /// 0, always.
    Least,
    /// Numbers that look random (Knuth's linear congruential generator), from this state.
    Drawn(u64),
}

impl Keys {
    /// The next key, for a node of this edge difference.
    pub(crate) fn next(&mut self, difference: u64) -> u64 {
        match *self {
            Keys::Differences => difference,
            Keys::Greatest => u64::MAX,
            Keys::Least => 0,
            Keys::Drawn(state) => {
                let next = state
                    .wrapping_mul(6_364_136_223_846_793_005)
                    .wrapping_add(1_442_695_040_888_963_407);
                *self = Keys::Drawn(next);
                next >> 33
            }
        }
    }

    /// The same keys, but other numbers for each estimator where they look random.
    pub(crate) fn of(self, number: usize) -> Keys {
        match self {
            Keys::Drawn(state) => Keys::Drawn(state.wrapping_add(number as u64)),
            same => same,
        }
    }
}

/// An estimator that gives the keys that it was made for.
#[derive(Drop)]
struct Chooser {
    inner: EdgeDifference,
    keys: Keys,
}

impl Estimator for Chooser {
    ghost heard = { λ c. c.inner };

    fn key(&mut self, facts: &Facts) -> u64 {
        let difference = self.inner.key(facts);
        self.keys.next(difference)
    }

    fn told(&mut self, entry: &Contraction) -> Result<(), AllocError> {
        self.inner.told(entry)
    }

    fn note(&self, node: u32) -> Note {
        self.inner.note(node)
    }
}

/// The estimators of each worker.
pub(crate) type Lists = Vec<Vec<Box<dyn Estimator + Send>>>;

/// This many lists without estimators.
pub(crate) fn empty_lists(alloc: Global, count: u32) -> Result<Lists, AllocError>
    ensures untold { IfOk result (λ lists. All (λ list. All (λ estimator. heard estimator ≡ []) list.items) lists.items) }
{
    let mut lists = Vec::new(alloc);
    'lists: for _ in 0..count {
        lists.push(Vec::new(alloc))?;
    }
    Ok(lists)
}

/// This many lists, each of one thing that is made for a lease of its own.
pub(crate) fn a_list_each<T: Drop, F: Fn(Lease) -> Result<T, AllocError>>(
    alloc: Global,
    leases: &mut Leases,
    count: u32,
    make: F,
) -> Result<Vec<Vec<T>>, AllocError>
    requires callable { F.IsAlwaysCallable make }
    ensures made { IfOk result (λ lists. All (λ list. All (λ thing. (lease : CountId) × F.post make lease (Ok thing)) list.items) lists.items) }
{
    let mut lists = Vec::new(alloc);
    'lists: for _ in 0..count {
        let lease = leases.lease()?;
        lists.push(list_of(alloc, make(lease)?)?)?;
    }
    Ok(lists)
}

/// A list of one thing.
fn list_of<T: Drop>(alloc: Global, thing: T) -> Result<Vec<T>, AllocError>
    ensures { IfOk result (λ list. list.items ≡ thing ∷ []) }
{
    let mut list = Vec::new(alloc);
    list.push(thing)?;
    Ok(list)
}

/// Builds by workers of whom each has one estimator, which gives such keys.
pub(crate) fn built_by<G: Gate, R: Threads + Wait + Sync>(
    rt: &R,
    alloc: Global,
    graph: Graph,
    options: Options,
    keys: Keys,
    gate: &G,
) -> Result<Built, Fail> {
    let mut leases = Leases::new(alloc)?;
    let lists = a_list_each(
        alloc,
        &mut leases,
        options.workers,
        |lease| -> Result<Box<dyn Estimator + Send>, AllocError>
            ensures { IfOk result (λ estimator. heard estimator ≡ []) }
        {
            let inner = EdgeDifference::new(alloc, lease);
            Ok(Box::new(alloc, Chooser { inner, keys })?)
        },
    )?;
    let built = build(rt, alloc, graph, options, lists, &mut leases, gate)?;
    Ok(built)
}
