use crate::kit::Keys;
use ch_contract::{Contraction, Receipt};
use ch_graph::{Graph, Road};
use ch_workers::{Built, Options};
use std::alloc::{AllocError, Global};
use std::test::Fail;

/// How many nodes a clique has.
const SIZE: u32 = 10;

/// The number of the clique of a node.
fn clique_of(node: u32) -> u32 {
    node / SIZE
}

/// A network of cliques of 10 nodes each, whose numbers follow each other: from each node an arc of weight 1 leads to each
/// other one of its clique. No shortcut ever comes of it, so a node has arcs to and from all of its clique that are left,
/// and its edge difference depends on their number alone.
pub(crate) fn cliques(alloc: Global, nodes: u32) -> Result<Graph, Fail> {
    let mut arcs = Vec::new(alloc);
    'tails: for from in 0..nodes {
        'heads: for to in 0..nodes {
            if from != to && clique_of(from) == clique_of(to) {
                let weight = 1;
                arcs.push(Road { from, to, weight })?;
            }
        }
    }
    let graph = Graph::checked(nodes, arcs)?;
    Ok(graph)
}

/// How many shifts of a build were over by what its workers committed, and not by their end, at least. A shift is over once
/// the commits of all workers in it weigh as much as the room, as docs/dev/ALGORITHM.md has both; so they weigh less than
/// the room and, for each worker, what its last commit weighs at most.
pub(crate) fn shifts_of(built: &Built) -> u64 {
    let nodes = built.log.len() as u64;
    let room = nodes.saturating_mul(12).max(16);
    let workers = built.receipts.len().saturating_sub(1);
    let mut weight = 0u64;
    'workers: for receipts in built.receipts.iter().take(workers) {
        weight = weight.saturating_add(weight_of_all(built.log.as_slice(), receipts, room));
    }
    let most = room.saturating_add((room / 16).saturating_mul(workers as u64));
    weight.checked_div(most).unwrap_or(0)
}

/// What the contractions of a worker's receipts weigh.
fn weight_of_all(log: &[Contraction], receipts: &[Receipt], room: u64) -> u64 {
    let mut weight = 0u64;
    'receipts: for receipt in receipts {
        weight = weight.saturating_add(weight_of(log, *receipt, room));
    }
    weight
}

/// What the contraction of a receipt weighs: its node had an arc to each of its neighbours, and one from it.
fn weight_of(log: &[Contraction], receipt: Receipt, room: u64) -> u64 {
    let Some(entry) = log.get(receipt.rank as usize) else {
        return 0;
    };
    let arcs = (entry.neighbours.len() as u64).saturating_mul(2);
    arcs.saturating_mul(arcs.saturating_add(6)).min(room / 16)
}

/// What a single worker does on a network of cliques by the rules of docs/dev/ALGORITHM.md, where its queue has one heap,
/// and what the sweep does then. Written anew and plainly: the nodes that wait are in a list of keys by node, of which the
/// least is looked for.
#[derive(Drop)]
pub(crate) struct Course {
    options: Options,
    waiting: Vec<Option<u64>>,
    /// The nodes in the order of their contraction.
    pub(crate) order: Vec<u32>,
    /// How many items the worker took.
    pub(crate) took: u64,
    /// How many of the nodes it contracted.
    pub(crate) own: usize,
    /// How many entries each of its three estimators received.
    pub(crate) told: [usize; 3],
    keys: [Keys; 3],
    current: usize,
    commits: u64,
    deferred: u32,
}

impl Course {
    /// The course of a worker with three estimators, on this many nodes.
    pub(crate) fn new(
        alloc: Global,
        nodes: u32,
        options: Options,
        keys: Keys,
    ) -> Result<Course, AllocError> {
        let mut course = Course {
            options,
            waiting: vec![in alloc; None; nodes as usize]?,
            order: Vec::new(alloc),
            took: 0,
            own: 0,
            told: [0; 3],
            keys: [keys.of(0), keys.of(1), keys.of(2)],
            current: 0,
            commits: 0,
            deferred: 0,
        };
        'nodes: for node in 0..nodes {
            let key = course.key(node);
            course.put(node, Some(key));
        }
        'turns: for _ in 0..options.turns {
            if !course.turn()? {
                break;
            }
        }
        course.own = course.order.len();
        course.sweep(nodes)?;
        Ok(course)
    }

    /// The key that the current estimator gives to a node.
    fn key(&mut self, node: u32) -> u64 {
        let clique = clique_of(node);
        let mut gone = 0u64;
        'order: for other in &self.order {
            gone = gone.wrapping_add(u64::from(clique_of(*other) == clique));
        }
        let others = u64::from(SIZE - 1).saturating_sub(gone);
        let difference = 67_108_864u64.saturating_sub(others.saturating_mul(2));
        match self.keys.get_mut(self.current) {
            Some(keys) => keys.next(difference),
            None => 0,
        }
    }

    /// Lets a node wait with a key, or wait no more.
    fn put(&mut self, node: u32, key: Option<u64>) {
        if let Some(place) = self.waiting.get_mut(node as usize) {
            *place = key;
        }
    }

    /// The key and the number of the node that is next: of the least key, and of equal ones the lowest number.
    fn next(&self) -> Option<(u64, u32)> {
        let mut next: Option<(u64, u32)> = None;
        'nodes: for (node, waiting) in (0u32..).zip(self.waiting.iter()) {
            next = match (*waiting, next) {
                (Some(key), Some((least, _))) if key >= least => next,
                (Some(key), _) => Some((key, node)),
                (None, _) => next,
            };
        }
        next
    }

    /// A turn. False where no node waits.
    fn turn(&mut self) -> Result<bool, AllocError> {
        let Some((known, node)) = self.next() else {
            return Ok(false);
        };
        self.took = self.took.saturating_add(1);
        if let Some(told) = self.told.get_mut(self.current) {
            *told = self.order.len();
        }
        let key = self.key(node);
        if key > known && self.deferred < self.options.defer {
            self.deferred = self.deferred.saturating_add(1);
            self.put(node, Some(key));
            return Ok(true);
        }
        self.contract(node)?;
        self.deferred = 0;
        self.commits = self.commits.saturating_add(1);
        if self.commits >= self.options.stint && self.current < 2 {
            self.current = self.current.saturating_add(1);
            self.commits = 0;
        }
        Ok(true)
    }

    /// Contracts a node.
    fn contract(&mut self, node: u32) -> Result<(), AllocError> {
        self.put(node, None);
        self.order.push(node)?;
        Ok(())
    }

    /// Contracts the nodes that wait, by their numbers.
    fn sweep(&mut self, nodes: u32) -> Result<(), AllocError> {
        'nodes: for node in 0..nodes {
            if matches!(self.waiting.get(node as usize), Some(Some(_))) {
                self.contract(node)?;
            }
        }
        Ok(())
    }
}

/// Whether a log has the contractions of these nodes of cliques, in this order.
pub(crate) fn is_log_of(
    alloc: Global,
    log: &[Contraction],
    order: &[u32],
) -> Result<bool, AllocError> {
    'entries: for (rank, entry) in log.iter().enumerate() {
        let left = order.get(rank..).unwrap_or_default();
        let is_next = left.first() == Some(&entry.node) && entry.rank as usize == rank;
        if !is_next || entry.shortcuts != 0 || !are_others(alloc, left, entry)? {
            return Ok(false);
        }
    }
    Ok(log.len() == order.len())
}

/// Whether the neighbours of an entry are the other nodes of its clique, of those that are left.
fn are_others(alloc: Global, left: &[u32], entry: &Contraction) -> Result<bool, AllocError> {
    let mut others = Vec::new(alloc);
    'nodes: for node in left {
        if *node != entry.node && clique_of(*node) == clique_of(entry.node) {
            others.push(*node)?;
        }
    }
    others.sort()?;
    Ok(entry.neighbours.as_slice() == others.as_slice())
}

/// Whether these are the receipts of the nodes that are in an order from this rank on.
pub(crate) fn are_receipts_from(first: usize, order: &[u32], receipts: &[Receipt]) -> bool {
    let mut holds = true;
    let mut rank = first;
    'receipts: for receipt in receipts {
        holds &= (receipt.rank as usize == rank) & (order.get(rank) == Some(&receipt.node));
        rank = rank.wrapping_add(1);
    }
    holds
}
