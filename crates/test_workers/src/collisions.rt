ghost use Rattle.std.specs.Prelude.{◌≡◌, [], All, IfOk};

use crate::kit::{Lists, TWO, graph_of};
use crate::stations::comes_to;
use ch_contract::{Contraction, Facts};
use ch_cost::NarrowCost;
use ch_estimate::{EdgeDifference, Estimator, Lease, Leases, Note};
use ch_graph::{Graph, Hierarchy, Link, Middle};
use ch_workers::{Built, Gate, Point, build};
use std::alloc::{AllocError, Global};
use std::sync::atomic::{AtomicU64, Ordering};
use std::sync::{Arc, Wait};
use std::test::Fail;
use std::thread::Threads;

/// What two workers who propose neighbours at the same time are watched by: who has come to a first proposal, how often
/// one was refused, and whether anybody was kept to the last look.
#[derive(Drop)]
struct Meeting {
    ahead: AtomicU64,
    behind: AtomicU64,
    refused: AtomicU64,
    late: AtomicU64,
}

impl Meeting {
    /// Nobody has come yet.
    fn new(alloc: Global) -> Result<Arc<Meeting>, AllocError> {
        let meeting = Arc::new(
            alloc,
            Meeting {
                ahead: AtomicU64::new(0),
                behind: AtomicU64::new(0),
                refused: AtomicU64::new(0),
                late: AtomicU64::new(0),
            },
        )?;
        Ok(meeting)
    }

    /// Waits until a worker has come to its first proposal, and remembers where that isn't so at the last look.
    fn wait_for(&self, come: &AtomicU64) {
        if !comes_to(come, 1) {
            self.late.store(1, Ordering::SeqCst);
        }
    }
}

/// Keeps each of two workers at its first proposal until the other has come to its own.
#[derive(Drop)]
struct Collision {
    meeting: Arc<Meeting>,
}

impl Gate for Collision {
    fn pass(&self, worker: u32, point: Point) {
        let meeting = &self.meeting;
        if point == Point::Refused {
            meeting.refused.fetch_add(1, Ordering::SeqCst);
        }
        if point != Point::Proposed {
            return;
        }
        if worker == 0 {
            meeting.ahead.store(1, Ordering::SeqCst);
            meeting.wait_for(&meeting.behind);
        } else {
            meeting.behind.store(1, Ordering::SeqCst);
            meeting.wait_for(&meeting.ahead);
        }
    }
}

/// An estimator that always returns the key 0, the first time when worker 0 has come to its first proposal.
#[derive(Drop)]
struct Follower {
    inner: EdgeDifference,
    meeting: Arc<Meeting>,
}

impl Estimator for Follower {
    ghost heard = { λ f. f.inner };

    fn key(&mut self, _facts: &Facts) -> u64 {
        self.meeting.wait_for(&self.meeting.ahead);
        0
    }

    fn told(&mut self, entry: &Contraction) -> Result<(), AllocError> {
        self.inner.told(entry)
    }

    fn note(&self, node: u32) -> Note {
        self.inner.note(node)
    }
}

/// An estimator that received nothing.
fn make_follower(
    alloc: Global,
    lease: Lease,
    meeting: &Arc<Meeting>,
) -> Result<Follower, AllocError>
    ensures untold { IfOk result (λ estimator. estimator.inner ≡ []) }
{
    let inner = EdgeDifference::new(alloc, lease);
    let meeting = Arc::try_clone(meeting)?;
    Ok(Follower { inner, meeting })
}

/// No estimator for worker 0, and this one for worker 1.
fn second_alone(alloc: Global, second: Box<dyn Estimator + Send>) -> Result<Lists, AllocError>
    requires { heard second ≡ [] }
    ensures untold { IfOk result (λ lists. All (λ list. All (λ estimator. heard estimator ≡ []) list.items) lists.items) }
{
    let mut list = Vec::new(alloc);
    list.push(second)?;
    let mut lists = Vec::new(alloc);
    lists.push(Vec::new(alloc))?;
    lists.push(list)?;
    Ok(lists)
}

/// An arc of weight 7, as a link.
fn link(from: u32, to: u32) -> Link {
    Link {
        from,
        to,
        cost: NarrowCost::of_weight(7),
        middle: Middle::NONE,
    }
}

/// Whether the workers received two receipts, and the sweep none.
fn is_by_workers(built: &Built) -> bool {
    match built.receipts.as_slice() {
        [first, second, swept] => first.len() + second.len() == 2 && swept.is_empty(),
        _ => false,
    }
}

/// Two nodes with an arc of weight 7 each way.
fn neighbours(alloc: Global) -> Result<Graph, Fail> {
    graph_of(alloc, 2, &[(0, 1, 7), (1, 0, 7)])
}

/// No estimator for worker 0, and for worker 1 one that waits for the first proposal of worker 0.
fn lists_of(alloc: Global, leases: &mut Leases, meeting: &Arc<Meeting>) -> Result<Lists, AllocError>
    ensures untold { IfOk result (λ lists. All (λ list. All (λ estimator. heard estimator ≡ []) list.items) lists.items) }
{
    let follower = make_follower(alloc, leases.lease()?, meeting)?;
    second_alone(alloc, Box::new(alloc, follower)?)
}

/// Builds the two neighbours by two workers, who meet at their first proposals.
fn built_by_two<R: Threads + Wait + Sync>(
    rt: &R,
    alloc: Global,
    meeting: &Arc<Meeting>,
) -> Result<Built, Fail> {
    let gate = Collision {
        meeting: Arc::try_clone(meeting)?,
    };
    let mut leases = Leases::new(alloc)?;
    let lists = lists_of(alloc, &mut leases, meeting)?;
    let graph = neighbours(alloc)?;
    let built = build(rt, alloc, graph, TWO, lists, &mut leases, &gate)?;
    Ok(built)
}

/// Whether both arcs are links, and one node is above the other.
fn is_of_neighbours(hierarchy: &Hierarchy) -> bool {
    if hierarchy.nodes() != 2 {
        return false;
    }
    let ranks = (hierarchy.rank(0), hierarchy.rank(1));
    (ranks == (0, 1) || ranks == (1, 0)) && hierarchy.links() == [link(0, 1), link(1, 0)].as_slice()
}

impl Meeting {
    /// Whether nobody was kept to the last look, and one proposal was refused.
    fn was_met(&self) -> bool {
        (self.late.load(Ordering::SeqCst) == 0) & (self.refused.load(Ordering::SeqCst) == 1)
    }
}

/// Whether two workers who meet at their first proposals contract both nodes, and one of them is refused once.
fn are_met<R: Threads + Wait + Sync>(rt: &R, alloc: Global) -> Result<bool, Fail> {
    let meeting = Meeting::new(alloc)?;
    let built = built_by_two(rt, alloc, &meeting)?;
    Ok(meeting.was_met() & is_of_neighbours(&built.hierarchy) & is_by_workers(&built))
}

// Each rests on both rows. Whoever comes second to the lock is refused, and tries once more.
#[test]
fn two_workers_propose_neighbours(rt: HostRuntime) -> Result<(), Fail> {
    assert!(rt; are_met(&rt, rt.alloc())?);
    Ok(())
}
