/// Where a worker is in its work.
#[derive(Clone, Copy, Debug, PartialEq, Eq)]
pub enum Point {
    /// It took an item from the queue.
    Took,
    /// It proposed the node of the item, and is about to commit.
    Proposed,
    /// Its proposal was committed.
    Committed,
    /// Its proposal was refused, since a row has changed, and the item waits in the queue again.
    Refused,
    /// It ended, and its estimators were dropped.
    Done,
}

/// Sees where the workers are.
///
/// A worker calls it in its own thread, and never holds a lock then. A gate may keep a worker for as long as it likes,
/// and so may force an order among workers; it receives nothing to wait by. Between two shifts the workers wait for
/// each other, so a gate that keeps one until another has come to a further point may keep it for good, on a graph of
/// more than 16 nodes.
pub trait Gate: Sync {
    /// Is called by the worker of this number, from 0, when it comes to this point.
    fn pass(&self, worker: u32, point: Point);
}

/// A gate that lets every worker pass at once.
#[derive(Clone, Copy, Debug)]
pub struct OpenGate;

impl Gate for OpenGate {
    fn pass(&self, _worker: u32, _point: Point) {}
}
