use ch_contract::{CommitError, Proposal, Receipt};

/// What a worker does. Workers and nodes are numbered from 0.
#[derive(Drop)]
pub enum Event {
    /// It reads a version of a node's row, however old, in place of what it had of the node.
    Read {
        /// The worker.
        worker: u32,
        /// The node.
        node: u32,
        /// The number of the version.
        version: u64,
    },
    /// It offers a proposal, which rests on rows that it read.
    Offer {
        /// The worker.
        worker: u32,
        /// What it offers.
        proposal: Proposal,
    },
    /// It forgets all that it read.
    Forget {
        /// The worker.
        worker: u32,
    },
}

/// What is returned for an event.
#[derive(Clone, Copy, Debug, PartialEq, Eq)]
pub enum Outcome {
    /// The worker has the row now.
    Shown,
    /// The node of the proposal is contracted now.
    Committed(Receipt),
    /// The proposal comes too late: its node is contracted, or a row that it rests on has changed.
    Refused(CommitError),
    /// The worker has no row any more.
    Forgotten,
    /// There is no such worker, no such version of the node, or the proposal isn't by the graph's bound and by rows
    /// that the worker has.
    NoSuch,
}
