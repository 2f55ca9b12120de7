use crate::listener::Listener;
use ch_contract::{
    CommitError, Contraction, Facts, Ledger, Proposal, ProposeError, Receipt, Scratch,
};
use ch_estimate::Estimator;
use std::alloc::{AllocError, Global};

/// Where a worker takes its turns: at a board that workers share, or at a ledger that one worker has alone.
pub trait Workplace {
    ghost use Rattle.std.specs.Prelude.{◌≤◌, IfOk};
    ghost use Rattle.ch_contract.specs.Proposal.{Proposal};

    /// The proposals that may be committed, as the rows are seen now.
    ghost fits: { Self → Proposal → Type 0 };

    /// Returns the number of nodes, contracted or not.
    fn nodes(&self) -> u32;

    /// Works out the contraction of a node by the rows that are seen here. A search settles at most `settle` nodes.
    fn propose(
        &mut self,
        scratch: &mut Scratch,
        node: u32,
        settle: u32,
    ) -> Result<Proposal, ProposeError>
        requires some { 1 ≤ settle }
        requires few { settle ≤ 65536 }
        ensures fits { IfOk result (fits self.new) };

    /// Passes a listener each entry of the log that it hasn't received, in order, as a copy if others can change the log.
    fn tell_all<E: Estimator>(
        &self,
        copy: &mut Contraction,
        listener: &mut Listener<E>,
    ) -> Result<(), AllocError>;

    /// Contracts the node of a proposal.
    fn commit(&mut self, proposal: &Proposal) -> Result<Receipt, CommitError>
        requires fits { fits self.old proposal.now };

    /// Whether the worker takes no further turn here for now. If its last turn contracted a node, these are the counts of
    /// its proposal.
    fn is_over_with(&self, contracted: Option<Facts>) -> bool;
}

/// A workplace that one worker has alone.
pub trait OwnWorkplace: Workplace + Drop {
    ghost use Rattle.std.specs.Prelude.{◌≡◌, ◌<◌, ◌≤◌, IfOk};
    ghost use Rattle.ch_graph.specs.Graph.{Graph};
    ghost use Rattle.ch_laws.specs.Contraction.{IsOver};
    ghost use Rattle.ch_overlay.specs.Overlay.{state_of};
    ghost use Rattle.ch_contract.specs.Ledger.{IsStartLedger};

    /// The graph whose nodes are contracted here.
    ghost graph: { Graph };

    /// Returns the workplace at a ledger in which no node is contracted. Takes no memory.
    fn new(alloc: Global, ledger: Ledger) -> Self
        requires { IsStartLedger graph ledger };

    /// Contracts each node that isn't contracted, by rising number.
    fn sweep(self, settle: u32) -> Result<Swept, AllocError>
        requires some { 0 < settle }
        requires few { settle ≤ 65536 }
        ensures graph { IfOk result (λ swept. swept.ledger.graph ≡ graph) }
        ensures over { IfOk result (λ swept. IsOver (state_of swept.ledger.overlay)) };
}

/// A ledger whose nodes are all contracted, and the receipts of those that were left for the sweep.
#[derive(Drop)]
pub struct Swept {
    /// The ledger.
    pub ledger: Ledger,
    /// The receipts of the sweep, in the order of the contractions.
    pub receipts: Vec<Receipt>,
}
