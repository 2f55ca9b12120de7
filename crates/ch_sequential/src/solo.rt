ghost use Rattle.std.specs.Prelude.{◌≡◌, ◌<◌, ◌≤◌, ◌++◌, ◌∷◌, ℕ, [], IfOk, OnOk, length};
ghost use Rattle.ch_laws.specs.Contraction.{IsAlive};
ghost use Rattle.ch_overlay.specs.Overlay.{state_of};
ghost use Rattle.ch_contract.specs.Ledger.{AreLawful, IsContracted, IsGone, IsNode, IsStartLedger};
ghost use Rattle.ch_contract.specs.Commit.{Agrees};

use crate::telling::tell_rest;
use ch_check::{Buffers, work_out_anew};
use ch_contract::{
    CommitError, Contraction, Facts, Ledger, Proposal, ProposeError, Receipt, Scratch, Site,
    agreement_is_lawful, propose_with, versions_from,
};
use ch_estimate::Estimator;
use ch_overlay::{Shortcut, changes_write_their_rows};
use ch_workers::{Listener, OwnWorkplace, Swept, Workplace};
use std::alloc::{AllocError, Global};
use std::marker::{Model, PhantomData};

/// A ledger that one thread contracts alone. The type names its graph.
#[derive(Drop)]
pub(crate) struct Solo<S: Site> {
    alloc: Global,
    pub(crate) ledger: Ledger,
    /// The first version that no row had yet.
    next: u64,
    of: PhantomData<S>,
}

impl<S: Site> Model for Solo<S> {
    ghost use Rattle.std.specs.Prelude.{◌≡◌};
    ghost use Rattle.ch_contract.specs.Ledger as ledgers;
    ghost use Rattle.ch_sequential.specs.Solo.{HasVersions};

    ghost Value = { ledgers.Ledger };

    ghost view = { λ s. s.ledger };

    ghost invariant = { λ s. (s.ledger.graph ≡ S.graph) × HasVersions s.ledger s.next };
}

impl<S: Site> Solo<S> {
    /// Contracts a node, and puts these shortcuts in.
    fn put_in(&mut self, node: u32, shortcuts: &[Shortcut]) -> Result<Receipt, AllocError>
        requires { AreLawful self.old node shortcuts.now }
        ensures { IfOk result (λ receipt. IsContracted self.old node shortcuts.now receipt self.new) }
    {
        changes_write_their_rows();
        let _ = self.ledger.log();
        let planned = self.ledger.plan(node, shortcuts)?;
        let count = planned.rows().len();
        let versions = versions_from(self.alloc, self.next, count)?;
        let receipt = self.ledger.enter(planned, versions.as_slice());
        self.next += count as u64;
        Ok(receipt)
    }

    /// Contracts the node of a proposal that was made by the rows as they are.
    fn contract(&mut self, proposal: &Proposal) -> Result<Receipt, AllocError>
        requires { Agrees self.old proposal.now }
        ensures { IfOk result (λ receipt. IsContracted self.old proposal.now.node proposal.now.shortcuts receipt self.new) }
    {
        agreement_is_lawful();
        let _ = proposal.rests_on();
        self.ledger.holds();
        self.put_in(proposal.node(), proposal.shortcuts())
    }

    /// A ledger in which no node is contracted yet. Takes no memory.
    pub(crate) fn at(alloc: Global, ledger: Ledger) -> Solo<S>
        requires { IsStartLedger S.graph ledger }
        ensures { result ≡ ledger }
    {
        let next = u64::from(ledger.overlay().nodes());
        ledger.holds();
        Solo {
            alloc,
            ledger,
            next,
            of: PhantomData,
        }
    }

    /// The ledger as it is now.
    pub(crate) fn into_ledger(self) -> Ledger
        ensures same { result ≡ self }
        ensures graph { result.graph ≡ S.graph }
    {
        self.ledger
    }

    /// Contracts a node that isn't contracted, with a shortcut for each pair for which no way around it is found.
    pub(crate) fn contract_next(
        &mut self,
        node: u32,
        settle: u32,
        buffers: &mut Buffers,
    ) -> Result<(), AllocError>
        requires alive { IsAlive (state_of self.old.overlay) node }
        requires some { 0 < settle }
        requires few { settle ≤ 65536 }
        ensures order { OnOk result (self.new.overlay.order ≡ self.old.overlay.order ++ node ∷ []) }
        ensures nodes { OnOk result (length self.new.overlay.rows ≡ length self.old.overlay.rows) }
    {
        self.ledger.holds();
        work_out_anew(self.ledger.overlay(), buffers, node, settle)?;
        let _receipt = self.put_in(node, &buffers.shortcuts)?;
        Ok(())
    }

    /// Contracts a node, unless it is contracted, and puts the receipt behind the others.
    fn visit(
        &mut self,
        node: u32,
        settle: u32,
        scratch: &mut Scratch,
        receipts: &mut Vec<Receipt>,
    ) -> Result<(), AllocError>
        requires in_range { IsNode self.old node }
        requires some { 0 < settle }
        requires few { settle ≤ 65536 }
        ensures gone { OnOk result (IsGone self.new node) }
        ensures still { OnOk result ((x : ℕ) → IsGone self.old x → IsGone self.new x) }
        ensures nodes { OnOk result (length self.new.overlay.rows ≡ length self.old.overlay.rows) }
    {
        self.ledger.holds();
        match propose_with(self.alloc, self, scratch, node, settle) {
            Ok(proposal) => {
                receipts.reserve(1)?;
                let receipt = self.contract(&proposal)?;
                receipts.push_reserved(receipt);
                scratch.keep(proposal);
                Ok(())
            }
            Err(ProposeError::OutOfMemory) => Err(AllocError),
            Err(ProposeError::Unseen) => unreachable!(),
            Err(ProposeError::Contracted) => Ok(()),
        }
    }
}

impl<S: Site> Workplace for Solo<S> {
    ghost use Rattle.ch_contract.specs.Commit.{Agrees};

    ghost fits = { λ l p. Agrees l p };

    fn nodes(&self) -> u32 {
        self.ledger.overlay().nodes()
    }

    fn propose(
        &mut self,
        scratch: &mut Scratch,
        node: u32,
        settle: u32,
    ) -> Result<Proposal, ProposeError> {
        propose_with(self.alloc, self, scratch, node, settle)
    }

    fn tell_all<E: Estimator>(
        &self,
        _copy: &mut Contraction,
        listener: &mut Listener<E>,
    ) -> Result<(), AllocError> {
        tell_rest(self.ledger.log(), listener)
    }

    fn commit(&mut self, proposal: &Proposal) -> Result<Receipt, CommitError> {
        match self.contract(proposal) {
            Ok(receipt) => Ok(receipt),
            Err(_) => Err(CommitError::OutOfMemory),
        }
    }

    fn is_over_with(&self, _contracted: Option<Facts>) -> bool {
        false
    }
}

impl<S: Site> OwnWorkplace for Solo<S> {
    ghost graph = { S.graph };

    fn new(alloc: Global, ledger: Ledger) -> Solo<S> {
        Solo::at(alloc, ledger)
    }

    fn sweep(self, settle: u32) -> Result<Swept, AllocError> {
        let mut solo = self;
        let nodes = solo.ledger.overlay().nodes();
        let mut scratch = Scratch::new(solo.alloc);
        let mut receipts = Vec::new(solo.alloc);
        'nodes: for node in 0..nodes {
            solo.visit(node, settle, &mut scratch, &mut receipts)?;
        }
        let Solo { ledger, .. } = solo;
        Ok(Swept { ledger, receipts })
    }
}
