ghost use Rattle.std.specs.Prelude.{All, IfOk, IfSome};
ghost use Rattle.ch_rowbook.specs.Books.{IsOfBook};
ghost use Rattle.ch_contract.specs.Ready.{IsReadyFor};

use crate::build_state::{BuildState, replaced_entries};
use crate::gate::Gate;
use crate::listener::Listener;
use crate::worker::{Hall, Worker, work};
use crate::workplace::Workplace;
use ch_contract::{
    CommitError, Contraction, Facts, Proposal, ProposeError, Ready, Receipt, Scratch, Site,
    make_ready, propose_with,
};
use ch_estimate::Estimator;
use ch_overlay::SeeError;
use ch_rowbook::Reader;
use std::alloc::AllocError;
use std::sync::Wait;

/// The place of a worker at a board that others share: it reads rows by a reader of its own, which takes no lock.
#[derive(Drop)]
struct AtBoard<'a, S: Site, R: Wait> {
    rt: &'a R,
    shared: &'a BuildState<S>,
    reader: &'a mut Reader<S>,
}

/// Lets a worker that hasn't ended work at a shared board.
pub(crate) fn work_at<S: Site, E: Estimator, G: Gate, R: Wait>(
    rt: &R,
    shared: &BuildState<S>,
    gate: &G,
    worker: &mut Worker<E>,
    reader: &mut Reader<S>,
) {
    let hall = Hall {
        rt,
        queue: &shared.queue,
        gate,
        crew: shared.crew,
    };
    let mut place = AtBoard { rt, shared, reader };
    work(&hall, &mut place, worker);
}

impl<S: Site, R: Wait> Workplace for AtBoard<'_, S, R> {
    ghost use Rattle.std.specs.Prelude.{◌≡◌, All};
    ghost use Rattle.ch_rowbook.specs.Books.{IsOfBook};

    ghost fits = { λ _ p. All (IsOfBook S.book) p.rests_on × (p.bound ≡ S.book.bound) };

    fn nodes(&self) -> u32 {
        self.shared.nodes
    }

    fn propose(
        &mut self,
        scratch: &mut Scratch,
        node: u32,
        settle: u32,
    ) -> Result<Proposal, ProposeError> {
        propose_with(self.shared.alloc, self.reader, scratch, node, settle)
    }

    fn tell_all<E: Estimator>(
        &self,
        copy: &mut Contraction,
        listener: &mut Listener<E>,
    ) -> Result<(), AllocError> {
        self.shared.tell_all(self.rt, copy, listener)
    }

    fn commit(&mut self, proposal: &Proposal) -> Result<Receipt, CommitError> {
        let Ok(ready) = ready_for(self.shared, self.reader, proposal) else {
            return Err(CommitError::OutOfMemory);
        };
        self.shared.commit(self.rt, proposal, ready, self.reader)
    }

    fn is_over_with(&self, contracted: Option<Facts>) -> bool {
        let replaced_entries = match contracted {
            Some(facts) => replaced_entries(facts, self.shared.room),
            None => 0,
        };
        self.shared.is_over_with(replaced_entries)
    }
}

/// Makes the new rows of a proposal, as far as the reader has the old ones. It takes no lock.
fn ready_for<S: Site>(
    shared: &BuildState<S>,
    reader: &mut Reader<S>,
    proposal: &Proposal,
) -> Result<Option<Ready>, AllocError>
    ensures ready { IfOk result (λ found. IfSome found (IsReadyFor proposal.now)) }
    ensures beside { IfOk result (λ found. IfSome found (λ r. All (IsOfBook S.book) r.beside)) }
{
    match make_ready(shared.alloc, reader, proposal) {
        Ok(ready) => Ok(Some(ready)),
        Err(SeeError::OutOfMemory) => Err(AllocError),
        Err(SeeError::Unseen) => Ok(None),
    }
}
