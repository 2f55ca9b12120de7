//! The example of `examples/order`: an order of one's own, and a hierarchy by it.
ghost use Rattle.std.specs.Prelude.{◌≡◌, [], IfOk};

use crate::kit::{ONE, star};
use ch_contract::{Contraction, Facts};
use ch_estimate::{Depth, Estimator, Lease, Leases, Note};
use ch_sequential::build_sequential;
use ch_workers::{Built, OpenGate};
use std::alloc::{AllocError, Global};
use std::sync::Wait;
use std::test::Fail;

/// Nodes of few arcs go first, and each step of its depth puts a node back by four. What it receives is kept by [`Depth`].
#[derive(Drop)]
struct FewArcs {
    depth: Depth,
}

impl Estimator for FewArcs {
    ghost heard = { λ own. own.depth };

    fn key(&mut self, facts: &Facts) -> u64 {
        let note = self.depth.note(facts.node);
        u64::from(facts.ins) + u64::from(facts.outs) + 4 * u64::from(note.depth)
    }

    fn told(&mut self, entry: &Contraction) -> Result<(), AllocError> {
        self.depth.told(entry)
    }

    fn note(&self, node: u32) -> Note {
        self.depth.note(node)
    }
}

/// One that has heard nothing, in a box.
fn few_arcs(alloc: Global, lease: Lease) -> Result<Box<dyn Estimator + Send>, AllocError>
    ensures { IfOk result (λ estimator. heard estimator ≡ []) }
{
    let depth = Depth::new(alloc, lease);
    let own: Box<dyn Estimator + Send> = Box::new(alloc, FewArcs { depth })?;
    Ok(own)
}

/// Builds a star by one worker in this order.
fn built<R: Wait>(rt: &R, alloc: Global) -> Result<Built, Fail> {
    let mut leases = Leases::new(alloc)?;
    let own = few_arcs(alloc, leases.lease()?)?;
    let lists = vec![in alloc; vec![in alloc; own]?]?;
    let built = build_sequential(rt, alloc, star(alloc)?, ONE, lists, &mut leases, &OpenGate)?;
    Ok(built)
}

#[test]
fn the_middle_of_a_star_is_last(rt: HostRuntime) -> Result<(), Fail> {
    let hierarchy = built(&rt, rt.alloc())?.hierarchy;
    let mut holds = hierarchy.nodes() == 5;
    'nodes: for node in 0..hierarchy.nodes() {
        holds &= (hierarchy.rank(node) == 4) == (node == 0);
    }
    assert!(rt; holds);
    Ok(())
}
