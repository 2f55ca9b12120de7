ghost use Rattle.std.specs.Prelude.{IfOk};
ghost use Rattle.ch_laws.specs.Contraction.{IsReached};
ghost use Rattle.ch_overlay.specs.Overlay.{state_of};
ghost use Rattle.ch_core.specs.Steps.{IsRun};
ghost use Rattle.ch_core.specs.Keeping.{IsWorld};

use crate::event::{Event, Outcome};
use crate::world::World;
use ch_graph::Graph;
use std::alloc::{AllocError, Global};

/// Returns the world of this graph with this many workers after these events, one after the other, and the outcome of
/// each.
///
/// Fails only where memory runs out. Its memory grows with the book and with what is read.
pub fn run(
    alloc: Global,
    graph: Graph,
    workers: u32,
    events: Vec<Event>,
) -> Result<(World, Vec<Outcome>), AllocError>
    ensures run { IfOk result (λ r. IsRun graph workers events.items r.1.items r.0) }
    ensures reached { IfOk result (λ r. IsReached graph r.0.ledger.log (state_of r.0.ledger.overlay)) }
{
    let mut world = World::new(alloc, graph, workers)?;
    let mut outcomes = Vec::with_capacity(alloc, events.len())?;
    'events: for event in events {
        let outcome = world.step(event)?;
        outcomes.push(outcome)?;
    }
    world.holds();
    Ok((world, outcomes))
}
