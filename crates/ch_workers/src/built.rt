ghost use Rattle.std.specs.Prelude.{◌≡◌, ◌↔◌, Ok, Err, IfOk};
ghost use Rattle.ch_workers.specs.declared.error.BuildError.TheVariants.{BadOptions};

use crate::error::BuildError;
use ch_contract::{Contraction, Receipt};
use ch_graph::Hierarchy;
use ch_multiqueue::Closed;
use std::alloc::Global;

/// What workers and the sweep made of a graph.
#[derive(Drop)]
pub struct Built {
    /// The hierarchy that the contractions lead to.
    pub hierarchy: Hierarchy,
    /// The receipts of each worker, in the order that it was handed them, and then those of the sweep.
    pub receipts: Vec<Vec<Receipt>>,
    /// What was done, first to last: the entry of rank k stands at k.
    pub log: Vec<Contraction>,
    /// The queue in which the nodes waited for the workers, closed; none where there was no worker.
    pub queue: Option<Closed>,
}

/// What was built, where something was, with an index of the hierarchy's links and the places of their halves, which
/// takes 8 bytes a node and 8 a link.
pub(crate) fn with_index(
    alloc: Global,
    built: Result<Built, BuildError>,
) -> Result<Built, BuildError>
    ensures same { IfOk result (λ b. built ≡ Ok b) }
    ensures bad { (result ≡ Err BadOptions) ↔ (built ≡ Err BadOptions) }
{
    let built = built?;
    match built.hierarchy.into_indexed(alloc) {
        Ok(hierarchy) => Ok(Built { hierarchy, ..built }),
        Err(_refused) => Err(BuildError::OutOfMemory),
    }
}
