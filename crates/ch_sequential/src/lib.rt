//! The hierarchy of one worker without what workers share: no board, no book of rows, and no copy of the log.
//!
//! Builds on `ch_contract`, by whose ledger it contracts nodes, and on `ch_workers`, whose turns, options, gates and
//! results it has: a [`Workplace`](ch_workers::Workplace) is all that differs. The promise of the layer is the contract of
//! [`build_sequential`], which is that of [`build`](ch_workers::build) with one worker. With ample memory hierarchy, log
//! and receipts are the same too, for less time and memory.
//!
//! ```rust
//! let mut leases = Leases::new(alloc)?;
//! let edges: Box<dyn Estimator + Send> = Box::new(alloc, EdgeDifference::new(alloc, leases.lease()?))?;
//! let lists = vec![in alloc; vec![in alloc; edges]?]?;
//! let built = build_sequential(rt, alloc, graph, Options::PLAIN, lists, &mut leases, &OpenGate)?;
//! assert!(rt; built.log.len() == built.hierarchy.nodes() as usize);
//! ```
#![tactic(auto)]

mod building;
mod in_order;
mod rows;
mod solo;
mod telling;

pub use building::build_sequential;
pub use in_order::build_by_ranks;
