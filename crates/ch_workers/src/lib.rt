//! Workers that contract the nodes of a graph together.
//!
//! Builds on `ch_contract`, whose board they share behind a lock, on `ch_estimate` for the keys by which they choose nodes,
//! on `ch_multiqueue` for the nodes that wait, and on `crossbeam_utils` for pauses and cache lines. Each worker takes the
//! node of the least key that it finds, proposes its contraction, and commits it where no row that the proposal rests on
//! has changed. They work in shifts, each by a book of its own, so that no old row is kept for longer. What they leave is
//! contracted by a sweep. A worker's turns are one body over a [`Workplace`]: [`build_alone`] takes those of one worker on
//! the calling thread, at a workplace that it has alone. [`Options`] says how they work, a [`Gate`] sees where they are,
//! and [`is_account`] tests whether the receipts that they received account for the log of their board. The promise of the
//! layer is the contract of [`build`]: whatever threads and estimators do, the log leads to the hierarchy, which is right
//! for the graph.
//!
//! Each worker has a list of estimators, each with a lease. With one worker, which uses the edge difference:
//!
//! ```rust
//! let mut leases = Leases::new(alloc)?;
//! let edges: Box<dyn Estimator + Send> = Box::new(alloc, EdgeDifference::new(alloc, leases.lease()?))?;
//! let lists = vec![in alloc; vec![in alloc; edges]?]?;
//! let options = Options { workers: 1, ..Options::PLAIN };
//! let built = build(rt, alloc, graph, options, lists, &mut leases, &OpenGate)?;
//! assert!(rt; built.log.len() == built.hierarchy.nodes() as usize);
//! ```
#![tactic(auto)]

mod account;
mod alone;
mod at_board;
mod boxed;
mod build_state;
mod building;
mod built;
mod error;
mod finishing;
mod gate;
mod good_options;
mod hiring;
mod listener;
mod listeners;
mod options;
mod resources;
mod run;
mod shift;
mod trouble;
mod worker;
mod workplace;

pub use account::is_account;
pub use alone::build_alone;
pub use building::{build, build_plain};
pub use built::Built;
pub use error::BuildError;
pub use gate::{Gate, OpenGate, Point};
pub use listener::Listener;
pub use options::Options;
pub use resources::Resources;
pub use workplace::{OwnWorkplace, Swept, Workplace};
