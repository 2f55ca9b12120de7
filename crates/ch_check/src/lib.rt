//! A proved check that a hierarchy is right for a graph, whoever made it.
//!
//! Builds on `ch_overlay`, whose rows it contracts once more, on `ch_witness` for ways around a node, on `ch_laws` for
//! what makes a contraction lawful, and on `ch_query` for the distances of a hierarchy. It stands beside `ch_contract`, and
//! uses nothing of it.
//!
//! - [`check`] contracts the nodes of the graph in the order of the hierarchy's ranks, and compares what comes of it with
//!   the links. If it returns `Ok`, the hierarchy is right for the graph: that is its contract. Nothing of the hierarchy is
//!   believed.
//! - [`is_refuted_by`] compares the distance of two nodes in the graph with that in the hierarchy. If it returns true, the
//!   hierarchy isn't right.
//! - [`work_out_anew`] finds which shortcuts a contraction needs where no hierarchy names them.
//! - [`CheckError`] says where a check ended, which is no proof that the hierarchy is wrong but for
//!   [`CheckError::Nodes`].
//!
//! A hierarchy that was read from a file is checked against its graph, and a doubtful pair is looked at:
//!
//! ```rust
//! match check(alloc, &graph, &hierarchy) {
//!     Ok(()) => println!(rt; "right")?,
//!     Err(error) => match error.pair() {
//!         Some((from, to)) if is_refuted_by(alloc, &graph, &hierarchy, from, to)? => println!(rt; "wrong")?,
//!         _ => println!(rt; "not shown: {error}")?,
//!     },
//! }
//! ```
#![tactic(auto)]

mod anew;
mod buffers;
mod checking;
mod comparing;
mod error;
mod fault;
mod overlay_rows;
mod pairs;
mod ranks;
mod refuting;
mod replay;
mod share;
mod watch;
mod ways;
mod working;

pub use anew::work_out_anew;
pub use buffers::Buffers;
pub use checking::{check, check_watched};
pub use error::CheckError;
pub use ranks::nodes_by_rank;
pub use refuting::is_refuted_by;
pub use watch::{Unwatched, Watch};
