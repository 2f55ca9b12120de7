//! Does what a command line asks for, over readers and writers.
//!
//! Builds on `jobs`, on `ch_service` and `ch_renew`, which do the work, on `outcomes` for how it ended, and on `ch_workers`
//! and `ch_estimate` for the workers that prepare a hierarchy and the orders in which they contract nodes. The file of a
//! hierarchy is put in place whole by `whole_file`. Each job has a call and a contract of its own: [`perform_answer`] and
//! [`perform_joined`], [`perform_route`], [`perform_info`], [`perform_check`], [`perform_preparation`] and
//! [`perform_renewal`] into any writer, and [`prepare_whole`] and [`renew_whole`] for a destination. Each returns its
//! [`Ending`](outcomes::Ending). If it is done, what was written answers all pairs, or what is at its destination is a
//! hierarchy that is right for the graph; if it was refused, what was there before stays there. [`perform`] does any job by
//! these calls, prints the line of a refusal and returns the program's exit status.
//!
//! To answer, the job gets a reader for each of its two files, and writers for the answers and for a refusal:
//!
//! ```rust
//! let job = Job::Answer { graph: "net.gr", queries: "net.p2p" };
//! let status = perform(rt, alloc, &job, &mut graph, &mut pairs, &mut out, &mut err);
//! assert!(rt; status == 0);
//! ```
#![tactic(auto)]

mod answering;
mod checking;
mod doing;
mod informing;
mod laws;
mod lists;
mod outcome;
mod preparing;
mod renewing;
mod routing;
mod unwritable;
mod whole;

pub use answering::{perform_answer, perform_joined};
pub use checking::perform_check;
pub use doing::perform;
pub use informing::perform_info;
pub use laws::{checked_routes_are_exact, prepared_routes_are_exact, zero_is_done};
pub use preparing::perform_preparation;
pub use renewing::{perform_renewal, renew_whole};
pub use routing::perform_route;
pub use unwritable::refuse_unwritable;
pub use whole::prepare_whole;
