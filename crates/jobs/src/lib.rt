//! What the program `routecli` can be asked for, and how it ends where it is asked for nothing.
//!
//! Uses no other crate. A [`Job`] has its files and options, whose numbers are within their ranges; [`Job::of_two_files`]
//! refuses one name for two files, [`Job::in_turn`] an order that takes no turns where a stint is asked for, and
//! [`show_stop`] shows the user why there is no job, and returns the program's exit status. The orders are one table, in
//! `orders.rt`. The promise is in the contracts of these calls, and of [`Workers`], [`Stint`] and [`Preparation::orders`].
//!
//! A job to prepare is refused where one name is that of both files; any other stays as it was made:
//!
//! ```rust
//! let job = Job::Route { hierarchy: "net.rch", queries: "net.p2p" };
//! assert!(rt; job.of_two_files().is_ok() && !job.is_joined());
//! assert!(rt; Workers::new(64).is_some() && Workers::new(65).is_none());
//! ```
#![tactic(auto)]

mod job;
mod orders;
mod preparation;
mod stint;
mod stopping;
mod workers;

pub use job::{Call, Check, Job, Renewal, Stop};
pub use orders::{Order, Orders};
pub use preparation::Preparation;
pub use stint::Stint;
pub use stopping::show_stop;
pub use workers::Workers;
