//! The command line of the program `routecli`.
//!
//! Builds on `jobs`, and on `clap`, which reads the arguments. [`command`] turns them into a [`Call`](jobs::Call), or says
//! why they name no job.
//!
//! The arguments `routecli`, `route`, `net.rch` and `net.p2p` name a job:
//!
//! ```rust
//! let call = command(alloc, words)?;
//! assert!(rt; call.job == Job::Route { hierarchy: "net.rch", queries: "net.p2p" });
//! ```
#![tactic(auto)]

mod reading;
mod version;

pub use reading::command;
