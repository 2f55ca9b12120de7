//! What a user at a terminal sees beside results: how far a preparation has come, and lines that explain how a job ended.
//!
//! Builds on `ch_workers`, whose workers pass a gate at each commit, on `jobs` for what was asked, and on `outcomes`,
//! `grfile` and `hierfile` for how it ended. No contract speaks of what is shown, and nothing rests on it; [`conclude`]
//! returns the exit status of how a job ended. What a [`Watched`] or [`Kept`] reader or writer passes on is what the one
//! behind it does, so all that is promised of a text holds through it.
//!
//! **Progress.** A [`Meter`] is a gate that counts the commits: some times a second the worker that passes writes one line
//! to standard error, in the place of the one before. The first one comes after a second, or earlier if it is asked for. A
//! [`Watched`] reader passes on a graph's text, and reports to the meter how many nodes it announces.
//!
//! ```rust
//! let meter = Meter::new(rt, rt.stderr(), true)?;
//! let mut graph = Watched::new(file, &meter);
//! let ended = prepare(rt, alloc, &mut graph, &mut out, options, lists, &mut leases, &meter);
//! meter.clear();
//! ```
//!
//! **Explanations.** The program prints one line of its own at a refusal, and its status; that is fixed. At a terminal, or
//! where it is asked for, [`explain`] says which file it was, which line of its text, what was expected, and what to do. It
//! is given the [`Ending`](outcomes::Ending), and what failed at a read, a write or a flush, which [`Kept`] keeps
//! ([`Ended`]). A regular file is read once more by its name; a pipe isn't. [`warn_of`] warns before the work that a file
//! can't be written.
//!
//! ```rust
//! let outcome = Ending::Refused(Cause::Graph(GrError { kind: GrErrorKind::NodeRange, line: 2 }));
//! explain(rt, &job, &Ended { outcome, failure: None }, &mut err);
//! // net.gr:2: a 1 3 7
//! //   node 3 isn't there: nodes are 1 to 2
//! ```
#![tactic(auto)]

mod ending;
mod explaining;
mod fields;
mod files;
mod hints;
mod kept;
mod look;
mod meter;
mod progress;
mod shown;
mod sorts;
mod watched;

pub use ending::conclude;
pub use explaining::{Ended, Failure, explain};
pub use files::warn_of;
pub use kept::Kept;
pub use meter::{Cleared, Meter};
pub use progress::{ProgressLine, write_end, write_line};
pub use watched::Watched;
