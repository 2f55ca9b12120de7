//! The hierarchy of a graph by the ranks of another one, such as the one of the same network with the weights of yesterday.
//!
//! Uses `grfile` and `hierfile` to read the two and to write a third, `ch_sequential` to contract the nodes in the order of
//! the ranks, `ch_answer` for which bytes are the file of a hierarchy, and `outcomes` for how a call ends. [`renew`]
//! carries the promise: whatever the old file is, the new one is right for the graph (`specs/Renewal.antt`).
//!
//! A graph whose weights have changed, and the file that was prepared before:
//!
//! ```rust
//! let mut graph = b"p sp 2 1\na 1 2 9\n".as_slice();
//! let mut new = Vec::new(alloc);
//! assert!(rt; renew(alloc, &mut graph, &mut old, &mut new, &Unwatched) == Ending::Done);
//! ```
#![tactic(auto)]

mod renewing;

pub use ch_check::{Unwatched, Watch};
pub use outcomes::{Cause, Ending};
pub use renewing::renew;
