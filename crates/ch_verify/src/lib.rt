//! Whether the file of a hierarchy is right for the graph of a text, whoever made it.
//!
//! Uses `grfile` and `hierfile` to read the two, `ch_check` to check one against the other, `ch_answer` for which bytes are
//! the file of a right hierarchy, `counted_io` for the calls of the writer, and `outcomes` for the causes of refusals.
//! [`verify`] carries the promise: if the [`FileVerdict`] is `Right`, the file is one as it is prepared from the text, by
//! which routes are shortest paths of that graph; if it is `Wrong`, it isn't (`specs/Verdict.antt`). One line says what was
//! found.
//!
//! Nodes are numbered from 0 inside, and from 1 in the text and in the line.
//!
//! A graph of two nodes and one arc, and the file that was prepared from it:
//!
//! ```rust
//! let mut graph = b"p sp 2 1\na 1 2 7\n".as_slice();
//! let mut line = Vec::new(alloc);
//! assert!(rt; verify(alloc, &mut graph, &mut file, &mut line, &Unwatched)? == FileVerdict::Right);
//! assert!(rt; line.as_slice() == b"right\n".as_slice());
//! ```
#![tactic(auto)]

mod verdict;
mod verifying;

pub use ch_check::{Unwatched, Watch};
pub use counted_io::WriteFault;
pub use verdict::{Doubt, FileVerdict, Refutation};
pub use verifying::verify;
