//! How a run of the program ends, as a value: what is printed, what is explained and the exit status follow from it.
//!
//! Uses `grfile`, `hierfile` and `counted_io` for the faults of texts, of files and of writes, `ch_graph` for the hierarchy
//! of a file, and `itoa` for decimals. A [`Cause`] is what a
//! refusal comes of, and in which input: each layer above turns its own errors into one. An [`Ending`] is the end of a
//! job: done, a verdict, or a refusal with its cause. The promise is in the contracts of [`Cause::of_graph`],
//! [`Cause::of_queries`] and [`Cause::of_hierarchy`], of [`Cause::status`] and [`Ending::status`], which are the one table
//! of statuses, and of [`Ending::report`]. What upper contracts say of memory, reads and writes by these causes, and what
//! it means that a writer took a text, is in `specs/Written.antt`.
//!
//! [`write_info`] prints what a hierarchy file has: the version, the numbers of nodes and links, the bound and the number
//! of bytes of the one hierarchy that the bytes are the file of (`specs/Info.antt`). Where the file is refused nothing is
//! written.
//!
//! A fault of a text, and a read of that text that failed:
//!
//! ```rust
//! let fault = GrError { kind: GrErrorKind::NodeRange, line: 2 };
//! let outcome = Ending::Refused(Cause::of_graph(fault));
//! assert!(rt; outcome.report(&mut err) == 3 && err.as_slice() == b"routecli: graph: NodeRange line 2\n".as_slice());
//! let fault = GrError { kind: GrErrorKind::Read, line: 2 };
//! assert!(rt; Cause::of_graph(fault) == Cause::Read(Input::Graph));
//! ```
//!
//! The file of the hierarchy of two nodes and one arc of weight 7 has 56 bytes:
//!
//! ```rust
//! let mut text = Vec::new(alloc);
//! write_info(alloc, &mut file, &mut text)?;
//! assert!(rt; text.as_slice() == b"version 2\nnodes 2\nlinks 1\nbound 7\nbytes 56\n".as_slice());
//! ```
#![tactic(auto)]

mod cause;
mod ending;
mod info;

pub use cause::{Cause, Input};
pub use counted_io::WriteFault;
pub use ending::Ending;
pub use info::{push_info, write_info};
