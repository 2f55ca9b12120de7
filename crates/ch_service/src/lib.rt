//! The work of the program `routecli`, over readers and writers of any kind.
//!
//! Uses `grfile` for the two texts, `ch_workers` for hierarchies and `hierfile` for their files, `ch_route` for routes and
//! why they are least, `ch_answer` for the lines that name them, and `counted_io` for the calls of readers and writers.
//! [`prepare`] writes a hierarchy of a graph, which workers build, and [`route`] answers pairs of nodes by it; [`answer`]
//! and [`answer_joined`] build one for the call. [`ServiceError`] says why a call didn't do its work, and its [`Cause`]
//! what that is to a user. The promise of the layer is the contract of these calls: what is written has one line for each
//! pair, in order, with the least length over all walks of the text's graph and the nodes along a walk of exactly that
//! length, or with none where there is no walk. For `prepare` and `route` together it is the clause `best` of
//! [`routes_in_memory`], in the plain words of `best_routes`, and the law [`routes_are_exact`] for bytes that go through a
//! file. After a refusal a contract says which text was at fault, or which first part of such answers the writer took.
//!
//! Nodes are numbered from 0 inside, and from 1 in every text.
//!
//! A graph and a pair of its nodes, by a hierarchy that no worker but the calling thread builds:
//!
//! ```rust
//! let graph = b"p sp 3 2\na 2 1 2\na 1 3 3\n".as_slice();
//! let pairs = b"p aux sp p2p 1\nq 2 3\n".as_slice();
//! let (lists, mut leases) = (Vec::new(alloc), Leases::new(alloc)?);
//! let text = routes_in_memory(rt, alloc, graph, pairs, Options::PLAIN, lists, &mut leases, &OpenGate)?;
//! assert!(rt; text.as_slice() == b"r 2 3 5 2 2 1 3\n".as_slice());
//! ```
#![tactic(auto)]

mod answering;
mod error;
mod in_memory;
mod input;
mod joined;
mod laws;
mod pairs;
mod preparing;
mod refusing;
mod routing;
mod sequential;

pub use answering::{answer, answer_joined};
pub use counted_io::WriteFault;
pub use error::ServiceError;
pub use in_memory::routes_in_memory;
pub use laws::{
    answers_are_best_routes, causes_tell_refusals, first_routes_are_exact, right_routes_are_least,
    routes_are_exact,
};
pub use outcomes::Cause;
pub use preparing::{prepare, prepare_beside};
pub use routing::route;
pub use sequential::prepare_sequential;
