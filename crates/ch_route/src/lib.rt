//! Routes, their lengths alone, and rows of lengths, by a hierarchy: least walks from one node to another.
//!
//! Uses `ch_query` for the least rise-fall walk of the hierarchy, `ch_unpack` for the nodes that its links represent, and
//! of `ch_laws` why both together are a least walk of the graph. Its main type is [`Router`]. The promise of the layer is
//! the contract of [`Router::route`]: for every graph that the hierarchy is right for, a least walk of that graph, of all
//! least walks one with the fewest arcs, or `None` exactly where there is no walk; and of [`Router::length`], the least
//! length over all walks. Why, is the law [`routes_are_least`]. [`Router::between`] and [`Router::length_between`] answer
//! for several starts and several ends, each with a cost of its own ([`Seed`]).
//!
//! Nodes are numbered from 0.
//!
//! A router is made once for a hierarchy, and then asked; here it is that of the arcs 1 to 0 and 0 to 2, of weights 2
//! and 3:
//!
//! ```rust
//! let mut router = Router::new(alloc, &hierarchy)?;
//! let route = router.route((1, 2))?;
//! assert!(rt; route.is_some_and(|route| route.nodes.as_slice() == [1, 0, 2].as_slice()));
//! assert!(rt; router.length((1, 2))? == Some(5));
//! ```
#![tactic(auto)]

mod laws;
mod route;
mod router;

pub use ch_query::{HierarchyRef, Seed};
pub use ch_table::{NO_LENGTH, Selection};
pub use ch_unpack::UnpackError;
pub use laws::routes_are_least;
pub use route::{Route, RouteBetween};
pub use router::{Router, RouterOf};
