//! Sums along shortest paths: of metres, money or any numbers of the arcs, beside the length.
//!
//! Builds on `ch_query` for the least rise-fall walk of a hierarchy, on `ch_graph`, of which it uses that each link unfolds
//! to one list of links ([`ch_graph::links_unfold`]), and on `best_routes` for the words of paths. Its main type is
//! [`Numbers`]: a number for each link, where those of the links without a middle are given and that of any other is the
//! sum of its halves'. The promise of the layer is the contract of [`sum_along`]: in each graph that the hierarchy is right
//! for, be it by weight alone, some path of the least length has numbers that sum to what is returned, arc by arc, or there
//! is no path. Why, is the law [`sums_are_along`].
//!
//! A number belongs to an ordered pair of nodes, since a link without a middle does: of parallel arcs it is that of the
//! lightest, and a loop has no link. Lengths rest on no number.
//!
//! Nodes are numbered from 0.
//!
//! ```rust
//! let numbers = Numbers::new(alloc, &hierarchy, &[700, 800])?;
//! let found = sum_along(&mut search, &numbers, (1, 2))?;
//! assert!(rt; found.is_some_and(|found| found.sum == 1500));
//! ```
#![tactic(auto)]

mod along;
mod error;
mod laws;
mod numbers;
mod order;

pub use along::{Summed, sum_along};
pub use error::NumbersError;
pub use laws::{summed_ways_are_along, sums_are_along};
pub use numbers::Numbers;
