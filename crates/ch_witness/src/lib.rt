//! Searches for witnesses: ways that avoid a node, along the rows that a source answers.
//!
//! Builds on `ch_overlay`, of which it uses what a [`ch_overlay::RowSource`] promises, on `ch_laws` for the words of
//! rows and ways, and on `smallvec` for the nodes of a way.
//!
//! - [`search`] makes one search and returns a [`Found`]: the ways, and the source's own answers that they rest on.
//! - A [`Searcher`] makes several searches that rest on the same answers, in memory that is used again. It reads through
//!   its [`Rows`], which ask the source for each row once and keep the answer; its steps say which rows they used, and
//!   [`Rows::take_listed`] returns the answers at the end.
//!
//! The contracts of both carry the promise of the layer: each way follows rows that the source showed and that are
//! returned with it, avoids the node, and costs what its arcs do.
//!
//! A search is given where it starts, which node it avoids, what a way may cost, where the ways are to lead, and how many
//! nodes it settles at most. In rows with two ways from 2 to 3, over 0 and over 1, it finds the one over 1 where it avoids
//! 0:
//!
//! ```rust
//! let found = search(alloc, &mut rows, 2, 0, cutoff, &[3], 64)?;
//! let way = found.ways[0].as_ref();
//! assert!(rt; way.is_some_and(|way| way.nodes.as_slice() == [2, 1, 3].as_slice()));
//! ```
#![tactic(auto)]

mod aim;
mod error;
mod follow;
mod frontier;
mod label;
mod memory;
mod node_index;
mod parent;
mod rows;
mod rule;
mod searcher;
mod searching;
mod step;
mod trace;
mod tree;
mod way;

pub use aim::Aim;
pub use error::SearchError;
pub use parent::Parent;
pub use rows::Rows;
pub use rule::Rule;
pub use searcher::{Searcher, Traced};
pub use searching::search;
pub use step::TreeNode;
pub use way::{Found, Way};
