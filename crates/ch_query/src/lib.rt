//! Queries of a contraction hierarchy: least rise-fall walks.
//!
//! Builds on `ch_graph`, of which it uses that a hierarchy is well made, and on the laws of costs of `ch_cost`. Its main
//! type is [`Search`]. The promise of the layer is the contract of [`Search::distance`]: the cost is the value of the
//! hierarchy for the two nodes, which is the least of a rise-fall walk, none exactly where there is none, and the links are
//! such a walk of that cost. It is the case of one start and one end of [`Search::between`], which takes several, each with
//! a cost of its own.
//!
//! A query has two sides, one from the starts along links that rise, and one from the ends against links that fall. Both
//! climb in rank: the foot of a link that a side climbs is its end of lower rank, and the head the other one.
//!
//! - [`half::Half`] is a side's search: where it begins, the links that it climbs, and how long a sum may be. It is a
//!   search by marks, as the plain one of `ch_graph` is; why two of them give the value is the law [`labels_are_right`].
//! - [`layout::Layout`] has the links that the sides climb, of each side by the rank of their feet
//!   ([`upward::UpwardSteps`]). It never changes, so several searches may share it.
//! - [`frontier::Frontier`] is what a half knows of the nodes, and settles the first open one, by length and rank. A search
//!   keeps one for each side from call to call, so that a call costs what it touches.
//! - [`query::Query`] has two halves. Its `run` lets them take turns (`Half::turn`: a node is settled, a meeting with the
//!   other half looked for, and the node's links followed), until neither has an open node that is no longer than the best
//!   meeting. `Half::way_back` then finds the links of the walk.
//! - [`Search::climb`] and [`Search::falls_to`] are the parts of a query that rows of lengths to many nodes are made of.
//!   Why they are enough is the law [`ways_are_walks`].
//!
//! A search is made once for a hierarchy, and then asked; here it is that of the arcs 1 to 0 and 0 to 2, of weights 2 and
//! 3:
//!
//! ```rust
//! let mut search = Search::new(alloc, &hierarchy)?;
//! let found = search.distance(1, 2)?;
//! assert!(rt; found.is_some_and(|found| found.cost == Cost::of_walk(5, 2)));
//! ```
#![tactic(auto)]

mod climb;
mod descent;
mod fall;
mod frontier;
mod half;
mod hierarchy_ref;
mod label;
mod laws;
mod layout;
mod limit;
mod link_numbers;
mod mark_list;
mod meeting;
mod place;
mod query;
mod search;
mod seed;
mod side;
mod sum_climbs;
mod turn;
mod upward;

pub use climb::Climbed;
pub use fall::Fall;
pub use hierarchy_ref::HierarchyRef;
pub use laws::{labels_are_right, ways_are_walks};
pub use search::{Found, FoundBetween, Search, SearchOf};
pub use seed::Seed;
