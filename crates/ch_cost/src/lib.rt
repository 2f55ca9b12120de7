//! Costs of walks in a road graph: sums, and their order.
//!
//! The lowest layer, which uses std alone. Its main type is [`Cost`]; a [`NarrowCost`] keeps one of few arcs in three
//! quarters of its memory, and a [`ShortCost`] keeps one in half of it, where it fits. What the layers above may know of a
//! cost are the laws that [`cost_laws`] ensures, and the clauses of the methods; none of them looks inside.
//!
//! The cost of a walk is the sum of those of its arcs; of two of one length the one of fewer arcs is less:
//!
//! ```rust
//! let walk = Cost::of_weight(3).plus(Cost::of_weight(4));
//! assert!(rt; walk == Cost::of_walk(7, 2));
//! assert!(rt; Cost::of_weight(7).is_below(walk));
//! ```
#![tactic(auto)]

mod cost;
mod laws;
mod narrow_cost;
mod short_cost;

pub use cost::Cost;
pub use laws::cost_laws;
pub use narrow_cost::NarrowCost;
pub use short_cost::ShortCost;
