//! The laws of contraction: why a hierarchy that lawful contractions lead to answers as its graph does.
//!
//! Builds on `ch_cost`, of which it uses the laws of costs alone, and on `ch_graph`. Its definitions say what a state, a
//! lawful contraction, a row and a made hierarchy are, and each law is the contract of a function with an empty body.
//!
//! A law is called where a body needs it, before what rests on it. It does nothing when it runs, and its clause holds from
//! there on:
//!
//! ```rust
//! reached_hierarchy_is_right();
//! reached_hierarchy_is_well_made();
//! let hierarchy = Hierarchy::new(ranks, links, graph.bound());
//! ```
#![tactic(auto)]

mod by_weight;
mod contraction;
mod entry;
mod right;
mod routes;
mod rows;
mod shortcut;

pub use by_weight::{
    right_is_right_by_weight, route_by_weight_is_never_too_long, route_is_a_shortest_walk,
};
pub use ch_graph::Middle;
pub use contraction::{
    alive_nodes_can_be_contracted, each_graph_has_a_run, plan_is_lawful, reached_goes_on,
    verdicts_are_lawful,
};
pub use entry::Entry;
pub use right::{reached_hierarchy_is_right, reached_hierarchy_is_well_made};
pub use routes::{bounds_fit, least_route_is_a_least_walk, least_route_is_never_too_long};
pub use rows::{
    rows_are_the_state, rows_of_alive_nodes_show_what_remains, rows_of_least_arcs_are_the_start,
    updated_rows_are_the_next,
};
pub use shortcut::Shortcut;
