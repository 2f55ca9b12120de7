//! Road graphs, and the plain least length.
//!
//! Builds on `ch_cost`, of which it uses the laws of costs alone. Its main type is [`Graph`], a list of arcs
//! between numbered nodes. The promise of the layer is the contract of [`Graph::least`]: the least cost over all
//! walks from one node to another, or `None` where there is no walk. It is the plain program that every faster
//! answer of the workspace is compared with. [`Graph::is_walk`] separates a route of a given cost from any other list
//! of nodes. A [`Hierarchy`] holds what faster answers come from: [`Hierarchy::checked`] makes one of any ranks and links,
//! or reports why they make none; [`Hierarchy::find`] gives the link of a pair, by a [`LinkIndex`] where it has one, and
//! [`Hierarchy::parts`] the places of a link's halves, by [`LinkHalves`] where they are kept.
//!
//! A graph is made of its arcs, and then asked:
//!
//! ```rust
//! let arcs = vec![in alloc; Road { from: 1, to: 0, weight: 2 }, Road { from: 0, to: 2, weight: 3 }]?;
//! let graph = Graph::checked(3, arcs)?;
//! assert!(rt; graph.least(1, 2)? == Some(Cost::of_walk(5, 2)));
//! ```
#![tactic(auto)]

mod checking;
mod error;
mod frontier;
mod graph;
mod hierarchy;
mod laws;
mod link;
mod link_halves;
mod link_index;
mod mark;
mod middle;
mod outgoing;
mod road;
mod search;
mod step;
mod version;

pub use error::{GraphError, HierarchyError};
pub use graph::Graph;
pub use hierarchy::{Hierarchy, LinkId};
pub use laws::{
    distance_is_within_bound, links_unfold, places_name_links, rise_fall_joins, settled_is_least,
    value_is_unique,
};
pub use link::Link;
pub use link_halves::{LinkHalves, Parts};
pub use link_index::LinkIndex;
pub use mark::Mark;
pub use middle::Middle;
pub use road::Road;
pub use version::Version;
