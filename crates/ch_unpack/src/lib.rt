//! Routes as nodes: the arcs that the links of a route represent.
//!
//! Builds on `ch_graph`, of which it uses that hierarchies are well made, that each link unfolds to one list of links
//! ([`ch_graph::links_unfold`]), and that [`ch_graph::Hierarchy::parts`] says where the halves of a link are, and of an
//! arc where it leads. The promise of the layer is the contract of [`unpack`]: the source and the heads of the unfolded
//! links, in order, or a refusal where there are more of them than a route without a repeated node has.
//!
//! The links are those that a search of the hierarchy found from node 1 to node 2, here over 0:
//!
//! ```rust
//! let nodes = unpack(alloc, &hierarchy, 1, &found.links)?;
//! assert!(rt; nodes.as_slice() == [1, 0, 2].as_slice());
//! ```
#![tactic(auto)]

mod error;
mod unpacking;

pub use error::UnpackError;
pub use unpacking::unpack;
