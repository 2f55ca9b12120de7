//! A hierarchy turned round: what answers *from* a node, answers *to* it.
//!
//! Builds on `ch_graph`, and on `ch_laws` for what "right" means. [`turn`] exchanges the ends of each link of a hierarchy,
//! and keeps all else. The promise of the layer is the law [`turned_is_right`]: a hierarchy that is right for a graph is,
//! turned, right for the graph with each arc turned. So lengths from a node by the turned hierarchy are lengths to it in
//! the graph itself ([`walks_turn`]).
//!
//! ```rust
//! let turned = turn(alloc, &hierarchy)?;
//! assert!(rt; turned.links().len() == hierarchy.links().len());
//! ```
#![tactic(auto)]

mod laws;
mod turning;

pub use laws::{turned_is_right, walks_turn};
pub use turning::turn;
