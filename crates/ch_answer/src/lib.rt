//! How routes are written as lines.
//!
//! Uses `ch_route` for routes, `counted_io` for the sink that takes the lines, and `itoa` for decimals. What it is for is
//! that a file of pairs and a service have the same words for a route: [`put_line`] puts the line of a pair and its route
//! into a sink. `specs/Line.antt` says what a line is, and `specs/File.antt` which bytes are the file of a hierarchy that
//! was prepared from a graph's text. The law [`fewest_walks_are_best_paths`] joins lines and routes with the plain words of
//! `best_routes`.
//!
//! Nodes are numbered from 0 inside, and from 1 in every text:
//!
//! ```rust
//! let mut lines = Vec::new(alloc);
//! let mut sink = Sink::new(MOST_CALLS);
//! put_line((1, 2), &None, &mut sink, &mut lines);
//! sink.finish(&mut lines)?;
//! assert!(rt; lines.as_slice() == b"n 2 3\n".as_slice());
//! ```
#![tactic(auto)]

mod laws;
mod line;

pub use laws::fewest_walks_are_best_paths;
pub use line::{put_along, put_line, put_nodes, put_number};
