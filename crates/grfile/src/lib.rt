//! The texts of road graphs and of pairs of nodes, as the Ninth DIMACS Implementation Challenge has them.
//!
//! Builds on `ch_graph`, whose graphs it makes, on `counted_io`, which calls the reader, and on `text_lines`, which cuts
//! the lines. Its main types are [`GrReader`] and [`QueryReader`], which take a text in pieces, and [`GrError`], the
//! first fault of a text.
//! The promise of the layer is the contract of [`read_graph`] and [`read_queries`]: whatever a text says, its
//! graph, its pairs or its first fault and the line of that, is what the call returns. Of a text no more is kept than
//! what its lines have spelled, and the bytes of the line that hasn't ended.
//!
//! The texts number nodes from 1, and what is read of them from 0:
//!
//! ```rust
//! let mut text = b"p sp 3 2\na 2 1 2\na 1 3 3\n".as_slice();
//! let graph = read_graph(alloc, &mut text)?;
//! let mut text = b"p aux sp p2p 1\nq 2 3\n".as_slice();
//! let pairs = read_queries(alloc, &mut text, graph.nodes())?;
//! assert!(rt; pairs.as_slice() == [(1, 2)].as_slice());
//! ```
#![tactic(auto)]

mod error;
mod form;
mod graph_reader;
mod kind;
mod laws;
mod listing;
mod number;
mod pairs;
mod pieces;
mod query_reader;
mod roads;

pub use error::{GrError, GrErrorKind};
pub use graph_reader::{GrReader, read_graph, read_graph_within};
pub use laws::{
    graphs_are_spelled_exactly, pairs_are_spelled_exactly, spelled_graphs_are_in_range,
    spelled_pairs_are_in_range,
};
pub use number::number_in;
pub use pairs::pair_of;
pub use query_reader::{QueryReader, read_queries, read_queries_within};
