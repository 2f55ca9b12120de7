//! The rows of a graph under contraction: what each node has of its arcs and shortcuts, and how a contraction changes
//! them.
//!
//! Builds on `ch_graph` for graphs and on `ch_laws` for what contraction is. Its main types:
//!
//! - [`Row`], what one node has. Rows are shared by `Arc` and never changed in place, so who has read a row keeps it.
//! - [`Overlay`], the rows of all nodes with a version number each, and [`Change`], the new rows of one contraction.
//! - [`RowSource`], which gives rows one by one.
//! - [`light_pair`], the pair of an arc into a node and one out of it, and what a search for ways around the node is given
//!   of several such pairs: [`find_ends`] and [`greatest_cost`].
//! - [`Record`], what a book of rows keeps of one, and [`Token`], which shows where.
//!
//! The promise of the layer is in the contracts of [`Overlay::start`], [`Overlay::plan`] and [`Overlay::apply`]: the rows
//! are those of the state that the contractions so far lead to. [`prepare`] makes the rows of a change before its overlay
//! is at hand, by rows that were read, and [`Overlay::plan_by`] ends it.
//!
//! A contraction is planned, and then put in, with a version for each row that it changes. Here node 0 of the arcs 1 to 0
//! and 0 to 2 goes, for a shortcut from 1 to 2, and versions 0 to 2 are those of the start:
//!
//! ```rust
//! let mut overlay = Overlay::start(alloc, &graph)?;
//! let change = overlay.plan(0, &[Shortcut { from: 1, to: 2, cost }])?;
//! overlay.apply(change, &[3, 4, 5]);
//! ```
#![tactic(auto)]

mod change;
mod least;
mod merge;
mod opening;
mod overlay;
mod pairs;
mod placed;
mod prepared;
mod record;
mod row;
mod source;

pub use ch_laws::{Entry, Middle, Shortcut};
pub use change::{Change, changes_write_their_rows};
pub use overlay::{Overlay, changes_are_sound};
pub use pairs::{find_ends, greatest_cost, light_pair};
pub use prepared::{Prepared, prepare};
pub use record::{Record, SoundRows, Token};
pub use row::{Row, entry_for};
pub use source::{RowSource, SeeError, Seen};
