//! Contraction of the nodes of a graph, one by one, into a hierarchy.
//!
//! Builds on `ch_overlay`, whose rows it changes, on the book of `ch_rowbook`, on the searches of `ch_witness`, and on the
//! laws of `ch_laws`. Its main types:
//!
//! - [`Proposal`], a contraction that was worked out by rows, and [`Ready`], the new rows that it leads to, which may be
//!   made before it is committed.
//! - [`Ledger`], a graph, the rows that its contractions so far lead to, and the log of these contractions.
//! - [`Board`], a ledger whose rows are in a book of `ch_rowbook`, whose readers propose without a lock. A board contracts
//!   a node by a proposal, [`Board::commit`], as long as the versions of the rows that the proposal rests on are current.
//!
//! Of the layers below: a node's row is what it has of its arcs ([`ch_overlay::Row`]), and gets a new version, a greater
//! number, whenever it changes. A source ([`ch_overlay::RowSource`]) answers rows with their versions, and has the bound of
//! the graph, which no least walk is longer than: a board is one, and so is each reader of its book. A book is opened from
//! a [`ch_rowbook::Blank`]. Its one pen lays a new row where no reader comes to it, and then shows it.
//!
//! To read on: `proposing` and `draft` work a proposal out, and `proposal` is what they make; `ready` makes its rows;
//! `accepting` compares versions; `board` commits, by the `ledger` that it has, whose log has a `contraction` for each
//! commit; `finish` and `parts` make the hierarchy. `site` is about types alone.
//!
//! The promise of the layer is the contract of [`Ledger::finish`]: the hierarchy that it returns is right for the graph, so
//! its values are the graph's distances. It rests on what every [`Ledger`] keeps, that its rows come from the graph's by
//! the lawful contractions of its log.
//!
//! In a function that is generic in the [`Site`], whose caller passes `Brand` for it, a reader's proposal is committed, a
//! sweep contracts the other nodes, and the board is made into a hierarchy:
//!
//! ```rust
//! let (mut board, mut reader) = Board::<S>::new(rt, alloc, blank, graph)?;
//! let proposal = propose(alloc, &mut reader, 0, 64)?;
//! assert!(rt; board.commit(rt, proposal) == Ok(Receipt { node: 0, rank: 0 }));
//! let others = board.sweep(rt, 64)?;
//! let hierarchy = board.into_hierarchy();
//! ```
#![tactic(auto)]

mod accepting;
mod board;
mod contraction;
mod draft;
mod error;
mod facts;
mod finish;
mod ledger;
mod parts;
mod proposal;
mod proposing;
mod ready;
mod scratch;
mod shown;
mod site;
mod verdict;

pub use accepting::{agreement_is_lawful, refusal};
pub use board::Board;
pub use contraction::{Contraction, Receipt};
pub use error::{CommitError, FinishError, ProposeError, SweepError};
pub use facts::Facts;
pub use finish::Finished;
pub use ledger::{Ledger, Planned, versions_from};
pub use proposal::Proposal;
pub use proposing::{propose, propose_with};
pub use ready::{Ready, make_ready};
pub use scratch::Scratch;
pub use site::Site;
pub use verdict::Verdict;
