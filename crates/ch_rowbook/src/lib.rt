//! Rows that are read without a lock, while one pen writes them.
//!
//! Builds on `ch_overlay` for rows, on `boxcar` for the list of records, which only grows, and on `atomic_table` for
//! one word for each node, the place of its current record.
//!
//! - A [`Blank`] is a book that no type names yet; [`open`] returns its one [`Pen`] and a first [`Reader`], both of a type
//!   that names the book ([`Book`]).
//! - The pen lays records ([`Laid`]), which nobody sees, and shows them by one store each.
//! - A reader's answer is one load of its node's word; readers split and join, and each carries a front, the versions that
//!   its next answers aren't below.
//!
//! The promise of the layer is in the contracts of [`Reader::read`], whose answer is the book's record at its version, of
//! [`Reader::same_record`], by which a version names one node and one row for good, and of [`Pen::agrees`], by which an
//! answer whose version is current has the current row.
//!
//! In a function that is generic in the [`Book`], whose caller passes `Brand` for it, the pen writes and readers read:
//!
//! ```rust
//! let (mut pen, mut reader) = open::<B, R>(rt, alloc, blank, rows)?;
//! let version = pen.write(rt, 1, row)?;
//! pen.synchronise(&mut reader);
//! assert!(rt; reader.read(1)?.version == version);
//! ```
#![tactic(auto)]

mod blank;
mod book;
mod error;
mod laid;
mod many;
mod marking;
mod opening;
mod pen;
mod reader;
mod shelf;
mod words;

pub use blank::Blank;
pub use book::Book;
pub use error::BookError;
pub use laid::Laid;
pub use opening::open;
pub use pen::Pen;
pub use reader::Reader;
pub use words::{KnownWords, Versions};
