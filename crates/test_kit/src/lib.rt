//! What the tests of several crates need: rows that are looked at before they are relied on, readers that give a byte at a
//! call, and estimators that count their drops.
//!
//! For crates of tests alone: no other crate uses it, and the program has nothing of it.
#![tactic(auto)]

mod drops;
mod rows;
mod uneven;

pub use drops::{Drops, Numbered};
pub use rows::{Entries, Given, are, are_sound, bound, entry, is_sound, row};
pub use uneven::Uneven;
