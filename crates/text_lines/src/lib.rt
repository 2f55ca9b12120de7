//! The lines of a text, the fields of a line, and the numbers in them.
//!
//! Uses `bstr`, which finds the bytes that it cuts at. [`first_line`] and [`without_return`] cut the lines, [`fields_of`]
//! the fields of one, and [`number()`] reads a field. [`after_letter`] and [`number_before`] read a plain line from its
//! front: a letter and numbers, with one space before each. What a text of them is about, other crates say.
//!
//! A text that comes in pieces is cut as one that comes whole: what has come of a line that hasn't ended is put before the
//! first line of the next piece. That is in the contract of [`first_line`].
//!
//! ```rust
//! let cut = first_line(b"q 12  7\r\nq 1").unwrap();
//! let mut fields = fields_of(without_return(cut.line));
//! let letter = fields.next_field();
//! let (source, target) = fields.two().unwrap();
//! assert!(rt; number(source) == Some(12));
//! ```
#![tactic(auto)]

mod fields;
mod line;
mod numbers;
mod plain;

pub use fields::{Fields, fields_of};
pub use line::{Cut, first_line, without_return};
pub use numbers::number;
pub use plain::{Front, after_letter, number_before};
