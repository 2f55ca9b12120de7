//! Reading and writing by a counted number of calls.
//!
//! A reader or a writer may give or take few bytes in a call, and may be interrupted time and again. So whoever reads or
//! writes in a loop counts the calls, and ends where no more may be made. Uses std alone. [`ReadCalls`] has the one loop
//! over readers, [`WriteCalls`] the one over writers, and [`FlushCalls`] the one that flushes them. An interrupted call is
//! made again, and counts; a write that takes no byte is a failure. [`read_whole`] takes all that a reader gives, and a
//! [`Sink`] gathers small parts for a writer and keeps its failure. The promise is in the contracts of [`ReadCalls::read`],
//! [`WriteCalls::write`] and [`FlushCalls::flush`]: which bytes the reader gave or the writer took, to the byte, also at a
//! failure; and which calls were made of it and what they returned, by its steps ([`StepRead`], [`StepWrite`],
//! [`StepFlush`]). Those of [`Sink::put`] and [`Sink::finish`] carry it on to a text that is put in parts (`finishes` in
//! `specs/Sinks/Laws.antt`).
//!
//! A reader is read by at most a hundred calls, into a buffer, until the result is 0:
//!
//! ```rust
//! let mut calls = ReadCalls::new(100);
//! let mut buffer = [0u8; 64];
//! let count = calls.read(&mut reader, &mut buffer)?;
//! ```
//!
//! A text is written in parts, and whether that failed is asked once:
//!
//! ```rust
//! let mut sink = Sink::new(MOST_CALLS);
//! sink.put(&mut writer, b"nodes ");
//! sink.put(&mut writer, b"7\n");
//! sink.finish(&mut writer)?;
//! ```
#![tactic(auto)]

ghost use Rattle.std.specs.Prelude.{◌≡◌, ◌↔◌, IsTrue};
ghost use Rattle.std.specs.IoError.{error_kind};
ghost use Rattle.std.specs.declared.io.ErrorKind.TheVariants.{Interrupted};

use std::io::{Error, ErrorKind};

mod flushing;
mod reading;
mod sink;
mod whole;
mod writing;

pub use flushing::{FlushCalls, FlushFault, StepFlush};
pub use reading::{ReadCalls, ReadFault, StepRead};
pub use sink::Sink;
pub use whole::{WholeFault, read_whole};
pub use writing::{StepWrite, WriteCalls, WriteFault};

/// How often a reader or a writer is called at most, and how often a writer is flushed.
pub const MOST_CALLS: u64 = 1 << 40;

/// How many bytes a writer gets at most in a call.
const PIECE: usize = 1 << 16;

/// How many bytes a sink gathers at most before its writer gets them.
const BUFFER: usize = 1 << 13;

// Whether the call was interrupted, and did nothing.
fn is_interrupted(error: &Error) -> bool
    ensures { IsTrue result ↔ (error_kind error.now ≡ Interrupted) }
{
    error.kind() == ErrorKind::Interrupted
}
