ghost use Rattle.std.specs.Prelude.{◌≡◌, ◌+◌, ℕ, Some, Ok, OnOk, OnErr, codes};
ghost use Rattle.std.specs.Io.KnownBytes.{Keeps};
ghost use Rattle.counted_io.specs.Calls.{EndsBy, FailsBy, IsCalled};
ghost use Rattle.counted_io.specs.declared.TheConstants.{MOST_CALLS};

use crate::writing::StepWrite;
use crate::{MOST_CALLS, is_interrupted};
use std::error::Error;
use std::fmt;
use std::io::{self, Write};

/// A writer whose flushes are steps of their own, as its writes are. Every writer is one.
pub trait StepFlush: StepWrite {
    ghost use Rattle.std.specs.Prelude.{⊤, Result};
    ghost use Rattle.std.specs.Io.KnownBytes.{Keeps};
    ghost use Rattle.std.specs.declared.io.Error.{Error};

    /// How one flush leads from what the writer was to what it is, by the call's result. What it is for a writer is open,
    /// so only a flush yields a step.
    ghost flush_step: { Self → Self → Result ⊤ Error → Type 0 };

    /// One flush of the writer.
    fn flush_once(&mut self) -> io::Result<()>
        ensures bytes { Keeps (Self.contents self.old) (Self.contents self.new) }
        ensures step { flush_step self.old self.new result };
}

impl<W: Write> StepFlush for W {
    ghost use Rattle.std.specs.Prelude.{⊤};

    ghost flush_step = { λ _ _ _. ⊤ };

    fn flush_once(&mut self) -> io::Result<()> {
        self.flush()
    }
}

/// The flushes that a writer may still get.
#[derive(Drop)]
pub struct FlushCalls {
    /// How many they are.
    pub left: u64,
}

impl FlushCalls {
    /// 2^40 flushes.
    pub fn new() -> FlushCalls
        ensures { result.left ≡ MOST_CALLS }
    {
        FlushCalls { left: MOST_CALLS }
    }

    /// Flushes the writer. An interrupted call is made again, and counts. It is refused where the writer fails, or where no
    /// more flushes may be made. Takes no memory.
    pub fn flush<W: StepFlush>(&mut self, writer: &mut W) -> Result<(), FlushFault>
        ensures bytes { Keeps (W.contents writer.old) (W.contents writer.new) }

        // Which calls were made.
        ensures calls { IsCalled W.flush_step self.old.left self.new.left writer.old writer.new }
        ensures flushed { OnOk result ((calls : ℕ) × (self.old.left ≡ self.new.left + calls) × EndsBy W.flush_step calls writer.old writer.new (Ok tt)) }
        ensures failed { OnErr result ((calls : ℕ) × (self.old.left ≡ self.new.left + calls) × FailsBy W.flush_step calls self.new.left writer.old writer.new) }
    {
        'calls: while self.left > 0 {
            self.left -= 1;
            match writer.flush_once() {
                Ok(()) => return Ok(()),
                Err(error) if is_interrupted(&error) => {}
                Err(_) => break,
            }
        }
        Err(FlushFault)
    }
}

/// The writer couldn't be flushed, or no more flushes may be made.
#[derive(Clone, Copy, Debug, PartialEq, Eq)]
pub struct FlushFault;

impl fmt::Display for FlushFault {
    ghost output = { λ _. Some (codes "the writer couldn't be flushed") };

    fn fmt<W: fmt::Write>(&self, f: &mut fmt::Formatter<W>) -> fmt::Result {
        f.write_str("the writer couldn't be flushed")
    }
}

impl Error for FlushFault {}
