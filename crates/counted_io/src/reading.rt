ghost use Rattle.std.specs.Prelude.{◌≡◌, ◌+◌, ◌≤◌, ◌<◌, ℕ, Some, Ok, length, min, IfOk, OnOk, OnErr, codes};
ghost use Rattle.std.specs.Io.KnownBytes.{ReadConsumes};
ghost use Rattle.counted_io.specs.Calls.{EndsBy, FailsBy, IsCalled};
ghost use Rattle.counted_io.specs.declared.TheConstants.{MOST_CALLS};

use crate::{MOST_CALLS, is_interrupted};
use std::error::Error;
use std::fmt;
use std::io::{self, Read};

/// A reader whose calls can be described one by one. Every reader is one.
pub trait StepRead: Read {
    ghost use Rattle.std.specs.Prelude.{ℕ, Result};
    ghost use Rattle.std.specs.Io.{ReadsAtMost};
    ghost use Rattle.std.specs.Io.KnownBytes.{ReadConsumes};
    ghost use Rattle.std.specs.declared.io.Error.{Error};

    /// How one call leads from what the reader was to what it is, by the call's result. What it is for a reader is open,
    /// so only a call yields a step.
    ghost step: { Self → Self → Result ℕ Error → Type 0 };

    /// One call of the reader.
    fn read_once(&mut self, buffer: &mut [u8]) -> io::Result<usize>
        ensures within { ReadsAtMost result buffer.new }
        ensures bytes { ReadConsumes (Self.remaining self.old) (Self.remaining self.new) result buffer.new }
        ensures step { step self.old self.new result };
}

impl<R: Read> StepRead for R {
    ghost use Rattle.std.specs.Prelude.{⊤};

    ghost step = { λ _ _ _. ⊤ };

    fn read_once(&mut self, buffer: &mut [u8]) -> io::Result<usize> {
        self.read(buffer)
    }
}

/// The calls that a reader may still get.
#[derive(Drop)]
pub struct ReadCalls {
    /// How many they are.
    pub left: u64,
}

impl ReadCalls {
    /// Returns this many calls, but no more than 2^40.
    pub fn new(calls: u64) -> ReadCalls
        ensures { result.left ≡ min calls MOST_CALLS }
    {
        ReadCalls {
            left: calls.min(MOST_CALLS),
        }
    }

    /// Reads the next bytes into the buffer, and returns how many they are: 0 only at the end, or where the buffer has
    /// no room.
    ///
    /// An interrupted call is made again. It is refused where the reader fails, or where no more calls may be made; no
    /// byte is lost by that. Takes no memory.
    pub fn read<R: StepRead>(
        &mut self,
        reader: &mut R,
        buffer: &mut [u8],
    ) -> Result<usize, ReadFault>
        ensures within { IfOk result (λ n. n ≤ length buffer.new) }
        ensures bytes { ReadConsumes (R.remaining reader.old) (R.remaining reader.new) result buffer.new }
        ensures counted { OnOk result (self.new.left < self.old.left) }

        // Which calls were made.
        ensures calls { IsCalled R.step self.old.left self.new.left reader.old reader.new }
        ensures given { IfOk result (λ n. (calls : ℕ) × (self.old.left ≡ self.new.left + calls) × EndsBy R.step calls reader.old reader.new (Ok n)) }
        ensures failed { OnErr result ((calls : ℕ) × (self.old.left ≡ self.new.left + calls) × FailsBy R.step calls self.new.left reader.old reader.new) }
    {
        while self.left > 0 {
            self.left -= 1;
            match reader.read_once(buffer) {
                Ok(count) => return Ok(count),
                Err(error) if is_interrupted(&error) => {}
                Err(_) => break,
            }
        }
        Err(ReadFault)
    }
}

/// The reader failed, or no more calls of it may be made.
#[derive(Clone, Copy, Debug, PartialEq, Eq)]
pub struct ReadFault;

impl fmt::Display for ReadFault {
    ghost output = { λ _. Some (codes "the reader failed") };

    fn fmt<W: fmt::Write>(&self, f: &mut fmt::Formatter<W>) -> fmt::Result {
        f.write_str("the reader failed")
    }
}

impl Error for ReadFault {}
