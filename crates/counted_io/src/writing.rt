ghost use Rattle.std.specs.Prelude.{◌≡◌, ◌+◌, ◌*◌, ◌<◌, ◌≤◌, ℕ, [], Some, Result, take, length, min, OnOk, IfErr, MatchOption};
ghost use Rattle.std.specs.Io.KnownBytes.{Appends, Keeps};
ghost use Rattle.std.specs.declared.io.Error.{Error as IoError};
ghost use Rattle.counted_io.specs.Calls.{IsCalled, IsFailedWrite, StopsBy, TakesBy, Takings};
ghost use Rattle.counted_io.specs.Handing.{HandsOn, HandsOnPart};
ghost use Rattle.counted_io.specs.Names.{fault_text};
ghost use Rattle.counted_io.specs.declared.TheConstants.{MOST_CALLS, PIECE};

use crate::{MOST_CALLS, PIECE, is_interrupted};
use std::error::Error;
use std::fmt;
use std::io::{self, Write};

/// A writer whose calls can be described one by one. Every writer is one.
pub trait StepWrite: Write {
    ghost use Rattle.std.specs.Prelude.{ℕ, ◌<◌, length, Result};
    ghost use Rattle.std.specs.Io.{WritesAtMost};
    ghost use Rattle.std.specs.Io.KnownBytes.{WriteAppends};
    ghost use Rattle.std.specs.declared.io.Error.{Error};

    /// How one call that offers some bytes leads from what the writer was to what it is, by the call's result. What it is
    /// for a writer is open, so only such a call yields a step. A call that offers none has no step.
    ghost step: { Self → Self → Result ℕ Error → Type 0 };

    /// One call of the writer.
    fn write_once(&mut self, bytes: &[u8]) -> io::Result<usize>
        ensures within { WritesAtMost result bytes.now }
        ensures bytes { WriteAppends (Self.contents self.old) (Self.contents self.new) result bytes.now }
        ensures step { 0 < length bytes.now → step self.old self.new result };
}

impl<W: Write> StepWrite for W {
    ghost use Rattle.std.specs.Prelude.{⊤};

    ghost step = { λ _ _ _. ⊤ };

    fn write_once(&mut self, bytes: &[u8]) -> io::Result<usize> {
        self.write(bytes)
    }
}

/// The calls that a writer may still get, and what it has taken so far.
#[derive(Drop)]
pub struct WriteCalls {
    /// How many calls they are.
    pub left: u64,
    /// How many bytes the writer has taken.
    pub written: u64,
    ghost bounded: { written + left * PIECE ≤ MOST_CALLS * PIECE },
}

impl WriteCalls {
    /// Returns this many calls, but no more than 2^40. Nothing is written yet.
    pub fn new(calls: u64) -> WriteCalls
        ensures left { result.left ≡ min calls MOST_CALLS }
        ensures written { result.written ≡ 0 }
    {
        WriteCalls {
            left: calls.min(MOST_CALLS),
            written: 0,
        }
    }

    /// Writes the bytes, 64 KiB at most in a call.
    ///
    /// Each call offers one byte or more. The writer is called again where it took a part or was interrupted. The write is
    /// refused where the writer fails or takes none of the bytes that it was offered, or where no more calls may be made.
    /// Takes no memory.
    pub fn write<W: StepWrite>(&mut self, writer: &mut W, bytes: &[u8]) -> Result<(), WriteFault>
        ensures ok { OnOk result (HandsOn (W.contents writer.old) (W.contents writer.new) bytes.now [] self.old.written self.new.written) }
        ensures err { IfErr result (λ fault. HandsOnPart (W.contents writer.old) (W.contents writer.new) bytes.now self.old.written fault.written) }
        ensures told { IfErr result (λ fault. fault.written ≡ self.new.written) }
        ensures counted { self.new.written + self.new.left * PIECE ≤ self.old.written + self.old.left * PIECE }

        // Which calls were made.
        ensures calls { IsCalled W.step self.old.left self.new.left writer.old writer.new }
        ensures taken { OnOk result ((calls : ℕ) × (self.old.left ≡ self.new.left + calls) × Takings W.step calls (length bytes.now) writer.old writer.new) }
        ensures stopped { IfErr result (λ fault. (calls : ℕ) × (taken : ℕ) × (self.old.left ≡ self.new.left + calls) × (fault.written ≡ self.old.written + taken)
            × StopsBy W.step calls self.new.left taken writer.old writer.new) }
    {
        let mut left = self.left;
        let taken = write_bytes(bytes, writer, &mut left);
        let written = self.written + taken as u64;
        *self = WriteCalls { left, written };
        if taken < bytes.len() {
            return Err(WriteFault { written });
        }
        Ok(())
    }
}

// Writes the bytes, and returns how many of them the writer took: all, or fewer where it failed.
fn write_bytes<W: StepWrite>(bytes: &[u8], writer: &mut W, left: &mut u64) -> usize
    ensures within { result ≤ length bytes.now }
    ensures given { Appends (W.contents writer.old) (W.contents writer.new) (take result bytes.now) }
    ensures counted { result + left.new * PIECE ≤ left.old * PIECE }
    ensures all { result ≡ length bytes.now → (calls : ℕ) × (left.old ≡ left.new + calls) × Takings W.step calls result writer.old writer.new }
    ensures part { result < length bytes.now → (calls : ℕ) × (left.old ≡ left.new + calls) × StopsBy W.step calls left.new result writer.old writer.new }
{
    let mut taken = 0;
    while taken < bytes.len() && *left > 0 {
        *left -= 1;
        let Some(more) = write_piece(&bytes[taken..], writer) else {
            break;
        };
        taken += more;
    }
    taken
}

// One call of the writer, with some bytes: how many bytes it took, 0 where it was interrupted, or none where it failed.
fn write_piece<W: StepWrite>(bytes: &[u8], writer: &mut W) -> Option<usize>
    requires { 0 < length bytes.now }
    ensures bytes { MatchOption result (Keeps (W.contents writer.old) (W.contents writer.new))
        (λ n. (n ≤ length bytes.now) × (n ≤ PIECE) × Appends (W.contents writer.old) (W.contents writer.new) (take n bytes.now)) }
    ensures step { MatchOption result ((answer : Result ℕ IoError) × IsFailedWrite answer × W.step writer.old writer.new answer) (λ n. TakesBy W.step n writer.old writer.new) }
{
    let piece = &bytes[..bytes.len().min(PIECE)];
    match writer.write_once(piece) {
        Ok(0) => None,
        Ok(n) => Some(n),
        Err(error) if is_interrupted(&error) => Some(0),
        Err(_) => None,
    }
}

/// The writer failed, or no more calls of it may be made.
#[derive(Clone, Copy, Debug, PartialEq, Eq)]
pub struct WriteFault {
    /// How many bytes it had taken.
    pub written: u64,
}

impl fmt::Display for WriteFault {
    ghost output = { λ fault. Some (fault_text fault) };

    fn fmt<W: fmt::Write>(&self, f: &mut fmt::Formatter<W>) -> fmt::Result {
        let written = self.written;
        write!(f, "the writer failed after {written} bytes")
    }
}

impl Error for WriteFault {}
