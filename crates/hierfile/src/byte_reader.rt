ghost use Rattle.std.specs.Prelude.{◌≡◌, ◌+◌, ◌++◌, ◌^◌, ◌<◌, ◌≤◌, [], ◌∷◌, length, min, take, IfOk, OnErr, OnOk, MatchBool, MatchOption};
ghost use Rattle.std.specs.Io.KnownBytes.{Consumes, Keeps, IsAtEnd};
ghost use Rattle.counted_io.specs.Limits.{GivesOut, IsRead};
ghost use Rattle.counted_io.specs.declared.TheConstants.{MOST_CALLS};
ghost use Rattle.hierfile.specs.Spelling.{word, long};
ghost use Rattle.hierfile.specs.Fault.{cut};
ghost use Rattle.hierfile.specs.Bytes.{coming, IsCut};
ghost use Rattle.hierfile.specs.Reading.{FailsBefore, Reads, ReadsValue, Refuses};

use crate::error::HierError;
use counted_io::{ReadCalls, ReadFault, StepRead};
use std::alloc::{AllocError, Global};
use std::marker::Model;

/// How many bytes the buffer holds.
const SIZE: usize = 1 << 16;

/// The bytes of a reader, taken number by number through a buffer. It is seen as the bytes that wait in
/// the buffer, and the number of calls that are left.
#[derive(Drop)]
pub struct ByteReader {
    buffer: Vec<u8>,
    // The waiting bytes start here,
    at: usize,
    // and end before this place.
    end: usize,
    // How often the reader may still be called.
    calls: ReadCalls,
}

impl Model for ByteReader {
    ghost use Rattle.std.specs.Prelude.{◌≤◌, ◌≡◌, length, take, drop};
    ghost use Rattle.hierfile.specs.Bytes as bytes;

    ghost Value = { bytes.Buffered };

    ghost view = { λ i. record { waiting = drop i.at (take i.end i.buffer.items); left = i.calls.left } };

    ghost invariant = { λ i. (i.at ≤ i.end) × (i.end ≤ length i.buffer.items) × (length i.buffer.items ≡ 65536) };
}

impl ByteReader {
    /// Nothing waits. The reader is called at most `calls` times, and at most 2^40.
    pub fn new(alloc: Global, calls: u64) -> Result<ByteReader, AllocError>
        ensures { IfOk result (λ input. input ≡ record { waiting = []; left = min calls MOST_CALLS }) }
    {
        Ok(ByteReader {
            buffer: vec![in alloc; 0; SIZE]?,
            at: 0,
            end: 0,
            calls: ReadCalls::new(calls),
        })
    }

    /// Returns the next byte, or `None` at the end of the reader's bytes.
    pub fn byte<R: StepRead>(&mut self, reader: &mut R) -> Result<Option<u8>, HierError>
        ensures reads { Reads R.step R.remaining self.old self.new reader.old reader.new (λ next before after. MatchOption next (IsAtEnd before) (λ b. Consumes before after (b ∷ []))) (FailsBefore 1) result }
    {
        if !self.has(reader, 1)? {
            return Ok(None);
        }
        let byte = self.buffer[self.at];
        self.at += 1;
        Ok(Some(byte))
    }

    /// Returns the next number of four bytes.
    pub fn word<R: StepRead>(&mut self, reader: &mut R) -> Result<u32, HierError>
        ensures reads { ReadsValue R.step R.remaining self.old self.new reader.old reader.new word (cut 4) result }
        ensures room { OnOk result (length self.new.waiting + 4 ≤ 2 ^ 16) }
    {
        self.need(reader, 4)?;
        Ok(self.waiting_word())
    }

    /// Takes a number of four bytes from those that wait.
    #[inline]
    pub fn waiting_word(&mut self) -> u32
        requires { 4 ≤ length self.old.waiting }
        ensures taken { self.old.waiting ≡ word result ++ self.new.waiting }
        ensures left { self.new.left ≡ self.old.left }
        ensures room { length self.new.waiting + 4 ≤ 2 ^ 16 }
    {
        let number = first_word(&self.buffer[self.at..self.end]);
        self.at += 4;
        number
    }

    /// Returns the next number of eight bytes.
    pub fn long<R: StepRead>(&mut self, reader: &mut R) -> Result<u64, HierError>
        ensures reads { ReadsValue R.step R.remaining self.old self.new reader.old reader.new long (cut 8) result }
    {
        self.need(reader, 8)?;
        Ok(self.waiting_long())
    }

    /// Takes a number of eight bytes from those that wait.
    #[inline]
    pub fn waiting_long(&mut self) -> u64
        requires { 8 ≤ length self.old.waiting }
        ensures taken { self.old.waiting ≡ long result ++ self.new.waiting }
        ensures left { self.new.left ≡ self.old.left }
    {
        let number = first_long(&self.buffer[self.at..self.end]);
        self.at += 8;
        number
    }

    /// Makes sure that this many bytes wait.
    #[inline]
    pub fn need<R: StepRead>(&mut self, reader: &mut R, count: usize) -> Result<(), HierError>
        requires { count ≤ 24 }
        ensures reads { Reads R.step R.remaining self.old self.new reader.old reader.new (λ _. Keeps) (Refuses (cut count) (IsCut (cut count)) (IsCut (cut count))) result }
        ensures enough { OnOk result (count ≤ length self.new.waiting) }
    {
        if self.end - self.at >= count {
            return Ok(());
        }
        if !self.fill(reader, count)? {
            return Err(HierError::Truncated);
        }
        Ok(())
    }

    // Whether this many bytes are still to come. If so they wait.
    #[inline]
    fn has<R: StepRead>(&mut self, reader: &mut R, count: usize) -> Result<bool, HierError>
        requires { count ≤ 24 }
        ensures reads { Reads R.step R.remaining self.old self.new reader.old reader.new (λ _. Keeps) (FailsBefore count) result }
        ensures ok { IfOk result (λ enough. MatchBool enough (count ≤ length self.new.waiting) ((length self.new.waiting < count) × IsAtEnd (R.remaining reader.new))) }
    {
        if self.end - self.at >= count {
            return Ok(true);
        }
        self.fill(reader, count)
    }

    // Reads on until this many bytes wait; false where the reader's bytes end before.
    #[cold]
    fn fill<R: StepRead>(&mut self, reader: &mut R, count: usize) -> Result<bool, HierError>
        requires { count ≤ 24 }
        ensures reads { Reads R.step R.remaining self.old self.new reader.old reader.new (λ _. Keeps) (FailsBefore count) result }
        ensures ok { IfOk result (λ enough. MatchBool enough (count ≤ length self.new.waiting) ((length self.new.waiting < count) × IsAtEnd (R.remaining reader.new))) }
    {
        self.buffer.copy_within(self.at..self.end, 0);
        self.end -= self.at;
        self.at = 0;
        while self.end < count {
            let more = read_behind(
                &mut self.calls,
                reader,
                self.buffer.as_mut_slice(),
                self.end,
            )?;
            if more == 0 {
                return Ok(false);
            }
            self.end += more;
        }
        Ok(true)
    }
}

// Reads the next bytes, and puts them behind the first ones of the buffer.
fn read_behind<R: StepRead>(
    calls: &mut ReadCalls,
    reader: &mut R,
    buffer: &mut [u8],
    end: usize,
) -> Result<usize, ReadFault>
    requires { end ≤ length buffer.old }
    ensures room { IfOk result (λ n. end + n ≤ length buffer.new) }
    ensures ok { IfOk result (λ n. Keeps (coming (take end buffer.old) (R.remaining reader.old)) (coming (take (end + n) buffer.new) (R.remaining reader.new))) }
    ensures end { IfOk result (λ n. n ≡ 0 → end < length buffer.new → IsAtEnd (R.remaining reader.new)) }
    ensures calls { OnOk result (IsRead R.step calls.old.left calls.new.left reader.old reader.new) }
    ensures stopped { OnErr result (GivesOut R.step calls.old.left reader.old reader.new) }
    ensures keeps { OnErr result (Keeps (R.remaining reader.old) (R.remaining reader.new)) }
{
    let count = calls.read(reader, &mut buffer[end..])?;
    Ok(count)
}

/// The number of the first four bytes.
fn first_word(bytes: &[u8]) -> u32
    requires { 4 ≤ length bytes.now }
    ensures { take 4 bytes.now ≡ word result }
{
    u32::from_be_bytes([bytes[0], bytes[1], bytes[2], bytes[3]])
}

/// The number of the first eight bytes.
fn first_long(bytes: &[u8]) -> u64
    requires { 8 ≤ length bytes.now }
    ensures { take 8 bytes.now ≡ long result }
{
    u64::from_be_bytes([
        bytes[0], bytes[1], bytes[2], bytes[3], bytes[4], bytes[5], bytes[6], bytes[7],
    ])
}
