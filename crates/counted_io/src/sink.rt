ghost use Rattle.std.specs.Prelude.{◌≡◌, ◌+◌, ◌≤◌, [], ◌++◌, length, min};
ghost use Rattle.counted_io.specs.Sinks.{Finishes, Puts, has_failed, none_waits, nothing_put};
ghost use Rattle.counted_io.specs.declared.TheConstants.{BUFFER, MOST_CALLS};

use crate::BUFFER;
use crate::writing::{StepWrite, WriteCalls, WriteFault};
use std::marker::Model;

/// Bytes that are gathered for a writer, which gets many of them in a call, and how the writer failed.
///
/// A function that puts bytes into a sink returns no `Result`: once the writer has failed, the sink keeps the failure, and
/// drops what is put. Whoever made the sink asks once, by [`Sink::finish`]. A sink is used with one writer alone. It
/// takes 8 KiB where it is kept, and no other memory.
#[derive(Drop)]
pub struct Sink {
    // The first bytes of the buffer wait for the writer.
    buffer: [u8; BUFFER],
    // How many they are.
    end: usize,
    // How often the writer may still be called, and what it has taken.
    calls: WriteCalls,
    // How it failed, if it did.
    fault: Option<WriteFault>,
}

impl Model for Sink {
    ghost use Rattle.std.specs.Prelude.{◌≡◌, ◌≤◌, length, take};
    ghost use Rattle.counted_io.specs.Sinks as sinks;
    ghost use Rattle.counted_io.specs.declared.TheConstants.{BUFFER};

    ghost Value = { sinks.Gathered };

    ghost view = { λ s. record { waiting = take s.end s.buffer; written = s.calls.written; left = s.calls.left; fault = s.fault } };

    ghost invariant = { λ s. (s.end ≤ BUFFER) × (length s.buffer ≡ BUFFER) };
}

impl Sink {
    /// Returns a sink into which nothing was put yet, whose writer is called at most `calls` times, and at most 2^40.
    pub fn new(calls: u64) -> Sink
        ensures { result ≡ nothing_put (min calls MOST_CALLS) }
    {
        Sink {
            buffer: [0; BUFFER],
            end: 0,
            calls: WriteCalls::new(calls),
            fault: None,
        }
    }

    /// Puts bytes behind those that wait. Where they have no room, the writer gets what waits, and more bytes than the
    /// buffer holds directly. If it fails, the sink has failed from then on, and the writer isn't called again.
    pub fn put<W: StepWrite>(&mut self, writer: &mut W, bytes: &[u8])
        ensures { Puts W.step W.contents self.old self.new writer.old writer.new bytes.now }
    {
        if bytes.len() > BUFFER - self.end {
            return self.put_behind(writer, bytes);
        }
        self.gather(bytes);
    }

    /// Whether the writer has failed. A long loop may ask, to return early.
    pub fn has_failed(&self) -> bool
        ensures { result ≡ has_failed self.now }
    {
        self.fault.is_some()
    }

    /// Passes what waits to the writer, and returns how it failed, in this call or before.
    ///
    /// On Ok the writer has taken all that was put.
    pub fn finish<W: StepWrite>(&mut self, writer: &mut W) -> Result<(), WriteFault>
        ensures { Finishes W.step W.contents self.old self.new writer.old writer.new result }
    {
        self.pass_on(writer);
        match self.fault {
            None => Ok(()),
            Some(fault) => Err(fault),
        }
    }

    // Puts bytes that have no room behind those that wait.
    #[cold]
    fn put_behind<W: StepWrite>(&mut self, writer: &mut W, bytes: &[u8])
        ensures { Puts W.step W.contents self.old self.new writer.old writer.new bytes.now }
    {
        self.pass_on(writer);
        if bytes.len() > BUFFER {
            return write_on(bytes, writer, &mut self.calls, &mut self.fault);
        }
        self.gather(bytes);
    }

    // Passes what waits to the writer, unless it has failed. Nothing waits then.
    fn pass_on<W: StepWrite>(&mut self, writer: &mut W)
        ensures puts { Puts W.step W.contents self.old self.new writer.old writer.new [] }
        ensures all { self.new.waiting ≡ [] }
    {
        write_on(
            &self.buffer[..self.end],
            writer,
            &mut self.calls,
            &mut self.fault,
        );
        self.end = 0;
    }

    // Puts bytes that have room behind those that wait.
    fn gather(&mut self, bytes: &[u8])
        requires { length self.old.waiting + length bytes.now ≤ BUFFER }
        ensures { self.new ≡ record { waiting = self.old.waiting ++ bytes.now; written = self.old.written; left = self.old.left; fault = self.old.fault } }
    {
        let end = self.end + bytes.len();
        self.buffer[self.end..end].copy_from_slice(bytes);
        self.end = end;
    }
}

// Writes the bytes, unless the writer has failed before, and keeps its failure.
fn write_on<W: StepWrite>(
    bytes: &[u8],
    writer: &mut W,
    calls: &mut WriteCalls,
    fault: &mut Option<WriteFault>,
)
    ensures { Puts W.step W.contents (none_waits calls.old.written calls.old.left fault.old) (none_waits calls.new.written calls.new.left fault.new) writer.old writer.new bytes.now }
{
    if fault.is_none() {
        *fault = calls.write(writer, bytes).err();
    }
}
