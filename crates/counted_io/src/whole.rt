ghost use Rattle.std.specs.Prelude.{◌≡◌, ◌<◌, false, length, IfOk, IfErr, OnOk};
ghost use Rattle.std.specs.Io.KnownBytes.{IsAtEnd};
ghost use Rattle.counted_io.specs.Handing.{Gathers};
ghost use Rattle.counted_io.specs.Limits.{IsRead, IsReadWithin, ReadsWithin};
ghost use Rattle.counted_io.specs.declared.TheConstants.{MOST_CALLS};
ghost use Rattle.counted_io.specs.declared.whole.WholeFault.TheVariants.{OutOfMemory, Read};

use crate::reading::{ReadCalls, ReadFault, StepRead};
use crate::{MOST_CALLS, PIECE};
use std::alloc::AllocError;

/// Why not all was taken that a reader gives.
#[derive(Clone, Copy)]
pub enum WholeFault {
    /// Out of memory.
    OutOfMemory,
    /// The reader failed, or no more calls of it may be made.
    Read,
}

impl From<AllocError> for WholeFault {
    ghost from_gives = { λ _ fault. fault ≡ OutOfMemory };

    fn from(_refused: AllocError) -> WholeFault {
        WholeFault::OutOfMemory
    }
}

impl From<ReadFault> for WholeFault {
    ghost from_gives = { λ _ fault. fault ≡ Read };

    fn from(_fault: ReadFault) -> WholeFault {
        WholeFault::Read
    }
}

/// Appends all that the reader gives, by at most 2^40 calls.
///
/// Where the reader fails, what it gave before is appended. Takes memory for what comes.
pub fn read_whole<R: StepRead>(reader: &mut R, text: &mut Vec<u8>) -> Result<(), WholeFault>
    ensures ok { OnOk result (Gathers (R.remaining reader.old) (R.remaining reader.new) text.old.items text.new.items × IsAtEnd (R.remaining reader.new)) }
    ensures failed { IfErr result (λ fault. fault ≡ Read → Gathers (R.remaining reader.old) (R.remaining reader.new) text.old.items text.new.items) }

    // Which calls were made.
    ensures calls { OnOk result (IsReadWithin R.step MOST_CALLS reader.old reader.new) }
    ensures stopped { IfErr result (λ fault. ReadsWithin R.step MOST_CALLS (fault ≡ Read) reader.old reader.new) }
{
    let mut calls = ReadCalls::new(MOST_CALLS);
    let mut piece = [0u8; PIECE];
    'pieces: while read_piece(&mut calls, reader, &mut piece, text)? {}
    Ok(())
}

// Appends the next bytes that the reader gives, and returns whether there were any before its end.
fn read_piece<R: StepRead>(
    calls: &mut ReadCalls,
    reader: &mut R,
    piece: &mut [u8],
    text: &mut Vec<u8>,
) -> Result<bool, WholeFault>
    requires { 0 < length piece.old }
    ensures ok { OnOk result (Gathers (R.remaining reader.old) (R.remaining reader.new) text.old.items text.new.items) }
    ensures ended { IfOk result (λ more. more ≡ false → IsAtEnd (R.remaining reader.new)) }
    ensures room { length piece.new ≡ length piece.old }
    ensures failed { IfErr result (λ fault. fault ≡ Read → Gathers (R.remaining reader.old) (R.remaining reader.new) text.old.items text.new.items) }
    ensures counted { OnOk result (calls.new.left < calls.old.left) }
    ensures calls { OnOk result (IsRead R.step calls.old.left calls.new.left reader.old reader.new) }
    ensures stopped { IfErr result (λ fault. ReadsWithin R.step calls.old.left (fault ≡ Read) reader.old reader.new) }
{
    let count = calls.read(reader, piece)?;
    if count == 0 {
        return Ok(false);
    }
    text.extend_from_slice(&piece[..count])?;
    Ok(true)
}
