ghost use Rattle.std.specs.Prelude.{◌≡◌, IfOk, IfErr, IfSome};
ghost use Rattle.std.specs.Io.KnownBytes.{Consumes, IsAtEnd};
ghost use Rattle.text_lines.specs.Lines.{line_feeds};
ghost use Rattle.ch_service.specs.Outcome.{IsReadFault, StopsReading, of_fault, of_whole};

use crate::error::ServiceError;
use counted_io::WholeFault;
use grfile::{GrError, GrErrorKind};
use std::alloc::Global;
use std::io::Read;

/// All that the reader gives. A read that fails, or the last call that is allowed, is a fault of the graph's text.
pub fn read_whole<R: Read>(alloc: Global, input: &mut R) -> Result<Vec<u8>, ServiceError>
    ensures whole { IfOk result (λ text. IfSome (R.remaining input.old) (λ bytes. text.items ≡ bytes)) }
    ensures ended { IfOk result (λ text. Consumes (R.remaining input.old) (R.remaining input.new) text.items × IsAtEnd (R.remaining input.new)) }
    ensures refused { IfErr result (StopsReading (R.remaining input.old) (R.remaining input.new)) }
{
    let mut text = Vec::new(alloc);
    match counted_io::read_whole(input, &mut text) {
        Ok(()) => Ok(text),
        Err(WholeFault::OutOfMemory) => Err(ServiceError::OutOfMemory),
        Err(WholeFault::Read) => Err(ServiceError::Graph(read_fault(&text))),
    }
}

/// Returns the refusal of texts that were read from the bytes of one whole input. Bytes in memory have no failed
/// read; if one is reported of them, it is reported at the end of the input.
pub fn of_whole(text: &[u8], refusal: ServiceError) -> ServiceError
    ensures { result ≡ of_whole text.now refusal }
{
    match refusal {
        ServiceError::Graph(fault) => of_fault(text, fault.kind, refusal),
        ServiceError::Queries(fault) => of_fault(text, fault.kind, refusal),
        _ => refusal,
    }
}

// A read that failed behind this text, or the refusal itself, by the kind of its fault.
fn of_fault(text: &[u8], kind: GrErrorKind, own: ServiceError) -> ServiceError
    ensures { result ≡ of_fault text.now kind own }
{
    match kind {
        GrErrorKind::Read => ServiceError::Graph(read_fault(text)),
        _ => own,
    }
}

// The fault of a read that failed behind this text.
fn read_fault(text: &[u8]) -> GrError
    ensures { IsReadFault text.now result }
{
    GrError {
        kind: GrErrorKind::Read,
        line: line_feeds(text).saturating_add(1),
    }
}

// How many line feeds there are.
fn line_feeds(text: &[u8]) -> u64
    ensures { result ≡ line_feeds text.now }
{
    text.iter().filter(|byte| **byte == b'\n').count() as u64
}
