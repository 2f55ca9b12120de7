ghost use Rattle.std.specs.Prelude.{◌≡◌};
ghost use Rattle.grfile.specs.Grammar.{capped_in};

use crate::error::{GrError, GrErrorKind};
use text_lines::number;

/// Returns the number in a field of this line, or `NotANumber` of the line. A number above 2^64 - 1 counts as that.
pub fn number_in(line: u64, field: &[u8]) -> Result<u64, GrError>
    ensures { result ≡ capped_in line field.now }
{
    match number(field) {
        Some(value) => Ok(value),
        None => Err(GrErrorKind::NotANumber.at(line)),
    }
}
