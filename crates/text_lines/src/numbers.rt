ghost use Rattle.std.specs.Prelude.{◌≡◌};
ghost use Rattle.std.specs.Option.{option_map};
ghost use Rattle.text_lines.specs.Numbers.{number_of, capped};

/// Returns the number that a field spells, or `None` where it isn't one decimal digit or more. A number above 2^64 - 1
/// counts as that.
pub fn number(field: &[u8]) -> Option<u64>
    ensures { result ≡ option_map capped (number_of field.now) }
{
    if field.is_empty() {
        return None;
    }
    let mut value = 0u64;
    for digit in field {
        if !digit.is_ascii_digit() {
            return None;
        }
        value = value
            .saturating_mul(10)
            .saturating_add(u64::from(*digit - b'0'));
    }
    Some(value)
}
