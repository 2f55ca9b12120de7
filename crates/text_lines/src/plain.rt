ghost use Rattle.std.specs.Prelude.{◌≡◌, ◌∷◌, IfSome};
ghost use Rattle.text_lines.specs.Numbers.{IsNumberBefore};

/// A number at the front of a text.
#[derive(Clone, Copy)]
pub struct Front<'a> {
    /// What the digits spell.
    pub number: u64,
    /// What follows the byte after the digits.
    pub rest: &'a [u8],
}

/// The number at the front of a text, where decimal digits spell it and this byte follows them. None elsewhere, and
/// where it goes far beyond 2^32, as no node and no weight does: such a line is read by its fields.
pub fn number_before(stop: u8, text: &[u8]) -> Option<Front<'_>>
    ensures { IfSome result (λ front. IsNumberBefore stop text.now front.number front.rest.now) }
{
    let mut number = 0u64;
    for i in 0..text.len() {
        let byte = text[i];
        if !byte.is_ascii_digit() {
            if i == 0 || byte != stop {
                return None;
            }
            let rest = &text[i + 1..];
            return Some(Front { number, rest });
        }
        if number > u64::from(u32::MAX) {
            return None;
        }
        number = 10 * number + u64::from(byte - b'0');
    }
    None
}

/// What follows this letter and a space at the front of a text, if these are there.
pub fn after_letter(letter: u8, text: &[u8]) -> Option<&[u8]>
    ensures { IfSome result (λ rest. text.now ≡ letter ∷ 32 ∷ rest.now) }
{
    if text.len() < 2 {
        return None;
    }
    let first = text[0];
    let second = text[1];
    if first != letter || second != b' ' {
        return None;
    }
    Some(&text[2..])
}
