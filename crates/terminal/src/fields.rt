use bstr::ByteSlice;

/// The field of this number, from 0, of a line, or nothing if the line has fewer.
pub(crate) fn field(line: &[u8], number: usize) -> &[u8] {
    line.fields().nth(number).unwrap_or(b"")
}

/// Whether the field is this word.
pub(crate) fn is(field: &[u8], word: &str) -> bool {
    field == word.as_bytes()
}

/// Whether a line is of an arc or a pair.
pub(crate) fn is_item(line: &[u8]) -> bool {
    let first = field(line, 0);
    is(first, "a") || is(first, "q")
}

/// The number that a field is, if it is one of 64 bits.
pub(crate) fn number_of(field: &[u8]) -> Option<u64> {
    if !is_number(field) {
        return None;
    }
    let text = str::from_utf8(field).ok()?;
    text.parse::<u64>().ok()
}

/// Whether a field has decimal digits alone.
pub(crate) fn is_number(field: &[u8]) -> bool {
    for byte in field {
        if !byte.is_ascii_digit() {
            return false;
        }
    }
    !field.is_empty()
}
