use std::fmt::{self, Display};

/// How many bytes of a text are shown.
const MOST: usize = 80;

/// Bytes of a file, as they are shown to a user: what is no printable ASCII is shown as `?`, so that no file moves the
/// cursor of a terminal, and a long text is cut.
#[derive(Clone, Copy)]
pub(crate) struct Shown<'a>(pub(crate) &'a [u8]);

impl Display for Shown<'_> {
    fn fmt<W: fmt::Write>(&self, f: &mut fmt::Formatter<W>) -> fmt::Result {
        let mut count = 0usize;
        for byte in self.0 {
            if count >= MOST {
                return f.write_str(" ..");
            }
            count = count.saturating_add(1);
            write_byte(*byte, f)?;
        }
        Ok(())
    }
}

// Writes one byte, or what is shown for it.
fn write_byte<W: fmt::Write>(byte: u8, f: &mut fmt::Formatter<W>) -> fmt::Result {
    match byte {
        b'\t' => f.write_char(' '),
        b' '..=b'~' => f.write_char(char::from(byte)),
        _ => f.write_char('?'),
    }
}
