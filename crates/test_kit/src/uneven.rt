use std::io::{self, ErrorKind, Read};

/// A reader that gives one byte at a call, is interrupted at each call of some number, and may fail at one.
#[derive(Drop)]
pub struct Uneven<'a> {
    text: &'a [u8],
    calls: u64,
    interrupted: u64,
    fails_at: u64,
}

impl Uneven<'_> {
    /// Reads a text. Each call whose number, from 1, `interrupted` divides is interrupted, and that of the number
    /// `fails_at` fails, which is none for 0.
    pub fn new(text: &[u8], interrupted: u64, fails_at: u64) -> Uneven<'_> {
        Uneven {
            text,
            calls: 0,
            interrupted,
            fails_at,
        }
    }
}

impl Read for Uneven<'_> {
    fn read(&mut self, buf: &mut [u8]) -> io::Result<usize> {
        self.calls = self.calls.saturating_add(1);
        if self.calls == self.fails_at {
            return Err(io::Error::from(ErrorKind::Other));
        }
        if self.calls.checked_rem(self.interrupted) == Some(0) {
            return Err(io::Error::from(ErrorKind::Interrupted));
        }
        match self.text {
            [first, rest @ ..] if !buf.is_empty() => {
                buf[0] = *first;
                self.text = rest;
                Ok(1)
            }
            _ => Ok(0),
        }
    }
}
