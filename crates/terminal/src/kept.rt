use crate::explaining::Failure;
use std::io::{self, Error, ErrorKind, Read, Write};

/// A reader or a writer whose last failure is kept, but for an interrupted call, which is made again. It gives and takes
/// what the one behind it does, to the byte.
#[derive(Drop)]
pub struct Kept<'a, T> {
    name: &'a str,
    inner: T,
    failure: Option<Error>,
}

impl<'a, T> Kept<'a, T> {
    /// One of this name that hasn't failed.
    pub fn new(name: &'a str, inner: T) -> Kept<'a, T> {
        Kept {
            name,
            inner,
            failure: None,
        }
    }
}

impl<'a, T: Drop> Kept<'a, T> {
    /// Its name, and why it failed last, if it did.
    pub fn failure(&self) -> Option<Failure<'a>> {
        Failure::of(self.name, self.failure)
    }
}

impl<T: Read> Read for Kept<'_, T> {
    ghost remaining = { λ kept. T.remaining kept.inner };

    fn read(&mut self, buf: &mut [u8]) -> io::Result<usize> {
        let count = self.inner.read(buf);
        self.failure = failure_after(&count, self.failure);
        count
    }
}

impl<T: Write> Write for Kept<'_, T> {
    ghost contents = { λ kept. T.contents kept.inner };

    fn write(&mut self, buf: &[u8]) -> io::Result<usize> {
        let count = self.inner.write(buf);
        self.failure = failure_after(&count, self.failure);
        count
    }

    fn flush(&mut self) -> io::Result<()> {
        let flushed = self.inner.flush();
        self.failure = failure_after(&flushed, self.failure);
        flushed
    }
}

// Why the last call failed that did, after one more.
fn failure_after<T>(call: &io::Result<T>, before: Option<Error>) -> Option<Error> {
    match call {
        Err(error) if error.kind() != ErrorKind::Interrupted => Some(*error),
        _ => before,
    }
}
