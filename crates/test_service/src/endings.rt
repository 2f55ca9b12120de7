use jobs::Job;
use outcomes::{Cause, Ending};
use std::io::{self, ErrorKind, Write};
use terminal::{Ended, Kept, explain};

/// A writer that takes all bytes, and can't be flushed.
#[derive(Drop)]
struct Stuck;

impl Write for Stuck {
    fn write(&mut self, buf: &[u8]) -> io::Result<usize> {
        Ok(buf.len())
    }

    fn flush(&mut self) -> io::Result<()> {
        Err(io::Error::from(ErrorKind::Other))
    }
}

#[test]
fn a_failed_flush_is_explained(rt: HostRuntime) {
    let mut out = Kept::new("standard output", Stuck);
    assert!(rt; out.write(b"ready").is_ok() && out.failure().is_none());
    assert!(rt; out.flush().is_err());
    let ended = Ended {
        outcome: Ending::Refused(Cause::Flush),
        failure: out.failure(),
    };
    let job = Job::Info { hierarchy: "a.rch" };
    let mut err = Vec::new(rt.alloc());
    explain(&rt, &job, &ended, &mut err);
    assert!(rt; err.as_slice() == b"  standard output: other error\n".as_slice());
}
