use crate::progress::{ProgressLine, write_line};
use ch_check::Watch;
use ch_workers::{Gate, Point};
use std::io::{self, Write};
use std::rt::Stderr;
use std::sync::atomic::{AtomicU64, Ordering};
use std::time::{Clock, Instant};

/// Milliseconds from one line to the next.
const PACE: u64 = 200;

/// How many bytes a line has at most.
const ROOM: usize = 192;

/// After how many milliseconds a line is shown that nobody has asked for: a shorter run shows none.
const UNASKED: u64 = 1_000;

/// A gate that counts commits, or a watch of a check, which shows on standard error how far they are.
#[derive(Drop)]
pub struct Meter<'a, R> {
    clock: &'a R,
    err: Stderr,
    begun: Instant,
    nodes: AtomicU64,
    commits: AtomicU64,
    // after how many milliseconds the first commit was seen, or 0
    first: AtomicU64,
    due: AtomicU64,
    lines: AtomicU64,
}

impl<'a, R: Clock> Meter<'a, R> {
    /// Returns a meter that begins now. Its first line comes after a fifth of a second if it is asked for, and else after a
    /// second. Fails if the clock does.
    pub fn new(clock: &'a R, err: Stderr, is_asked: bool) -> io::Result<Meter<'a, R>> {
        Ok(Meter {
            clock,
            err,
            begun: Instant::now(clock)?,
            nodes: AtomicU64::new(0),
            commits: AtomicU64::new(0),
            first: AtomicU64::new(0),
            due: AtomicU64::new(if is_asked { PACE } else { UNASKED }),
            lines: AtomicU64::new(0),
        })
    }

    /// Receives the number of nodes of the graph.
    pub fn announce(&self, nodes: u64) {
        self.nodes.store(nodes, Ordering::SeqCst);
    }

    /// Returns the number of nodes that it received, or 0.
    pub fn announced(&self) -> u64 {
        self.nodes.load(Ordering::SeqCst)
    }

    /// Returns the number of commits that it has seen.
    pub fn done(&self) -> u64 {
        self.commits.load(Ordering::SeqCst)
    }

    /// Returns how many milliseconds have passed since it began, or 0 if the clock fails.
    pub fn millis(&self) -> u64 {
        let Ok(elapsed) = self.begun.elapsed(self.clock) else {
            return 0;
        };
        elapsed
            .as_secs()
            .saturating_mul(1_000)
            .saturating_add(u64::from(elapsed.subsec_millis()))
    }

    /// Returns the terminal that it shows lines at.
    pub fn terminal(&self) -> Stderr {
        self.err
    }

    /// Takes the line away, if one was shown: nothing of it is left.
    pub fn clear(&self) {
        if self.lines.load(Ordering::SeqCst) == 0 {
            return;
        }
        let mut err = self.err;
        let _ = err.write_all(b"\r\x1b[K");
    }

    // Shows a line, if it is time for one and no other worker shows it.
    fn show(&self, done: u64) {
        let millis = self.millis();
        let first = self.first_at(millis);
        let due = self.due.load(Ordering::SeqCst);
        if millis < due {
            return;
        }
        let next = millis.saturating_add(PACE);
        if self
            .due
            .compare_exchange(due, next, Ordering::SeqCst, Ordering::SeqCst)
            .is_err()
        {
            return;
        }
        let progress = ProgressLine {
            done,
            nodes: self.announced(),
            millis,
            contracting: millis.saturating_sub(first),
        };
        self.lines.fetch_add(1, Ordering::SeqCst);
        let mut room = [0u8; ROOM];
        let mut rest = room.as_mut_slice();
        write_line(&mut rest, &progress);
        let left = rest.len();
        let mut err = self.err;
        let _ = err.write_all(&room[..ROOM.saturating_sub(left)]);
    }
}

impl<R: Clock> Meter<'_, R> {
    // After how many milliseconds the first commit was seen, which is now if there was none.
    fn first_at(&self, millis: u64) -> u64 {
        let first = self.first.load(Ordering::SeqCst);
        if first > 0 {
            return first;
        }
        self.first.store(millis, Ordering::SeqCst);
        millis
    }
}

impl<R: Clock + Sync> Gate for Meter<'_, R> {
    fn pass(&self, _worker: u32, point: Point) {
        if point == Point::Committed {
            let before = self.commits.fetch_add(1, Ordering::SeqCst);
            self.show(before.saturating_add(1));
        }
    }
}

impl<R: Clock> Watch for Meter<'_, R> {
    fn contracted(&self, done: u32) {
        let done = u64::from(done);
        self.commits.store(done, Ordering::SeqCst);
        self.show(done);
    }
}

/// A writer to the terminal of a meter, whose line is taken away before the first bytes are written.
///
/// What is written after that is kept, since a message comes in several writes. So it is for what is written once no
/// worker passes the meter any more.
#[derive(Drop)]
pub struct Cleared<'a, R, W> {
    meter: &'a Meter<'a, R>,
    writer: W,
    is_cleared: bool,
}

impl<'a, R: Clock, W: Write> Cleared<'a, R, W> {
    /// This writer, at the terminal of this meter.
    pub fn new(meter: &'a Meter<'a, R>, writer: W) -> Cleared<'a, R, W> {
        Cleared {
            meter,
            writer,
            is_cleared: false,
        }
    }
}

impl<R: Clock, W: Write> Write for Cleared<'_, R, W> {
    fn write(&mut self, buf: &[u8]) -> io::Result<usize> {
        if !self.is_cleared {
            self.meter.clear();
            self.is_cleared = true;
        }
        self.writer.write(buf)
    }

    fn flush(&mut self) -> io::Result<()> {
        self.writer.flush()
    }
}
