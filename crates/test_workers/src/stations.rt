use ch_workers::{Built, Gate, Point};
use std::sync::atomic::{AtomicU64, Ordering};
use std::thread;

/// How often a gate that keeps a worker looks at most.
const LOOKS: u64 = 100_000_000;

/// Looks at a word until it is this number. False where it isn't at the last look.
pub(crate) fn comes_to(word: &AtomicU64, number: u64) -> bool {
    'looks: for look in 0..LOOKS {
        if word.load(Ordering::SeqCst) == number {
            return true;
        }
        if look % 1024 == 0 {
            thread::yield_now();
        }
    }
    false
}

/// Writes down the points that a single worker passes, as octal digits: its items 1, its proposals 2, its commits 3,
/// its refusals 4 and its end 5.
#[derive(Drop)]
pub(crate) struct Trail {
    digits: AtomicU64,
}

impl Trail {
    /// Nothing was passed yet.
    pub(crate) fn new() -> Trail {
        Trail {
            digits: AtomicU64::new(0),
        }
    }

    /// The digits of the points so far, the last point in the last place.
    pub(crate) fn digits(&self) -> u64 {
        self.digits.load(Ordering::SeqCst)
    }
}

impl Gate for Trail {
    fn pass(&self, _worker: u32, point: Point) {
        let digit = match point {
            Point::Took => 1,
            Point::Proposed => 2,
            Point::Committed => 3,
            Point::Refused => 4,
            Point::Done => 5,
        };
        let digits = self.digits.load(Ordering::SeqCst);
        let more = digits.wrapping_mul(8).wrapping_add(digit);
        self.digits.store(more, Ordering::SeqCst);
    }
}

/// A word that is 0 for each of 64 workers.
fn zeros() -> [AtomicU64; 64] {
    [0u8; 64].map(|_| AtomicU64::new(0))
}

/// Counts the items, the commits, the refusals and the ends of each worker.
#[derive(Drop)]
pub(crate) struct Tally {
    took: [AtomicU64; 64],
    committed: [AtomicU64; 64],
    refused: [AtomicU64; 64],
    done: [AtomicU64; 64],
}

/// The number that a worker has in a list.
fn number_of(counts: &[AtomicU64], worker: usize) -> u64 {
    match counts.get(worker) {
        Some(count) => count.load(Ordering::SeqCst),
        None => 0,
    }
}

impl Tally {
    /// Nobody has come to any point yet.
    pub(crate) fn new() -> Tally {
        Tally {
            took: zeros(),
            committed: zeros(),
            refused: zeros(),
            done: zeros(),
        }
    }

    /// How many items a worker took.
    pub(crate) fn took(&self, worker: usize) -> u64 {
        number_of(&self.took, worker)
    }

    /// How many of its proposals were refused, since a row had changed.
    pub(crate) fn refused(&self, worker: usize) -> u64 {
        number_of(&self.refused, worker)
    }

    /// Whether each of this many workers ended once, and has as many receipts as it committed.
    pub(crate) fn is_of_workers(&self, built: &Built, workers: usize) -> bool {
        let Some((_, lists)) = built.receipts.split_last() else {
            return false;
        };
        let mut holds = lists.len() == workers;
        'workers: for (worker, receipts) in lists.iter().enumerate() {
            holds &= number_of(&self.done, worker) == 1;
            holds &= number_of(&self.committed, worker) == receipts.len() as u64;
        }
        holds
    }

    /// Whether each worker ended once and received as many receipts as it committed, and the sweep none where there is
    /// a worker.
    pub(crate) fn is_of(&self, built: &Built) -> bool {
        let Some((swept, lists)) = built.receipts.split_last() else {
            return false;
        };
        (lists.is_empty() || swept.is_empty()) && self.is_of_workers(built, lists.len())
    }
}

impl Gate for Tally {
    fn pass(&self, worker: u32, point: Point) {
        let counts = match point {
            Point::Took => &self.took,
            Point::Proposed => return,
            Point::Committed => &self.committed,
            Point::Refused => &self.refused,
            Point::Done => &self.done,
        };
        if let Some(count) = counts.get(worker as usize) {
            count.fetch_add(1, Ordering::SeqCst);
        }
    }
}

/// Lets one worker at a time be between an item that it took and its commit, its refusal or its end.
#[derive(Drop)]
pub(crate) struct OneAtATime {
    /// The number of the worker who is there, counted from 1, or 0.
    inside: AtomicU64,
    late: AtomicU64,
}

impl OneAtATime {
    /// Nobody is there.
    pub(crate) fn new() -> OneAtATime {
        OneAtATime {
            inside: AtomicU64::new(0),
            late: AtomicU64::new(0),
        }
    }

    /// Whether nobody was kept to the last look.
    pub(crate) fn was_met(&self) -> bool {
        self.late.load(Ordering::SeqCst) == 0
    }

    /// Waits until nobody else is there, ten times as long as other gates, since who is there may be slow. False where
    /// somebody is at the last look.
    fn comes_in(&self, own: u64) -> bool {
        'looks: for look in 0..10 * LOOKS {
            let found = self
                .inside
                .compare_exchange(0, own, Ordering::SeqCst, Ordering::SeqCst);
            if found.is_ok() || found == Err(own) {
                return true;
            }
            if look % 1024 == 0 {
                thread::yield_now();
            }
        }
        false
    }
}

impl Gate for OneAtATime {
    fn pass(&self, worker: u32, point: Point) {
        let own = u64::from(worker).wrapping_add(1);
        match point {
            Point::Took => {
                if !self.comes_in(own) {
                    self.late.store(1, Ordering::SeqCst);
                }
            }
            Point::Proposed => {}
            Point::Committed | Point::Refused | Point::Done => {
                let _ = self
                    .inside
                    .compare_exchange(own, 0, Ordering::SeqCst, Ordering::SeqCst);
            }
        }
    }
}

/// Keeps each worker at its first item until this many have come to theirs.
#[derive(Drop)]
pub(crate) struct Together {
    workers: u64,
    first: [AtomicU64; 64],
    come: AtomicU64,
    late: AtomicU64,
}

impl Together {
    /// Nobody has come yet.
    pub(crate) fn new(workers: u64) -> Together {
        Together {
            workers,
            first: zeros(),
            come: AtomicU64::new(0),
            late: AtomicU64::new(0),
        }
    }

    /// Whether all have come, and nobody was kept to the last look.
    pub(crate) fn was_met(&self) -> bool {
        self.come.load(Ordering::SeqCst) == self.workers && self.late.load(Ordering::SeqCst) == 0
    }
}

impl Gate for Together {
    fn pass(&self, worker: u32, point: Point) {
        let Some(first) = self.first.get(worker as usize) else {
            return;
        };
        if point != Point::Took || first.swap(1, Ordering::SeqCst) == 1 {
            return;
        }
        self.come.fetch_add(1, Ordering::SeqCst);
        if !comes_to(&self.come, self.workers) {
            self.late.store(1, Ordering::SeqCst);
        }
    }
}

/// Keeps worker 0 at a point until worker 1 has committed.
#[derive(Drop)]
pub(crate) struct Overtaken {
    point: Point,
    committed: AtomicU64,
    late: AtomicU64,
}

impl Overtaken {
    /// Nobody has committed yet.
    pub(crate) fn at(point: Point) -> Overtaken {
        Overtaken {
            point,
            committed: AtomicU64::new(0),
            late: AtomicU64::new(0),
        }
    }

    /// Whether worker 1 has committed, and worker 0 wasn't kept to the last look.
    pub(crate) fn was_met(&self) -> bool {
        self.committed.load(Ordering::SeqCst) == 1 && self.late.load(Ordering::SeqCst) == 0
    }
}

impl Gate for Overtaken {
    fn pass(&self, worker: u32, point: Point) {
        if worker == 1 && point == Point::Committed {
            self.committed.store(1, Ordering::SeqCst);
        }
        if worker == 0 && point == self.point && !comes_to(&self.committed, 1) {
            self.late.store(1, Ordering::SeqCst);
        }
    }
}

/// Makes each worker slow once it has taken an item: others that are at work come further meanwhile.
#[derive(Drop)]
pub(crate) struct Slow;

impl Gate for Slow {
    fn pass(&self, _worker: u32, point: Point) {
        if point != Point::Took {
            return;
        }
        'turns: for _ in 0..200 {
            thread::yield_now();
        }
    }
}

/// Two gates, one after the other.
#[derive(Drop)]
pub(crate) struct Both<G: Gate, H: Gate> {
    pub(crate) first: G,
    pub(crate) second: H,
}

impl<G: Gate, H: Gate> Gate for Both<G, H> {
    fn pass(&self, worker: u32, point: Point) {
        self.first.pass(worker, point);
        self.second.pass(worker, point);
    }
}
