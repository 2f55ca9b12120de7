use crate::kit::{ONE, empty_lists, row};
use crate::stations::comes_to;
use ch_estimate::Leases;
use ch_workers::{Gate, Point, build};
use std::sync::Arc;
use std::sync::atomic::{AtomicU64, Ordering};
use std::test::Fail;
use std::thread;

/// How often the keeper of a lease lets others go first, once the worker has ended.
const LONGER: u32 = 100_000;

/// Signals when a worker has ended.
#[derive(Drop)]
struct Ended {
    done: Arc<AtomicU64>,
}

impl Gate for Ended {
    fn pass(&self, _worker: u32, point: Point) {
        if point == Point::Done {
            self.done.store(1, Ordering::SeqCst);
        }
    }
}

/// Waits until the worker has ended, and longer.
fn wait_longer(done: &AtomicU64) {
    let _ended = comes_to(done, 1);
    'longer: for _ in 0..LONGER {
        thread::yield_now();
    }
}

// Another thread has a lease until the worker has ended, and longer. It says so before it returns it.
#[test]
fn a_build_waits_for_leases(rt: HostRuntime) -> Result<(), Fail> {
    let alloc = rt.alloc();
    let mut leases = Leases::new(alloc)?;
    let lease = leases.lease()?;
    let gate = Ended {
        done: Arc::new(alloc, AtomicU64::new(0))?,
    };
    let done = Arc::try_clone(&gate.done)?;
    let given = Arc::new(alloc, AtomicU64::new(0))?;
    let gives = Arc::try_clone(&given)?;
    let keeper = thread::spawn(&rt, move || {
        wait_longer(&done);
        gives.store(1, Ordering::SeqCst);
        drop(lease);
    })?;
    let lists = empty_lists(alloc, 1)?;
    let graph = row(alloc)?;
    let built = build(&rt, alloc, graph, ONE, lists, &mut leases, &gate);
    assert!(rt; (given.load(Ordering::SeqCst) == 1) & built.is_ok());
    keeper.join(&rt);
    Ok(())
}
