use std::alloc::Global;
use std::thread;
use std::thread::{JoinHandle, Threads};

/// What a build works with: a runtime and an allocator, and the threads that drop what it needs no longer.
#[derive(Drop)]
pub struct Resources<'r, R: Threads> {
    /// The runtime.
    pub rt: &'r R,
    /// The allocator.
    pub alloc: Global,
    // drops what one shift leaves
    thread: Option<JoinHandle<()>>,
    // drops what is left at the end
    last: Option<JoinHandle<()>>,
}

impl<'r, R: Threads> Resources<'r, R> {
    /// No thread is at work. Takes no memory.
    pub fn new(rt: &'r R, alloc: Global) -> Resources<'r, R> {
        Resources {
            rt,
            alloc,
            thread: None,
            last: None,
        }
    }

    /// Drops a value in a thread of its own, and returns beside it. It waits first for the value that this call took
    /// before, so that at most one of them is on its way. Where no thread can be started the value is dropped here.
    pub fn dispose<T: Send + Drop + 'static>(&mut self, old: T) {
        join(self.rt, self.thread.take());
        self.thread = thread::spawn(self.rt, move || drop(old)).ok();
    }

    /// Drops a value as [`dispose`](Resources::dispose) does, and waits only for the value that this call took before.
    pub fn dispose_last<T: Send + Drop + 'static>(&mut self, old: T) {
        join(self.rt, self.last.take());
        self.last = thread::spawn(self.rt, move || drop(old)).ok();
    }

    /// Waits until what was taken is dropped.
    pub fn wait(&mut self) {
        join(self.rt, self.thread.take());
        join(self.rt, self.last.take());
    }
}

/// Waits for a thread, if there is one.
fn join<R: Threads>(rt: &R, thread: Option<JoinHandle<()>>) {
    if let Some(thread) = thread {
        thread.join(rt);
    }
}
