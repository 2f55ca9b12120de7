ghost use Rattle.std.specs.Prelude.{◌≡◌, []};

use ch_contract::{Contraction, Facts};
use ch_estimate::{Depth, Estimator, Note};
use std::alloc::{AllocError, Global};
use std::sync::Arc;
use std::sync::atomic::{AtomicU64, Ordering};

/// How often each of at most six estimators was dropped, by their numbers from 0.
#[derive(Drop)]
pub struct Drops {
    of: [AtomicU64; 6],
}

impl Drops {
    /// None was.
    pub fn new(alloc: Global) -> Result<Arc<Drops>, AllocError> {
        let of = [
            AtomicU64::new(0),
            AtomicU64::new(0),
            AtomicU64::new(0),
            AtomicU64::new(0),
            AtomicU64::new(0),
            AtomicU64::new(0),
        ];
        let drops = Arc::new(alloc, Drops { of })?;
        Ok(drops)
    }

    /// Whether each of the first `count` was dropped once, and no other.
    pub fn are_one_each(&self, count: usize) -> bool {
        self.of.iter().enumerate().all(|(number, drops)| {
            drops.load(Ordering::SeqCst) == u64::from(number < count)
        })
    }
}

/// An estimator by depth that counts its drops by its number.
pub struct Numbered {
    inner: Depth,
    number: usize,
    drops: Arc<Drops>,
}

impl Numbered {
    /// One of this number, which received nothing.
    pub fn new(inner: Depth, number: usize, drops: Arc<Drops>) -> Numbered
        requires untold { inner ≡ [] }
        ensures untold { result.inner ≡ [] }
    {
        Numbered {
            inner,
            number,
            drops,
        }
    }
}

impl Estimator for Numbered {
    ghost heard = { λ c. c.inner };

    fn key(&mut self, facts: &Facts) -> u64 {
        self.inner.key(facts)
    }

    fn told(&mut self, entry: &Contraction) -> Result<(), AllocError> {
        self.inner.told(entry)
    }

    fn note(&self, node: u32) -> Note {
        self.inner.note(node)
    }
}

impl Drop for Numbered {
    fn drop(self) {
        let Self {
            inner: _,
            number,
            drops,
        } = self;
        if let Some(count) = drops.of.get(number) {
            count.fetch_add(1, Ordering::SeqCst);
        }
        drop(drops);
    }
}
