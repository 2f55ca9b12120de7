//! A relaxed priority queue for many threads.
//!
//! After the MultiQueue of Rihani, Sanders and Dementiev, "MultiQueues: Simpler, Faster, and Better Relaxed
//! Concurrent Priority Queues" (2015): several sequential heaps, each behind a lock of its own. A `push` goes into
//! one heap drawn at random, a `pop` takes the better of the tops of two heaps drawn at random. So threads seldom
//! wait for one another, and what is taken is near the least item, not always the least. The random words come from
//! the [`Pass`] of the thread, so that a run by one pass can be predicted word by word.
//!
//! Uses no other crate of the workspace, only `rand_pcg` for the random words and std's heaps and locks. Its
//! main types are [`MultiQueue`], [`Pass`] and [`Item`]. What is behind a lock is a [`Heap`](heap::Heap). No contract
//! follows an item through a lock; so each pass keeps the account of what was put and taken through it, and the queue
//! compares the accounts with what is left when it ends. The promise of the layer is that of [`MultiQueue::close`]: where
//! it succeeds, each item was put exactly as often as it was taken or is left, and what is left is in order. It returns
//! everything where it refuses, where a pass is missing above all.
//!
//! What is put in by a pass and not taken out is there at the end:
//!
//! ```rust
//! let (queue, mut pass) = MultiQueue::new(alloc, 2, 1)?;
//! let item = Item { key: 7, node: 3 };
//! assert!(rt; queue.push(rt, &mut pass, item) == Ok(()));
//! assert!(rt; queue.pop(rt, &mut pass)? == Some(item));
//! let left = queue.close(vec![in alloc; pass]?);
//! assert!(rt; left.is_ok_and(|left| left.is_empty()));
//! ```
#![tactic(auto)]

mod account;
mod better;
mod closed;
mod error;
mod heap;
mod item;
mod multi_queue;
mod pass;

pub use closed::Closed;
pub use error::CloseError;
pub use item::Item;
pub use multi_queue::MultiQueue;
pub use pass::Pass;
