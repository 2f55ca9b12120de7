//! Estimators: what an order of contraction is chosen by.
//!
//! Builds on `ch_contract`, of which it uses the counts of a proposal and the entries of the log, and for the leases on
//! `atomic_table`, which counts them, and `crossbeam_utils`, by which they are waited for. Its main item is the trait
//! [`Estimator`]: it receives each contraction in turn, and gives keys, smaller ones first. Four kinds are here:
//! [`EdgeDifference`], [`Neighbours`], [`Depth`] and [`key::Balanced`]. They are one type, [`ByKey`], with four kinds of
//! [`Key`]. What they know of the nodes is kept in a [`WorkSpace`], and each works under a [`Lease`]. The promise of the
//! layer is the contract of `note`, that a note is what the received entries say, that of each kind's `key`, which says
//! which number it is, and that of [`Leases::wait`], that no lease is out; [`Leases::none_is_left`] says what that means.
//! No promise on answers rests on any of these.
//!
//! An estimator works under a lease, receives the log from its start, and gives the key of a node by the counts of its
//! proposal. Once it is dropped the wait is over:
//!
//! ```rust
//! let mut leases = Leases::new(alloc)?;
//! let mut depth = Depth::new(alloc, leases.lease()?);
//! depth.told(&first)?;
//! let key = depth.key(&facts);
//! drop(depth);
//! leases.wait(rt);
//! ```
#![tactic(auto)]

mod by_key;
mod counted;
mod edge_difference;
mod estimator;
mod heard;
pub mod key;
mod lease;
mod note;
mod notes;
mod work_space;

pub use by_key::ByKey;
pub use estimator::Estimator;
pub use key::{Arcs, ArcsAndDepth, ArcsAndGone, Depth, EdgeDifference, Key, Neighbours};
pub use lease::{Lease, Leases};
pub use note::Note;
pub use work_space::WorkSpace;
