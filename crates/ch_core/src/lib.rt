//! Workers who contract the nodes of one graph, in any order: each reads rows as old as it likes, works out proposals
//! by what it read, and offers them.
//!
//! Builds on `ch_contract`, whose ledgers it holds, and on the rows of `ch_overlay`. Its main type is [`World`]: a
//! ledger, the book of all versions of the rows, and what each worker read. The promise of the layer is the contract
//! of [`World::step`]: an offer whose rows are all current by their version numbers alone is a lawful contraction. By
//! [`run`] so is every run of reads and offers, however they are mixed.
//!
//! Whoever wants to know what a run returns lists its events:
//!
//! ```rust
//! let read = Event::Read { worker: 0, node: 0, version: 0 };
//! let (world, outcomes) = run(alloc, graph, 1, vec![in alloc; read, Event::Forget { worker: 0 }]?)?;
//! assert!(rt; outcomes.as_slice() == [Outcome::Shown, Outcome::Forgotten].as_slice());
//! ```
#![tactic(auto)]

mod book;
mod event;
mod offering;
mod reads;
mod running;
mod view;
mod world;

pub use event::{Event, Outcome};
pub use running::run;
pub use view::View;
pub use world::World;
