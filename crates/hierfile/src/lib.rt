//! Hierarchies in files.
//!
//! Builds on `ch_graph` for hierarchies and links, on `ch_cost` for lengths, and on `counted_io` for the calls of readers
//! and for the sink that gathers what is written. [`write`] and [`read`] carry its promise: what is written is the spelling
//! of the hierarchy (`bytes_of` in `specs/Spelling.antt`); what is read is a hierarchy whose spelling the bytes are, and
//! what is refused has the first fault that is reported (`first_fault` in `specs/Fault.antt`). Files have two versions, and
//! a hierarchy knows of which it is: both are read, and version 2 alone is written.
//!
//! Three laws tie the two together. [`hierarchies_have_one_spelling`] says that a hierarchy is determined by its bytes,
//! so that what is read is what was written, in its version. [`spellings_have_no_fault`] says that no spelling is
//! refused for its bytes, and [`faultless_bytes_are_spellings`] that all other bytes are.
//!
//! What was written of a hierarchy is read back:
//!
//! ```rust
//! let mut bytes = Vec::new(alloc);
//! hierfile::write(&hierarchy, &mut bytes)?;
//! let again = hierfile::read(alloc, &mut bytes.as_slice())?;
//! assert!(rt; again.links() == hierarchy.links());
//! ```
#![tactic(auto)]

mod byte_reader;
mod error;
mod guesses;
mod laws;
mod links;
mod ranks;
mod reading;
mod taken;
mod writing;

pub use counted_io::WriteFault;
pub use error::HierError;
pub use laws::{
    faultless_bytes_are_spellings, hierarchies_have_one_spelling, spellings_have_no_fault,
};
pub use reading::{read, read_within};
pub use writing::{write, write_within};
