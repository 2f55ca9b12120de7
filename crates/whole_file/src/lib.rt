//! Files that are whole or not there.
//!
//! A file that is written in place is cut if a write fails, and what was there is lost. So bytes are gathered in a draft,
//! beside their [`Destination`], and put there once the draft is whole; a draft that isn't is discarded. Uses std alone.
//! [`OutFile`] is a destination in the file system. [`is_one_file`] returns whether two names are of one file, and
//! [`obstacle`] why no file can be made at a path. The promise is in the contract of [`Destination`]: what is there changes
//! by [`Destination::put`] alone, and then it is the draft whole. One that shows what is there is held to it; a file shows
//! no contract what it keeps, so of [`OutFile`] that is tested.
//!
//! Bytes are written to a draft, and appear at the path all at once:
//!
//! ```rust
//! let mut out = OutFile::new(rt, "net.rch");
//! let mut draft = out.draft()?;
//! draft.write_all(b"the whole file")?;
//! out.put(draft)?;
//! ```
#![tactic(auto)]

mod beside;
mod destination;
mod draft;
mod folder;
mod one_file;
mod out_file;

pub use destination::Destination;
pub use draft::PendingFile;
pub use folder::{folder_of, obstacle};
pub use one_file::is_one_file;
pub use out_file::OutFile;
