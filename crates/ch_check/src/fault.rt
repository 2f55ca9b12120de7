use std::alloc::{AllocError, AllocFailed};

/// Why the contractions didn't lead to the links of a hierarchy.
#[derive(Drop)]
pub enum Fault {
    /// Out of memory.
    OutOfMemory,
    /// The searches for ways have settled too many nodes.
    Work,
    /// No way around a node was found for a pair.
    Way { via: u32, from: u32, to: u32 },
    /// A link and an arc between two nodes aren't the same.
    Link { from: u32, to: u32 },
}

impl From<AllocError> for Fault {
    fn from(_refused: AllocError) -> Fault {
        Fault::OutOfMemory
    }
}

impl<T: Drop> From<AllocFailed<T>> for Fault {
    fn from(_refused: AllocFailed<T>) -> Fault {
        Fault::OutOfMemory
    }
}
