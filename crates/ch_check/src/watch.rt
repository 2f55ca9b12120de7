/// Sees how far a check has come.
pub trait Watch {
    /// Is called after each node that was contracted, with the number of those so far.
    fn contracted(&self, done: u32);
}

/// Sees nothing.
#[derive(Clone, Copy, Debug)]
pub struct Unwatched;

impl Watch for Unwatched {
    fn contracted(&self, _done: u32) {}
}
