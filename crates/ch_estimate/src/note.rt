/// What an estimator knows of a node.
#[derive(Clone, Copy, Debug, PartialEq, Eq)]
pub struct Note {
    /// The length of a longest chain of contracted nodes below it, each a neighbour of the next.
    pub depth: u32,
    /// How many of its neighbours were contracted.
    pub gone: u32,
}
