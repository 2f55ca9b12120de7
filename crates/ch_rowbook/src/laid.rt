ghost use Rattle.std.specs.Prelude.{◌≡◌, ◌<◌};
ghost use Rattle.boxcar.specs.Table.{Shows};

use crate::book::Book;
use ch_overlay::Token;
use std::marker::PhantomData;

/// A record that was laid, and isn't shown yet: a row of a node, of which no reader knows.
///
/// One that is dropped leaves its record in the list, never shown.
#[derive(Drop)]
pub struct Laid<B: Book> {
    pub(crate) token: Token,
    pub(crate) node: u32,
    pub(crate) of: PhantomData<B>,
    ghost shown: { Shows B.book.list token },
    ghost node_is: { token.value.node ≡ node },
    ghost within: { node < B.book.nodes },
}

impl<B: Book> Laid<B> {
    /// Returns the node of the row.
    pub fn node(&self) -> u32
        ensures node { result ≡ self.now.node }
        ensures within { result < B.book.nodes }
    {
        self.node
    }

    /// Returns the version that the row has where it is shown: the place of its record. Takes no memory.
    pub fn version(&self) -> u64
        ensures { result ≡ self.now.token.index }
    {
        self.token.index() as u64
    }
}
