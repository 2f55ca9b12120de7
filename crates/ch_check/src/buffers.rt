ghost use Rattle.std.specs.Prelude.{◌≡◌, [], ℕ, None};
ghost use Rattle.ch_witness.specs.Kept.{kept_of};

use crate::ways::Finder;
use ch_laws::Shortcut;
use std::alloc::Global;

/// What contractions are worked out in, one after the other, in memory that is used again.
#[derive(Drop)]
pub struct Buffers {
    /// The shortcuts of the contraction.
    pub shortcuts: Vec<Shortcut>,
    /// The pairs from one neighbour.
    pub pairs: PairLists,
    /// What finds their ways, along the rows that were read for it.
    pub finder: Finder,
}

/// What is due for the pairs from one neighbour.
#[derive(Drop)]
pub struct PairLists {
    /// Those that get a shortcut.
    pub put: Vec<Shortcut>,
    /// Those that a way is owed for.
    pub owed: Vec<Shortcut>,
}

impl Buffers {
    /// Nothing is worked out yet, of a hierarchy of this many links. It takes no memory yet.
    pub fn new(alloc: Global, links: usize) -> Buffers {
        Buffers {
            shortcuts: Vec::new(alloc),
            pairs: PairLists {
                put: Vec::new(alloc),
                owed: Vec::new(alloc),
            },
            finder: Finder::new(alloc, links),
        }
    }

    /// Forgets the contraction that was worked out last.
    pub fn clear(&mut self)
        ensures shortcuts { self.new.shortcuts.items ≡ [] }
        ensures rows { (x : ℕ) → kept_of self.new.finder.searcher.rows x ≡ None }
    {
        self.shortcuts.clear();
        self.finder.searcher.rows.forget();
    }
}
