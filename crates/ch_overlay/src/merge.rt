ghost use Rattle.std.specs.Prelude.{◌≡◌};
ghost use Rattle.std.specs.Iterator.{YieldsFirst, item_count};
ghost use Rattle.ch_overlay.specs.Merging.{merged};

use ch_laws::Entry;

/// Goes through two lists of entries that rise by their other nodes, as one such list. Where both have an entry for a
/// node, the new one is given.
#[derive(Drop)]
pub struct Merge<'a> {
    old: &'a [Entry],
    new: &'a [Entry],
}

impl<'a> Merge<'a> {
    /// Before the first entry of both.
    pub fn new(old: &'a [Entry], new: &'a [Entry]) -> Merge<'a>
        ensures old { result.old.now ≡ old.now }
        ensures new { result.new.now ≡ new.now }
    {
        Merge { old, new }
    }
}

impl<'a> Iterator for Merge<'a> {
    type Item = Entry;

    ghost next_gives = { YieldsFirst (λ m. merged m.old.now m.new.now) };

    ghost remaining = { item_count (λ m. merged m.old.now m.new.now) };

    fn next(&mut self) -> Option<Entry> {
        let Some((new, later)) = self.new.split_first() else {
            let (old, others) = self.old.split_first()?;
            self.old = others;
            return Some(*old);
        };
        let Some((old, others)) = self.old.split_first() else {
            self.new = later;
            return Some(*new);
        };
        if old.other < new.other {
            self.old = others;
            return Some(*old);
        }
        if old.other == new.other {
            self.old = others;
        }
        self.new = later;
        Some(*new)
    }
}
