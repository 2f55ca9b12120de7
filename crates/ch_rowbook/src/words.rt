//! The words of a book: the rule that they keep, and what each step on them shows.
ghost use Rattle.ch_rowbook.specs.Words.{Keeps, IsCompare, IsLoad, IsStore, greater, hearing, no_versions, pen_with, reader_with};

use atomic_table::{Join, Play, Split, TableRule};
use std::collections::LinkedList;

/// What the holder of a seat knows of the words. No value of it is made.
pub struct KnownWords {
    /// Whether it is the pen.
    pub is_pen: bool,
    /// The pen: each node's word. A reader: its front.
    pub versions: LinkedList<u64>,
    /// The pen: a front that it received, until it compares it with the words.
    pub heard: LinkedList<u64>,
}

/// The rule of the words, of which there are this many.
pub struct Versions;

impl TableRule<(), KnownWords, usize> for Versions {
    ghost holds = { Keeps };

    ghost first = { λ words. pen_with (no_versions words) };
}

/// A reader's load of a word.
pub struct Loads;

impl Play<(), KnownWords> for Loads {
    ghost then = { IsLoad };
}

/// The pen's store of a word.
pub struct Stores;

impl Play<(), KnownWords> for Stores {
    ghost then = { IsStore };
}

/// The pen's load of a word, by which it compares the front that it received with the words.
pub struct Compares;

impl Play<(), KnownWords> for Compares {
    ghost then = { IsCompare };
}

/// A reader is split off, with the same front.
pub struct SplitsOff;

impl Split<KnownWords> for SplitsOff {
    ghost left = { λ v. v };

    ghost right = { λ v. reader_with v.versions };
}

/// A reader is joined into another, whose front becomes the greater at each node.
pub struct Merges;

impl Join<KnownWords> for Merges {
    ghost use Rattle.std.specs.Prelude.{[]};

    ghost both = { λ v w. reader_with (greater v.versions w.versions) };

    ghost spent = { reader_with [] };
}

/// A reader is joined into the pen, which receives its front.
pub struct Hears;

impl Join<KnownWords> for Hears {
    ghost use Rattle.std.specs.Prelude.{[]};

    ghost both = { λ v w. hearing v.versions w.versions };

    ghost spent = { reader_with [] };
}
