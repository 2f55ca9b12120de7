ghost use Rattle.std.specs.Prelude.{◌≡◌, IfErr, IfSome};
ghost use Rattle.grfile.specs.Outcome.{IsOfLine};
ghost use Rattle.grfile.specs.Grammar.{Grammar};
ghost use Rattle.grfile.specs.PlainLines.{IsEntryBefore};

use crate::error::GrError;
use text_lines::Fields;

/// What a problem line says: how many nodes there are, and how many entries follow.
#[derive(Clone, Copy)]
pub(crate) struct Size {
    /// The nodes, numbered from 1 in the text.
    pub(crate) nodes: u32,
    /// The lines of entries that have to follow.
    pub(crate) entries: u32,
}

/// A plain line of an entry at the front of a text.
#[derive(Clone, Copy)]
pub(crate) struct PlainLine<'a, E> {
    /// What the line says.
    pub(crate) entry: E,
    /// What follows its line feed.
    pub(crate) rest: &'a [u8],
}

/// What a text has of its own: the letter of its entries, its problem line and its lines of entries.
pub(crate) trait Form: Copy {
    /// What a line of an entry says.
    type Entry: Copy;

    ghost grammar: { Self → Grammar Self.Entry };

    /// The first field of a line of an entry.
    fn letter(self) -> u8
        ensures { result ≡ (grammar self).letter };

    /// What the problem line with this number says, by its fields after the first.
    fn size(self, line: u64, fields: Fields<'_>) -> Result<Size, GrError>
        ensures says { result ≡ (grammar self).size_of line fields.entry }
        ensures refused { IfErr result (IsOfLine line) };

    /// What the line of an entry with this number says, by its fields after the first.
    fn entry(self, size: Size, line: u64, fields: Fields<'_>) -> Result<Self::Entry, GrError>
        ensures says { result ≡ (grammar self).entry_of size line fields.entry }
        ensures refused { IfErr result (IsOfLine line) };

    /// What the line of an entry with this number says that a text begins with, where it is as plain as nearly all are:
    /// the letter and the numbers, with one space between, and a line feed. None else, also where it has a fault.
    fn plain(self, size: Size, line: u64, text: &[u8]) -> Option<PlainLine<'_, Self::Entry>>
        ensures { IfSome result (λ found. IsEntryBefore (grammar self) size line text.now found.entry found.rest.now) };
}
