ghost use Rattle.std.specs.Prelude.{◌≡◌, ◌∷◌, List, ℕ};
ghost use Rattle.grfile.specs.Grammar.{kind_of};

/// What a line is, by its first field.
#[derive(Clone, Copy)]
pub(crate) enum LineKind {
    /// A comment, or a line without fields.
    Skipped,
    /// A problem line.
    Problem,
    /// A line of an entry: an arc, or a pair.
    Entry,
    /// No line of this text.
    Unknown,
}

/// The kind of a line by its first field, where entries have this letter.
pub(crate) fn kind_of(letter: u8, first: &[u8]) -> LineKind
    ensures { (more : List (List ℕ)) → result ≡ kind_of letter (first.now ∷ more) }
{
    match first {
        [b'c', ..] => LineKind::Skipped,
        [b'p'] => LineKind::Problem,
        [byte] if *byte == letter => LineKind::Entry,
        _ => LineKind::Unknown,
    }
}
