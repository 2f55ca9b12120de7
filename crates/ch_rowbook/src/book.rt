use std::marker::Brand;

/// A type that names a book, so that pens and readers of this type are known to be of it.
///
/// The name is picked where a blank is at hand, at the call of a function that is generic in it; no value of the type
/// is ever made. Such a function, `fn work<B: Book>(.., blank: Blank, ..)` with `requires { B.book ≡ name_of blank }`,
/// has no `B` in the types of its signature. Its caller passes [`Brand`], as `work::<Brand>(.., blank, ..)`, and says
/// in the file Invariants.antt of its own proof that the name is that of the argument:
///
/// ```text
/// abbrev pub ghosts-work : goal.ghosts-work
/// ghosts-work a = record { book = name_of a.blank }
/// ```
pub trait Book {
    ghost use Rattle.ch_rowbook.specs.Books.{BookName};

    /// The book.
    ghost book: { BookName };
}

/// Names the book that its caller picks, and none where none is picked.
impl Book for Brand {
    ghost use Rattle.ch_rowbook.specs.Books.{no_book};

    ghost book = { no_book };
}
