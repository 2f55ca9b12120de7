//! Readers of a book.
ghost use Rattle.std.specs.Prelude.{◌≡◌, ◌<◌, ◌≤◌, ℕ, IfOk, OnErr, max, slice_index, slice_set};
ghost use Rattle.ch_overlay.specs.Source.{IsSeenRow, row_in};
ghost use Rattle.ch_overlay.specs.Records.{Bears};
ghost use Rattle.ch_overlay.specs.declared.source.SeeError.TheVariants.{Unseen};
ghost use Rattle.ch_rowbook.specs.Books.{IsOfBook, IsReaderSeat};

use crate::book::Book;
use crate::shelf::Shelf;
use crate::words::KnownWords;
use atomic_table::Seat;
use ch_cost::Cost;
use ch_overlay::{RowSource, SeeError, Seen};
use std::alloc::AllocError;
use std::marker::Model;
use std::sync::Arc;

/// Reads the rows of a book, while its pen writes.
///
/// A contract sees its front: for each node, a version that its next answer isn't below. No call waits.
#[derive(Drop)]
pub struct Reader<B: Book> {
    shelf: Arc<Shelf<B>>,
    pub(crate) seat: Seat<(), KnownWords>,
}

impl<B: Book> Model for Reader<B> {
    ghost use Rattle.std.specs.Prelude.{ℕ, List};
    ghost use Rattle.ch_rowbook.specs.Books as books;

    ghost Value = { List ℕ };

    ghost view = { λ r. r.seat.me.0.versions };

    ghost invariant = { λ r. books.IsReaderSeat B.book r.seat };
}

impl<B: Book> Reader<B> {
    /// A reader of this seat.
    pub(crate) fn seated(shelf: Arc<Shelf<B>>, seat: Seat<(), KnownWords>) -> Reader<B>
        requires { IsReaderSeat B.book seat }
        ensures { result ≡ seat.me.0.versions }
    {
        Reader { shelf, seat }
    }

    /// Returns the current row of a node, as one load of its word finds it, and the token of its record.
    ///
    /// `Unseen` where the node is out of range. Its version isn't below the front there, and becomes the front there.
    /// A refusal leaves the front as it was. The row is shared, so no memory is taken; `OutOfMemory` where it can't have
    /// one more owner.
    pub fn read(&mut self, node: u32) -> Result<Seen, SeeError>
        ensures node { IfOk result (λ s. s.node ≡ node) }
        ensures record { IfOk result (IsOfBook B.book) }
        ensures row { IfOk result (λ s. IsSeenRow B.book.bound s) }
        ensures rises { IfOk result (λ s. slice_index self.old node ≤ s.version) }
        ensures front { IfOk result (λ s. self.new ≡ slice_set self.old node s.version) }
        ensures here { IfOk result (λ s. slice_index self.new node ≡ s.version) }
        ensures err { OnErr result (self.new ≡ self.old) }
        ensures out { B.book.nodes ≤ node → result ≡ Err Unseen }
    {
        if node >= self.shelf.nodes {
            return Err(SeeError::Unseen);
        }
        let mut ahead = self.shelf.part(&mut self.seat);
        let version = self.shelf.load(&mut ahead, node);
        let seen = self.shelf.record_at(node, version)?;
        self.shelf.meet(&mut self.seat, ahead);
        Ok(seen)
    }

    /// Returns the version of a node's current row, as one load of its word finds it. The node is in range.
    ///
    /// It isn't below the front there, and becomes the front there. Takes no memory.
    pub fn glance(&mut self, node: u32) -> u64
        requires { node < B.book.nodes }
        ensures rises { slice_index self.old node ≤ result }
        ensures front { self.new ≡ slice_set self.old node result }
        ensures here { slice_index self.new node ≡ result }
    {
        self.shelf.load(&mut self.seat, node)
    }

    /// Returns another reader with the same front. Takes no memory; refused where the book can't have one more owner.
    pub fn split(&mut self) -> Result<Reader<B>, AllocError>
        ensures same { self.new ≡ self.old }
        ensures new { IfOk result (λ r. r ≡ self.old) }
    {
        let shelf = Arc::try_clone(&self.shelf)?;
        let seat = shelf.part(&mut self.seat);
        Ok(Reader { shelf, seat })
    }

    /// Takes in another reader of the book: the front becomes the greater of the two at each node. Takes no memory.
    pub fn join(&mut self, other: Reader<B>)
        ensures { (x : ℕ) → slice_index self.new x ≡ max (slice_index self.old x) (slice_index other x) }
    {
        let Reader { shelf: _, seat } = other;
        self.shelf.meet(&mut self.seat, seat);
    }

    /// One version of a book names one node and one row, for good.
    pub fn same_record(&self, a: &Seen, b: &Seen)
        requires first { Bears B.book.list a.now }
        requires second { Bears B.book.list b.now }
        requires versions { a.now.version ≡ b.now.version }
        ensures node { a.now.node ≡ b.now.node }
        ensures row { row_in a.now ≡ row_in b.now }
    {
        let Some(first) = &a.token else {
            unreachable!()
        };
        let Some(second) = &b.token else {
            unreachable!()
        };
        self.shelf.list.agrees(first, second);
    }
}

/// A reader returns the current rows, and its front only rises.
impl<B: Book> RowSource for Reader<B> {
    ghost use Rattle.std.specs.Prelude.{◌≡◌, ◌≤◌, ℕ, IfOk, OnErr, slice_index, refl};
    ghost use Rattle.ch_overlay.specs.declared.source.Seen.{Seen};
    ghost use Rattle.ch_overlay.specs.declared.source.SeeError.TheVariants.{Unseen};
    ghost use Rattle.ch_overlay.specs.Source.{row_in, IsBound, IsSeenRow, NamesAlone};
    ghost use Rattle.ch_rowbook.specs.Books.{IsOfBook};
    ghost use Rattle.ch_rowbook.specs.Words.{IsBelow};
    ghost use Rattle.ch_rowbook.specs.Rising.{below_at, below_refl, below_trans};

    ghost bears = { λ s. IsOfBook B.book s };

    ghost shows = { λ front s. s.version ≤ slice_index front s.node };

    ghost stays = { λ a b. IsBelow a b };

    ghost whole = { λ _ _. ⊥ };

    ghost bound_of = { λ _. B.book.bound };

    fn row_of(&mut self, node: u32) -> Result<Seen, SeeError>
        ensures node { IfOk result (λ seen. seen.node ≡ node) }
        ensures row { IfOk result (IsSeenRow B.book.bound) }
        ensures bound { IsBound B.book.bound }
        ensures bears { IfOk result (IsOfBook B.book) }
        ensures shows { IfOk result (λ s. s.version ≤ slice_index self.new s.node) }
        ensures stays { IsBelow self.old self.new }
        ensures kept { OnErr result (self.new ≡ self.old) }
        ensures found { ⊥ → result ≡ Err Unseen → ⊥ }
        ensures names { ⊥ → IfOk result (λ seen. NamesAlone (λ _. ⊥) (row_in seen)) }
    {
        let _ = self.bound();
        self.read(node)
    }

    fn bound(&self) -> Cost {
        self.shelf.bound
    }

    ghost stays_self = { λ a. below_refl a a refl };

    ghost stays_more = { λ a b c h k. below_trans a b c h k };

    ghost still_shows = { λ a b s h k. below_at a b s.node s.version h k };

    ghost still_whole = { λ a b x h k. k };

    ghost same_bound = { λ a b h. refl };
}
