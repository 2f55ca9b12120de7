//! The pen of a book.
ghost use Rattle.std.specs.Prelude.{◌≡◌, ◌+◌, ◌<◌, ◌≤◌, ℕ, IfOk, OnErr, slice_index, slice_set};
ghost use Rattle.std.specs.Arc.{arc_value};
ghost use Rattle.ch_laws.specs.Rows.{row_at};
ghost use Rattle.ch_overlay.specs.Source.{IsSeenRow, row_in};
ghost use Rattle.ch_rowbook.specs.Books.{IsOfBook, PenKeeps, pen_of, versions_of};
ghost use Rattle.ch_rowbook.specs.Showing.{HasNoVersion, of_node};
ghost use Rattle.ch_rowbook.specs.Words.{IsBelow};
ghost use Rattle.ch_rowbook.specs.declared.error.BookError.TheVariants.{Slot};
ghost use Rattle.ch_overlay.specs.Records.{IsSoundRow, recorded_row};

use crate::book::Book;
use crate::error::BookError;
use crate::laid::Laid;
use crate::reader::Reader;
use crate::shelf::Shelf;
use crate::words::KnownWords;
use atomic_table::Seat;
use ch_overlay::{Row, Seen, Token};
use std::alloc::{AllocError, Global};
use std::marker::{Model, PhantomData};
use std::sync::{Arc, Wait};

/// Writes the rows of a book; a book has one.
///
/// A contract sees the current version and row of each node, and the least version that a row may get next.
#[derive(Drop)]
pub struct Pen<B: Book> {
    pub(crate) shelf: Arc<Shelf<B>>,
    pub(crate) seat: Seat<(), KnownWords>,
    next: u64,
    current: Vec<Token>,
}

impl<B: Book> Model for Pen<B> {
    ghost use Rattle.ch_rowbook.specs.Books as books;

    ghost Value = { books.PenView };

    ghost view = { λ p. books.pen_of p.next p.current.items };

    ghost invariant = { λ p. books.PenKeeps B.book p.seat p.next p.current.items };
}

impl<B: Book> Pen<B> {
    /// A pen of this seat, whose nodes have these records.
    pub(crate) fn seated(
        shelf: Arc<Shelf<B>>,
        seat: Seat<(), KnownWords>,
        next: u64,
        current: Vec<Token>,
    ) -> Pen<B>
        requires { PenKeeps B.book seat next current.items }
        ensures { result ≡ pen_of next current.items }
    {
        Pen {
            shelf,
            seat,
            next,
            current,
        }
    }

    /// Lays a row of a node, which is in range: it has a version from now on, and no reader knows of it.
    ///
    /// `Slot` where the list gives the record a place below the next version, or the last that there is. On a refusal
    /// nothing changes. Takes memory for the record, and waits while another thread makes room for it.
    pub fn lay<R: Wait>(&mut self, rt: &R, node: u32, row: Arc<Row>) -> Result<Laid<B>, BookError>
        requires within { node < B.book.nodes }
        requires row { IsSoundRow B.book.bound node (arc_value row) }
        ensures node { IfOk result (λ l. l.node ≡ node) }
        ensures row { IfOk result (λ l. recorded_row l.token.value ≡ arc_value row) }
        ensures above { IfOk result (λ l. slice_index self.old.versions node < l.token.index) }
        ensures later { IfOk result (λ l. self.old.next ≤ l.token.index) }
        ensures next { IfOk result (λ l. self.new ≡ record self.old { next = l.token.index + 1 }) }
        ensures err { OnErr result (self.new ≡ self.old) }
        ensures slot { result ≡ Err Slot → HasNoVersion B.book.list self.old.next (of_node node (arc_value row)) }
    {
        let token = self.shelf.append(rt, node, row, self.next)?;
        self.next = token.index() as u64 + 1;
        Ok(Laid {
            token,
            node,
            of: PhantomData,
        })
    }

    /// Makes a record that this pen laid the current one of its node. Its version is above the node's current one.
    ///
    /// It is one store. Takes no memory, and can't fail.
    pub fn show(&mut self, laid: Laid<B>)
        requires above { slice_index self.old.versions laid.node < laid.token.index }
        requires laid { laid.token.index < self.old.next }
        ensures versions { self.new.versions ≡ slice_set self.old.versions laid.node laid.token.index }
        ensures rows { self.new.rows ≡ slice_set self.old.rows laid.node (recorded_row laid.token.value) }
        ensures next { self.new.next ≡ self.old.next }
    {
        self.show_one(&laid);
    }

    /// Shows a record as [`Pen::show`] does, and leaves it to the caller.
    pub(crate) fn show_one(&mut self, laid: &Laid<B>)
        requires above { slice_index self.old.versions laid.now.node < laid.now.token.index }
        requires laid { laid.now.token.index < self.old.next }
        ensures versions { self.new.versions ≡ slice_set self.old.versions laid.now.node laid.now.token.index }
        ensures rows { self.new.rows ≡ slice_set self.old.rows laid.now.node (recorded_row laid.now.token.value) }
        ensures next { self.new.next ≡ self.old.next }
    {
        self.shelf.store(&mut self.seat, laid.node, laid.version());
        self.current[laid.node as usize] = laid.token.again();
    }

    /// Lays a row and shows it, and returns its version. Refused as [`Pen::lay`] is, and then nothing changes. The next
    /// version is above it.
    pub fn write<R: Wait>(&mut self, rt: &R, node: u32, row: Arc<Row>) -> Result<u64, BookError>
        requires within { node < B.book.nodes }
        requires row { IsSoundRow B.book.bound node (arc_value row) }
        ensures above { IfOk result (λ v. slice_index self.old.versions node < v) }
        ensures versions { IfOk result (λ v. self.new.versions ≡ slice_set self.old.versions node v) }
        ensures rows { IfOk result (λ _. self.new.rows ≡ slice_set self.old.rows node (arc_value row)) }
        ensures later { IfOk result (λ v. self.old.next ≤ v) }
        ensures next { IfOk result (λ v. self.new.next ≡ v + 1) }
        ensures err { OnErr result (self.new ≡ self.old) }
        ensures slot { result ≡ Err Slot → HasNoVersion B.book.list self.old.next (of_node node (arc_value row)) }
    {
        let laid = self.lay(rt, node, row)?;
        let version = laid.version();
        self.show(laid);
        Ok(version)
    }

    /// Returns the version of a node's current row. The node is in range.
    pub fn version(&self, node: u32) -> u64
        requires { node < B.book.nodes }
        ensures { result ≡ slice_index self.now.versions node }
    {
        self.current[node as usize].index() as u64
    }

    /// Returns the versions of all nodes' current rows, by the nodes' numbers. Takes memory for them.
    pub fn versions(&self, alloc: Global) -> Result<Vec<u64>, AllocError>
        ensures { IfOk result (λ versions. versions.items ≡ self.now.versions) }
    {
        places_of(alloc, self.current.as_slice())
    }

    /// Returns the current row of a node, which is in range. The row is shared, so no memory is taken; refused where
    /// it can't have one more owner.
    pub fn see(&self, node: u32) -> Result<Seen, AllocError>
        requires { node < B.book.nodes }
        ensures node { IfOk result (λ s. s.node ≡ node) }
        ensures version { IfOk result (λ s. s.version ≡ slice_index self.now.versions node) }
        ensures current { IfOk result (λ s. row_in s ≡ row_at self.now.rows node) }
        ensures record { IfOk result (IsOfBook B.book) }
        ensures row { IfOk result (λ s. IsSeenRow B.book.bound s) }
    {
        self.shelf.seen(self.current[node as usize].again())
    }

    /// Gives a reader of the book all current versions, which become its front: what it reads next isn't older.
    ///
    /// Takes no memory, and doesn't wait.
    pub fn synchronise(&mut self, reader: &mut Reader<B>)
        ensures same { self.new ≡ self.old }
        ensures front { (x : ℕ) → x < B.book.nodes → slice_index reader.new x ≡ slice_index self.old.versions x }
        ensures risen { IsBelow reader.old reader.new }
    {
        let front = self.shelf.part(&mut reader.seat);
        self.shelf.join_reader(&mut self.seat, front);
        let current = self.shelf.part_of_pen(&mut self.seat);
        self.shelf.meet(&mut reader.seat, current);
    }

    /// An answer of this book whose version is current has the current row. It does nothing when it runs but look at
    /// the node's record.
    pub fn agrees(&self, seen: &Seen)
        requires record { IsOfBook B.book seen.now }
        requires current { seen.now.version ≡ slice_index self.now.versions seen.now.node }
        ensures { row_in seen.now ≡ row_at self.now.rows seen.now.node }
    {
        let node = seen.node as usize;
        let Some(token) = &seen.token else {
            unreachable!()
        };
        self.shelf.list.agrees(&self.current[node], token);
    }
}

/// The places of these records, in order.
fn places_of(alloc: Global, tokens: &[Token]) -> Result<Vec<u64>, AllocError>
    ensures { IfOk result (λ places. places.items ≡ versions_of tokens.now) }
{
    let mut places = Vec::with_capacity(alloc, tokens.len())?;
    'tokens: for at in 0..tokens.len() {
        places.push(tokens[at].index() as u64)?;
    }
    Ok(places)
}
