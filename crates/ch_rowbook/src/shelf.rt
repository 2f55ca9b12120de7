//! What the pen and the readers of a book share.
ghost use Rattle.std.specs.Prelude.{◌≡◌, ◌≢◌, ◌↔◌, ◌+◌, ◌^◌, ◌<◌, ◌≤◌, IfOk, Some, length, slice_index, slice_set, [], ◌∷◌};
ghost use Rattle.std.specs.Arc.{arc_value};
ghost use Rattle.boxcar.specs.Table.{Shows};
ghost use Rattle.ch_overlay.specs.Source.{IsSeenRow};
ghost use Rattle.ch_overlay.specs.declared.source.SeeError.TheVariants.{Unseen};
ghost use Rattle.ch_overlay.specs.Records.{Bears, IsSoundRow, mark_of, recorded_row};
ghost use Rattle.ch_rowbook.specs.Books.{IsPenSeat, IsReaderSeat};
ghost use Rattle.ch_rowbook.specs.Showing.{HasNoVersion, of_node};
ghost use Rattle.ch_rowbook.specs.Words.{IsBelow, greater, width};
ghost use Rattle.ch_rowbook.specs.declared.error.BookError.TheVariants.{Slot};

use crate::blank::{Records, Words};
use crate::book::Book;
use crate::error::BookError;
use crate::words::{Compares, Hears, KnownWords, Loads, Merges, SplitsOff, Stores};
use atomic_table::Seat;
use ch_cost::Cost;
use ch_overlay::{Record, Row, SeeError, Seen, Token};
use std::alloc::AllocError;
use std::marker::PhantomData;
use std::sync::{Arc, Wait};

/// A book's list of records and its words.
#[derive(Drop)]
pub(crate) struct Shelf<B: Book> {
    pub(crate) list: Records,
    pub(crate) table: Words,
    pub(crate) nodes: u32,
    pub(crate) bound: Cost,
    pub(crate) of: PhantomData<B>,
    ghost list_is: { list ≡ B.book.list },
    ghost table_is: { table.shared.table_id ≡ B.book.words },
    ghost nodes_is: { nodes ≡ B.book.nodes },
    ghost bound_is: { bound ≡ B.book.bound },
    ghost mark: { list.tag ≡ mark_of bound },
    ghost words: { (table.shared.key ≡ width nodes) × (table.shared.table_id.words ≡ width nodes) },
}

impl<B: Book> Shelf<B> {
    /// A reader's load of a node's word.
    pub(crate) fn load(&self, seat: &mut Seat<(), KnownWords>, node: u32) -> u64
        requires seat { IsReaderSeat B.book seat.old }
        requires within { node < B.book.nodes }
        ensures seat { IsReaderSeat B.book seat.new }
        ensures rises { slice_index seat.old.me.0.versions node ≤ result }
        ensures front { seat.new.me.0.versions ≡ slice_set seat.old.me.0.versions node result }
    {
        self.table.shared.load::<Loads>(seat, node as usize)
    }

    /// The pen's store of a node's word.
    pub(crate) fn store(&self, seat: &mut Seat<(), KnownWords>, node: u32, version: u64)
        requires seat { IsPenSeat B.book seat.old }
        requires within { node < B.book.nodes }
        requires above { slice_index seat.old.me.0.versions node ≤ version }
        ensures seat { IsPenSeat B.book seat.new }
        ensures words { seat.new.me.0.versions ≡ slice_set seat.old.me.0.versions node version }
    {
        self.table
            .shared
            .store::<Stores>(seat, node as usize, version);
    }

    /// A reader's seat, split off a reader's.
    pub(crate) fn part(&self, seat: &mut Seat<(), KnownWords>) -> Seat<(), KnownWords>
        requires seat { IsReaderSeat B.book seat.old }
        ensures seat { IsReaderSeat B.book seat.new }
        ensures same { seat.new.me.0.versions ≡ seat.old.me.0.versions }
        ensures part { IsReaderSeat B.book result }
        ensures front { result.me.0.versions ≡ seat.old.me.0.versions }
    {
        self.table.shared.split_seat::<SplitsOff>(seat)
    }

    /// A reader's seat, split off the pen's.
    pub(crate) fn part_of_pen(&self, seat: &mut Seat<(), KnownWords>) -> Seat<(), KnownWords>
        requires seat { IsPenSeat B.book seat.old }
        ensures seat { IsPenSeat B.book seat.new }
        ensures same { seat.new.me.0.versions ≡ seat.old.me.0.versions }
        ensures part { IsReaderSeat B.book result }
        ensures front { result.me.0.versions ≡ seat.old.me.0.versions }
    {
        self.table.shared.split_seat::<SplitsOff>(seat)
    }

    /// Joins a reader's seat into another.
    pub(crate) fn meet(&self, seat: &mut Seat<(), KnownWords>, other: Seat<(), KnownWords>)
        requires seat { IsReaderSeat B.book seat.old }
        requires other { IsReaderSeat B.book other }
        ensures seat { IsReaderSeat B.book seat.new }
        ensures front { seat.new.me.0.versions ≡ greater seat.old.me.0.versions other.me.0.versions }
    {
        self.table.shared.join_seat::<Merges>(seat, other);
    }

    /// Joins a reader's seat into the pen's: its front is nowhere above the words, as a load shows the pen.
    pub(crate) fn join_reader(&self, seat: &mut Seat<(), KnownWords>, other: Seat<(), KnownWords>)
        requires seat { IsPenSeat B.book seat.old }
        requires other { IsReaderSeat B.book other }
        ensures seat { IsPenSeat B.book seat.new }
        ensures same { seat.new.me.0.versions ≡ seat.old.me.0.versions }
        ensures below { IsBelow other.me.0.versions seat.old.me.0.versions }
    {
        self.table.shared.join_seat::<Hears>(seat, other);
        self.table.shared.load::<Compares>(seat, 0);
    }

    /// Makes room for this many more records, so that laying them takes no more memory.
    pub(crate) fn reserve(&self, records: usize) -> Result<(), AllocError> {
        self.list.reserve(records)
    }

    /// Appends a record, whose place isn't below `next`, and returns its token. `Slot` where the list gives a place below
    /// it, or the last that there is.
    pub(crate) fn append<R: Wait>(
        &self,
        rt: &R,
        node: u32,
        row: Arc<Row>,
        next: u64,
    ) -> Result<Token, BookError>
        requires { IsSoundRow B.book.bound node (arc_value row) }
        ensures record { IfOk result (λ t. Shows B.book.list t × (t.value.node ≡ node) × (recorded_row t.value ≡ arc_value row)) }
        ensures place { IfOk result (λ t. (next ≤ t.index) × (t.index + 1 < 2 ^ 64)) }
        ensures slot { result ≡ Err Slot → HasNoVersion B.book.list next (of_node node (arc_value row)) }
    {
        let Ok(token) = self.list.push_shown(rt, Record { node, row }) else {
            return Err(BookError::OutOfMemory);
        };
        let place = token.index() as u64;
        if place < next {
            return Err(BookError::Slot);
        }
        if place == u64::MAX {
            return Err(BookError::Slot);
        }
        Ok(token)
    }

    /// The row of a token's record.
    pub(crate) fn seen(&self, token: Token) -> Result<Seen, AllocError>
        requires { Shows B.book.list token }
        ensures token { IfOk result (λ s. s.token ≡ Some token) }
        ensures node { IfOk result (λ s. s.node ≡ token.value.node) }
        ensures version { IfOk result (λ s. s.version ≡ token.index) }
        ensures bears { IfOk result (λ s. Bears B.book.list s) }
        ensures row { IfOk result (λ s. IsSeenRow B.book.bound s) }
    {
        let place = token.index();
        let Some(record) = self.list.get_seen(place, &token) else {
            unreachable!()
        };
        let row = Arc::try_clone(&record.row)?;
        Ok(Seen {
            node: record.node,
            version: place as u64,
            row,
            token: Some(token),
        })
    }

    /// The record at a version, if it is of this node. `Unseen` where the list has none there that is shown, or where it
    /// is of another node.
    pub(crate) fn record_at(&self, node: u32, version: u64) -> Result<Seen, SeeError>
        ensures node { IfOk result (λ s. s.node ≡ node) }
        ensures version { IfOk result (λ s. s.version ≡ version) }
        ensures bears { IfOk result (λ s. Bears B.book.list s) }
        ensures row { IfOk result (λ s. IsSeenRow B.book.bound s) }
    {
        match self.list.witness(version as usize) {
            Some(token) => self.seen_of(node, token),
            None => Err(SeeError::Unseen),
        }
    }

    /// The row of a token's record, if it is of this node.
    fn seen_of(&self, node: u32, token: Token) -> Result<Seen, SeeError>
        requires { Shows B.book.list token }
        ensures node { IfOk result (λ s. s.node ≡ node) }
        ensures version { IfOk result (λ s. s.version ≡ token.index) }
        ensures bears { IfOk result (λ s. Bears B.book.list s) }
        ensures row { IfOk result (λ s. IsSeenRow B.book.bound s) }
        ensures unseen { (result ≡ Err Unseen) ↔ (token.value.node ≢ node) }
    {
        if self.list.value(&token).node != node {
            return Err(SeeError::Unseen);
        }
        let seen = self.seen(token)?;
        Ok(seen)
    }
}
