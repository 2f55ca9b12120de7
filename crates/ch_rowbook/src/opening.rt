//! How a book opens: a record for each node, shown before there is a reader.
ghost use Rattle.std.specs.Prelude.{◌≡◌, ◌^◌, ◌<◌, ℕ, IfOk, length, map, slice_index};
ghost use Rattle.std.specs.Arc.{arc_value};
ghost use Rattle.ch_laws.specs.Rows.{row_at};
ghost use Rattle.ch_overlay.specs.Source.{IsBound};
ghost use Rattle.ch_rowbook.specs.Blanks.{name_of};
ghost use Rattle.ch_rowbook.specs.Books.{AreOf, IsPenSeat, pen_of, rows_of, versions_of};
ghost use Rattle.ch_overlay.specs.Records.{AreSoundRows};
ghost use Rattle.ch_rowbook.specs.Showing.{GetsNoVersion, next_behind, of_node};
ghost use Rattle.ch_rowbook.specs.Words.{no_versions, width};
ghost use Rattle.ch_rowbook.specs.declared.error.BookError.TheVariants.{Slot};

use crate::blank::Blank;
use crate::book::Book;
use crate::error::BookError;
use crate::pen::Pen;
use crate::reader::Reader;
use crate::shelf::Shelf;
use crate::words::KnownWords;
use atomic_table::Seat;
use ch_overlay::{Row, Token};
use std::alloc::Global;
use std::marker::PhantomData;
use std::sync::{Arc, Wait};

/// The tokens of the opening records, and the least version that is above them.
#[derive(Drop)]
struct Opening {
    current: Vec<Token>,
    next: u64,
}

/// Lays each row, for the node of its place.
fn lay_rows<B: Book, R: Wait>(
    rt: &R,
    alloc: Global,
    shelf: &Shelf<B>,
    rows: &[Arc<Row>],
) -> Result<Opening, BookError>
    requires few { length rows.now < 2 ^ 32 }
    requires sound { AreSoundRows B.book.bound (map arc_value rows.now) }
    ensures count { IfOk result (λ o. length o.current.items ≡ length rows.now) }
    ensures tokens { IfOk result (λ o. AreOf B.book.list o.next (length rows.now) o.current.items) }
    ensures rows { IfOk result (λ o. rows_of o.current.items ≡ map arc_value rows.now) }
    ensures next { IfOk result (λ o. o.next ≡ next_behind 0 (versions_of o.current.items)) }
    ensures slot { result ≡ Err Slot → (k : ℕ) × (k < length rows.now) × GetsNoVersion B.book.list 0 (λ x. of_node x (row_at (map arc_value rows.now) x)) k }
{
    let mut current = Vec::with_capacity(alloc, rows.len())?;
    let mut next = 0;
    for node in 0..rows.len() {
        let row = Arc::try_clone(&rows[node])?;
        let token = shelf.append(rt, node as u32, row, next)?;
        next = token.index() as u64 + 1;
        current.push(token)?;
    }
    Ok(Opening { current, next })
}

/// Stores the first versions.
fn show_rows<B: Book>(shelf: &Shelf<B>, seat: &mut Seat<(), KnownWords>, current: &[Token])
    requires seat { IsPenSeat B.book seat.old }
    requires zeros { seat.old.me.0.versions ≡ no_versions (width B.book.nodes) }
    requires count { length current.now ≡ B.book.nodes }
    ensures seat { IsPenSeat B.book seat.new }
    ensures words { (x : ℕ) → x < B.book.nodes → slice_index seat.new.me.0.versions x ≡ slice_index (versions_of current.now) x }
{
    for node in 0..current.len() {
        shelf.store(seat, node as u32, current[node].index() as u64);
    }
}

/// Opens a blank: each row becomes the current one of the node of its place. The pen and the reader are of the book
/// that `B` names.
///
/// The next version is the one behind the last row's, or 0 where there is no node. `Slot` where the list gives one of the
/// records a place that isn't above the one before it, or the last place that there is. Takes memory for a record and a
/// token for each node, and waits while another thread makes room for records. On a refusal the blank is dropped.
pub fn open<B: Book, R: Wait>(
    rt: &R,
    alloc: Global,
    blank: Blank,
    rows: &[Arc<Row>],
) -> Result<(Pen<B>, Reader<B>), BookError>
    requires named { B.book ≡ name_of blank }
    requires count { length rows.now ≡ blank.nodes }
    requires sound { AreSoundRows blank.bound (map arc_value rows.now) }
    requires limit { IsBound blank.bound }
    ensures rows { IfOk result (λ r. r.0.rows ≡ map arc_value rows.now) }
    ensures count { IfOk result (λ r. length r.0.versions ≡ B.book.nodes) }
    ensures next { IfOk result (λ r. r.0.next ≡ next_behind 0 r.0.versions) }
    ensures slot { result ≡ Err Slot → (k : ℕ) × (k < length rows.now) × GetsNoVersion B.book.list 0 (λ x. of_node x (row_at (map arc_value rows.now) x)) k }
    ensures front { IfOk result (λ r. (x : ℕ) → x < B.book.nodes → slice_index r.1 x ≡ slice_index r.0.versions x) }
{
    let Blank {
        list,
        table,
        mut seat,
        nodes,
        bound,
    } = blank;
    let shelf: Shelf<B> = Shelf {
        list,
        table,
        nodes,
        bound,
        of: PhantomData,
    };
    let shelf = Arc::new(alloc, shelf)?;
    let Opening { current, next } = lay_rows(rt, alloc, &*shelf, rows)?;
    show_rows(&*shelf, &mut seat, current.as_slice());
    let first = shelf.part_of_pen(&mut seat);
    let reader = Reader::seated(Arc::try_clone(&shelf)?, first);
    let pen = Pen::seated(shelf, seat, next, current);
    Ok((pen, reader))
}
