//! What a book returns where one growth is refused: `tests/program/refusals` runs the test once for each of its growths.
//!
//! A call that runs out of memory leaves pen and reader as they were, is made again, and has to give what it gives with
//! ample memory. What is used up by a refused call, as a blank, ends the test with that error, and so does a growth of
//! what the test sets up.
ghost use Rattle.std.specs.Prelude.{◌≡◌, ◌<◌, All, IfOk, length, map};
ghost use Rattle.std.specs.Arc.{arc_value};
ghost use Rattle.ch_overlay.specs.Source.{IsBound};
ghost use Rattle.ch_overlay.specs.Records.{AreSoundRows, IsSoundRow};
ghost use Rattle.ch_rowbook.specs.Blanks.{name_of};

use ch_cost::Cost;
use ch_overlay::{Row, SeeError, Seen};
use ch_rowbook::{Blank, Book, BookError, Pen, Reader, open};
use std::alloc::{AllocError, Global};
use std::marker::Brand;
use std::sync::{Arc, Wait};
use std::test::Fail;
use test_kit::{Given, are, are_sound, bound, is_sound, row};

/// The row of node 1 once node 0 is contracted.
fn later(alloc: Global, limit: Cost) -> Result<Arc<Row>, Fail>
    ensures { IfOk result (λ row. IsSoundRow limit 1 (arc_value row)) }
{
    let row = row(alloc, &[(2, (5, 2))], &[])?;
    if !is_sound(1, &row, limit) {
        return Err(Fail::new("the row can be relied on"));
    }
    Ok(row)
}

fn read<B: Book>(reader: &mut Reader<B>) -> Result<Seen, SeeError> {
    match reader.read(1) {
        Err(SeeError::OutOfMemory) => reader.read(1),
        answer => answer,
    }
}

/// Writes the later row, or lays it and doesn't show it: its version.
fn put<B: Book, R: Wait>(
    rt: &R,
    alloc: Global,
    pen: &mut Pen<B>,
    limit: Cost,
    is_shown: bool,
) -> Result<Result<u64, BookError>, Fail>
    requires nodes { B.book.nodes ≡ 3 }
    requires limit { B.book.bound ≡ limit }
{
    let row = later(alloc, limit)?;
    if is_shown {
        return Ok(pen.write(rt, 1, row));
    }
    match pen.lay(rt, 1, row) {
        Ok(laid) => Ok(Ok(laid.version())),
        Err(error) => Ok(Err(error)),
    }
}

/// The same, made again where it runs out of memory. A refused call leaves the current row.
fn written<B: Book, R: Wait>(
    rt: &R,
    alloc: Global,
    pen: &mut Pen<B>,
    limit: Cost,
    is_shown: bool,
) -> Result<u64, Fail>
    requires nodes { B.book.nodes ≡ 3 }
    requires limit { B.book.bound ≡ limit }
{
    let before = pen.version(1);
    let answer = put(rt, alloc, pen, limit, is_shown)?;
    if !matches!(answer, Err(BookError::OutOfMemory)) {
        return Ok(answer?);
    }
    if pen.version(1) != before {
        return Err(Fail::new("a refused row is current"));
    }
    Ok(put(rt, alloc, pen, limit, is_shown)??)
}

/// The row of node 2 once node 0 is contracted.
fn last(alloc: Global, limit: Cost) -> Result<Arc<Row>, Fail>
    ensures { IfOk result (λ row. IsSoundRow limit 2 (arc_value row)) }
{
    let row = row(alloc, &[], &[(1, (5, 2))])?;
    if !is_sound(2, &row, limit) {
        return Err(Fail::new("the row can be relied on"));
    }
    Ok(row)
}

/// Both rows, each with its node.
fn both(alloc: Global, limit: Cost) -> Result<Vec<(u32, Arc<Row>)>, Fail>
    ensures within { IfOk result (λ rows. All (λ a. a.0 < 3) rows.items) }
    ensures sound { IfOk result (λ rows. All (λ a. IsSoundRow limit a.0 (arc_value a.1)) rows.items) }
{
    let (first, second) = (later(alloc, limit)?, last(alloc, limit)?);
    let mut rows = Vec::new(alloc);
    rows.push((1, first))?;
    rows.push((2, second))?;
    Ok(rows)
}

/// Lays both rows and shows them. A refused call leaves the current rows, and the pen can go on: it is made again.
fn shown<B: Book, R: Wait>(
    rt: &R,
    alloc: Global,
    pen: &mut Pen<B>,
    rows: &[(u32, Arc<Row>)],
) -> Result<(u64, u64), BookError>
    requires nodes { B.book.nodes ≡ 3 }
    requires within { All (λ a. a.0 < 3) rows.now }
    requires sound { All (λ a. IsSoundRow B.book.bound a.0 (arc_value a.1)) rows.now }
{
    let before = (pen.version(1), pen.version(2));
    let laid = match pen.lay_all(rt, alloc, rows) {
        Err(BookError::OutOfMemory) => pen.lay_all(rt, alloc, rows)?,
        answer => answer?,
    };
    if (pen.version(1), pen.version(2)) != before {
        return Err(BookError::Slot);
    }
    pen.show_all(&laid);
    Ok((pen.version(1), pen.version(2)))
}

/// Whether both rows are above this version, one after the other, once they are laid together.
fn are_shown<B: Book, R: Wait>(
    rt: &R,
    alloc: Global,
    pen: &mut Pen<B>,
    limit: Cost,
    above: u64,
) -> Result<bool, Fail>
    requires nodes { B.book.nodes ≡ 3 }
    requires limit { B.book.bound ≡ limit }
{
    let rows = both(alloc, limit)?;
    let (first, second) = shown(rt, alloc, pen, &rows)?;
    Ok((above < first) & (first < second))
}

/// Whether a book of three nodes is read and written.
fn is_kept<B: Book, R: Wait>(
    rt: &R,
    alloc: Global,
    blank: Blank,
    rows: &[Arc<Row>],
    limit: Cost,
) -> Result<bool, Fail>
    requires named { B.book ≡ name_of blank }
    requires nodes { blank.nodes ≡ 3 }
    requires limit { blank.bound ≡ limit }
    requires count { length rows.now ≡ 3 }
    requires sound { AreSoundRows blank.bound (map arc_value rows.now) }
    requires bound { IsBound limit }
{
    let (mut pen, mut reader): (Pen<B>, Reader<B>) = open(rt, alloc, blank, rows)?;
    is_written(rt, alloc, &mut pen, &mut reader, limit)
}

/// Whether the later row is read by another reader once it is written, and by this one not before.
fn is_written<B: Book, R: Wait>(
    rt: &R,
    alloc: Global,
    pen: &mut Pen<B>,
    reader: &mut Reader<B>,
    limit: Cost,
) -> Result<bool, Fail>
    requires nodes { B.book.nodes ≡ 3 }
    requires limit { B.book.bound ≡ limit }
{
    let mut other = split(reader)?;
    is_found(rt, alloc, pen, reader, &mut other, limit)
}

/// The same for two readers.
fn is_found<B: Book, R: Wait>(
    rt: &R,
    alloc: Global,
    pen: &mut Pen<B>,
    reader: &mut Reader<B>,
    other: &mut Reader<B>,
    limit: Cost,
) -> Result<bool, Fail>
    requires nodes { B.book.nodes ≡ 3 }
    requires limit { B.book.bound ≡ limit }
{
    let (opening, version) = laid_in_vain(rt, alloc, pen, reader, limit)?;
    let (mut last, mut rise) = (version, opening < version);
    'rows: for _ in 0..20 {
        rise &= are_shown(rt, alloc, pen, limit, last)?;
        let next = written(rt, alloc, pen, limit, true)?;
        rise &= last < next;
        last = next;
    }
    Ok(rise & finds(other, last, (2, (5, 2)))?)
}

fn split<B: Book>(reader: &mut Reader<B>) -> Result<Reader<B>, AllocError> {
    match reader.split() {
        Ok(other) => Ok(other),
        Err(AllocError) => reader.split(),
    }
}

/// Lays the later row, and doesn't show it. The version of the opening row, which is still read, and that of the later.
fn laid_in_vain<B: Book, R: Wait>(
    rt: &R,
    alloc: Global,
    pen: &mut Pen<B>,
    reader: &mut Reader<B>,
    limit: Cost,
) -> Result<(u64, u64), Fail>
    requires nodes { B.book.nodes ≡ 3 }
    requires limit { B.book.bound ≡ limit }
{
    let opening = read(reader)?.version;
    let version = written(rt, alloc, pen, limit, false)?;
    if !finds(reader, opening, (0, (2, 1)))? {
        return Err(Fail::new("a row that isn't shown is read"));
    }
    Ok((opening, version))
}

/// Whether a reader finds the row of this version, whose one arc is this.
fn finds<B: Book>(reader: &mut Reader<B>, version: u64, arc: Given) -> Result<bool, SeeError> {
    let seen = read(reader)?;
    Ok((seen.version == version) & are(seen.row.out(), &[arc]))
}

/// The opening rows of three nodes: 1 leads to 0, and 0 to 2.
fn opening(alloc: Global) -> Result<Vec<Arc<Row>>, AllocError> {
    let rows = vec![in alloc;
        row(alloc, &[(2, (3, 1))], &[(1, (2, 1))])?,
        row(alloc, &[(0, (2, 1))], &[])?,
        row(alloc, &[], &[(0, (3, 1))])?,
    ]?;
    Ok(rows)
}

/// Whether a book of these rows, which have to be three that can be relied on, is read and written.
fn is_opened<R: Wait>(rt: &R, alloc: Global, rows: &[Arc<Row>]) -> Result<bool, Fail> {
    let limit = bound();
    if rows.len() != 3 {
        return Err(Fail::new("there are three opening rows"));
    }
    if !are_sound(rows, limit) {
        return Err(Fail::new("the opening rows can be relied on"));
    }
    let blank = Blank::new(alloc, 3, limit)?;
    is_kept::<Brand, R>(rt, alloc, blank, rows, limit)
}

#[test]
fn book(rt: HostRuntime) -> Result<(), Fail> {
    let rows = opening(rt.alloc())?;
    assert!(rt; is_opened(&rt, rt.alloc(), rows.as_slice())?);
    Ok(())
}
