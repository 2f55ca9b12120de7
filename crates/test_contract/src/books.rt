ghost use Rattle.std.specs.Prelude.{◌≡◌, length, map};
ghost use Rattle.std.specs.Arc.{arc_value};
ghost use Rattle.ch_overlay.specs.Source.{IsBound};
ghost use Rattle.ch_overlay.specs.Records.{AreSoundRows, IsSoundRow};
ghost use Rattle.ch_rowbook.specs.Blanks.{name_of};

use ch_overlay::{Row, RowSource, SeeError, Seen};
use ch_rowbook::{Blank, Book, Pen, Reader, open};
use std::alloc::{AllocError, Global};
use std::marker::Brand;
use std::sync::{Arc, Wait};
use std::test::Fail;
use test_kit::{Entries, are, are_sound, bound, is_sound, row};

/// The opening rows of three nodes: 1 leads to 0, and 0 to 2.
const ROWS: [(Entries<'static>, Entries<'static>); 3] = [
    (&[(2, (3, 1))], &[(1, (2, 1))]),
    (&[(0, (2, 1))], &[]),
    (&[], &[(0, (3, 1))]),
];

/// The row of node 1 once node 0 is contracted.
const LATER: Entries<'static> = &[(2, (5, 2))];

/// Whether an answer is of this node and has these entries.
fn shows(seen: &Seen, node: u32, out: Entries<'_>, inn: Entries<'_>) -> bool {
    seen.node == node && are(seen.row.out(), out) && are(seen.row.inn(), inn)
}

/// Whether the opening rows are read, and a later one once it is shown.
fn is_kept<B: Book, R: Wait>(
    rt: &R,
    alloc: Global,
    pen: &mut Pen<B>,
    reader: &mut Reader<B>,
) -> Result<bool, Fail>
    requires nodes { B.book.nodes ≡ 3 }
    requires bound { IsBound B.book.bound }
{
    let holds = finds_opening(reader)?;
    let mut other = reader.split()?;
    Ok(holds & is_read_back(rt, alloc, pen, reader, &mut other)?)
}

/// Whether the later row can be relied on and is read back once it is shown, and the first one once it is written anew.
fn is_read_back<B: Book, R: Wait>(
    rt: &R,
    alloc: Global,
    pen: &mut Pen<B>,
    reader: &mut Reader<B>,
    other: &mut Reader<B>,
) -> Result<bool, Fail>
    requires nodes { B.book.nodes ≡ 3 }
    requires bound { IsBound B.book.bound }
{
    let opening = reader.read(1)?.version;
    let limit = reader.bound();
    let later = row(alloc, LATER, &[])?;
    if !is_sound(1, &later, limit) {
        return Ok(false);
    }
    let first = row(alloc, ROWS[1].0, &[])?;
    if !is_sound(1, &first, limit) {
        return Ok(false);
    }
    let shown = is_shown(rt, pen, reader, other, opening, later)?;
    Ok(shown & is_written(rt, pen, reader, first)?)
}

/// Whether the first row of node 1, written anew, is read back with a later version.
fn is_written<B: Book, R: Wait>(
    rt: &R,
    pen: &mut Pen<B>,
    reader: &mut Reader<B>,
    first: Arc<Row>,
) -> Result<bool, Fail>
    requires nodes { B.book.nodes ≡ 3 }
    requires row { IsSoundRow B.book.bound 1 (arc_value first) }
{
    let before = pen.version(1);
    let version = pen.write(rt, 1, first)?;
    Ok((before < version) & is_current(reader, version, ROWS[1].0)?)
}

/// Whether two readers and the pen find a row of node 1 in place of the opening one, and only once it is shown.
fn is_shown<B: Book, R: Wait>(
    rt: &R,
    pen: &mut Pen<B>,
    reader: &mut Reader<B>,
    other: &mut Reader<B>,
    opening: u64,
    later: Arc<Row>,
) -> Result<bool, Fail>
    requires nodes { B.book.nodes ≡ 3 }
    requires row { IsSoundRow B.book.bound 1 (arc_value later) }
{
    let laid = pen.lay(rt, 1, later)?;
    let version = laid.version();
    let before = is_current(reader, opening, ROWS[1].0);
    pen.show(laid);
    let after = is_current(other, version, LATER)? & (reader.glance(1) == version);
    Ok(before? & (opening < version) & after & is_own(pen, version)?)
}

/// Whether a reader finds the row of node 1 of this version, which has these entries out of it alone.
fn is_current<B: Book>(
    reader: &mut Reader<B>,
    version: u64,
    out: Entries<'_>,
) -> Result<bool, SeeError>
    requires nodes { B.book.nodes ≡ 3 }
{
    let seen = reader.read(1)?;
    Ok((seen.version == version) & shows(&seen, 1, out, &[]))
}

/// Whether the pen has the later row as the current one of node 1, of this version.
fn is_own<B: Book>(pen: &Pen<B>, version: u64) -> Result<bool, AllocError>
    requires nodes { B.book.nodes ≡ 3 }
{
    let own = pen.see(1)?;
    Ok((pen.version(1) == version) & shows(&own, 1, LATER, &[]))
}

/// Whether the opening rows are read, and none besides.
fn finds_opening<B: Book>(reader: &mut Reader<B>) -> Result<bool, SeeError> {
    let mut holds = true;
    for node in 0..3u32 {
        let (out, inn) = ROWS[node as usize];
        let seen = reader.read(node)?;
        holds &= shows(&seen, node, out, inn);
    }
    holds &= matches!(reader.read(3), Err(SeeError::Unseen));
    Ok(holds & matches!(reader.row_of(3), Err(SeeError::Unseen)))
}

/// Opens a book of three nodes, and reads and writes it.
fn is_read<B: Book, R: Wait>(
    rt: &R,
    alloc: Global,
    blank: Blank,
    rows: &[Arc<Row>],
) -> Result<bool, Fail>
    requires named { B.book ≡ name_of blank }
    requires nodes { blank.nodes ≡ 3 }
    requires count { length rows.now ≡ 3 }
    requires sound { AreSoundRows blank.bound (map arc_value rows.now) }
    requires bound { IsBound blank.bound }
{
    let (mut pen, mut reader): (Pen<B>, Reader<B>) = open(rt, alloc, blank, rows)?;
    is_kept(rt, alloc, &mut pen, &mut reader)
}

/// The opening rows.
fn opening(alloc: Global) -> Result<Vec<Arc<Row>>, Fail> {
    let mut rows = Vec::new(alloc);
    for (out, inn) in ROWS {
        rows.push(row(alloc, out, inn)?)?;
    }
    Ok(rows)
}

/// Whether a book of these rows, which have to be three that can be relied on, is read and written.
fn is_opened<R: Wait>(rt: &R, alloc: Global, rows: &[Arc<Row>]) -> Result<bool, Fail> {
    let limit = bound();
    if rows.len() != 3 {
        return Err(Fail::new("there are three opening rows"));
    }
    if !are_sound(rows, limit) {
        return Err(Fail::new("the opening rows can be relied on"));
    }
    let blank = Blank::new(alloc, 3, limit)?;
    is_read::<Brand, R>(rt, alloc, blank, rows)
}

#[test]
fn row_of_three_nodes(rt: HostRuntime) -> Result<(), Fail> {
    let rows = opening(rt.alloc())?;
    assert!(rt; is_opened(&rt, rt.alloc(), rows.as_slice())?);
    Ok(())
}
