ghost use Rattle.std.specs.Prelude.{◌≡◌, ◌+◌, ◌<◌, ◌≤◌, ◌++◌, ℕ, IfOk, MatchOption, length, map, vec_len, vec_capacity};
ghost use Rattle.std.specs.Arc.{arc_value};
ghost use Rattle.ch_laws.specs.Rows.{Row};
ghost use Rattle.ch_overlay.specs.Overlay.{row_at};
ghost use Rattle.ch_core.specs.World.{IsIn, version_of};

use crate::reads::Standing;
use ch_overlay::{Overlay, Row};
use std::alloc::{AllocError, Global};
use std::marker::Model;
use std::sync::Arc;

/// A row that its node has or had. Its number is its place in the book.
#[derive(Drop)]
pub struct RowVersion {
    /// The node, numbered from 0.
    node: u32,
    /// Its row of this version.
    row: Arc<Row>,
}

impl Model for RowVersion {
    ghost use Rattle.std.specs.Arc.{arc_value};
    ghost use Rattle.ch_core.specs.World as worlds;

    ghost Value = { worlds.RowVersion };

    ghost view = { λ v. record { node = v.node; row = arc_value v.row } };
}

/// Returns the book of the first versions: that of each node, at its number.
///
/// Takes memory for an entry a node; the rows are shared.
pub fn opening_book(alloc: Global, overlay: &Overlay) -> Result<Vec<RowVersion>, AllocError>
    ensures many { IfOk result (λ book. length book.items ≡ length overlay.now.rows) }
    ensures rows { IfOk result (λ book. (x : ℕ) → x < length overlay.now.rows → IsIn book.items x x (row_at overlay.now.rows x)) }
{
    let nodes = overlay.nodes();
    let mut book = Vec::with_capacity(alloc, nodes as usize)?;
    'nodes: for node in 0..nodes {
        let row = Arc::try_clone(overlay.row(node))?;
        book.push(RowVersion { node, row })?;
    }
    Ok(book)
}

/// Returns the versions of these rows, each with its node, in their order.
///
/// Takes memory for an entry a row; the rows are shared.
pub fn versions_of(alloc: Global, rows: &[(u32, Arc<Row>)]) -> Result<Vec<RowVersion>, AllocError>
    ensures { IfOk result (λ fresh. fresh.items ≡ map (λ a. version_of (a.0, arc_value a.1)) rows.now) }
{
    let mut fresh = Vec::with_capacity(alloc, rows.len())?;
    'rows: for (node, row) in rows {
        let row = Arc::try_clone(row)?;
        fresh.push(RowVersion { node: *node, row })?;
    }
    Ok(fresh)
}

/// Adds versions at the end of the book, which has room for them. Takes no memory.
pub fn append(book: &mut Vec<RowVersion>, fresh: Vec<RowVersion>)
    requires { length book.old.items + length fresh.items ≤ vec_capacity book.old }
    ensures { book.new.items ≡ book.old.items ++ fresh.items }
{
    'fresh: for version in fresh {
        book.push_reserved(version);
    }
}

/// Returns the version of this number where it is the node's, or `None`. The numbers may be any. Takes no memory.
pub fn standing(
    book: &[RowVersion],
    node: u32,
    version: u64,
) -> Result<Option<Standing>, AllocError>
    ensures { IfOk result (λ found. MatchOption found ((row : Row) → IsIn book.now node version row → ⊥) (λ s. (s.version ≡ version) × IsIn book.now node version s.row)) }
{
    let place = version as usize;
    if place >= book.len() {
        return Ok(None);
    }
    let found = &book[place];
    if found.node != node {
        return Ok(None);
    }
    let row = Arc::try_clone(&found.row)?;
    Ok(Some(Standing { version, row }))
}
