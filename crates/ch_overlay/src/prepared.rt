ghost use Rattle.std.specs.Prelude.{◌≡◌, ◌<◌, ◌-◌, ◌^◌, List, IfOk, Some, All, AllPairs, map};
ghost use Rattle.std.specs.Arc.{arc_value};
ghost use Rattle.ch_laws.specs.declared.shortcut.Shortcut.{Shortcut};
ghost use Rattle.ch_laws.specs.Contraction.{IsFor};
ghost use Rattle.ch_laws.specs.Rows.{Rises, IsChanged};
ghost use Rattle.ch_overlay.specs.Placing.{IsInOrder, ArePlaced, AreChanged};
ghost use Rattle.ch_overlay.specs.Prepared.{IsPrepared};

use crate::placed::{PlacedEntries, in_entries, out_entries};
use crate::row::Row;
use ch_laws::{Middle, Shortcut};
use std::alloc::{AllocError, Global};
use std::marker::Model;
use std::sync::Arc;

/// The new rows of one contraction, which has no rank yet. Made by [`prepare`].
#[derive(Drop)]
pub struct Prepared {
    pub(crate) node: u32,
    pub(crate) row: Row,
    pub(crate) others: Vec<(u32, Arc<Row>)>,
}

impl Model for Prepared {
    ghost use Rattle.std.specs.Prelude.{map};
    ghost use Rattle.std.specs.Arc.{arc_value};
    ghost use Rattle.ch_overlay.specs.Prepared as prepared;

    ghost Value = { prepared.Prepared };

    ghost view = { λ p. record { node = p.node; row = p.row; others = map (λ a. (a.0, arc_value a.1)) p.others.items } };
}

/// Returns the new rows of a contraction of `node` that puts these shortcuts in, made by the node's row and those of its
/// neighbours, `near`, each with its node. No overlay is looked at, so rows can be made by what was read of one.
///
/// There is at most one shortcut for each pair, and the lists of the neighbours' rows rise. Takes memory for the rows;
/// sorts the shortcuts, and is linear in the entries of the rows otherwise.
pub fn prepare(
    alloc: Global,
    node: u32,
    row: &Row,
    near: &[(u32, &Row)],
    shortcuts: &[Shortcut],
) -> Result<Prepared, AllocError>
    requires few { node < 2 ^ 32 - 1 }
    requires once { AllPairs (λ p q. IsFor p q.from q.to → ⊥) shortcuts.now }
    requires rising { All (λ a. Rises a.1.now.out × Rises a.1.now.inn) near.now }
    ensures { IfOk result (IsPrepared node row.now (map (λ a. (a.0, a.1.now)) near.now) shortcuts.now) }
{
    let middle = Middle::at(node);
    let out = out_entries(alloc, middle, shortcuts)?;
    let inn = in_entries(alloc, middle, shortcuts)?;
    let row = row.copied(alloc)?;
    let others = changed_rows(alloc, near, node, &out, &inn)?;
    Ok(Prepared { node, row, others })
}

/// The rows of these neighbours as the contraction of `gone` changes them, with room for one row more. The entries are
/// those of the shortcuts, in order.
fn changed_rows(
    alloc: Global,
    near: &[(u32, &Row)],
    gone: u32,
    out: &PlacedEntries,
    inn: &PlacedEntries,
) -> Result<Vec<(u32, Arc<Row>)>, AllocError>
    requires rising { All (λ a. Rises a.1.now.out × Rises a.1.now.inn) near.now }
    requires out_order { IsInOrder out.now.placed.items }
    requires inn_order { IsInOrder inn.now.placed.items }
    ensures { IfOk result (λ rows. AreChanged gone (map (λ a. (a.0, a.1.now)) near.now) out.now.placed.items inn.now.placed.items (map (λ a. a.0) near.now) (map (λ a. (a.0, arc_value a.1)) rows.items)) }
{
    let mut rows = Vec::with_capacity(alloc, near.len().saturating_add(1))?;
    for (node, row) in near {
        let new = changed(alloc, row, gone, *node, out, inn)?;
        rows.push((*node, Arc::new(alloc, new)?))?;
    }
    Ok(rows)
}

/// The row of a neighbour without the contracted node, and with the shortcuts at it.
fn changed(
    alloc: Global,
    row: &Row,
    gone: u32,
    node: u32,
    out: &PlacedEntries,
    inn: &PlacedEntries,
) -> Result<Row, AllocError>
    requires out_rises { Rises row.now.out }
    requires inn_rises { Rises row.now.inn }
    requires out_order { IsInOrder out.now.placed.items }
    requires inn_order { IsInOrder inn.now.placed.items }
    ensures { IfOk result (λ new. (put : List Shortcut) → ArePlaced gone put out.now.placed.items inn.now.placed.items → IsChanged put gone node row.now new) }
{
    let new = row.changed(alloc, gone, out.at(node), inn.at(node))?;
    Ok(new)
}

/// Returns the row with its entries and this rank, to be shared.
pub fn ranked_row(alloc: Global, row: Row, rank: u32) -> Result<Arc<Row>, AllocError>
    ensures { IfOk result (λ new. arc_value new ≡ record row { rank = Some rank }) }
{
    let mut ranked = row;
    ranked.rank = Some(rank);
    let shared = Arc::new(alloc, ranked)?;
    Ok(shared)
}
