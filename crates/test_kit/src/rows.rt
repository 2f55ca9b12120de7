ghost use Rattle.std.specs.Prelude.{◌≡◌, ◌^◌, ◌<◌, IsTrue, All, IfSome, map};
ghost use Rattle.std.specs.Arc.{arc_value};
ghost use Rattle.ch_laws.specs.Rows.{Rises};
ghost use Rattle.ch_overlay.specs.Overlay.{IsEntry};
ghost use Rattle.ch_overlay.specs.Source.{IsBound};
ghost use Rattle.ch_overlay.specs.Records.{AreSoundRows, IsSoundRow};

use ch_cost::{Cost, NarrowCost};
use ch_overlay::{Entry, Middle, Row};
use std::alloc::{AllocError, Global};
use std::sync::Arc;

/// An entry of a row as a test gives it: the other node, and the length and the arcs that it costs.
pub type Given = (u32, (u64, u32));

/// Entries of a row.
pub type Entries<'a> = &'a [Given];

/// Returns the bound of every book here: that of the largest graph.
pub fn bound() -> Cost
    ensures { IsBound result }
{
    Cost::of_arcs((1 << 25) - 1, u32::MAX)
}

/// The cost of a walk of this length and this many arcs.
fn cost_of(length: u64, arcs: u32) -> NarrowCost {
    NarrowCost::of(Cost::of_walk(length, u64::from(arcs)))
}

/// Returns the entry of an arc, without a middle.
pub fn entry((other, (length, arcs)): Given) -> Entry {
    Entry {
        other,
        cost: cost_of(length, arcs),
        middle: Middle::NONE,
    }
}

fn entries(alloc: Global, all: Entries<'_>) -> Result<Vec<Entry>, AllocError> {
    let mut list = Vec::new(alloc);
    for given in all {
        list.push(entry(*given))?;
    }
    Ok(list)
}

/// Returns a row of these entries.
pub fn row(alloc: Global, out: Entries<'_>, inn: Entries<'_>) -> Result<Arc<Row>, AllocError> {
    let out = entries(alloc, out)?;
    let inn = entries(alloc, inn)?;
    Ok(Arc::new(alloc, Row::new(alloc, &out, &inn, None)?)?)
}

fn is_entry(entry: &Entry, node: u32, bound: Cost) -> bool
    ensures { IsTrue result → IsEntry (2 ^ 25) bound node entry.now }
{
    let cost = entry.cost.cost();
    if entry.other >= 1 << 25 {
        return false;
    }
    if entry.other == node {
        return false;
    }
    if !Cost::ZERO.is_below(cost) {
        return false;
    }
    cost.is_within(bound)
}

fn are_entries(entries: &[Entry], node: u32, bound: Cost) -> bool
    ensures { IsTrue result → All (IsEntry (2 ^ 25) bound node) entries.now }
{
    entries.iter().all(|entry| is_entry(entry, node, bound))
}

fn rises(entries: &[Entry]) -> bool
    ensures { IsTrue result → Rises entries.now }
{
    for place in 1..entries.len() {
        if entries[place - 1].other >= entries[place].other {
            return false;
        }
    }
    true
}

/// Whether a row can be relied on.
pub fn is_sound(node: u32, row: &Row, bound: Cost) -> bool
    ensures { IsTrue result → IsSoundRow bound node row.now }
{
    if node >= 1 << 25 {
        return false;
    }
    if !rises(row.out()) {
        return false;
    }
    if !rises(row.inn()) {
        return false;
    }
    if !are_entries(row.out(), node, bound) {
        return false;
    }
    are_entries(row.inn(), node, bound)
}

/// Whether each row can be relied on, as that of the node of its place.
pub fn are_sound(rows: &[Arc<Row>], bound: Cost) -> bool
    ensures { IsTrue result → AreSoundRows bound (map arc_value rows.now) }
{
    for node in 0..rows.len() {
        if node >= 1 << 25 {
            return false;
        }
        if !is_sound(node as u32, &rows[node], bound) {
            return false;
        }
    }
    true
}

/// Whether the entries are these.
pub fn are(entries: &[Entry], expected: Entries<'_>) -> bool {
    entries.len() == expected.len()
        && entries.iter().zip(expected).all(|(entry, (other, (length, arcs)))| {
            (entry.other == *other) & (entry.cost == cost_of(*length, *arcs))
        })
}
