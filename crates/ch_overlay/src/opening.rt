ghost use Rattle.std.specs.Prelude.{◌≡◌, ◌+◌, ◌^◌, ◌<◌, ℕ, IfOk, length, map, replicate};
ghost use Rattle.std.specs.Arc.{arc_value};
ghost use Rattle.std.specs.List.{range_with_len};
ghost use Rattle.ch_overlay.specs.Overlay.{no_arcs, row_at};
ghost use Rattle.ch_overlay.specs.Opening.{AreOpening, with_in, with_out};

use crate::row::{OpenRow, Row};
use ch_cost::NarrowCost;
use ch_graph::Road;
use ch_laws::{Entry, Middle};
use std::alloc::{AllocError, Global};
use std::sync::Arc;
use std::thread;
use std::thread::Threads;

/// The rows of `count` nodes from `from` on with these arcs, by the nodes' numbers, to be shared. Up to this many threads
/// make a part of them each, for which each goes over all arcs twice.
#[cycle(halves)]
pub fn shared_rows<R: Threads + Sync>(
    rt: &R,
    alloc: Global,
    arcs: &[Road],
    from: u32,
    count: u32,
    threads: u32,
) -> Result<Vec<Arc<Row>>, AllocError>
    requires room { from + count < 2 ^ 32 }
    ensures { IfOk result (λ all. AreOpening arcs.now from count (map arc_value all.items)) }
{
    if threads < 2 {
        return shared(alloc, rows_of(alloc, arcs, from, count)?);
    }
    let low = count / 2;
    let high = count - low;
    let up = from + low;
    let few = threads / 2;
    let others = threads - few;
    let lower = move || -> Result<Vec<Arc<Row>>, AllocError>
        requires { from + low < 2 ^ 32 }
        ensures { IfOk result (λ all. AreOpening arcs.entry.now from low (map arc_value all.items)) }
    { shared_rows(rt, alloc, arcs, from, low, few) };
    let upper = move || -> Result<Vec<Arc<Row>>, AllocError>
        requires { up + high < 2 ^ 32 }
        ensures { IfOk result (λ all. AreOpening arcs.entry.now up high (map arc_value all.items)) }
    { shared_rows(rt, alloc, arcs, up, high, others) };
    let (first, second) = thread::join(rt, lower, upper);
    let mut all = first?;
    let mut more = second?;
    all.append(&mut more)?;
    Ok(all)
}

/// The rows of `count` nodes from `from` on with these arcs, by the nodes' numbers. Each has just the memory that it needs.
pub fn rows_of(
    alloc: Global,
    arcs: &[Road],
    from: u32,
    count: u32,
) -> Result<Vec<OpenRow>, AllocError>
    ensures { IfOk result (λ rows. AreOpening arcs.now from count rows.items) }
{
    let mut rows = rows_without_arcs(alloc, arcs, from, count)?;
    for arc in arcs {
        add_out(rows.as_mut_slice(), from, *arc)?;
        add_in(rows.as_mut_slice(), from, *arc)?;
    }
    Ok(rows)
}

/// `count` rows without an entry, with room for those that these arcs have for `count` nodes from `from` on.
fn rows_without_arcs(
    alloc: Global,
    arcs: &[Road],
    from: u32,
    count: u32,
) -> Result<Vec<OpenRow>, AllocError>
    ensures { IfOk result (λ rows. rows.items ≡ replicate count no_arcs) }
{
    let mut out = vec![in alloc; 0u32; count as usize]?;
    let mut inn = vec![in alloc; 0u32; count as usize]?;
    'arcs: for arc in arcs {
        count_one(out.as_mut_slice(), from, arc.from);
        count_one(inn.as_mut_slice(), from, arc.to);
    }
    let mut rows = Vec::with_capacity(alloc, count as usize)?;
    'rows: for at in 0..count as usize {
        rows.push(OpenRow::with_room(alloc, out[at] as usize, inn[at] as usize)?)?;
    }
    Ok(rows)
}

/// Counts one more for a node, if it is one of those that are counted, from `from` on. Used for capacity only.
fn count_one(counts: &mut [u32], from: u32, node: u32)
    ensures { length counts.new ≡ length counts.old }
{
    if node < from {
        return;
    }
    let at = (node - from) as usize;
    if at < counts.len() {
        counts[at] = counts[at].saturating_add(1);
    }
}

/// The arc joins the row of the node that it leaves, if that is one of these rows, which are of the nodes from `from` on.
fn add_out(rows: &mut [OpenRow], from: u32, arc: Road) -> Result<(), AllocError>
    ensures count { IfOk result (λ _. length rows.new ≡ length rows.old) }
    ensures rows { IfOk result (λ _. (k : ℕ) → k < length rows.old → row_at rows.new k ≡ with_out arc (from + k) (row_at rows.old k)) }
{
    if arc.from < from {
        return Ok(());
    }
    let at = (arc.from - from) as usize;
    if at >= rows.len() {
        return Ok(());
    }
    let row = &mut rows[at];
    row.add_out(Entry {
        other: arc.to,
        cost: NarrowCost::of_weight(arc.weight),
        middle: Middle::NONE,
    })?;
    Ok(())
}

/// The arc joins the row of the node that it comes to, if that is one of these rows, which are of the nodes from `from` on.
fn add_in(rows: &mut [OpenRow], from: u32, arc: Road) -> Result<(), AllocError>
    ensures count { IfOk result (λ _. length rows.new ≡ length rows.old) }
    ensures rows { IfOk result (λ _. (k : ℕ) → k < length rows.old → row_at rows.new k ≡ with_in arc (from + k) (row_at rows.old k)) }
{
    if arc.to < from {
        return Ok(());
    }
    let at = (arc.to - from) as usize;
    if at >= rows.len() {
        return Ok(());
    }
    let row = &mut rows[at];
    row.add_in(Entry {
        other: arc.from,
        cost: NarrowCost::of_weight(arc.weight),
        middle: Middle::NONE,
    })?;
    Ok(())
}

/// The same rows, to be shared.
pub fn shared(alloc: Global, rows: Vec<OpenRow>) -> Result<Vec<Arc<Row>>, AllocError>
    ensures { IfOk result (λ all. map arc_value all.items ≡ rows.items) }
{
    let mut all = Vec::with_capacity(alloc, rows.len())?;
    for row in rows {
        all.push(Arc::new(alloc, row.closed(alloc)?)?)?;
    }
    Ok(all)
}

/// Returns the versions of this many nodes: x for node x.
pub fn first_versions(alloc: Global, nodes: u32) -> Result<Vec<u64>, AllocError>
    ensures { IfOk result (λ versions. versions.items ≡ range_with_len 0 nodes) }
{
    let mut versions = Vec::with_capacity(alloc, nodes as usize)?;
    for x in 0..nodes {
        versions.push(u64::from(x))?;
    }
    Ok(versions)
}
