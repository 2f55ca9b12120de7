ghost use Rattle.std.specs.Prelude.{◌≡◌, ◌≤◌, ◌^◌, IfNone, IfOk, IfSome, OnErr, OnOk, length};
ghost use Rattle.std.specs.Arc.{arc_value};
ghost use Rattle.std.specs.List.{range_with_len};
ghost use Rattle.ch_query.specs.Seeds.{AreSeeds};
ghost use Rattle.ch_route.specs.Between.{IsRowLengthFrom, IsRowLengthWithin};
ghost use Rattle.ch_table.specs.Selection.{IsSelection};
ghost use Rattle.domethyme_c.specs.Answers.{Answers, AreWritten, IsLimit, IsMostOf, IsReachAnswer};

use crate::code::{BAD_LIMIT, NO_HANDLE, NO_LENGTH, NO_ROOM, OK, OUT_OF_MEMORY};
use crate::engine::Engine;
use crate::handle::Handle;
use crate::seeds::{SeedInfo, seeds_of};
use ch_route::{Seed, Selection};
use std::alloc::{AllocError, Global};
use std::sync::Arc;

// The greatest limit, which no path is longer than.
const GREATEST: u64 = 1 << 62;

/// The least length from a start to each node, where it is within a limit.
#[unsafe(no_mangle)]
pub extern "C" fn domethyme_reach(
    alloc: Global,
    handle: &mut Handle,
    starts: &[SeedInfo],
    limit: u64,
    lengths: &mut [u64],
) -> u32
    ensures kept { handle.new.held.hierarchy ≡ handle.old.held.hierarchy }
    ensures answer { Answers handle.old.held.hierarchy result (lengths.new ≡ lengths.old) (λ h. IsReachAnswer h starts.now limit result lengths.old lengths.new) }
{
    let Some(mut engine) = handle.take(alloc) else {
        return NO_HANDLE;
    };
    let code = answer_reach(alloc, &mut engine, starts, limit, lengths);
    handle.put(alloc, engine);
    code
}

pub(crate) fn answer_reach(
    alloc: Global,
    engine: &mut Engine,
    starts: &[SeedInfo],
    limit: u64,
    lengths: &mut [u64],
) -> u32
    ensures kept { engine.new ≡ engine.old }
    ensures answer { IsReachAnswer engine.old starts.now limit result lengths.old lengths.new }
{
    let Some(most) = most_of(limit) else {
        return BAD_LIMIT;
    };
    if lengths.len() < engine.nodes() as usize {
        return NO_ROOM;
    }
    let starts = match seeds_of(alloc, engine, starts) {
        Ok(starts) => starts,
        Err(code) => return code,
    };
    match fill_reach(alloc, engine, starts.as_slice(), most, lengths) {
        Ok(()) => OK,
        Err(_) => OUT_OF_MEMORY,
    }
}

// How long a path may be at most, or `None` for a number that is no limit.
pub(crate) fn most_of(limit: u64) -> Option<u64>
    ensures none { IfNone result (IsLimit limit → ⊥) }
    ensures some { IfSome result (IsMostOf limit) }
{
    if limit == NO_LENGTH {
        return Some(GREATEST);
    }
    if limit > GREATEST {
        return None;
    }
    Some(limit)
}

// Writes the length of each node, by a selection of all, which the engine keeps.
fn fill_reach(
    alloc: Global,
    engine: &mut Engine,
    starts: &[Seed],
    most: u64,
    lengths: &mut [u64],
) -> Result<(), AllocError>
    requires starts { AreSeeds engine.old starts.now }
    requires most { most ≤ 2 ^ 62 }
    requires room { length engine.old.ranks ≤ length lengths.old }
    ensures kept { engine.new ≡ engine.old }
    ensures within { OnOk result (AreWritten (length engine.old.ranks) (IsRowLengthWithin engine.old starts.now most) lengths.old lengths.new) }
    ensures all { OnOk result (most ≡ 2 ^ 62 → AreWritten (length engine.old.ranks) (IsRowLengthFrom engine.old starts.now) lengths.old lengths.new) }
    ensures refused { OnErr result (lengths.new ≡ lengths.old) }
{
    let selection = selection_of_all(alloc, engine)?;
    engine.lengths_from(starts, most, &selection, lengths)
}

/// The selection of all nodes, in order. If the engine keeps it, they aren't listed.
pub(crate) fn selection_of_all(
    alloc: Global,
    engine: &mut Engine,
) -> Result<Arc<Selection>, AllocError>
    ensures selection { IfOk result (λ s. IsSelection engine.old (arc_value s)) }
    ensures targets { IfOk result (λ s. (arc_value s).targets ≡ range_with_len 0 (length engine.old.ranks)) }
    ensures kept { engine.new ≡ engine.old }
{
    if let Some(kept) = engine.kept_of_all() {
        return Ok(kept);
    }
    let nodes = all_nodes(alloc, engine.nodes())?;
    let Ok(selection) = engine.selection(alloc, nodes.as_slice()) else {
        return Err(AllocError);
    };
    Ok(selection)
}

// All nodes, in order.
fn all_nodes(alloc: Global, count: u32) -> Result<Vec<u32>, AllocError>
    ensures { IfOk result (λ nodes. nodes.items ≡ range_with_len 0 count) }
{
    (0..count).collect(alloc)
}
