ghost use Rattle.std.specs.Prelude.{◌≡◌, ◌*◌, ◌<◌, ◌≤◌, All, length};
ghost use Rattle.ch_table.specs.Selection.{IsSelection};
ghost use Rattle.domethyme_c.specs.Answers.{Answers};
ghost use Rattle.std.specs.Arc.{arc_value};
ghost use Rattle.domethyme_c.specs.Sets.{IsSet};
ghost use Rattle.domethyme_c.specs.StepLinks.{AreStepLinks};
ghost use Rattle.domethyme_c.specs.Summing.{IsSumming};
ghost use Rattle.domethyme_c.specs.Sums.{IsSumsAnswer};

use crate::code::{BAD_SET, NO_HANDLE, NO_ROOM, NODE_RANGE, OK, OUT_OF_MEMORY};
use crate::engine::Engine;
use crate::handle::Handle;
use crate::step_links::StepLinks;
use crate::summing::{Summing, numbers_of};
use ch_route::Selection;
use std::alloc::Global;
use std::sync::Arc;

/// How long a shortest path is, and what the numbers along it sum to.
#[repr(C)]
#[derive(Clone, Copy)]
pub struct SumInfo {
    pub length: u64,
    pub sum: u64,
}

/// The least length from each source to each target, row by row, and the sum of the numbers of a set along some path of that
/// length.
#[unsafe(no_mangle)]
pub extern "C" fn domethyme_table_sums(
    alloc: Global,
    handle: &mut Handle,
    set: &[u64],
    sources: &[u32],
    targets: &[u32],
    cells: &mut [SumInfo],
) -> u32
    ensures kept { handle.new.held.hierarchy ≡ handle.old.held.hierarchy }
    ensures answer { Answers handle.old.held.hierarchy result (cells.new ≡ cells.old) (λ h. IsSumsAnswer h set.now sources.now targets.now result cells.old cells.new) }
{
    let Some(mut engine) = handle.take(alloc) else {
        return NO_HANDLE;
    };
    let code = answer_sums(alloc, &mut engine, set, sources, targets, cells);
    handle.put(alloc, engine);
    code
}

fn answer_sums(
    alloc: Global,
    engine: &mut Engine,
    set: &[u64],
    sources: &[u32],
    targets: &[u32],
    cells: &mut [SumInfo],
) -> u32
    ensures kept { engine.new ≡ engine.old }
    ensures answer { IsSumsAnswer engine.old set.now sources.now targets.now result cells.old cells.new }
{
    let Some(count) = sources.len().checked_mul(targets.len()) else {
        return NO_ROOM;
    };
    if cells.len() < count {
        return NO_ROOM;
    }
    if !engine.has_all(sources) {
        return NODE_RANGE;
    }
    if !engine.has_all(targets) {
        return NODE_RANGE;
    }
    let Ok(mut summing) = engine.take_summing(alloc) else {
        return OUT_OF_MEMORY;
    };
    let code = if summing.is_set(set) {
        match engine.selection(alloc, targets) {
            Ok(selection) => fill_sums(alloc, &mut summing, &selection, set, sources, cells),
            Err(code) => code,
        }
    } else {
        BAD_SET
    };
    engine.keep_summing(summing);
    code
}

// By the links of the selection's steps, which are kept.
fn fill_sums(
    alloc: Global,
    summing: &mut Summing,
    selection: &Arc<Selection>,
    set: &[u64],
    sources: &[u32],
    cells: &mut [SumInfo],
) -> u32
    requires summing { IsSumming summing.old.search summing.old }
    requires selection { IsSelection summing.old.search (arc_value selection.now) }
    requires set { IsSet summing.old.search set.now }
    requires sources { All (λ v. v < length summing.old.search.ranks) sources.now }
    requires room { length sources.now * length (arc_value selection.now).targets ≤ length cells.old }
    ensures summing { IsSumming summing.old.search summing.new }
    ensures answer { IsSumsAnswer summing.old.search set.now sources.now (arc_value selection.now).targets result cells.old cells.new }
{
    let Ok(chosen) = summing.choose(alloc, selection) else {
        return OUT_OF_MEMORY;
    };
    let code = fill_chosen(alloc, summing, &chosen, set, sources, cells);
    summing.keep(chosen);
    code
}

// Row by row.
fn fill_chosen(
    alloc: Global,
    summing: &mut Summing,
    chosen: &StepLinks,
    set: &[u64],
    sources: &[u32],
    cells: &mut [SumInfo],
) -> u32
    requires summing { IsSumming summing.old.search summing.old }
    requires chosen { AreStepLinks summing.old.search chosen.now }
    requires set { IsSet summing.old.search set.now }
    requires sources { All (λ v. v < length summing.old.search.ranks) sources.now }
    requires room { length sources.now * length (arc_value chosen.now.selection).targets ≤ length cells.old }
    ensures summing { IsSumming summing.old.search summing.new }
    ensures search { summing.new.search ≡ summing.old.search }
    ensures answer { IsSumsAnswer summing.old.search set.now sources.now (arc_value chosen.now.selection).targets result cells.old cells.new }
{
    let Ok(steps) = chosen.numbers(alloc, &summing.search, numbers_of(set)) else {
        return OUT_OF_MEMORY;
    };
    match summing.fill(alloc, &chosen.selection, &steps, set, sources, cells) {
        Ok(()) => OK,
        Err(_) => OUT_OF_MEMORY,
    }
}
