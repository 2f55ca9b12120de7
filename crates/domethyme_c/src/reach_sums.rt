ghost use Rattle.std.specs.Prelude.{◌≡◌, ◌<◌, ◌≤◌, IfOk, length};
ghost use Rattle.std.specs.Arc.{arc_value};
ghost use Rattle.std.specs.List.{range_with_len};
ghost use Rattle.ch_query.specs.Seeds.{AreSeeds};
ghost use Rattle.domethyme_c.specs.Answers.{Answers, IsLimit};
ghost use Rattle.domethyme_c.specs.Sets.{IsSet};
ghost use Rattle.domethyme_c.specs.StepLinks.{AreStepLinks};
ghost use Rattle.domethyme_c.specs.Starting.{AreSumsOfStarts};
ghost use Rattle.domethyme_c.specs.Summing.{IsSumming};
ghost use Rattle.domethyme_c.specs.Sums.{IsReachSumsAnswer};

use crate::code::{
    BAD_LIMIT, BAD_SET, NO_HANDLE, NO_LENGTH, NO_ROOM, NUMBER_COUNT, OK, OUT_OF_MEMORY,
};
use crate::engine::Engine;
use crate::handle::Handle;
use crate::reach::{answer_reach, most_of, selection_of_all};
use crate::seeds::{SeedInfo, seeds_of};
use crate::step_links::StepLinks;
use crate::summing::{Summing, numbers_of, put_cells};
use crate::sums::SumInfo;
use ch_route::Seed;
use std::alloc::{AllocError, Global};

/// The least length from a start to each node, where it is within a limit, and the sum of the numbers of a set along some path
/// of that length, with the number of its start.
#[unsafe(no_mangle)]
pub extern "C" fn domethyme_reach_sums(
    alloc: Global,
    handle: &mut Handle,
    set: &[u64],
    starts: &[SeedInfo],
    added: &[u32],
    limit: u64,
    cells: &mut [SumInfo],
) -> u32
    ensures kept { handle.new.held.hierarchy ≡ handle.old.held.hierarchy }
    ensures answer { Answers handle.old.held.hierarchy result (cells.new ≡ cells.old) (λ h. IsReachSumsAnswer h set.now starts.now added.now limit result cells.old cells.new) }
{
    let Some(mut engine) = handle.take(alloc) else {
        return NO_HANDLE;
    };
    let code = answer_reach_sums(alloc, &mut engine, set, starts, added, limit, cells);
    handle.put(alloc, engine);
    code
}

fn answer_reach_sums(
    alloc: Global,
    engine: &mut Engine,
    set: &[u64],
    starts: &[SeedInfo],
    added: &[u32],
    limit: u64,
    cells: &mut [SumInfo],
) -> u32
    ensures kept { engine.new ≡ engine.old }
    ensures answer { IsReachSumsAnswer engine.old set.now starts.now added.now limit result cells.old cells.new }
{
    let Some(_most) = most_of(limit) else {
        return BAD_LIMIT;
    };
    if cells.len() < engine.nodes() as usize {
        return NO_ROOM;
    }
    if added.len() != starts.len() {
        return NUMBER_COUNT;
    }
    let Ok(mut summing) = engine.take_summing(alloc) else {
        return OUT_OF_MEMORY;
    };
    let code = if summing.is_set(set) {
        fill_reach_sums(
            alloc,
            engine,
            &mut summing,
            set,
            starts,
            added,
            limit,
            cells,
        )
    } else {
        BAD_SET
    };
    engine.keep_summing(summing);
    code
}

// Writes the length of each node and a sum beside it, by a selection of all, which the engine keeps.
fn fill_reach_sums(
    alloc: Global,
    engine: &mut Engine,
    summing: &mut Summing,
    set: &[u64],
    starts: &[SeedInfo],
    added: &[u32],
    limit: u64,
    cells: &mut [SumInfo],
) -> u32
    requires summing { IsSumming engine.old summing.old }
    requires set { IsSet engine.old set.now }
    requires added { length added.now ≡ length starts.now }
    requires limit { IsLimit limit }
    requires room { length engine.old.ranks ≤ length cells.old }
    ensures summing { IsSumming engine.old summing.new }
    ensures kept { engine.new ≡ engine.old }
    ensures answer { IsReachSumsAnswer engine.old set.now starts.now added.now limit result cells.old cells.new }
{
    let count = engine.nodes() as usize;
    let Ok(mut room) = vec![in alloc; 0u64; count] else {
        return OUT_OF_MEMORY;
    };
    let lengths = room.as_mut_slice();
    let code = answer_reach(alloc, engine, starts, limit, lengths);
    if code != OK {
        return code;
    }
    let starts = match seeds_of(alloc, engine, starts) {
        Ok(starts) => starts,
        Err(code) => return code,
    };
    match sums_of(alloc, engine, summing, set, &starts, added, lengths) {
        Ok(sums) => {
            put_cells(lengths, &sums, count, cells, 0);
            OK
        }
        Err(_) => OUT_OF_MEMORY,
    }
}

// A sum for the length of each node, from a start that leads to it in that length.
fn sums_of(
    alloc: Global,
    engine: &mut Engine,
    summing: &mut Summing,
    set: &[u64],
    starts: &[Seed],
    added: &[u32],
    lengths: &[u64],
) -> Result<Vec<u64>, AllocError>
    requires summing { IsSumming engine.old summing.old }
    requires set { IsSet engine.old set.now }
    requires starts { AreSeeds engine.old starts.now }
    requires added { length added.now ≡ length starts.now }
    requires lengths { length lengths.now ≡ length engine.old.ranks }
    ensures summing { IsSumming engine.old summing.new }
    ensures kept { engine.new ≡ engine.old }
    ensures sums { IfOk result (λ sums. AreSumsOfStarts engine.old set.now starts.now added.now (length starts.now) (range_with_len 0 (length engine.old.ranks)) lengths.now sums.items) }
{
    let selection = selection_of_all(alloc, engine)?;
    let chosen = summing.choose(alloc, &selection)?;
    let sums = sums_over(alloc, summing, &chosen, set, starts, added, lengths);
    summing.keep(chosen);
    sums
}

// The same by a selection with the links of its steps.
fn sums_over(
    alloc: Global,
    summing: &mut Summing,
    chosen: &StepLinks,
    set: &[u64],
    starts: &[Seed],
    added: &[u32],
    lengths: &[u64],
) -> Result<Vec<u64>, AllocError>
    requires summing { IsSumming summing.old.search summing.old }
    requires chosen { AreStepLinks summing.old.search chosen.now }
    requires set { IsSet summing.old.search set.now }
    requires starts { AreSeeds summing.old.search starts.now }
    requires added { length added.now ≡ length starts.now }
    requires lengths { length lengths.now ≡ length (arc_value chosen.now.selection).targets }
    ensures summing { IsSumming summing.old.search summing.new }
    ensures search { summing.new.search ≡ summing.old.search }
    ensures sums { IfOk result (λ sums. AreSumsOfStarts summing.old.search set.now starts.now added.now (length starts.now) (arc_value chosen.now.selection).targets lengths.now sums.items) }
{
    let steps = chosen.numbers(alloc, &summing.search, numbers_of(set))?;
    let mut sums = vec![in alloc; NO_LENGTH; lengths.len()]?;
    summing.sum_from(
        alloc,
        &chosen.selection,
        &steps,
        set,
        starts,
        added,
        lengths,
        &mut sums,
    )?;
    Ok(sums)
}
