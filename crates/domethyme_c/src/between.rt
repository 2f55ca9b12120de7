ghost use Rattle.std.specs.Prelude.{◌≡◌};
ghost use Rattle.ch_query.specs.Seeds.{AreSeeds};
ghost use Rattle.domethyme_c.specs.Answers.{Answers, IsBetweenAnswer, IsFoundBetween};

use crate::code::{NO_HANDLE, NO_PATH, OUT_OF_MEMORY, TOO_LONG};
use crate::engine::Engine;
use crate::handle::Handle;
use crate::route::write_all;
use crate::seeds::{SeedInfo, seeds_of};
use ch_route::{Seed, UnpackError};
use std::alloc::Global;

/// Which start and which end a route has, how long the three are together, and how many nodes the route has.
#[repr(C)]
#[derive(Drop)]
pub struct BetweenInfo {
    pub length: u64,
    pub start: usize,
    pub end: usize,
    pub nodes: usize,
}

/// A shortest path from one of several starts to one of several ends.
#[unsafe(no_mangle)]
pub extern "C" fn domethyme_between(
    alloc: Global,
    handle: &mut Handle,
    starts: &[SeedInfo],
    ends: &[SeedInfo],
    route: &mut BetweenInfo,
    nodes: &mut [u32],
) -> u32
    ensures kept { handle.new.held.hierarchy ≡ handle.old.held.hierarchy }
    ensures answer { Answers handle.old.held.hierarchy result ((route.new ≡ route.old) × (nodes.new ≡ nodes.old)) (λ h. IsBetweenAnswer h starts.now ends.now result route.old route.new nodes.old nodes.new) }
{
    let Some(mut engine) = handle.take(alloc) else {
        return NO_HANDLE;
    };
    let code = check_seeds(alloc, &mut engine, starts, ends, route, nodes);
    handle.put(alloc, engine);
    code
}

fn check_seeds(
    alloc: Global,
    engine: &mut Engine,
    starts: &[SeedInfo],
    ends: &[SeedInfo],
    info: &mut BetweenInfo,
    nodes: &mut [u32],
) -> u32
    ensures kept { engine.new ≡ engine.old }
    ensures answer { IsBetweenAnswer engine.old starts.now ends.now result info.old info.new nodes.old nodes.new }
{
    let starts = match seeds_of(alloc, engine, starts) {
        Ok(starts) => starts,
        Err(code) => return code,
    };
    let ends = match seeds_of(alloc, engine, ends) {
        Ok(ends) => ends,
        Err(code) => return code,
    };
    answer_between(engine, starts.as_slice(), ends.as_slice(), info, nodes)
}

fn answer_between(
    engine: &mut Engine,
    starts: &[Seed],
    ends: &[Seed],
    info: &mut BetweenInfo,
    nodes: &mut [u32],
) -> u32
    requires starts { AreSeeds engine.old starts.now }
    requires ends { AreSeeds engine.old ends.now }
    ensures kept { engine.new ≡ engine.old }
    ensures answer { IsFoundBetween engine.old starts.now ends.now result info.old info.new nodes.old nodes.new }
{
    match engine.between(starts, ends) {
        Ok(Some(route)) => {
            *info = BetweenInfo {
                length: route.cost.length(),
                start: route.start,
                end: route.end,
                nodes: route.nodes.len(),
            };
            write_all(route.nodes.as_slice(), nodes)
        }
        Ok(None) => NO_PATH,
        Err(UnpackError::TooLong) => TOO_LONG,
        Err(UnpackError::OutOfMemory) => OUT_OF_MEMORY,
    }
}
