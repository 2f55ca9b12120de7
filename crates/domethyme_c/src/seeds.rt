ghost use Rattle.std.specs.Prelude.{◌≡◌, IfErr, IfOk, map};
ghost use Rattle.ch_query.specs.Seeds.{AreSeeds, IsSeed};
ghost use Rattle.domethyme_c.specs.Answers.{IsSeedFault, IsSeedRefusal, seed_of};

use crate::code::{NODE_RANGE, OUT_OF_MEMORY, SEED_COST};
use crate::engine::Engine;
use ch_cost::Cost;
use ch_route::Seed;
use std::alloc::Global;

// What a seed may cost at most.
const MAX_SEED_LENGTH: u64 = 1 << 57;

const MOST_ARCS: u64 = 1 << 25;

/// Where a query may begin or end, and what that costs.
#[repr(C)]
#[derive(Clone, Copy)]
pub struct SeedInfo {
    pub length: u64,
    pub node: u32,
    pub arcs: u32,
}

/// The seeds, or the code of the first that is none.
pub(crate) fn seeds_of(alloc: Global, engine: &Engine, infos: &[SeedInfo]) -> Result<Vec<Seed>, u32>
    ensures ok { IfOk result (λ seeds. (seeds.items ≡ map seed_of infos.now) × AreSeeds engine.now seeds.items) }
    ensures err { IfErr result (IsSeedRefusal engine.now infos.now) }
{
    let mut seeds = Vec::new(alloc);
    'infos: for info in infos {
        let seed = seed_of(engine, info)?;
        if seeds.push(seed).is_err() {
            return Err(OUT_OF_MEMORY);
        }
    }
    Ok(seeds)
}

fn seed_of(engine: &Engine, info: &SeedInfo) -> Result<Seed, u32>
    ensures ok { IfOk result (λ seed. (seed ≡ seed_of info.now) × IsSeed engine.now seed) }
    ensures err { IfErr result (IsSeedFault engine.now info.now) }
{
    let cost = Cost::of_walk(info.length, u64::from(info.arcs));
    if info.node >= engine.nodes() {
        return Err(NODE_RANGE);
    }
    if (cost.length() > MAX_SEED_LENGTH) | (cost.arcs() > MOST_ARCS) {
        return Err(SEED_COST);
    }
    Ok(Seed {
        node: info.node,
        cost,
    })
}
