//! The router as a library for C: `libdomethyme`, whose header is `packaging/library/domethyme.h`.
//!
//! Each export gives C one call of `ch_route`, `ch_sums` or `hierfile`, with their clauses in one, `answer`. A [`Handle`]
//! is the caller's, one pointer, and owns an engine on the heap or is closed. Codes are in `code.rt` and
//! `specs/Codes.antt`.
#![tactic(auto)]

mod between;
mod code;
mod digest;
mod engine;
mod handle;
mod held;
mod laws;
mod lengths;
mod numbers;
mod opening;
mod reach;
mod reach_sums;
mod route;
mod seeds;
mod sharing;
mod step_links;
mod summing;
mod sums;
mod text;
mod turning;

pub use between::BetweenInfo;
pub use code::{
    BAD_LIMIT, BAD_SET, NO_HANDLE, NO_LENGTH, NO_PATH, NO_ROOM, NODE_RANGE, NUMBER_COUNT,
    NUMBER_GREAT, OK, OUT_OF_MEMORY, SEED_COST, TOO_LONG,
};
pub use handle::Handle;
pub use laws::opened_files_answer_exactly;
pub use lengths::Pair;
pub use route::RouteInfo;
pub use seeds::SeedInfo;
pub use sums::SumInfo;
