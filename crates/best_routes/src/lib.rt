//! What the program promises, in plain words: paths, the lines that answer, and texts that spell graphs and pairs.
//!
//! Stands on `ch_graph`, whose graphs it speaks of, and on `text_lines`, which cuts texts. It has definitions alone: what a
//! text spells, with no word of its faults, and what a best path is, with none of costs of walks. `grfile` proves that it
//! reads just what is spelled, and `ch_service` that it writes just these answers. The law here,
//! [`paths_are_walks`], joins paths with the walks that proofs speak of.
#![tactic(auto)]

mod laws;

pub use laws::paths_are_walks;
