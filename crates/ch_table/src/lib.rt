//! Tables of lengths: from some nodes, or from one place, to very many nodes at a time.
//!
//! Uses of `ch_query` the two parts of a walk over ranks, climbs and falls, and the law that they are walks
//! ([`ways_are_walks`](ch_query::ways_are_walks)). Its main type is [`Selection`]: the part of a hierarchy that walks to
//! some targets fall through. The promise of the layer is the contract of [`Selection::lengths`]: each number of a table is
//! the length of the value of the hierarchy for its source and its target, or stands for none exactly where there is none;
//! and of [`Selection::lengths_from`], a row from several starts, within a limit.
//!
//! A call climbs from its starts once, gives each node that it came to a label, and then goes over the places of the
//! selection from the highest rank to the lowest: the label of a node is the least of its own and of the labels of the
//! nodes that its links come from, with the links' lengths. So a row costs a climb and one look at each link of the
//! selection, whatever the number of targets (Delling, Goldberg, Nowatzyk, Werneck, *PHAST*, 2011; Delling, Goldberg,
//! Werneck, *Faster Batched Shortest Paths in Road Networks*, 2011). Eight rows share that look, or four in a large
//! selection: each place has a label in a lane for each.
#![tactic(auto)]

mod columns;
mod lanes;
mod packed;
mod selection;
mod step_numbers;
mod steps;
mod sum_lanes;
mod sum_table;
mod table;

pub use selection::Selection;
pub use table::NO_LENGTH;
