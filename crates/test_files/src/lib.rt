//! Tests of what is read, written, checked and asked: costs, graphs and hierarchies, texts of graphs and of pairs, however
//! they are cut, hierarchy files, and readers and writers that fail. `tests/program/small` and `tests/library/small` have
//! texts and files with their answers and verdicts.
//!
//! A crate of its own, so that `grfile`, `hierfile`, `ch_check`, `ch_verify`, `ch_query` and `ch_route` are proved once and
//! nothing waits for their tests. It has no code but tests.
#![tactic(auto)]

#[cfg(test)]
mod calls;
#[cfg(test)]
mod cases;
#[cfg(test)]
mod checked;
#[cfg(test)]
mod costs;
#[cfg(test)]
mod files;
#[cfg(test)]
mod graphs;
#[cfg(test)]
mod links;
#[cfg(test)]
mod refused;
#[cfg(test)]
mod routes;
#[cfg(test)]
mod texts;
#[cfg(test)]
mod verdicts;
