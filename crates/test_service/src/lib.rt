//! Tests of the calls of `ch_service`, of the command line, of the jobs of `performing` and of what `terminal` shows, from
//! without, as a program makes them: the worked examples, refusals, and readers, writers and destinations that fail. `tests/program/small` runs the commands on more texts and files.
//!
//! A crate of its own, so that what it tests is proved once and nothing waits for its tests. It has no code but tests.
#![tactic(auto)]

#[cfg(test)]
mod answers;
#[cfg(test)]
mod destinations;
#[cfg(test)]
mod endings;
#[cfg(test)]
mod examples;
#[cfg(test)]
mod kit;
#[cfg(test)]
mod meters;
#[cfg(test)]
mod refused;
#[cfg(test)]
mod statuses;
#[cfg(test)]
mod words;
#[cfg(test)]
mod workers;
