//! Tests of what an order is made by, and of the workers from without, as a program calls them: queues, estimators
//! and their leases; options and what is refused, the order of one worker, workers who overtake each
//! other, what workers keep from shift to shift, stints, receipts and the costs of hierarchies.
//!
//! A crate of its own, so that `ch_multiqueue`, `ch_estimate` and `ch_workers` are proved once and nothing waits for their
//! tests. It has no code but tests.
#![tactic(auto)]

#[cfg(test)]
mod accounts;
#[cfg(test)]
mod alone;
#[cfg(test)]
mod asked;
#[cfg(test)]
mod cliques;
#[cfg(test)]
mod collisions;
#[cfg(test)]
mod costs;
#[cfg(test)]
mod drops;
#[cfg(test)]
mod estimators;
#[cfg(test)]
mod four;
#[cfg(test)]
mod gates;
#[cfg(test)]
mod keeping;
#[cfg(test)]
mod kit;
#[cfg(test)]
mod leases;
#[cfg(test)]
mod limits;
#[cfg(test)]
mod orders;
#[cfg(test)]
mod own_order;
#[cfg(test)]
mod plain_queue;
#[cfg(test)]
mod queues;
#[cfg(test)]
mod refused;
#[cfg(test)]
mod stations;
#[cfg(test)]
mod stints;
#[cfg(test)]
mod traces;
