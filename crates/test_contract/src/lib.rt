//! Worked cases of the layers from rows to hierarchies, and of the pure world: small networks, and what is to come of them
//! by hand; and threads that read the rows of a book while another thread writes.
//!
//! Builds on `ch_overlay`, `ch_rowbook`, `ch_witness`, `ch_contract` and `ch_core`, and has nothing but their tests. They
//! are apart so that the proofs of the layers are made once.
#![tactic(auto)]

#[cfg(test)]
mod boards;
#[cfg(test)]
mod book_races;
#[cfg(test)]
mod books;
#[cfg(test)]
mod networks;
#[cfg(test)]
mod overlays;
#[cfg(test)]
mod prepared;
#[cfg(test)]
mod proposals;
#[cfg(test)]
mod races;
#[cfg(test)]
mod readers;
#[cfg(test)]
mod ready;
#[cfg(test)]
mod refused;
#[cfg(test)]
mod searches;
#[cfg(test)]
mod shelf;
#[cfg(test)]
mod worlds;
