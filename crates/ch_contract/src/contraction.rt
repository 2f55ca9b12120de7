use std::marker::Model;

/// What a contraction did: an entry of the log.
#[derive(Debug, Drop)]
pub struct Contraction {
    /// The node that was contracted.
    pub node: u32,
    /// How many nodes were contracted before it.
    pub rank: u32,
    /// The nodes that had an arc to or from it and weren't contracted, rising, each once.
    pub neighbours: Vec<u32>,
    /// How many shortcuts were put in.
    pub shortcuts: u64,
}

impl Model for Contraction {
    ghost use Rattle.ch_laws.specs.Contraction as contractions;

    ghost Value = { contractions.Contraction };

    ghost view = { λ e. record { node = e.node; rank = e.rank; neighbours = e.neighbours.items; shortcuts = e.shortcuts } };
}

/// Says that a node was contracted, and its rank.
#[derive(Clone, Copy, Debug, PartialEq, Eq)]
pub struct Receipt {
    /// The node that was contracted.
    pub node: u32,
    /// How many nodes were contracted before it.
    pub rank: u32,
}
