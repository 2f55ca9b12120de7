//! The kinds of keys, and the estimators that have them: one more kind is written here.
ghost use Rattle.std.specs.Prelude.{◌≡◌, ◌<◌, ◌^◌};
ghost use Rattle.ch_contract.specs.Proposal.{AreFacts};
ghost use Rattle.ch_estimate.specs.Keys as keys;

use crate::by_key::ByKey;
use crate::edge_difference::edge_difference;
use crate::note::Note;
use ch_contract::Facts;

/// Nodes whose contraction leaves the fewest arcs go first.
pub type EdgeDifference = ByKey<Arcs>;

/// Nodes whose contraction leaves the fewest arcs go first, and each neighbour that is gone puts a node back by one.
pub type Neighbours = ByKey<ArcsAndGone>;

/// Nodes whose contraction leaves the fewest arcs go first, and each step of its depth puts a node back by one.
pub type Depth = ByKey<ArcsAndDepth>;

/// Nodes whose contraction puts in the fewest shortcuts for each arc that it takes away go first, and each step of its
/// depth puts a node back.
pub type Balanced = ByKey<ShortcutsForArcsAndDepth>;

/// A number by which an estimator puts nodes in order. No value of a kind of key is made.
pub trait Key {
    ghost use Rattle.std.specs.Prelude.{◌≡◌, ℕ};
    ghost use Rattle.ch_contract.specs.declared.facts.Facts.{Facts};
    ghost use Rattle.ch_contract.specs.Proposal.{AreFacts};
    ghost use Rattle.ch_estimate.specs.Notes.{Note};

    /// The number itself, by the counts of the node's proposal and the note of the node.
    ghost number: { Facts → Note → ℕ };

    /// The key of a node, by the counts of its proposal and what is known of it.
    fn of(facts: &Facts, note: Note) -> u64
        requires few { AreFacts facts.now }
        ensures { result ≡ number facts.now note };
}

/// How many more arcs there are after the contraction than before it, and 2^26.
pub struct Arcs;

impl Key for Arcs {
    ghost number = { λ facts _. keys.edge_difference facts };

    fn of(facts: &Facts, _note: Note) -> u64 {
        edge_difference(facts)
    }
}

/// The same, and how many of the node's neighbours are gone.
pub struct ArcsAndGone;

impl Key for ArcsAndGone {
    ghost number = { keys.with_neighbours };

    fn of(facts: &Facts, note: Note) -> u64 {
        edge_difference(facts) + u64::from(note.gone)
    }
}

/// The arcs' number, and the node's depth.
pub struct ArcsAndDepth;

impl Key for ArcsAndDepth {
    ghost number = { keys.with_depth };

    fn of(facts: &Facts, note: Note) -> u64 {
        edge_difference(facts) + u64::from(note.depth)
    }
}

/// Six for each shortcut that the contraction puts in for an arc that it takes away, and one for each step of the node's
/// depth, all in thousandths.
pub struct ShortcutsForArcsAndDepth;

impl Key for ShortcutsForArcsAndDepth {
    ghost number = { keys.balanced };

    fn of(facts: &Facts, note: Note) -> u64 {
        shortcuts_for_arcs(facts) + 1000 * u64::from(note.depth)
    }
}

/// Six shortcuts for each arc of the node, in thousandths, rounded down; 0 where it has none.
fn shortcuts_for_arcs(facts: &Facts) -> u64
    requires { AreFacts facts.now }
    ensures value { result ≡ keys.shortcuts_for_arcs facts.now }
    ensures low { result < 2 ^ 63 }
{
    let arcs = u64::from(facts.ins) + u64::from(facts.outs);
    if arcs == 0 {
        return 0;
    }
    6000 * facts.shortcuts / arcs
}
