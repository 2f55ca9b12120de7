ghost use Rattle.std.specs.Prelude.{◌≡◌, ◌<◌, ◌^◌, IsTrue, Some};
ghost use Rattle.ch_laws.specs.Contraction.{NoShortcut};
ghost use Rattle.ch_laws.specs.Rows.{Rises};
ghost use Rattle.ch_overlay.specs.Overlay.{AreEntries};
ghost use Rattle.ch_overlay.specs.Source.{row_of};
ghost use Rattle.ch_contract.specs.Proposal.{HasShortcut, IsCostOf, IsProposal, IsVerdict, AreFacts, AreFactsOf};

use crate::facts::Facts;
use crate::verdict::Verdict;
use ch_cost::Cost;
use ch_overlay::{Entry, Row, Seen, Shortcut, entry_for};
use std::marker::Model;

/// A contraction of a node that was worked out by rows, and the rows that it rests on.
///
/// It is made by [`propose`](crate::propose) alone. It stays right as long as these rows are the rows of their nodes,
/// whatever happens to the others: each [`Seen`] has its row's version, so a commit compares numbers and no rows.
#[derive(Drop)]
pub struct Proposal {
    pub(crate) bound: Cost,
    pub(crate) node: u32,
    pub(crate) rests_on: Vec<Seen>,
    pub(crate) shortcuts: Vec<Shortcut>,
}

impl Model for Proposal {
    ghost use Rattle.ch_contract.specs.Proposal as proposals;

    ghost Value = { proposals.Proposal };

    ghost view = { λ p. record { bound = p.bound; node = p.node; rests_on = p.rests_on.items; shortcuts = p.shortcuts.items } };

    ghost invariant = { λ p. proposals.IsProposal (record { bound = p.bound; node = p.node; rests_on = p.rests_on.items; shortcuts = p.shortcuts.items }) };
}

impl Proposal {
    /// Returns the bound of the source that it was made by, which is that of the graph.
    pub fn bound(&self) -> Cost
        ensures { result ≡ self.now.bound }
    {
        self.bound
    }

    /// Returns the node that it would contract.
    pub fn node(&self) -> u32
        ensures { result ≡ self.now.node }
    {
        self.node
    }

    /// Returns the rows that it rests on, each node once: the node's own, and then for each node with an arc to it,
    /// by rising number, that node's and those of the nodes that its ways come by.
    pub fn rests_on(&self) -> &[Seen]
        ensures rows { result.now ≡ self.now.rests_on }
        ensures holds { IsProposal self.now }
    {
        self.rests_on.as_slice()
    }

    /// Returns the shortcuts that it would put in, by their ends.
    pub fn shortcuts(&self) -> &[Shortcut]
        ensures { result.now ≡ self.now.shortcuts }
    {
        self.shortcuts.as_slice()
    }

    /// Returns the verdict on a pair of neighbours, or `None` for any other pair.
    ///
    /// The node's row is searched by halves, and the shortcuts one by one.
    pub fn verdict(&self, from: u32, to: u32) -> Option<Verdict>
        ensures { IsVerdict self.now from to result }
    {
        if from == to {
            return None;
        }
        let row = self.own();
        let Some(into) = cost_of(row.inn(), from) else {
            return None;
        };
        let Some(out) = cost_of(row.out(), to) else {
            return None;
        };
        if into.plus_within(out, self.bound).is_none() {
            return Some(Verdict::Heavy);
        }
        if has_shortcut(&self.shortcuts, from, to) {
            return Some(Verdict::Shortcut);
        }
        Some(Verdict::Witness)
    }

    /// Returns its counts. Takes no memory.
    pub fn facts(&self) -> Facts
        ensures counts { AreFactsOf self.now result }
        ensures few { AreFacts result }
    {
        let row = self.own();
        Facts {
            node: self.node,
            ins: row.inn().len() as u32,
            outs: row.out().len() as u32,
            shortcuts: self.shortcuts.len() as u64,
        }
    }

    /// The row that was read of the node.
    pub(crate) fn own(&self) -> &Row
        ensures read { row_of self.now.rests_on self.now.node ≡ Some result.now }
        ensures node { self.now.node < 2 ^ 25 }
        ensures out_rises { Rises result.now.out }
        ensures inn_rises { Rises result.now.inn }
        ensures entries { AreEntries (2 ^ 25) self.now.bound self.now.node result.now }
        ensures holds { IsProposal self.now }
    {
        &self.rests_on[0].row
    }
}

/// What the entry for this node costs, or `None` where no entry is for it. The entries are searched by halves.
fn cost_of(entries: &[Entry], other: u32) -> Option<Cost>
    requires { Rises entries.now }
    ensures { IsCostOf entries.now other result }
{
    let Some(entry) = entry_for(entries, other) else {
        return None;
    };
    Some(entry.cost.cost())
}

/// Whether one of the shortcuts joins these nodes.
fn has_shortcut(shortcuts: &[Shortcut], from: u32, to: u32) -> bool
    ensures some { IsTrue result → HasShortcut shortcuts.now from to }
    ensures none { (IsTrue result → ⊥) → NoShortcut shortcuts.now from to }
{
    shortcuts
        .iter()
        .any(|shortcut| shortcut.from == from && shortcut.to == to)
}
