ghost use Rattle.std.specs.Prelude.{◌≡◌, ◌≢◌, ◌↔◌, ◌<◌, ◌⊎◌, ℕ, IfNone, IfSome, IsTrue, IfOk, OnOk, List, [], ◌∷◌, ◌++◌, Some, None, AllPairs, Contains, map, filter, not, nat_eq};
ghost use Rattle.ch_laws.specs.declared.entry.Entry.{Entry};
ghost use Rattle.ch_laws.specs.Rows.{Rises};
ghost use Rattle.ch_overlay.specs.Merging.{merged};
ghost use Rattle.ch_overlay.specs.Overlay.{no_arcs};
ghost use Rattle.ch_overlay.specs.Prepared.{AreNamed};

use crate::merge::Merge;
use ch_laws::Entry;
use std::alloc::{AllocError, Global};
use std::boxed::BoxedSlice;
use std::marker::Model;

/// What a node has of its arcs, as a state of contraction shows it.
///
/// Each list has at most one entry for each other node, by rising number. A node that isn't contracted has entries
/// for such nodes alone; one that is keeps those that it had when it was contracted.
#[derive(Drop)]
pub struct Row {
    // The arcs out of the node, and behind them those into it.
    arcs: BoxedSlice<Entry>,
    // How many arcs are out of the node.
    outs: usize,
    /// How many nodes were contracted before it, or `None` where it isn't contracted.
    pub rank: Option<u32>,
}

impl Model for Row {
    ghost use Rattle.std.specs.Prelude.{◌≤◌, take, drop, length};
    ghost use Rattle.std.specs.Box.{boxed_slice_items};
    ghost use Rattle.ch_laws.specs.Rows as rows;

    ghost Value = { rows.Row };

    ghost view = { λ r. record { out = take r.outs (boxed_slice_items r.arcs); inn = drop r.outs (boxed_slice_items r.arcs); rank = r.rank } };

    ghost invariant = { λ r. r.outs ≤ length (boxed_slice_items r.arcs) };
}

/// The arcs of a node as they are collected, in two lists that grow.
#[derive(Drop)]
pub struct OpenRow {
    out: Vec<Entry>,
    inn: Vec<Entry>,
}

impl Model for OpenRow {
    ghost use Rattle.std.specs.Prelude.{None};
    ghost use Rattle.ch_laws.specs.Rows as rows;

    ghost Value = { rows.Row };

    ghost view = { λ r. record { out = r.out.items; inn = r.inn.items; rank = None } };
}

impl OpenRow {
    /// The row of a node without arcs, with room for this many entries out of it and into it.
    pub(crate) fn with_room(alloc: Global, out: usize, inn: usize) -> Result<OpenRow, AllocError>
        ensures { IfOk result (λ row. row ≡ no_arcs) }
    {
        Ok(OpenRow {
            out: Vec::with_capacity(alloc, out)?,
            inn: Vec::with_capacity(alloc, inn)?,
        })
    }

    /// Adds an arc out of the node. Refused where memory runs out.
    pub(crate) fn add_out(&mut self, entry: Entry) -> Result<(), AllocError>
        ensures { IfOk result (λ _. self.new ≡ record self.old { out = self.old.out ++ entry ∷ [] }) }
    {
        self.out.push(entry)?;
        Ok(())
    }

    /// Adds an arc into the node. Refused where memory runs out.
    pub(crate) fn add_in(&mut self, entry: Entry) -> Result<(), AllocError>
        ensures { IfOk result (λ _. self.new ≡ record self.old { inn = self.old.inn ++ entry ∷ [] }) }
    {
        self.inn.push(entry)?;
        Ok(())
    }

    /// The same row, in the memory that it needs.
    pub(crate) fn closed(self, alloc: Global) -> Result<Row, AllocError>
        ensures { IfOk result (λ row. row ≡ self) }
    {
        Row::new(alloc, &self.out, &self.inn, None)
    }
}

impl Row {
    /// Returns the row of these entries and this rank.
    pub fn new(
        alloc: Global,
        out: &[Entry],
        inn: &[Entry],
        rank: Option<u32>,
    ) -> Result<Row, AllocError>
        ensures { IfOk result (λ row. row ≡ record { out = out.now; inn = inn.now; rank = rank }) }
    {
        let mut arcs = Vec::with_capacity(alloc, out.len().saturating_add(inn.len()))?;
        arcs.extend_from_slice(out)?;
        arcs.extend_from_slice(inn)?;
        Ok(Row {
            arcs: arcs.into_boxed_slice(),
            outs: out.len(),
            rank,
        })
    }

    /// Returns the arcs out of the node.
    pub fn out(&self) -> &[Entry]
        ensures { result.now ≡ self.now.out }
    {
        &self.arcs.as_slice()[..self.outs]
    }

    /// Returns the arcs into the node.
    pub fn inn(&self) -> &[Entry]
        ensures { result.now ≡ self.now.inn }
    {
        &self.arcs.as_slice()[self.outs..]
    }

    /// Whether it has the same entries and the same rank as another row. Looks once at each entry.
    pub fn is_same(&self, other: &Row) -> bool
        ensures { IsTrue result ↔ (self.now ≡ other.now) }
    {
        (self.rank == other.rank) & (self.out() == other.out()) & (self.inn() == other.inn())
    }

    /// The same row, in memory of its own.
    pub(crate) fn copied(&self, alloc: Global) -> Result<Row, AllocError>
        ensures { IfOk result (λ row. row ≡ self.now) }
    {
        Ok(Row {
            arcs: BoxedSlice::from_slice(alloc, self.arcs.as_slice())?,
            outs: self.outs,
            rank: self.rank,
        })
    }

    /// The row without its entries for `gone`, and with these in place of what it has for their nodes. All lists rise.
    pub(crate) fn changed(
        &self,
        alloc: Global,
        gone: u32,
        out: &[Entry],
        inn: &[Entry],
    ) -> Result<Row, AllocError>
        ensures { IfOk result (λ row. row ≡ record self.now {
          out = filter (λ e. not (nat_eq e.other gone)) (merged self.now.out out.now);
          inn = filter (λ e. not (nat_eq e.other gone)) (merged self.now.inn inn.now);
        }) }
    {
        let outs = count(gone, self.out(), out);
        let ins = count(gone, self.inn(), inn);
        let mut arcs = Vec::with_capacity(alloc, outs.saturating_add(ins))?;
        replace(gone, self.out(), out, &mut arcs)?;
        let outs = arcs.len();
        replace(gone, self.inn(), inn, &mut arcs)?;
        Ok(Row {
            arcs: arcs.into_boxed_slice(),
            outs,
            rank: self.rank,
        })
    }

    /// Returns the nodes that it has entries for, in either direction, each once, by rising number. Both lists rise. Takes
    /// memory for them, and time by the number of entries.
    pub fn named(&self, alloc: Global) -> Result<Vec<u32>, AllocError>
        requires out_rises { Rises self.now.out }
        requires inn_rises { Rises self.now.inn }
        ensures { IfOk result (λ nodes. AreNamed self.now nodes.items) }
    {
        let mut nodes = Vec::with_capacity(alloc, self.arcs.len())?;
        nodes.extend(Merge::new(self.out(), self.inn()).map(|e| e.other))?;
        Ok(nodes)
    }
}

/// Puts the new entries and those old ones that none of them replaces, without the entry for `gone`, behind others.
fn replace(
    gone: u32,
    old: &[Entry],
    new: &[Entry],
    entries: &mut Vec<Entry>,
) -> Result<(), AllocError>
    ensures { OnOk result (entries.new.items ≡ entries.old.items ++ filter (λ e. not (nat_eq e.other gone)) (merged old.now new.now)) }
{
    entries.extend(Merge::new(old, new).filter(|e| e.other != gone))?;
    Ok(())
}

/// How many entries these are. Only the memory that is taken for them depends on it.
fn count(gone: u32, old: &[Entry], new: &[Entry]) -> usize {
    let mut count = 0usize;
    'entries: for entry in Merge::new(old, new) {
        if entry.other != gone {
            count = count.saturating_add(1);
        }
    }
    count
}

/// The entry for a node among those of a list of a row, or `None` where there is none. Takes time by the logarithm of their
/// number.
pub fn entry_for(entries: &[Entry], node: u32) -> Option<&Entry>
    requires { Rises entries.now }
    ensures found { IfSome result (λ entry. Contains entries.now entry.now × (entry.now.other ≡ node)) }
    ensures none { IfNone result ((e : Entry) → Contains entries.now e → e.other ≢ node) }
{
    match entries.binary_search_by_key(&node, |entry| entry.other) {
        Ok(place) => Some(&entries[place]),
        Err(_) => None,
    }
}
