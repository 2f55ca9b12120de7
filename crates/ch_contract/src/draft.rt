ghost use Rattle.std.specs.Prelude.{◌≡◌, ◌≢◌, ◌↔◌, ◌≤◌, ◌^◌, ℕ, List, [], ◌∷◌, ◌++◌, IfOk, OnOk, Contains, IsTrue, length, map};
ghost use Rattle.ch_cost.specs.Cost.{IsWithin};
ghost use Rattle.ch_laws.specs.declared.shortcut.Shortcut.{Shortcut};
ghost use Rattle.ch_laws.specs.Rows.{Rises};
ghost use Rattle.ch_overlay.specs.Overlay.{AreEntries};
ghost use Rattle.ch_overlay.specs.Source.{IsBound, NamesAlone};
ghost use Rattle.ch_witness.specs.Kept.{kept_of, AllNamed, AreKept, FindsRows, IsReadOn};
ghost use Rattle.ch_witness.specs.declared.error.SearchError.TheVariants.{Unseen};
ghost use Rattle.ch_contract.specs.Drafts.{ArePairs, AreJudged, AreSearched, IsPairAdded, IsPairJudged, IsDraftedFrom, IsInner, Lengthens};
ghost use Rattle.ch_contract.specs.Listed.{LeadsOn};

use crate::scratch::{Desk, NeighbourPairs};
use ch_cost::Cost;
use ch_laws::Entry;
use ch_overlay::{Row, RowSource, Shortcut, find_ends, greatest_cost, light_pair};
use ch_witness::{Aim, Rows, Rule, SearchError, Traced, Way};
use std::alloc::{AllocError, Global};
use std::mem;

/// What the pairs of a proposal have in common.
#[derive(Clone, Copy)]
pub struct Task {
    /// The node that it would contract.
    pub node: u32,
    /// The bound of the source.
    pub bound: Cost,
    /// How many nodes a search settles at most.
    pub settle: u32,
    ghost some: { 1 ≤ settle },
    ghost few: { settle ≤ 2 ^ 16 },
}

/// A proposal in the making.
#[derive(Drop)]
pub struct Draft {
    /// The nodes whose rows it rests on, in their order; a node may come again.
    pub listed: Vec<u32>,
    /// The shortcuts, by their ends.
    pub shortcuts: Vec<Shortcut>,
}

impl Draft {
    /// A draft that rests on the row of the node, and has worked out no pair. Its lists are made in the memory of earlier
    /// ones.
    pub fn new(
        earlier_listed: Vec<u32>,
        earlier_shortcuts: Vec<Shortcut>,
        node: u32,
    ) -> Result<Draft, AllocError>
        ensures listed { IfOk result (λ d. d.listed.items ≡ node ∷ []) }
        ensures shortcuts { IfOk result (λ d. d.shortcuts.items ≡ []) }
    {
        let mut listed = earlier_listed;
        listed.clear();
        listed.push(node)?;
        let mut shortcuts = earlier_shortcuts;
        shortcuts.clear();
        Ok(Draft { listed, shortcuts })
    }

    /// Puts in a shortcut for each pair to which no way leads that costs at most as much, and lists the inner
    /// nodes of the other ways.
    fn judge(&mut self, pairs: &[Shortcut], ways: &[Option<Way>]) -> Result<(), AllocError>
        requires many { length ways.now ≡ length pairs.now }
        ensures { OnOk result (AreJudged pairs.now ways.now (length pairs.now) self.old self.new) }
    {
        'pairs: for place in 0..pairs.len() {
            self.judge_pair(pairs[place], &ways[place])?;
        }
        Ok(())
    }

    /// Judges one pair by the best way that was found.
    fn judge_pair(&mut self, pair: Shortcut, way: &Option<Way>) -> Result<(), AllocError>
        ensures { OnOk result (IsPairJudged pair way.now self.old self.new) }
    {
        let cost = pair.cost.cost();
        if let Some(way) = way {
            if way.cost.is_at_most(cost) {
                return self.list_inner(&way.nodes);
            }
        }
        self.shortcuts.push(pair)?;
        Ok(())
    }

    /// Lists the nodes of a way but its ends.
    fn list_inner(&mut self, nodes: &[u32]) -> Result<(), AllocError>
        ensures shortcuts { OnOk result (self.new.shortcuts.items ≡ self.old.shortcuts.items) }
        ensures listed { OnOk result ((more : List ℕ) × Lengthens more self.old self.new × IsInner nodes.now more) }
    {
        let Some((_, front)) = nodes.split_last() else {
            return Ok(());
        };
        let Some((_, inner)) = front.split_first() else {
            return Ok(());
        };
        self.listed.extend_from_slice(inner)?;
        Ok(())
    }
}

/// Works out the pairs from one neighbour, which has this arc to the node, to the others that the node's row lists.
///
/// Where there is another, the neighbour's row is read and listed; where a pair isn't heavy, a search is made, in the
/// memory of the ways and steps that an earlier one found (`traced`).
pub fn draft_pairs<S: RowSource>(
    alloc: Global,
    source: &mut S,
    desk: &mut Desk,
    task: Task,
    row: &Row,
    into: &Entry,
    draft: &mut Draft,
    traced: &mut Traced,
) -> Result<(), SearchError>
    requires bound { task.bound ≡ S.bound_of source.old }
    requires limit { IsBound task.bound }
    requires inn_rises { Rises row.now.inn }
    requires out_rises { Rises row.now.out }
    requires entries { AreEntries (2 ^ 25) task.bound task.node row.now }
    requires among { Contains row.now.inn into.now }
    requires kept { AreKept S.bears (S.shows source.old) (S.bound_of source.old) (kept_of desk.old.searcher.rows) }
    ensures draft { OnOk result (IsDraftedFrom task.bound task.node row.now into.now (kept_of desk.new.searcher.rows) draft.old draft.new) }
    ensures read { IsReadOn S.bears (S.shows source.new) (S.bound_of source.new) (S.stays source.old source.new) (kept_of desk.old.searcher.rows) (kept_of desk.new.searcher.rows) }
    ensures found { AllNamed (S.whole source.old) (kept_of desk.old.searcher.rows) → NamesAlone (S.whole source.old) row.now → FindsRows Unseen (S.whole source.new) (kept_of desk.new.searcher.rows) result }
{
    let from = into.other;
    if !leads_on(row.out(), from) {
        return Ok(());
    }
    desk.searcher.rows.read(source, from)?;
    draft.listed.push(from)?;
    find_pairs(task, into, row.out(), &desk.searcher.rows, &mut desk.pairs)?;
    if desk.pairs.light.is_empty() {
        return Ok(());
    }
    judge_by_search(alloc, source, desk, task, from, draft, traced)
}

/// Judges the pairs on the desk, which lead from this neighbour, by one search for ways around the node, of at most what
/// the dearest pair costs. What it found is left in `traced`, in place of what an earlier one did, whose memory it takes.
fn judge_by_search<S: RowSource>(
    alloc: Global,
    source: &mut S,
    desk: &mut Desk,
    task: Task,
    from: u32,
    draft: &mut Draft,
    traced: &mut Traced,
) -> Result<(), SearchError>
    requires start { from ≢ task.node }
    requires avoided { Contains (map (λ p. p.to) desk.old.pairs.light.items) task.node → ⊥ }
    requires ends { desk.old.pairs.ends.items ≡ map (λ p. p.to) desk.old.pairs.light.items }
    requires within { (p : Shortcut) → Contains desk.old.pairs.light.items p → IsWithin p.cost (S.bound_of source.old) }
    requires kept { AreKept S.bears (S.shows source.old) (S.bound_of source.old) (kept_of desk.old.searcher.rows) }
    ensures searched { OnOk result (AreSearched task.node from desk.old.pairs.light.items (kept_of desk.new.searcher.rows) draft.old draft.new) }
    ensures read { IsReadOn S.bears (S.shows source.new) (S.bound_of source.new) (S.stays source.old source.new) (kept_of desk.old.searcher.rows) (kept_of desk.new.searcher.rows) }
    ensures found { AllNamed (S.whole source.old) (kept_of desk.old.searcher.rows) → S.whole source.old from → FindsRows Unseen (S.whole source.new) (kept_of desk.new.searcher.rows) result }
{
    let rule = Rule {
        from,
        avoid: task.node,
        cutoff: greatest_cost(&desk.pairs.light),
    };
    let earlier = mem::replace(traced, Traced::new(alloc));
    let found = desk.searcher.search(
        alloc,
        source,
        rule,
        &desk.pairs.ends,
        &desk.pairs.aims,
        task.settle,
        earlier,
    )?;
    draft.judge(&desk.pairs.light, &found.ways)?;
    *traced = found;
    Ok(())
}

/// Whether one of the entries is for another node than this.
pub fn leads_on(entries: &[Entry], node: u32) -> bool
    ensures { IsTrue result ↔ LeadsOn entries.now node }
{
    entries.iter().any(|entry| node != entry.other)
}

/// The pairs from one neighbour to the others that aren't heavy, and what a search for their ways is given. They take the
/// place of what was there.
fn find_pairs(
    task: Task,
    into: &Entry,
    outs: &[Entry],
    rows: &Rows,
    pairs: &mut NeighbourPairs,
) -> Result<(), AllocError>
    requires rises { Rises outs.now }
    requires limit { IsBound task.bound }
    ensures light { OnOk result (ArePairs task.bound into.now outs.now pairs.new.light.items) }
    ensures ends { OnOk result (pairs.new.ends.items ≡ map (λ p. p.to) pairs.new.light.items) }
{
    find_light_pairs(task.bound, into, outs, &mut pairs.light)?;
    find_ends(&pairs.light, &mut pairs.ends)?;
    find_aims(&pairs.light, task.node, rows, &mut pairs.aims)
}

/// The pairs from one neighbour to the others that aren't heavy, with what their two arcs cost together. They take the
/// place of what the list had.
fn find_light_pairs(
    bound: Cost,
    into: &Entry,
    outs: &[Entry],
    pairs: &mut Vec<Shortcut>,
) -> Result<(), AllocError>
    requires rises { Rises outs.now }
    requires limit { IsBound bound }
    ensures { OnOk result (ArePairs bound into.now outs.now pairs.new.items) }
{
    pairs.clear();
    'outs: for out in outs {
        add_pair(bound, into, out, pairs)?;
    }
    Ok(())
}

/// Adds the pair of two arcs, unless it is heavy or they join a node with itself.
fn add_pair(
    bound: Cost,
    into: &Entry,
    out: &Entry,
    pairs: &mut Vec<Shortcut>,
) -> Result<(), AllocError>
    requires limit { IsBound bound }
    ensures { OnOk result (IsPairAdded bound into.now out.now pairs.old.items pairs.new.items) }
{
    if let Some(pair) = light_pair(bound, into, out) {
        pairs.push(pair)?;
    }
    Ok(())
}

/// What lets a search end earlier, for the end of each of these pairs: a way of at most the pair's cost is enough, and its
/// last arc costs at least so much. The pairs' middle is avoided. It takes the place of what the list had.
fn find_aims(
    pairs: &[Shortcut],
    avoid: u32,
    rows: &Rows,
    aims: &mut Vec<Aim>,
) -> Result<(), AllocError> {
    aims.clear();
    'pairs: for pair in pairs {
        aims.push(Aim {
            enough: pair.cost.cost(),
            last_arc: least_last_arc(rows, *pair, avoid),
        })?;
    }
    Ok(())
}

/// What each arc to the end of a pair costs at least, but for one from its start or from the node to avoid. Nothing is
/// known where no row of the end is kept.
fn least_last_arc(rows: &Rows, pair: Shortcut, avoid: u32) -> Cost {
    let Some(seen) = rows.get(pair.to) else {
        return Cost::ZERO;
    };
    let mut least = Cost::GREATEST;
    'inns: for arc in seen.row.inn() {
        let cost = arc.cost.cost();
        if arc.other != avoid && arc.other != pair.from && cost.is_below(least) {
            least = cost;
        }
    }
    least
}
