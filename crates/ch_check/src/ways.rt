ghost use Rattle.std.specs.Prelude.{◌≡◌, ◌≢◌, ◌≤◌, ◌<◌, ◌+◌, ◌-◌, ◌*◌, ◌^◌, Ok, Err, IfErr, IfOk, IsTrue, OnOk, Some, length, map, min};
ghost use Rattle.ch_check.specs.declared.fault.Fault.TheVariants.{Work};
ghost use Rattle.std.specs.List.{slice_get};
ghost use Rattle.std.specs.Option.{IsSomeAnd};
ghost use Rattle.ch_cost.specs.Cost.{◌≼◌};
ghost use Rattle.ch_overlay.specs.Source.{IsBound};
ghost use Rattle.ch_witness.specs.declared.error.SearchError.TheVariants.{Unseen};
ghost use Rattle.ch_witness.specs.Kept.{kept_of};
ghost use Rattle.ch_witness.specs.Tree.{seen_of};
ghost use Rattle.ch_witness.specs.Ways.{AreWays, IsFound};
ghost use Rattle.ch_check.specs.Pairs.{HaveWays, AreAround, AreLeft, AreOwed, AreRowsOf, AreUnmet, IsNode};

use crate::fault::Fault;
use crate::overlay_rows::OverlayRows;
use ch_cost::Cost;
use ch_laws::{Entry, Shortcut};
use ch_overlay::{Overlay, find_ends, greatest_cost};
use ch_witness::{Aim, Rule, SearchError, Searcher, Traced, Way};
use std::alloc::{AllocError, Global};
use std::mem;

/// How many nodes a search settles at most. A hierarchy that was made by shorter searches has no need of longer ones.
const SETTLE: u32 = 1 << 16;

/// How many nodes a search settles that made a hierarchy here: what it came to is found by as many.
const FREE_SETTLES: u32 = 1 << 6;

/// How many nodes all searches of a check settle at most: this many for each link, and so many more.
const FOR_A_LINK: u64 = 1 << 8;

const FOR_ALL: u64 = 1 << 22;

/// Finds ways around nodes, one after the other, in memory that is used again.
#[derive(Drop)]
pub struct Finder {
    alloc: Global,
    /// The rows that were read, and searches along them.
    pub searcher: Searcher,
    /// Where a search is to come to.
    ends: Vec<u32>,
    /// What it may know of each of these nodes.
    aims: Vec<Aim>,
    /// What the search before has found.
    earlier: Traced,
    /// How many nodes its searches may still settle.
    rest: u64,
}

impl Finder {
    /// No way is found yet. It takes no memory yet. All searches of a check of a hierarchy of this many links are its own.
    pub fn new(alloc: Global, links: usize) -> Finder
        ensures limit { result.rest ≡ min (links * 2 ^ 8 + 2 ^ 22) (2 ^ 64 - 1) }
    {
        Finder {
            alloc,
            rest: (links as u64)
                .saturating_mul(FOR_A_LINK)
                .saturating_add(FOR_ALL),
            searcher: Searcher::new(alloc),
            ends: Vec::new(alloc),
            aims: Vec::new(alloc),
            earlier: Traced::new(alloc),
        }
    }

    /// Finds a way around a node for each of these pairs, which all lead from one neighbour. Fails at the first that has
    /// none, and where all searches together have settled too many nodes.
    ///
    /// What two short searches leave without a way gets a whole one.
    pub fn find_ways(
        &mut self,
        overlay: &Overlay,
        via: u32,
        from: u32,
        owed: &[Shortcut],
    ) -> Result<(), Fault>
        requires bound { IsBound overlay.now.bound }
        requires inside { IsNode overlay.now from }
        requires start { from ≢ via }
        requires owed { AreOwed overlay.now via from owed.now }
        requires kept { AreRowsOf overlay.now (kept_of self.old.searcher.rows) }
        ensures ways { OnOk result (HaveWays overlay.now via owed.now) }
        ensures kept { OnOk result (AreRowsOf overlay.now (kept_of self.new.searcher.rows)) }
    {
        let few = self.search_few(overlay, via, from, owed)?;
        let left = self.search_ways(overlay, via, from, &few, SETTLE)?;
        if left.is_empty() {
            return Ok(());
        }
        let pair = &left[0];
        Err(Fault::Way {
            via,
            from: pair.from,
            to: pair.to,
        })
    }

    /// Searches ways to the ends of these pairs by two short searches, and returns those pairs for which they found none
    /// that costs no more.
    ///
    /// A way that costs no more than its pair will do, the best isn't wanted. So the first search ends as soon as it has
    /// come to each end. Those pairs that it leaves without a way, since it came to their ends by too costly ones, get a
    /// search like those by which hierarchies are made here.
    fn search_few(
        &mut self,
        overlay: &Overlay,
        via: u32,
        from: u32,
        owed: &[Shortcut],
    ) -> Result<Vec<Shortcut>, Fault>
        requires bound { IsBound overlay.now.bound }
        requires inside { IsNode overlay.now from }
        requires start { from ≢ via }
        requires owed { AreOwed overlay.now via from owed.now }
        requires kept { AreRowsOf overlay.now (kept_of self.old.searcher.rows) }
        ensures left { IfOk result (λ left. AreLeft overlay.now via owed.now left.items) }
        ensures kept { OnOk result (AreRowsOf overlay.now (kept_of self.new.searcher.rows)) }
    {
        find_aims(owed, &mut self.aims)?;
        let some = self.search_ways(overlay, via, from, owed, SETTLE)?;
        self.aims.clear();
        let few = self.search_ways(overlay, via, from, &some, FREE_SETTLES)?;
        Ok(few)
    }

    /// Searches ways to the ends of these pairs, settling at most so many nodes, and returns those pairs for which it found
    /// none that costs no more.
    fn search_ways(
        &mut self,
        overlay: &Overlay,
        via: u32,
        from: u32,
        owed: &[Shortcut],
        settle: u32,
    ) -> Result<Vec<Shortcut>, Fault>
        requires some { 1 ≤ settle }
        requires few { settle ≤ 2 ^ 16 }
        requires bound { IsBound overlay.now.bound }
        requires inside { IsNode overlay.now from }
        requires start { from ≢ via }
        requires owed { AreOwed overlay.now via from owed.now }
        requires kept { AreRowsOf overlay.now (kept_of self.old.searcher.rows) }
        ensures left { IfOk result (λ left. AreLeft overlay.now via owed.now left.items) }
        ensures kept { OnOk result (AreRowsOf overlay.now (kept_of self.new.searcher.rows)) }
    {
        if owed.is_empty() {
            return Ok(Vec::new(self.alloc));
        }
        let found = self.trace_ways(overlay, via, from, owed, settle)?;
        self.rest = rest_of(self.rest, found.steps.len())?;
        let left = unmet(self.alloc, owed, &found.ways)?;
        self.earlier = found;
        Ok(left)
    }

    /// Searches ways to the ends of these pairs, settling at most so many nodes, and returns those pairs for which it found
    /// none that costs no more, in their order. There is no search where a way of three arcs has no room.
    pub fn leave(
        &mut self,
        overlay: &Overlay,
        via: u32,
        from: u32,
        owed: &[Shortcut],
        settle: u32,
    ) -> Result<Vec<Shortcut>, AllocError>
        requires some { 1 ≤ settle }
        requires few { settle ≤ 2 ^ 16 }
        requires bound { IsBound overlay.now.bound }
        requires inside { IsNode overlay.now from }
        requires start { from ≢ via }
        requires owed { AreOwed overlay.now via from owed.now }
        requires kept { AreRowsOf overlay.now (kept_of self.old.searcher.rows) }
        ensures left { IfOk result (λ left. AreLeft overlay.now via owed.now left.items) }
        ensures kept { OnOk result (AreRowsOf overlay.now (kept_of self.new.searcher.rows)) }
    {
        if !aim(overlay, via, from, owed, &mut self.aims)? {
            return owed.to_vec(self.alloc);
        }
        let found = self.trace_ways(overlay, via, from, owed, settle)?;
        let left = unmet(self.alloc, owed, &found.ways)?;
        self.earlier = found;
        Ok(left)
    }

    /// The best ways to the ends of these pairs that a search has come to when it ends.
    fn trace_ways(
        &mut self,
        overlay: &Overlay,
        via: u32,
        from: u32,
        owed: &[Shortcut],
        settle: u32,
    ) -> Result<Traced, AllocError>
        requires some { 1 ≤ settle }
        requires few { settle ≤ 2 ^ 16 }
        requires bound { IsBound overlay.now.bound }
        requires inside { IsNode overlay.now from }
        requires start { from ≢ via }
        requires owed { AreOwed overlay.now via from owed.now }
        requires kept { AreRowsOf overlay.now (kept_of self.old.searcher.rows) }
        ensures ways { IfOk result (λ found. AreAround overlay.now via from (map (λ p. p.to) owed.now) found.ways.items) }
        ensures kept { OnOk result (AreRowsOf overlay.now (kept_of self.new.searcher.rows)) }
    {
        find_ends(owed, &mut self.ends)?;
        let rule = Rule {
            from,
            avoid: via,
            cutoff: greatest_cost(owed),
        };
        let earlier = mem::replace(&mut self.earlier, Traced::new(self.alloc));
        let mut rows = OverlayRows::new(overlay);
        let found = self.searcher.search(
            self.alloc, &mut rows, rule, &self.ends, &self.aims, settle, earlier,
        );
        seen_all(found)
    }
}

/// How many nodes may still be settled after so many more, if they may.
fn rest_of(rest: u64, settled: usize) -> Result<u64, Fault>
    ensures rest { IfOk result (λ left. left + settled ≡ rest) }
    ensures work { IfErr result (λ fault. (fault ≡ Work) × (rest < settled)) }
{
    rest.checked_sub(settled as u64).ok_or(Fault::Work)
}

/// What a search found that had each row, or that memory ran out.
fn seen_all(found: Result<Traced, SearchError>) -> Result<Traced, AllocError>
    requires { found ≡ Err Unseen → ⊥ }
    ensures { IfOk result (λ traced. found ≡ Ok traced) }
{
    match found {
        Ok(traced) => Ok(traced),
        Err(SearchError::OutOfMemory) => Err(AllocError),
        Err(SearchError::Unseen) => unreachable!(),
    }
}

/// Those of these pairs that have no way that costs no more.
fn unmet(
    alloc: Global,
    owed: &[Shortcut],
    ways: &[Option<Way>],
) -> Result<Vec<Shortcut>, AllocError>
    requires many { length ways.now ≡ length owed.now }
    ensures { IfOk result (λ left. AreUnmet owed.now ways.now (length owed.now) left.items) }
{
    let mut left = Vec::new(alloc);
    'owed: for place in 0..owed.len() {
        let pair = &owed[place];
        if !is_met(pair, &ways[place]) {
            left.push(*pair)?;
        }
    }
    Ok(left)
}

/// Whether there is a way, and it costs no more than the pair.
fn is_met(pair: &Shortcut, way: &Option<Way>) -> bool
    ensures { IsTrue result → IsSomeAnd way.now (λ w. w.cost ≼ pair.now.cost) }
{
    let Some(way) = way else {
        return false;
    };
    way.cost.is_at_most(pair.cost.cost())
}

/// Lets a search end at any way to the ends of these pairs that costs no more than the pair. It takes the place of what the
/// list had.
fn find_aims(pairs: &[Shortcut], aims: &mut Vec<Aim>) -> Result<(), AllocError> {
    aims.clear();
    'pairs: for pair in pairs {
        aims.push(Aim {
            enough: Cost::GREATEST,
            last_arc: pair.cost.cost(),
        })?;
    }
    Ok(())
}

/// Lets a search look for ways that cost no more than these pairs, which lead from one neighbour of a node, and tells it
/// what the last arc of each costs at least. It takes the place of what the list had. Returns whether a way of three arcs
/// or more may cost so little.
fn aim(
    overlay: &Overlay,
    via: u32,
    from: u32,
    pairs: &[Shortcut],
    aims: &mut Vec<Aim>,
) -> Result<bool, AllocError> {
    aims.clear();
    let mut has_room = false;
    'pairs: for pair in pairs {
        let aim = aim_of(overlay, via, pair);
        aims.push(aim)?;
        if is_room(overlay, via, from, aim) {
            has_room = true;
        }
    }
    Ok(has_room)
}

/// What a search may know of the end of a pair by way of a node.
fn aim_of(overlay: &Overlay, via: u32, pair: &Shortcut) -> Aim {
    let mut last_arc = Cost::ZERO;
    if pair.to < overlay.nodes() {
        last_arc = least_cost(overlay.row(pair.to).inn(), via, pair.from);
    }
    Aim {
        enough: pair.cost.cost(),
        last_arc,
    }
}

/// Whether an arc out of a node and then the last one may cost no more than is wanted.
fn is_room(overlay: &Overlay, via: u32, from: u32, aim: Aim) -> bool {
    if from >= overlay.nodes() {
        return true;
    }
    let first_arc = least_cost(overlay.row(from).out(), via, from);
    let Some(least) = first_arc.checked_plus(aim.last_arc) else {
        return false;
    };
    least.is_at_most(aim.enough)
}

/// What each of these arcs costs at least, but for those that lead to these two nodes or from them.
fn least_cost(arcs: &[Entry], one: u32, other: u32) -> Cost {
    let mut least = Cost::GREATEST;
    'arcs: for arc in arcs {
        let cost = arc.cost.cost();
        if arc.other != one && arc.other != other && cost.is_below(least) {
            least = cost;
        }
    }
    least
}
