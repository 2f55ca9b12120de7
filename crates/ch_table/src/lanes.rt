ghost use Rattle.std.specs.Prelude.{◌≡◌, ◌+◌, ◌*◌, ◌<◌, ◌≤◌, ◌^◌, ◌∷◌, [], ℕ, List, length, replicate, slice_index, All, IfOk, OnErr, OnOk};
ghost use Rattle.ch_cost.specs.Cost.{IsSummable, length_of};
ghost use Rattle.ch_query.specs.declared.seed.Seed.{Seed as a_seed};
ghost use Rattle.ch_query.specs.Seeds.{AreSeeds};
ghost use Rattle.ch_query.specs.Ways.{free};
ghost use Rattle.ch_table.specs.Labels.{AreRaisedTo, HaveLanes, far};
ghost use Rattle.ch_table.specs.Lengths.{AreRows, IsLengthFrom};
ghost use Rattle.ch_table.specs.Selection.{IsSelection, lists_of};

use crate::columns::Columns;
use crate::table::Table;
use ch_cost::Cost;
use ch_query::{Climbed, HierarchyRef, SearchOf, Seed, ways_are_walks};
use std::alloc::{AllocError, Global};

/// Labels of the places of a selection in a number of lanes, and room for the climbs of one.
#[derive(Drop)]
pub struct Lanes<const N: usize> {
    /// For each place its label in each lane.
    pub labels: Vec<[u64; N]>,
    /// The climbs of the last lane.
    pub climbs: Vec<Climbed>,
}

impl<const N: usize> Lanes<N> {
    /// No labels yet. Takes no memory.
    pub fn new(alloc: Global) -> Lanes<N> {
        Lanes {
            labels: Vec::new(alloc),
            climbs: Vec::new(alloc),
        }
    }

    /// Begins with labels at so many places, all far: no climb is known in any lane.
    pub fn begin(&mut self, places: usize, bound: Cost) -> Result<(), AllocError>
        requires few { N ≤ 8 }
        requires limit { length_of bound ≤ 2 ^ 62 }
        ensures count { OnOk result (length self.new.labels.items ≡ places) }
        ensures far { OnOk result (All (λ (row : List ℕ). row ≡ replicate N (far bound)) self.new.labels.items) }
    {
        let far = [bound.length() + 1; N];
        self.labels.clear();
        self.labels.resize(places, far)
    }

    /// Climbs from some starts, and labels the places of the nodes that it comes to in a lane, in which all is far.
    pub fn climb<H: HierarchyRef>(
        &mut self,
        search: &mut SearchOf<H>,
        columns: &Columns,
        starts: &[Seed],
        bound: Cost,
        lane: usize,
    ) -> Result<(), AllocError>
        requires selection { IsSelection search.old (lists_of columns.now) }
        requires starts { AreSeeds search.old starts.now }
        requires bound { IsSummable bound }
        requires limit { length_of bound ≤ 2 ^ 62 }
        requires few { N ≤ 8 }
        requires lane_in { lane < N }
        requires lanes { HaveLanes (length columns.now.ranks.items) N self.old.labels.items }
        ensures lanes { HaveLanes (length columns.now.ranks.items) N self.new.labels.items }
        ensures raised { OnOk result ((all : ℕ → List a_seed) → all lane ≡ starts.now → AreRaisedTo search.old all bound columns.now.ranks.items N self.old.labels.items lane → AreRaisedTo search.old all bound columns.now.ranks.items N self.new.labels.items (lane + 1)) }
        ensures kept { search.new ≡ search.old }
    {
        search.climb(starts, bound, &mut self.climbs)?;
        let hierarchy = search.hierarchy();
        let _well_made = hierarchy.nodes();
        let table = Table {
            columns,
            hierarchy,
            bound,
        };
        table.raise(starts, &self.climbs, lane, &mut self.labels);
        Ok(())
    }

    /// Climbs from each of some nodes, in a lane for each.
    pub fn climb_each<H: HierarchyRef>(
        &mut self,
        search: &mut SearchOf<H>,
        columns: &Columns,
        sources: &[u32],
        bound: Cost,
    ) -> Result<(), AllocError>
        requires selection { IsSelection search.old (lists_of columns.now) }
        requires sources { All (λ s. s < length search.old.ranks) sources.now }
        requires few { N ≤ 8 }
        requires room { length sources.now ≤ N }
        requires bound { IsSummable bound }
        requires limit { length_of bound ≤ 2 ^ 62 }
        ensures lanes { OnOk result (HaveLanes (length columns.now.ranks.items) N self.new.labels.items) }
        ensures raised { OnOk result (AreRaisedTo search.old (λ j. free (slice_index sources.now j) ∷ []) bound columns.now.ranks.items N self.new.labels.items (length sources.now)) }
        ensures kept { search.new ≡ search.old }
    {
        self.begin(columns.ranks.len(), bound)?;
        'lanes: for lane in 0..sources.len() {
            let start = [free(sources[lane])];
            self.climb(search, columns, &start, bound, lane)?;
        }
        Ok(())
    }

    /// Writes the rows of some nodes, no more than there are lanes: the lengths from each, from a place on. All memory is
    /// taken before the first number is written.
    pub fn write<H: HierarchyRef>(
        &mut self,
        search: &mut SearchOf<H>,
        columns: &Columns,
        sources: &[u32],
        rows: &mut [u64],
        from: usize,
    ) -> Result<(), AllocError>
        requires selection { IsSelection search.old (lists_of columns.now) }
        requires sources { All (λ s. s < length search.old.ranks) sources.now }
        requires few { N ≤ 8 }
        requires block { length sources.now ≤ N }
        requires room { from + length sources.now * length columns.now.targets.items ≤ length rows.old }
        ensures rows { OnOk result (AreRows (IsLengthFrom search.old) sources.now columns.now.targets.items from (length sources.now) rows.old rows.new) }
        ensures refused { OnErr result (rows.new ≡ rows.old) }
        ensures kept { search.new ≡ search.old }
    {
        let width = columns.targets.len();
        ways_are_walks();
        let _well_made = search.hierarchy().nodes();
        let bound = search.hierarchy().bound();
        self.climb_each(search, columns, sources, bound)?;
        let table = Table {
            columns,
            hierarchy: search.hierarchy(),
            bound,
        };
        let labels = self.labels.as_mut_slice();
        table.sweep(labels);
        'rows: for lane in 0..sources.len() {
            table.put(labels, lane, rows, from + lane * width);
        }
        Ok(())
    }
}

/// A node as a start that costs nothing.
pub fn free(node: u32) -> Seed
    ensures { result ≡ free node }
{
    Seed {
        node,
        cost: Cost::ZERO,
    }
}
