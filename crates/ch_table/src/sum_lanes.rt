ghost use Rattle.std.specs.Prelude.{◌≡◌, ◌+◌, ◌*◌, ◌<◌, ◌≤◌, ◌^◌, ◌∷◌, [], ℕ, List, length, replicate, slice_index, All, OnErr, OnOk};
ghost use Rattle.ch_cost.specs.Cost.{IsSummable, length_of};
ghost use Rattle.ch_query.specs.declared.seed.Seed.{Seed as a_seed};
ghost use Rattle.ch_query.specs.Seeds.{AreSeeds};
ghost use Rattle.ch_query.specs.Sums.{HaveNumbers};
ghost use Rattle.ch_query.specs.Ways.{free};
ghost use Rattle.ch_table.specs.Labels.{AreRaisedTo, HaveLanes, far};
ghost use Rattle.ch_table.specs.Lengths.{AreRows, IsLengthFrom};
ghost use Rattle.ch_table.specs.Selection.{IsSelection, lists_of};
ghost use Rattle.ch_table.specs.Sums.{AreSmallSums, AreStepNumbers, HaveSums, IsSumFrom};

use crate::columns::Columns;
use crate::lanes::{Lanes, free};
use crate::table::Table;
use ch_cost::Cost;
use ch_query::{HierarchyRef, SearchOf, Seed, ways_are_walks};
use std::alloc::{AllocError, Global};

/// Labels of the places of a selection in a number of lanes, and beside each the sum of the numbers along its walk.
#[derive(Drop)]
pub struct SumLanes<const N: usize> {
    lanes: Lanes<N>,
    sums: Vec<[u64; N]>,
}

impl<const N: usize> SumLanes<N> {
    /// No labels yet. Takes no memory.
    pub fn new(alloc: Global) -> SumLanes<N> {
        SumLanes {
            lanes: Lanes::new(alloc),
            sums: Vec::new(alloc),
        }
    }

    // Begins with labels at so many places, all far, and sums of nothing.
    fn begin(&mut self, places: usize, bound: Cost) -> Result<(), AllocError>
        requires few { N ≤ 8 }
        requires limit { length_of bound ≤ 2 ^ 62 }
        ensures count { OnOk result (length self.new.lanes.labels.items ≡ places) }
        ensures far { OnOk result (All (λ (row : List ℕ). row ≡ replicate N (far bound)) self.new.lanes.labels.items) }
        ensures sum_count { OnOk result (length self.new.sums.items ≡ places) }
        ensures none { OnOk result (All (λ (row : List ℕ). row ≡ replicate N 0) self.new.sums.items) }
    {
        self.lanes.begin(places, bound)?;
        self.sums.clear();
        self.sums.resize(places, [0; N])
    }

    // Climbs from some starts, and labels the places of the nodes that it comes to in a lane, in which all is far.
    fn climb<H: HierarchyRef>(
        &mut self,
        search: &mut SearchOf<H>,
        columns: &Columns,
        numbers: &[u64],
        kept: &mut [u64],
        starts: &[Seed],
        bound: Cost,
        lane: usize,
    ) -> Result<(), AllocError>
        requires selection { IsSelection search.old (lists_of columns.now) }
        requires numbers { HaveNumbers search.old numbers.now }
        requires kept { length kept.old ≡ length search.old.ranks }
        requires starts { AreSeeds search.old starts.now }
        requires bound { IsSummable bound }
        requires limit { length_of bound ≤ 2 ^ 62 }
        requires few { N ≤ 8 }
        requires lane_in { lane < N }
        requires lanes { HaveLanes (length columns.now.ranks.items) N self.old.lanes.labels.items }
        requires sums { HaveLanes (length columns.now.ranks.items) N self.old.sums.items }
        requires small_sums { AreSmallSums (length search.old.ranks) columns.now.ranks.items self.old.sums.items }
        ensures kept { length kept.new ≡ length kept.old }
        ensures lanes { HaveLanes (length columns.now.ranks.items) N self.new.lanes.labels.items }
        ensures sums { HaveLanes (length columns.now.ranks.items) N self.new.sums.items }
        ensures small_sums { AreSmallSums (length search.old.ranks) columns.now.ranks.items self.new.sums.items }
        ensures raised { OnOk result ((all : ℕ → List a_seed) → all lane ≡ starts.now → AreRaisedTo search.old all bound columns.now.ranks.items N self.old.lanes.labels.items lane → AreRaisedTo search.old all bound columns.now.ranks.items N self.new.lanes.labels.items (lane + 1)) }
        ensures summed { OnOk result ((all : ℕ → List a_seed) → all lane ≡ starts.now → AreRaisedTo search.old all bound columns.now.ranks.items N self.old.lanes.labels.items lane → HaveSums search.old numbers.now all bound columns.now.ranks.items N self.old.lanes.labels.items self.old.sums.items → HaveSums search.old numbers.now all bound columns.now.ranks.items N self.new.lanes.labels.items self.new.sums.items) }
        ensures same { search.new ≡ search.old }
    {
        search.climb_summed(starts, bound, numbers, &mut self.lanes.climbs, kept)?;
        let hierarchy = search.hierarchy();
        let _well_made = hierarchy.nodes();
        let table = Table {
            columns,
            hierarchy,
            bound,
        };
        let climbs = self.lanes.climbs.as_slice();
        table.raise(starts, climbs, lane, self.lanes.labels.as_mut_slice());
        table.raise_sums(climbs, kept, lane, self.sums.as_mut_slice());
        Ok(())
    }

    // Climbs from each of some nodes, in a lane for each.
    fn climb_each<H: HierarchyRef>(
        &mut self,
        search: &mut SearchOf<H>,
        columns: &Columns,
        numbers: &[u64],
        kept: &mut [u64],
        sources: &[u32],
        bound: Cost,
    ) -> Result<(), AllocError>
        requires selection { IsSelection search.old (lists_of columns.now) }
        requires numbers { HaveNumbers search.old numbers.now }
        requires kept { length kept.old ≡ length search.old.ranks }
        requires sources { All (λ s. s < length search.old.ranks) sources.now }
        requires few { N ≤ 8 }
        requires room { length sources.now ≤ N }
        requires bound { IsSummable bound }
        requires limit { length_of bound ≤ 2 ^ 62 }
        ensures kept { length kept.new ≡ length kept.old }
        ensures lanes { OnOk result (HaveLanes (length columns.now.ranks.items) N self.new.lanes.labels.items) }
        ensures sums { OnOk result (HaveLanes (length columns.now.ranks.items) N self.new.sums.items) }
        ensures small_sums { OnOk result (AreSmallSums (length search.old.ranks) columns.now.ranks.items self.new.sums.items) }
        ensures raised { OnOk result (AreRaisedTo search.old (λ j. free (slice_index sources.now j) ∷ []) bound columns.now.ranks.items N self.new.lanes.labels.items (length sources.now)) }
        ensures summed { OnOk result (HaveSums search.old numbers.now (λ j. free (slice_index sources.now j) ∷ []) bound columns.now.ranks.items N self.new.lanes.labels.items self.new.sums.items) }
        ensures same { search.new ≡ search.old }
    {
        self.begin(columns.ranks.len(), bound)?;
        'lanes: for lane in 0..sources.len() {
            let start = [free(sources[lane])];
            self.climb(search, columns, numbers, kept, &start, bound, lane)?;
        }
        Ok(())
    }

    /// Writes the rows of some nodes, no more than there are lanes: the lengths from each and the sums, from a place on.
    /// All memory is taken before the first number is written.
    pub fn write<H: HierarchyRef>(
        &mut self,
        search: &mut SearchOf<H>,
        columns: &Columns,
        numbers: &[u64],
        steps: &[u64],
        kept: &mut [u64],
        sources: &[u32],
        rows: &mut [u64],
        sums: &mut [u64],
        from: usize,
    ) -> Result<(), AllocError>
        requires selection { IsSelection search.old (lists_of columns.now) }
        requires numbers { HaveNumbers search.old numbers.now }
        requires steps { AreStepNumbers search.old numbers.now (lists_of columns.now) steps.now }
        requires kept { length kept.old ≡ length search.old.ranks }
        requires sources { All (λ s. s < length search.old.ranks) sources.now }
        requires few { N ≤ 8 }
        requires block { length sources.now ≤ N }
        requires room { from + length sources.now * length columns.now.targets.items ≤ length rows.old }
        requires sum_room { from + length sources.now * length columns.now.targets.items ≤ length sums.old }
        ensures kept { length kept.new ≡ length kept.old }
        ensures rows { OnOk result (AreRows (IsLengthFrom search.old) sources.now columns.now.targets.items from (length sources.now) rows.old rows.new) }
        ensures sums { OnOk result (AreRows (IsSumFrom search.old numbers.now) sources.now columns.now.targets.items from (length sources.now) sums.old sums.new) }
        ensures same { search.new ≡ search.old }
    {
        let width = columns.targets.len();
        ways_are_walks();
        let _well_made = search.hierarchy().nodes();
        let bound = search.hierarchy().bound();
        self.climb_each(search, columns, numbers, kept, sources, bound)?;
        let table = Table {
            columns,
            hierarchy: search.hierarchy(),
            bound,
        };
        let labels = self.lanes.labels.as_mut_slice();
        let own = self.sums.as_mut_slice();
        table.sweep_sums(steps, labels, own);
        'rows: for lane in 0..sources.len() {
            table.put(labels, lane, rows, from + lane * width);
            table.put_sums(labels, own, lane, sums, from + lane * width);
        }
        Ok(())
    }
}
