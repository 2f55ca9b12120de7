ghost use Rattle.std.specs.Prelude.{◌≡◌, ◌≢◌, ◌↔◌, ◌+◌, ◌*◌, ◌^◌, ◌<◌, ◌≤◌, ℕ, All, IfOk, IsTrue, OnOk, Some, drop, length, replicate, slice_get, slice_index};
ghost use Rattle.std.specs.Arc.{arc_value};
ghost use Rattle.ch_query.specs.Seeds.{AreSeeds};
ghost use Rattle.ch_table.specs.Selection.{IsSelection};
ghost use Rattle.ch_table.specs.Sums.{AreStepNumbers};
ghost use Rattle.domethyme_c.specs.Sets.{IsSet};
ghost use Rattle.domethyme_c.specs.StepLinks.{AreStepLinks};
ghost use Rattle.domethyme_c.specs.Starting.{AreSumsOfStarts, AreTaken, IsTaken};
ghost use Rattle.domethyme_c.specs.Summing.{ArePut, IsSumming};
ghost use Rattle.domethyme_c.specs.Sums.{AreCells, IsCellOf};

use crate::code::NO_LENGTH;
use crate::digest::digest_of;
use crate::step_links::StepLinks;
use crate::sums::SumInfo;
use ch_graph::Hierarchy;
use ch_query::SearchOf;
use ch_route::{Seed, Selection, routes_are_least};
use ch_sums::summed_ways_are_along;
use std::alloc::{AllocError, Global};
use std::sync::Arc;

// How many rows of a table are found before they are written.
const BAND: usize = 64;

// The greatest number that a link may have.
const GREATEST: u64 = 1 << 36;

/// What makes sums of the numbers of a set: a search of a hierarchy, and the digest of it, and the last selection with the
/// links of its steps.
#[derive(Drop)]
pub(crate) struct Summing {
    pub(crate) search: SearchOf<Arc<Hierarchy>>,
    pub(crate) digest: u64,
    // Room for a number for each node.
    pub(crate) kept: Vec<u64>,
    pub(crate) chosen: Option<StepLinks>,
}

impl Summing {
    /// A search of a hierarchy.
    pub(crate) fn new(alloc: Global, hierarchy: &Arc<Hierarchy>) -> Result<Summing, AllocError>
        ensures { IfOk result (IsSumming (arc_value hierarchy.now)) }
    {
        let search = SearchOf::new(alloc, Arc::try_clone(hierarchy)?)?;
        let kept = vec![in alloc; 0u64; hierarchy.nodes() as usize]?;
        Ok(Summing {
            search,
            digest: digest_of(hierarchy),
            kept,
            chosen: None,
        })
    }

    /// Takes out a selection of the same targets with the links of its steps, which are found if none is kept.
    pub(crate) fn choose(
        &mut self,
        alloc: Global,
        selection: &Arc<Selection>,
    ) -> Result<StepLinks, AllocError>
        requires summing { IsSumming self.old.search self.old }
        requires selection { IsSelection self.old.search (arc_value selection.now) }
        ensures summing { IsSumming self.old.search self.new }
        ensures search { self.new.search ≡ self.old.search }
        ensures chosen { IfOk result (λ s. AreStepLinks self.old.search s) }
        ensures targets { IfOk result (λ s. (arc_value s.selection).targets ≡ (arc_value selection.now).targets) }
    {
        if let Some(chosen) = self.chosen.take() {
            if chosen.selection.targets() == selection.targets() {
                return Ok(chosen);
            }
        }
        StepLinks::new(alloc, &self.search, Arc::try_clone(selection)?)
    }

    /// Keeps it, for the next call.
    pub(crate) fn keep(&mut self, chosen: StepLinks)
        requires summing { IsSumming self.old.search self.old }
        requires chosen { AreStepLinks self.old.search chosen }
        ensures { IsSumming self.old.search self.new }
    {
        self.chosen = Some(chosen);
    }

    /// Whether an array is a set of numbers of the hierarchy.
    pub(crate) fn is_set(&self, set: &[u64]) -> bool
        requires { IsSumming self.now.search self.now }
        ensures { IsTrue result ↔ IsSet self.now.search set.now }
    {
        if set.len() != self.search.hierarchy().links().len() + 1 {
            return false;
        }
        if set[0] != self.digest {
            return false;
        }
        are_small(numbers_of(set))
    }

    /// Writes the least length of a path from each source to each target of a selection, and the sum of the numbers along
    /// some path of that length, row by row, or the number that stands for none twice.
    pub(crate) fn fill(
        &mut self,
        alloc: Global,
        selection: &Selection,
        steps: &[u64],
        set: &[u64],
        sources: &[u32],
        cells: &mut [SumInfo],
    ) -> Result<(), AllocError>
        requires summing { IsSumming self.old.search self.old }
        requires selection { IsSelection self.old.search selection.now }
        requires steps { AreStepNumbers self.old.search (drop 1 set.now) selection.now steps.now }
        requires set { IsSet self.old.search set.now }
        requires sources { All (λ v. v < length self.old.search.ranks) sources.now }
        requires room { length sources.now * length selection.now.targets ≤ length cells.old }
        ensures summing { IsSumming self.old.search self.new }
        ensures cells { OnOk result (AreCells (length sources.now * length selection.now.targets) (IsCellOf self.old.search set.now sources.now selection.now.targets) cells.old cells.new) }
    {
        let room = sources.len().min(BAND) * selection.targets().len();
        let mut lengths = vec![in alloc; 0u64; room]?;
        let mut sums = vec![in alloc; 0u64; room]?;
        self.fill_bands(
            selection,
            set,
            steps,
            sources,
            &mut lengths,
            &mut sums,
            cells,
        )
    }

    // So many rows at a time, by lengths and sums that have room for these.
    fn fill_bands(
        &mut self,
        selection: &Selection,
        set: &[u64],
        steps: &[u64],
        sources: &[u32],
        lengths: &mut [u64],
        sums: &mut [u64],
        cells: &mut [SumInfo],
    ) -> Result<(), AllocError>
        requires summing { IsSumming self.old.search self.old }
        requires selection { IsSelection self.old.search selection.now }
        requires set { IsSet self.old.search set.now }
        requires steps { AreStepNumbers self.old.search (drop 1 set.now) selection.now steps.now }
        requires sources { All (λ v. v < length self.old.search.ranks) sources.now }
        requires room { length sources.now * length selection.now.targets ≤ length cells.old }
        requires length_room { (n : ℕ) → n ≤ length sources.now → n ≤ BAND → n * length selection.now.targets ≤ length lengths.old }
        requires sum_room { (n : ℕ) → n ≤ length sources.now → n ≤ BAND → n * length selection.now.targets ≤ length sums.old }
        ensures summing { IsSumming self.old.search self.new }
        ensures cells { OnOk result (AreCells (length sources.now * length selection.now.targets) (IsCellOf self.old.search set.now sources.now selection.now.targets) cells.old cells.new) }
    {
        routes_are_least();
        summed_ways_are_along();
        let _well_made = self.search.hierarchy().nodes();
        let numbers = numbers_of(set);
        let width = selection.targets().len();
        let mut done = 0;
        'bands: while done < sources.len() {
            let count = (sources.len() - done).min(BAND);
            let block = &sources[done..done + count];
            selection.sums(
                &mut self.search,
                numbers,
                steps,
                self.kept.as_mut_slice(),
                block,
                lengths,
                sums,
            )?;
            put_cells(lengths, sums, count * width, cells, done * width);
            done += count;
        }
        Ok(())
    }

    /// Puts beside the length of each target of a selection the sum of the numbers along some path from a start that leads
    /// to it in that length, with the number of the start. `sums` has none yet; where no start does, it stays so.
    pub(crate) fn sum_from(
        &mut self,
        alloc: Global,
        selection: &Selection,
        steps: &[u64],
        set: &[u64],
        starts: &[Seed],
        added: &[u32],
        lengths: &[u64],
        sums: &mut [u64],
    ) -> Result<(), AllocError>
        requires summing { IsSumming self.old.search self.old }
        requires selection { IsSelection self.old.search selection.now }
        requires steps { AreStepNumbers self.old.search (drop 1 set.now) selection.now steps.now }
        requires set { IsSet self.old.search set.now }
        requires starts { AreSeeds self.old.search starts.now }
        requires added { length added.now ≡ length starts.now }
        requires lengths { length lengths.now ≡ length selection.now.targets }
        requires sums { sums.old ≡ replicate (length lengths.now) NO_LENGTH }
        ensures summing { IsSumming self.old.search self.new }
        ensures sums { OnOk result (AreSumsOfStarts self.old.search set.now starts.now added.now (length starts.now) selection.now.targets lengths.now sums.new) }
    {
        routes_are_least();
        summed_ways_are_along();
        let _well_made = self.search.hierarchy().nodes();
        let numbers = numbers_of(set);
        let mut row_room = vec![in alloc; 0u64; lengths.len()]?;
        let mut sum_room = vec![in alloc; 0u64; lengths.len()]?;
        let row = row_room.as_mut_slice();
        let others = sum_room.as_mut_slice();
        'starts: for at in 0..starts.len() {
            let start = start_at(starts, at);
            let source = [start.node];
            selection.sums(
                &mut self.search,
                numbers,
                steps,
                self.kept.as_mut_slice(),
                &source,
                row,
                others,
            )?;
            take_sums(lengths, row, others, start.cost.length(), added[at], sums);
        }
        Ok(())
    }
}

// A start by its place.
fn start_at(starts: &[Seed], at: usize) -> Seed
    requires { at < length starts.now }
    ensures { slice_get starts.now at ≡ Some result }
{
    starts[at]
}

// Whether no number of a set is too great: a loop without a branch, which the compiler unrolls, since each call looks at all.
fn are_small(numbers: &[u64]) -> bool
    ensures { IsTrue result ↔ All (λ n. n ≤ 2 ^ 36) numbers.now }
{
    let mut small = true;
    'numbers: for at in 0..numbers.len() {
        small = small & (numbers[at] <= GREATEST);
    }
    small
}

/// The numbers of a set, behind its digest.
pub(crate) fn numbers_of(set: &[u64]) -> &[u64]
    requires { 0 < length set.now }
    ensures { result.now ≡ drop 1 set.now }
{
    &set[1..]
}

// Takes the sums of those nodes to which a start of this length leads in their own lengths.
fn take_sums(lengths: &[u64], row: &[u64], others: &[u64], start: u64, added: u32, sums: &mut [u64])
    requires row { length row.now ≡ length lengths.now }
    requires others { length others.now ≡ length lengths.now }
    requires small { (p : ℕ) → p < length lengths.now → slice_index row.now p ≢ NO_LENGTH → slice_index others.now p ≤ 2 ^ 62 }
    requires sums { length sums.old ≡ length lengths.now }
    ensures { AreTaken lengths.now row.now others.now start added (length lengths.now) sums.old sums.new }
{
    'places: for place in 0..lengths.len() {
        sums[place] = sum_taken(
            lengths[place],
            start,
            row[place],
            others[place],
            added,
            sums[place],
        );
    }
}

// The sum of one node.
fn sum_taken(length: u64, start: u64, way: u64, sum: u64, added: u32, old: u64) -> u64
    requires { way ≢ NO_LENGTH → sum ≤ 2 ^ 62 }
    ensures { IsTaken length start way sum added old result }
{
    if length == NO_LENGTH {
        return old;
    }
    if length < start {
        return old;
    }
    if length - start != way {
        return old;
    }
    sum + u64::from(added)
}

// Writes lengths and sums, so many, as cells from a place on.
pub(crate) fn put_cells(
    lengths: &[u64],
    sums: &[u64],
    count: usize,
    cells: &mut [SumInfo],
    from: usize,
)
    requires lengths { count ≤ length lengths.now }
    requires sums { count ≤ length sums.now }
    requires room { from + count ≤ length cells.old }
    ensures { ArePut lengths.now sums.now count from cells.old cells.new }
{
    'places: for place in 0..count {
        let length = lengths[place];
        let sum = sums[place];
        cells[from + place] = SumInfo { length, sum };
    }
}
