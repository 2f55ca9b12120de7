ghost use Rattle.std.specs.Prelude.{◌≡◌, ◌+◌, ◌*◌, ◌<◌, ◌≤◌, ◌^◌, length, All, Err, IfOk, OnErr, OnOk};
ghost use Rattle.ch_cost.specs.Cost.{IsSummable, length_of, of_walk};
ghost use Rattle.ch_query.specs.Seeds.{AreSeeds};
ghost use Rattle.ch_query.specs.Sums.{HaveNumbers};
ghost use Rattle.ch_table.specs.Lengths.{AreFirstRows, AreRows, IsExactLength, IsLengthFrom, IsLengthFromAny, IsRow};
ghost use Rattle.ch_table.specs.Selection.{IsSelection, lists_of};
ghost use Rattle.ch_table.specs.Sums.{AreStepNumbers, IsSumFrom};

use crate::columns::Columns;
use crate::lanes::Lanes;
use crate::sum_lanes::SumLanes;
use crate::table::Table;
use ch_cost::Cost;
use ch_query::{HierarchyRef, SearchOf, Seed, ways_are_walks};
use std::alloc::{AllocError, Global};
use std::marker::Model;

// How many nodes may be selected where eight rows share a look at the links: with more, their labels leave the caches.
const WIDE: usize = 65_536;

/// The part of a hierarchy that walks to some targets fall through: the columns of tables.
///
/// It is made once for its targets, and then gives any number of rows. It never changes, holds no reference, and is good
/// for each search of its hierarchy, so that several threads may use one. It takes 4 bytes for each node of the hierarchy,
/// 8 for each target, 8 for each node that is selected and 8 for each link that falls to one of these, or 12 for each of
/// the last two where there are 2^32 such links or one is as long as that. Half of that may have room for as many again.
/// Road networks have few such nodes: some 18,000 for 1,000 random targets among 264,346.
#[derive(Drop)]
pub struct Selection {
    columns: Columns,
}

impl Model for Selection {
    ghost use Rattle.ch_table.specs.Selection as selections;
    ghost use Rattle.ch_table.specs.Selection.{lists_of};

    ghost Value = { selections.Selection };

    ghost view = { λ s. lists_of s.columns };
}

impl Selection {
    /// Selects what walks to these targets fall through, in the hierarchy of a search. A target may be among them more
    /// than once.
    ///
    /// Looks once at each link of the selection, and at a byte for each node of the hierarchy. Until it returns it takes
    /// that byte, and 8 bytes for each node and each link that is selected, with room for as many again.
    pub fn new<H: HierarchyRef>(
        alloc: Global,
        search: &SearchOf<H>,
        targets: &[u32],
    ) -> Result<Selection, AllocError>
        requires targets { All (λ t. t < length search.now.ranks) targets.now }
        ensures selection { IfOk result (λ s. IsSelection search.now s) }
        ensures targets { IfOk result (λ s. s.targets ≡ targets.now) }
    {
        let columns = Columns::new(alloc, search, targets)?;
        Ok(Selection { columns })
    }

    /// Returns the targets, in the order of a row.
    pub fn targets(&self) -> &[u32]
        ensures { result.now ≡ self.now.targets }
    {
        self.columns.targets.as_slice()
    }

    /// Writes the least length from each source to each target, row by row: that from source `i` to target `k` to
    /// `rows[from + i * targets + k]`, of so many targets, or [`NO_LENGTH`] where there is no walk. The search is of the
    /// hierarchy that the selection was made for.
    ///
    /// Each is the length of [`Search::cost`](ch_query::Search::cost). Eight rows are worked out together, or four where
    /// more than 65,536 nodes are selected. Takes the time of a climb for each source, and then for each block of rows of a
    /// look at each link of the selection; and for the call 8 bytes for each row of a block and each node of the selection,
    /// and 16 for each node that a climb comes to. If that is refused, some first rows may be written, but not all: a
    /// single row is as before.
    pub fn lengths<H: HierarchyRef>(
        &self,
        search: &mut SearchOf<H>,
        sources: &[u32],
        rows: &mut [u64],
        from: usize,
    ) -> Result<(), AllocError>
        requires selection { IsSelection search.old self.now }
        requires sources { All (λ s. s < length search.old.ranks) sources.now }
        requires room { from + length sources.now * length self.now.targets ≤ length rows.old }
        ensures rows { OnOk result (AreRows (IsLengthFrom search.old) sources.now self.now.targets from (length sources.now) rows.old rows.new) }
        ensures refused { OnErr result (AreFirstRows (IsLengthFrom search.old) sources.now self.now.targets from rows.old rows.new) }
        ensures kept { search.new ≡ search.old }
    {
        match sources.len() {
            0 => Ok(()),
            1 => fill::<1, H>(search, &self.columns, sources, rows, from),
            _ if self.columns.ranks.len() > WIDE => {
                fill::<4, H>(search, &self.columns, sources, rows, from)
            }
            _ => fill::<8, H>(search, &self.columns, sources, rows, from),
        }
    }

    /// The same from several starts, each with a cost of its own, of walks that are no longer than the limit with their
    /// start; [`NO_LENGTH`] where there is no such walk. With all nodes as targets it says which of them are within the
    /// limit.
    ///
    /// Each is the length of [`Search::cost_between`](ch_query::Search::cost_between) to its target where that is within
    /// the limit, and with a limit of 2^62 exactly that. The climb ends at the limit, and all of the selection is gone
    /// over.
    pub fn lengths_from<H: HierarchyRef>(
        &self,
        search: &mut SearchOf<H>,
        starts: &[Seed],
        limit: u64,
        row: &mut [u64],
        from: usize,
    ) -> Result<(), AllocError>
        requires selection { IsSelection search.old self.now }
        requires starts { AreSeeds search.old starts.now }
        requires limit { limit ≤ 2 ^ 62 }
        requires room { from + length self.now.targets ≤ length row.old }
        ensures row { OnOk result (IsRow (IsLengthFromAny search.old starts.now (of_walk limit 0)) self.now.targets from row.old row.new) }
        ensures exact { OnOk result (limit ≡ 2 ^ 62 → IsRow (IsExactLength search.old starts.now) self.now.targets from row.old row.new) }
        ensures refused { OnErr result (row.new ≡ row.old) }
        ensures kept { search.new ≡ search.old }
    {
        ways_are_walks();
        let _well_made = search.hierarchy().nodes();
        fill_from(
            search,
            &self.columns,
            starts,
            Cost::of_walk(limit, 0),
            row,
            from,
        )
    }

    /// Lists the numbers of the links of the selection, of those of all links of the hierarchy: what [`Selection::sums`]
    /// takes. They are 8 bytes each.
    pub fn step_numbers<H: HierarchyRef>(
        &self,
        alloc: Global,
        search: &SearchOf<H>,
        numbers: &[u64],
    ) -> Result<Vec<u64>, AllocError>
        requires selection { IsSelection search.now self.now }
        requires numbers { HaveNumbers search.now numbers.now }
        ensures { IfOk result (λ steps. AreStepNumbers search.now numbers.now self.now steps.items) }
    {
        self.columns.step_numbers(alloc, search, numbers)
    }

    /// Writes the lengths of [`Selection::lengths`] from the first place on, and to the same places of `sums` what the
    /// numbers of the links of some walk of that length sum to, at most 2^62, or [`NO_LENGTH`](crate::NO_LENGTH) where there
    /// is no walk.
    ///
    /// `numbers` has a number for each link of the hierarchy, `steps` those of the links of the selection, and `kept` has
    /// room for a number for each node. The sum is carried beside the label: it takes two to four times as long as `lengths`,
    /// and 16 bytes for each row of a block and each node of the selection in place of 8.
    pub fn sums<H: HierarchyRef>(
        &self,
        search: &mut SearchOf<H>,
        numbers: &[u64],
        steps: &[u64],
        kept: &mut [u64],
        sources: &[u32],
        rows: &mut [u64],
        sums: &mut [u64],
    ) -> Result<(), AllocError>
        requires selection { IsSelection search.old self.now }
        requires numbers { HaveNumbers search.old numbers.now }
        requires steps { AreStepNumbers search.old numbers.now self.now steps.now }
        requires kept { length kept.old ≡ length search.old.ranks }
        requires sources { All (λ s. s < length search.old.ranks) sources.now }
        requires room { length sources.now * length self.now.targets ≤ length rows.old }
        requires sum_room { length sources.now * length self.now.targets ≤ length sums.old }
        ensures kept { length kept.new ≡ length kept.old }
        ensures rows { OnOk result (AreRows (IsLengthFrom search.old) sources.now self.now.targets 0 (length sources.now) rows.old rows.new) }
        ensures sums { OnOk result (AreRows (IsSumFrom search.old numbers.now) sources.now self.now.targets 0 (length sources.now) sums.old sums.new) }
        ensures same { search.new ≡ search.old }
    {
        let columns = &self.columns;
        match sources.len() {
            0 => Ok(()),
            1 => fill_sums::<1, H>(search, columns, numbers, steps, kept, sources, rows, sums),
            _ if self.columns.ranks.len() > WIDE => {
                fill_sums::<4, H>(search, columns, numbers, steps, kept, sources, rows, sums)
            }
            _ => fill_sums::<8, H>(search, columns, numbers, steps, kept, sources, rows, sums),
        }
    }
}

// A row from some starts within a bound. All memory is taken before the first number is written.
fn fill_from<H: HierarchyRef>(
    search: &mut SearchOf<H>,
    columns: &Columns,
    starts: &[Seed],
    bound: Cost,
    row: &mut [u64],
    from: usize,
) -> Result<(), AllocError>
    requires selection { IsSelection search.old (lists_of columns.now) }
    requires starts { AreSeeds search.old starts.now }
    requires bound { IsSummable bound }
    requires limit { length_of bound ≤ 2 ^ 62 }
    requires room { from + length columns.now.targets.items ≤ length row.old }
    ensures row { OnOk result (IsRow (IsLengthFromAny search.old starts.now bound) columns.now.targets.items from row.old row.new) }
    ensures refused { OnErr result (row.new ≡ row.old) }
    ensures kept { search.new ≡ search.old }
{
    ways_are_walks();
    let mut lanes = Lanes::<1>::new(*columns.ranks.allocator());
    lanes.begin(columns.ranks.len(), bound)?;
    lanes.climb(search, columns, starts, bound, 0)?;
    let hierarchy = search.hierarchy();
    let _well_made = hierarchy.nodes();
    let table = Table {
        columns,
        hierarchy,
        bound,
    };
    let labels = lanes.labels.as_mut_slice();
    table.sweep(labels);
    table.put(labels, 0, row, from);
    Ok(())
}

// Rows of some sources, so many at a time.
fn fill<const N: usize, H: HierarchyRef>(
    search: &mut SearchOf<H>,
    columns: &Columns,
    sources: &[u32],
    rows: &mut [u64],
    from: usize,
) -> Result<(), AllocError>
    requires many { 0 < N }
    requires few { N ≤ 8 }
    requires selection { IsSelection search.old (lists_of columns.now) }
    requires sources { All (λ s. s < length search.old.ranks) sources.now }
    requires some { 0 < length sources.now }
    requires room { from + length sources.now * length columns.now.targets.items ≤ length rows.old }
    ensures rows { OnOk result (AreRows (IsLengthFrom search.old) sources.now columns.now.targets.items from (length sources.now) rows.old rows.new) }
    ensures refused { OnErr result (AreFirstRows (IsLengthFrom search.old) sources.now columns.now.targets.items from rows.old rows.new) }
    ensures kept { search.new ≡ search.old }
{
    let width = columns.targets.len();
    let mut lanes = Lanes::<N>::new(*columns.ranks.allocator());
    let mut done = 0;
    'blocks: while done < sources.len() {
        let count = (sources.len() - done).min(N);
        let block = &sources[done..done + count];
        lanes.write(search, columns, block, rows, from + done * width)?;
        done += count;
    }
    Ok(())
}

// Rows of lengths and of sums of some sources, so many at a time.
fn fill_sums<const N: usize, H: HierarchyRef>(
    search: &mut SearchOf<H>,
    columns: &Columns,
    numbers: &[u64],
    steps: &[u64],
    kept: &mut [u64],
    sources: &[u32],
    rows: &mut [u64],
    sums: &mut [u64],
) -> Result<(), AllocError>
    requires many { 0 < N }
    requires few { N ≤ 8 }
    requires selection { IsSelection search.old (lists_of columns.now) }
    requires numbers { HaveNumbers search.old numbers.now }
    requires steps { AreStepNumbers search.old numbers.now (lists_of columns.now) steps.now }
    requires kept { length kept.old ≡ length search.old.ranks }
    requires sources { All (λ s. s < length search.old.ranks) sources.now }
    requires room { length sources.now * length columns.now.targets.items ≤ length rows.old }
    requires sum_room { length sources.now * length columns.now.targets.items ≤ length sums.old }
    ensures kept { length kept.new ≡ length kept.old }
    ensures rows { OnOk result (AreRows (IsLengthFrom search.old) sources.now columns.now.targets.items 0 (length sources.now) rows.old rows.new) }
    ensures sums { OnOk result (AreRows (IsSumFrom search.old numbers.now) sources.now columns.now.targets.items 0 (length sources.now) sums.old sums.new) }
    ensures same { search.new ≡ search.old }
{
    let width = columns.targets.len();
    let mut lanes = SumLanes::<N>::new(*columns.ranks.allocator());
    let mut done = 0;
    'blocks: while done < sources.len() {
        let count = (sources.len() - done).min(N);
        let block = &sources[done..done + count];
        let from = done * width;
        lanes.write(
            search, columns, numbers, steps, kept, block, rows, sums, from,
        )?;
        done += count;
    }
    Ok(())
}
