ghost use Rattle.std.specs.Prelude.{◌≡◌, ◌+◌, ◌<◌, ◌≤◌, ◌^◌, ℕ, List, length, slice_index, All};
ghost use Rattle.ch_query.specs.declared.seed.Seed.{Seed as a_seed};
ghost use Rattle.ch_query.specs.declared.side.Side.TheVariants.{Rise};
ghost use Rattle.ch_query.specs.Seeds.{AreSeeds};
ghost use Rattle.ch_query.specs.Ways.{AreLeastClimbs, IsClimb, IsWay, WaysAreWalks};
ghost use Rattle.ch_table.specs.Labels.{AreLabels, AreRaisedTo, AreSmall, AreSwept, HaveLanes, IsLabel, IsLeastOver, far, lane_of};
ghost use Rattle.ch_table.specs.Lengths.{IsLengthFromAny, IsRow};
ghost use Rattle.ch_table.specs.Selection.{AreLinksOf, IsTable, lists_of};

use crate::columns::Columns;
use crate::steps::{Links, Number, Steps};
use ch_cost::Cost;
use ch_graph::Hierarchy;
use ch_query::{Climbed, Seed};

/// Stands for a length where no walk leads to the target.
pub const NO_LENGTH: u64 = 0xffff_ffff_ffff_ffff;

/// A table of lengths to the targets of a selection, of which some rows are worked out together.
///
/// They are worked out in labels, at each place of the selection one for each row: a lane. A label is a length of at most
/// the bound, or one more than the bound where none is known, so that one comparison says whether a sum counts and is less.
#[derive(Clone, Copy)]
pub struct Table<'a> {
    /// The selection.
    pub columns: &'a Columns,
    /// The hierarchy that it was made for.
    pub hierarchy: &'a Hierarchy,
    /// How long a walk may be with its start.
    pub bound: Cost,
}

impl Table<'_> {
    /// Labels the places of the nodes that climbs from some starts came to, in a lane.
    pub fn raise<const N: usize>(
        &self,
        starts: &[Seed],
        climbs: &[Climbed],
        lane: usize,
        labels: &mut [[u64; N]],
    )
        requires table { IsTable self.now }
        requires climbs { AreLeastClimbs self.now.hierarchy.now Rise starts.now self.now.bound climbs.now }
        requires lane_in { lane < N }
        requires lanes { HaveLanes (length self.now.columns.now.ranks.items) N labels.old }
        ensures lanes { HaveLanes (length self.now.columns.now.ranks.items) N labels.new }
        ensures raised { (all : ℕ → List a_seed) → all lane ≡ starts.now → AreRaisedTo self.now.hierarchy.now all self.now.bound self.now.columns.now.ranks.items N labels.old lane → AreRaisedTo self.now.hierarchy.now all self.now.bound self.now.columns.now.ranks.items N labels.new (lane + 1) }
        ensures others { (j p : ℕ) → (j ≡ lane → ⊥) → lane_of labels.new j p ≡ lane_of labels.old j p }
    {
        'climbs: for climbed in climbs {
            let place = self.columns.places[climbed.rank as usize];
            if place > 0 {
                labels[place as usize - 1][lane] = climbed.length;
            }
        }
    }

    /// Makes labels of ways from those of climbs, in each lane, from the highest place to the lowest.
    pub fn sweep<const N: usize>(&self, labels: &mut [[u64; N]])
        requires table { IsTable self.now }
        requires lanes { HaveLanes (length self.now.columns.now.ranks.items) N labels.old }
        requires small { AreSmall self.now.bound labels.old }
        ensures lanes { HaveLanes (length self.now.columns.now.ranks.items) N labels.new }
        ensures swept { (starts : List a_seed) (lane : ℕ) → lane < N → AreLabels (IsClimb self.now.hierarchy.now Rise starts self.now.bound) self.now.bound self.now.columns.now.ranks.items (lane_of labels.old lane) → AreLabels (IsWay self.now.hierarchy.now starts self.now.bound) self.now.bound self.now.columns.now.ranks.items (lane_of labels.new lane) }
    {
        match &self.columns.links {
            Links::Short(steps) => self.sweep_over(steps, labels),
            Links::Long(steps) => self.sweep_over(steps, labels),
        }
    }

    // The same by the links of the selection, in either kind of numbers.
    fn sweep_over<W: Number, const N: usize>(&self, steps: &Steps<W>, labels: &mut [[u64; N]])
        requires table { IsTable self.now }
        requires steps { AreLinksOf W.number steps.now (lists_of self.now.columns.now) }
        requires lanes { HaveLanes (length self.now.columns.now.ranks.items) N labels.old }
        requires small { AreSmall self.now.bound labels.old }
        ensures lanes { HaveLanes (length self.now.columns.now.ranks.items) N labels.new }
        ensures swept { (starts : List a_seed) (lane : ℕ) → lane < N → AreLabels (IsClimb self.now.hierarchy.now Rise starts self.now.bound) self.now.bound self.now.columns.now.ranks.items (lane_of labels.old lane) → AreLabels (IsWay self.now.hierarchy.now starts self.now.bound) self.now.bound self.now.columns.now.ranks.items (lane_of labels.new lane) }
    {
        let count = labels.len();
        'places: for done in 0..count {
            let place = count - 1 - done;
            labels[place] = self.least(steps, labels, place);
        }
    }

    // The labels of a place from those of later ones.
    fn least<W: Number, const N: usize>(
        &self,
        steps: &Steps<W>,
        labels: &[[u64; N]],
        place: usize,
    ) -> [u64; N]
        requires table { IsTable self.now }
        requires steps { AreLinksOf W.number steps.now (lists_of self.now.columns.now) }
        requires lanes { HaveLanes (length self.now.columns.now.ranks.items) N labels.now }
        requires place_in { place < length labels.now }
        requires small { AreSmall self.now.bound labels.now }
        ensures count { length result ≡ N }
        ensures small { (lane : ℕ) → slice_index result lane ≤ far self.now.bound }
        ensures least { (starts : List a_seed) (lane : ℕ) → lane < N → AreSwept (IsWay self.now.hierarchy.now starts self.now.bound) (IsClimb self.now.hierarchy.now Rise starts self.now.bound) self.now.bound self.now.columns.now.ranks.items (lane_of labels.now lane) (place + 1) → IsLabel (IsWay self.now.hierarchy.now starts self.now.bound (slice_index self.now.columns.now.ranks.items place)) self.now.bound (slice_index result lane) }
    {
        let begin = steps.begin(place);
        let end = steps.begin(place + 1);
        let mut least = labels[place];
        'steps: for at in begin..end {
            let tail = steps.tails[at] as usize;
            pass_over(&mut least, &labels[tail], steps.length(at));
        }
        least
    }

    /// Writes the row of a lane: the length of each target from a place on.
    pub fn put<const N: usize>(
        &self,
        labels: &[[u64; N]],
        lane: usize,
        row: &mut [u64],
        from: usize,
    )
        requires table { IsTable self.now }
        requires lanes { HaveLanes (length self.now.columns.now.ranks.items) N labels.now }
        requires lane_in { lane < N }
        requires room { from + length self.now.columns.now.targets.items ≤ length row.old }
        requires walks { WaysAreWalks }
        ensures row { (starts : List a_seed) → AreSeeds self.now.hierarchy.now starts → AreLabels (IsWay self.now.hierarchy.now starts self.now.bound) self.now.bound self.now.columns.now.ranks.items (lane_of labels.now lane) → IsRow (IsLengthFromAny self.now.hierarchy.now starts self.now.bound) self.now.columns.now.targets.items from row.old row.new }
    {
        let bound = self.bound.length();
        'targets: for place in 0..self.columns.ends.len() {
            let label = labels[self.columns.ends[place] as usize][lane];
            row[from + place] = if label > bound { NO_LENGTH } else { label };
        }
    }
}

// Goes over a link of this length: in each lane the label becomes the sum where that is less. A loop of a fixed number of
// lanes without a branch, which the compiler unrolls.
#[inline(always)]
fn pass_over<const N: usize>(least: &mut [u64; N], tail: &[u64; N], long: u64)
    requires small { (lane : ℕ) → slice_index tail.now lane ≤ 2 ^ 62 + 1 }
    requires short { long ≤ 2 ^ 57 }
    ensures count { length least.new ≡ N }
    ensures least { (lane : ℕ) → lane < N → IsLeastOver (slice_index least.old lane) (slice_index tail.now lane + long) (slice_index least.new lane) }
{
    'lanes: for lane in 0..N {
        let sum = tail[lane] + long;
        if sum < least[lane] {
            least[lane] = sum;
        }
    }
}
