ghost use Rattle.std.specs.Prelude.{◌≡◌, ◌+◌, ◌-◌, ◌*◌, ◌<◌, ◌≤◌, ◌^◌, ℕ, List, length, slice_index, All};
ghost use Rattle.ch_query.specs.declared.climb.Climbed.{Climbed as a_climb};
ghost use Rattle.ch_query.specs.declared.seed.Seed.{Seed as a_seed};
ghost use Rattle.ch_query.specs.declared.side.Side.TheVariants.{Rise};
ghost use Rattle.ch_query.specs.Seeds.{AreSeeds};
ghost use Rattle.ch_query.specs.Sums.{HaveNumbers, IsSummedWay};
ghost use Rattle.ch_query.specs.Ways.{IsClimb, IsWay, WaysAreWalks};
ghost use Rattle.ch_table.specs.Labels.{AreLabels, AreSmall, AreSwept, HaveLanes, IsLabel, IsLeastOver, far, lane_of};
ghost use Rattle.ch_table.specs.Lengths.{IsRow};
ghost use Rattle.ch_table.specs.Selection.{AreLinksOf, IsTable, lists_of};
ghost use Rattle.ch_table.specs.Sums.{AreRaisedSums, AreSmallSums, AreStepNumbers, HaveSums, IsPlaceSummed, IsSumFromAny, IsSumOver};

use crate::packed::unpack;
use crate::steps::{Links, Number, Steps};
use crate::table::{NO_LENGTH, Table};
use ch_query::Climbed;

impl Table<'_> {
    /// Puts beside the labels of climbs the sums along them, in a lane. `kept` has the sum for each rank that is climbed to.
    pub fn raise_sums<const N: usize>(
        &self,
        climbs: &[Climbed],
        kept: &[u64],
        lane: usize,
        sums: &mut [[u64; N]],
    )
        requires table { IsTable self.now }
        requires climbs { All (λ (c : a_climb). c.rank < length self.now.hierarchy.now.ranks) climbs.now }
        requires kept { length kept.now ≡ length self.now.hierarchy.now.ranks }
        requires small { All (λ (c : a_climb). slice_index kept.now c.rank ≤ length self.now.hierarchy.now.ranks * 2 ^ 36) climbs.now }
        requires lane_in { lane < N }
        requires lanes { HaveLanes (length self.now.columns.now.ranks.items) N sums.old }
        requires small_sums { AreSmallSums (length self.now.hierarchy.now.ranks) self.now.columns.now.ranks.items sums.old }
        ensures lanes { HaveLanes (length self.now.columns.now.ranks.items) N sums.new }
        ensures small_sums { AreSmallSums (length self.now.hierarchy.now.ranks) self.now.columns.now.ranks.items sums.new }
        ensures raised { AreRaisedSums self.now.columns.now.ranks.items climbs.now (length climbs.now) kept.now (lane_of sums.new lane) }
        ensures others { (j p : ℕ) → (j ≡ lane → ⊥) → lane_of sums.new j p ≡ lane_of sums.old j p }
    {
        'climbs: for climbed in climbs {
            let place = self.columns.places[climbed.rank as usize];
            if place > 0 {
                sums[place as usize - 1][lane] = kept[climbed.rank as usize];
            }
        }
    }

    /// Makes labels of ways from those of climbs as [`Table::sweep`] does, and beside each the sum along its way. `numbers`
    /// are those of the links of the selection.
    pub fn sweep_sums<const N: usize>(
        &self,
        numbers: &[u64],
        labels: &mut [[u64; N]],
        sums: &mut [[u64; N]],
    )
        requires table { IsTable self.now }
        requires numbers { (all : List ℕ) × HaveNumbers self.now.hierarchy.now all × AreStepNumbers self.now.hierarchy.now all (lists_of self.now.columns.now) numbers.now }
        requires lanes { HaveLanes (length self.now.columns.now.ranks.items) N labels.old }
        requires small { AreSmall self.now.bound labels.old }
        requires sums { HaveLanes (length self.now.columns.now.ranks.items) N sums.old }
        requires small_sums { AreSmallSums (length self.now.hierarchy.now.ranks) self.now.columns.now.ranks.items sums.old }
        ensures lanes { HaveLanes (length self.now.columns.now.ranks.items) N labels.new }
        ensures sums { HaveLanes (length self.now.columns.now.ranks.items) N sums.new }
        ensures small_sums { AreSmallSums (length self.now.hierarchy.now.ranks) self.now.columns.now.ranks.items sums.new }
        ensures swept { (starts : List a_seed) (lane : ℕ) → lane < N → AreLabels (IsClimb self.now.hierarchy.now Rise starts self.now.bound) self.now.bound self.now.columns.now.ranks.items (lane_of labels.old lane) → AreLabels (IsWay self.now.hierarchy.now starts self.now.bound) self.now.bound self.now.columns.now.ranks.items (lane_of labels.new lane) }
        ensures summed { (all : List ℕ) (starts : ℕ → List a_seed) → AreStepNumbers self.now.hierarchy.now all (lists_of self.now.columns.now) numbers.now → HaveSums self.now.hierarchy.now all starts self.now.bound self.now.columns.now.ranks.items N labels.old sums.old → HaveSums self.now.hierarchy.now all starts self.now.bound self.now.columns.now.ranks.items N labels.new sums.new }
    {
        match &self.columns.links {
            Links::Short(steps) => self.sweep_sums_over(steps, numbers, labels, sums),
            Links::Long(steps) => self.sweep_sums_over(steps, numbers, labels, sums),
        }
    }

    // The same by the links of the selection, in either kind of numbers.
    fn sweep_sums_over<W: Number, const N: usize>(
        &self,
        steps: &Steps<W>,
        numbers: &[u64],
        labels: &mut [[u64; N]],
        sums: &mut [[u64; N]],
    )
        requires table { IsTable self.now }
        requires steps { AreLinksOf W.number steps.now (lists_of self.now.columns.now) }
        requires numbers { (all : List ℕ) × HaveNumbers self.now.hierarchy.now all × AreStepNumbers self.now.hierarchy.now all (lists_of self.now.columns.now) numbers.now }
        requires lanes { HaveLanes (length self.now.columns.now.ranks.items) N labels.old }
        requires small { AreSmall self.now.bound labels.old }
        requires sums { HaveLanes (length self.now.columns.now.ranks.items) N sums.old }
        requires small_sums { AreSmallSums (length self.now.hierarchy.now.ranks) self.now.columns.now.ranks.items sums.old }
        ensures lanes { HaveLanes (length self.now.columns.now.ranks.items) N labels.new }
        ensures sums { HaveLanes (length self.now.columns.now.ranks.items) N sums.new }
        ensures small_sums { AreSmallSums (length self.now.hierarchy.now.ranks) self.now.columns.now.ranks.items sums.new }
        ensures swept { (starts : List a_seed) (lane : ℕ) → lane < N → AreLabels (IsClimb self.now.hierarchy.now Rise starts self.now.bound) self.now.bound self.now.columns.now.ranks.items (lane_of labels.old lane) → AreLabels (IsWay self.now.hierarchy.now starts self.now.bound) self.now.bound self.now.columns.now.ranks.items (lane_of labels.new lane) }
        ensures summed { (all : List ℕ) (starts : ℕ → List a_seed) → AreStepNumbers self.now.hierarchy.now all (lists_of self.now.columns.now) numbers.now → HaveSums self.now.hierarchy.now all starts self.now.bound self.now.columns.now.ranks.items N labels.old sums.old → HaveSums self.now.hierarchy.now all starts self.now.bound self.now.columns.now.ranks.items N labels.new sums.new }
    {
        let count = labels.len();
        'places: for done in 0..count {
            let place = count - 1 - done;
            let (least, own) = self.least_sums(steps, numbers, labels, sums, place);
            labels[place] = least;
            sums[place] = own;
        }
    }

    // The labels of a place from those of later ones, and beside them its sums.
    fn least_sums<W: Number, const N: usize>(
        &self,
        steps: &Steps<W>,
        numbers: &[u64],
        labels: &[[u64; N]],
        sums: &[[u64; N]],
        place: usize,
    ) -> ([u64; N], [u64; N])
        requires table { IsTable self.now }
        requires steps { AreLinksOf W.number steps.now (lists_of self.now.columns.now) }
        requires numbers { (all : List ℕ) × HaveNumbers self.now.hierarchy.now all × AreStepNumbers self.now.hierarchy.now all (lists_of self.now.columns.now) numbers.now }
        requires lanes { HaveLanes (length self.now.columns.now.ranks.items) N labels.now }
        requires place_in { place < length labels.now }
        requires small { AreSmall self.now.bound labels.now }
        requires sums { HaveLanes (length self.now.columns.now.ranks.items) N sums.now }
        requires small_sums { AreSmallSums (length self.now.hierarchy.now.ranks) self.now.columns.now.ranks.items sums.now }
        ensures count { length result.0 ≡ N }
        ensures small { (lane : ℕ) → slice_index result.0 lane ≤ far self.now.bound }
        ensures least { (starts : List a_seed) (lane : ℕ) → lane < N → AreSwept (IsWay self.now.hierarchy.now starts self.now.bound) (IsClimb self.now.hierarchy.now Rise starts self.now.bound) self.now.bound self.now.columns.now.ranks.items (lane_of labels.now lane) (place + 1) → IsLabel (IsWay self.now.hierarchy.now starts self.now.bound (slice_index self.now.columns.now.ranks.items place)) self.now.bound (slice_index result.0 lane) }
        ensures sum_count { length result.1 ≡ N }
        ensures small_sums { (lane : ℕ) → slice_index result.1 lane ≤ (length self.now.hierarchy.now.ranks + (length self.now.hierarchy.now.ranks - slice_index self.now.columns.now.ranks.items place)) * 2 ^ 36 }
        ensures summed { (all : List ℕ) (starts : ℕ → List a_seed) → AreStepNumbers self.now.hierarchy.now all (lists_of self.now.columns.now) numbers.now → HaveSums self.now.hierarchy.now all starts self.now.bound self.now.columns.now.ranks.items N labels.now sums.now → IsPlaceSummed self.now.hierarchy.now all starts self.now.bound (slice_index self.now.columns.now.ranks.items place) N result.0 result.1 }
    {
        if self.are_packed(steps, place) {
            let packed = self.least_packed(steps, labels, place);
            return unpack(&packed, steps, numbers, sums, place);
        }
        let begin = steps.begin(place);
        let end = steps.begin(place + 1);
        let mut least = labels[place];
        let mut own = sums[place];
        'steps: for at in begin..end {
            let tail = steps.tails[at] as usize;
            pass_over_sums(
                &mut least,
                &mut own,
                &labels[tail],
                &sums[tail],
                steps.length(at),
                numbers[at],
            );
        }
        (least, own)
    }

    /// Writes the sums of a lane: that of each target from a place on.
    pub fn put_sums<const N: usize>(
        &self,
        labels: &[[u64; N]],
        sums: &[[u64; N]],
        lane: usize,
        row: &mut [u64],
        from: usize,
    )
        requires table { IsTable self.now }
        requires lanes { HaveLanes (length self.now.columns.now.ranks.items) N labels.now }
        requires sums { HaveLanes (length self.now.columns.now.ranks.items) N sums.now }
        requires small_sums { AreSmallSums (length self.now.hierarchy.now.ranks) self.now.columns.now.ranks.items sums.now }
        requires lane_in { lane < N }
        requires room { from + length self.now.columns.now.targets.items ≤ length row.old }
        requires walks { WaysAreWalks }
        ensures row { (all : List ℕ) (starts : ℕ → List a_seed) → AreSeeds self.now.hierarchy.now (starts lane) → AreLabels (IsWay self.now.hierarchy.now (starts lane) self.now.bound) self.now.bound self.now.columns.now.ranks.items (lane_of labels.now lane) → HaveSums self.now.hierarchy.now all starts self.now.bound self.now.columns.now.ranks.items N labels.now sums.now → IsRow (IsSumFromAny self.now.hierarchy.now all (starts lane) self.now.bound) self.now.columns.now.targets.items from row.old row.new }
    {
        let bound = self.bound.length();
        'targets: for place in 0..self.columns.ends.len() {
            let at = self.columns.ends[place] as usize;
            let label = labels[at][lane];
            let sum = sums[at][lane];
            row[from + place] = if label > bound { NO_LENGTH } else { sum };
        }
    }
}

// Goes over a link of this length and this number: in each lane where the sum of lengths is less than the label, it becomes
// the label, and the sum of numbers goes with it.
#[inline(always)]
fn pass_over_sums<const N: usize>(
    least: &mut [u64; N],
    sums: &mut [u64; N],
    tail: &[u64; N],
    tail_sums: &[u64; N],
    long: u64,
    number: u64,
)
    requires small { (lane : ℕ) → slice_index tail.now lane ≤ 2 ^ 62 + 1 }
    requires short { long ≤ 2 ^ 57 }
    requires small_sums { (lane : ℕ) → slice_index tail_sums.now lane ≤ 2 ^ 62 }
    requires number { number ≤ 2 ^ 36 }
    ensures count { length least.new ≡ N }
    ensures least { (lane : ℕ) → lane < N → IsLeastOver (slice_index least.old lane) (slice_index tail.now lane + long) (slice_index least.new lane) }
    ensures sum_count { length sums.new ≡ N }
    ensures sums { (lane : ℕ) → lane < N → IsSumOver (slice_index least.old lane) (slice_index tail.now lane + long) (slice_index sums.old lane) (slice_index tail_sums.now lane + number) (slice_index sums.new lane) }
{
    'lanes: for lane in 0..N {
        let sum = tail[lane] + long;
        let other = tail_sums[lane] + number;
        if sum < least[lane] {
            least[lane] = sum;
            sums[lane] = other;
        }
    }
}
