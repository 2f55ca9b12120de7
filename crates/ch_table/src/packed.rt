ghost use Rattle.std.specs.Prelude.{◌≡◌, ◌+◌, ◌*◌, ◌/◌, ◌%◌, ◌<◌, ◌≤◌, ◌^◌, ℕ, List, length, map, slice_index, All, IsTrue};
ghost use Rattle.ch_query.specs.declared.seed.Seed.{Seed as a_seed};
ghost use Rattle.ch_query.specs.declared.side.Side.TheVariants.{Rise};
ghost use Rattle.ch_query.specs.Ways.{IsClimb, IsWay};
ghost use Rattle.ch_table.specs.Labels.{AreSmall, AreSwept, HaveLanes, IsLabel, IsLeastOver, far, lane_of};
ghost use Rattle.ch_table.specs.Packed.{HasSumOver, IsPacked, IsWon, sum_over};
ghost use Rattle.ch_table.specs.Selection.{AreLinksOf, IsTable, lists_of};

use crate::steps::{Number, Steps};
use crate::table::Table;

// Below the label in a packed one is the number of the link that it comes over, from 1, or 0 for that of a climb.
const SPAN: u64 = 1024;

// Labels are packed where they are below this.
const MOST_PACKED: u64 = 1 << 50;

impl Table<'_> {
    /// Whether the labels of a place have room for the number of a link of it beside them.
    pub fn are_packed<W: Number>(&self, steps: &Steps<W>, place: usize) -> bool
        requires table { IsTable self.now }
        requires steps { AreLinksOf W.number steps.now (lists_of self.now.columns.now) }
        requires place_in { place < length self.now.columns.now.ranks.items }
        ensures { IsTrue result → IsPacked self.now place }
    {
        if self.bound.length() + 1 >= MOST_PACKED {
            return false;
        }
        if self.hierarchy.bound().length() >= MOST_PACKED {
            return false;
        }
        let begin = steps.begin(place);
        let end = steps.begin(place + 1);
        end < begin.saturating_add(SPAN as usize - 1)
    }

    /// The labels of a place from those of later ones, packed with the link that each comes over.
    pub fn least_packed<W: Number, const N: usize>(
        &self,
        steps: &Steps<W>,
        labels: &[[u64; N]],
        place: usize,
    ) -> [u64; N]
        requires table { IsTable self.now }
        requires packed { IsPacked self.now place }
        requires steps { AreLinksOf W.number steps.now (lists_of self.now.columns.now) }
        requires lanes { HaveLanes (length self.now.columns.now.ranks.items) N labels.now }
        requires place_in { place < length labels.now }
        requires small { AreSmall self.now.bound labels.now }
        ensures count { length result ≡ N }
        ensures small { (lane : ℕ) → slice_index result lane / 1024 ≤ far self.now.bound }
        ensures least { (starts : List a_seed) (lane : ℕ) → lane < N → AreSwept (IsWay self.now.hierarchy.now starts self.now.bound) (IsClimb self.now.hierarchy.now Rise starts self.now.bound) self.now.bound self.now.columns.now.ranks.items (lane_of labels.now lane) (place + 1) → IsLabel (IsWay self.now.hierarchy.now starts self.now.bound (slice_index self.now.columns.now.ranks.items place)) self.now.bound (slice_index result lane / 1024) }
        ensures won { (lane : ℕ) → lane < N → IsWon (lists_of self.now.columns.now) (lane_of labels.now lane) place (slice_index (lists_of self.now.columns.now).first (place + 1)) (slice_index result lane) }
    {
        let begin = steps.begin(place);
        let end = steps.begin(place + 1);
        let mut packed = pack(&labels[place]);
        'steps: for at in begin..end {
            let tail = steps.tails[at] as usize;
            let link = (at - begin) as u64 + 1;
            pass_over_packed(&mut packed, &labels[tail], steps.length(at), link);
        }
        packed
    }
}

// Labels of climbs, packed.
#[inline(always)]
fn pack<const N: usize>(labels: &[u64; N]) -> [u64; N]
    requires { (lane : ℕ) → slice_index labels.now lane ≤ 2 ^ 50 }
    ensures count { length result ≡ N }
    ensures labels { (lane : ℕ) → slice_index result lane ≡ slice_index labels.now lane * 1024 }
{
    let mut packed = *labels;
    'lanes: for lane in 0..N {
        packed[lane] = packed[lane] * SPAN;
    }
    packed
}

// Goes over a link of this length and this number: in each lane the packed label becomes the packed sum where that is less.
#[inline(always)]
fn pass_over_packed<const N: usize>(packed: &mut [u64; N], tail: &[u64; N], long: u64, link: u64)
    requires small { (lane : ℕ) → slice_index tail.now lane ≤ 2 ^ 50 }
    requires short { long < 2 ^ 50 }
    requires link { link < 1024 }
    ensures count { length packed.new ≡ N }
    ensures least { (lane : ℕ) → lane < N → IsLeastOver (slice_index packed.old lane) ((slice_index tail.now lane + long) * 1024 + link) (slice_index packed.new lane) }
{
    'lanes: for lane in 0..N {
        let sum = (tail[lane] + long) * SPAN + link;
        if sum < packed[lane] {
            packed[lane] = sum;
        }
    }
}

/// Unpacks the labels of a place, and finds the sum beside each: its own where the label is that of a climb, or else that
/// over the link.
#[inline(always)]
pub fn unpack<W: Number, const N: usize>(
    packed: &[u64; N],
    steps: &Steps<W>,
    numbers: &[u64],
    sums: &[[u64; N]],
    place: usize,
) -> ([u64; N], [u64; N])
    requires place_in { place < length sums.now }
    requires wide { All (λ (row : List ℕ). length row ≡ N) sums.now }
    requires begin { place < length steps.now.first.items }
    requires over { (lane at : ℕ) → lane < N → at + 1 ≡ slice_index (map W.number steps.now.first.items) place + slice_index packed.now lane % 1024 → slice_index (map W.number steps.now.first.items) place ≤ at → HasSumOver steps.now.tails.items numbers.now sums.now lane at }
    ensures count { length result.0 ≡ N }
    ensures sum_count { length result.1 ≡ N }
    ensures labels { (lane : ℕ) → slice_index result.0 lane ≡ slice_index packed.now lane / 1024 }
    ensures own { (lane : ℕ) → lane < N → slice_index packed.now lane % 1024 ≡ 0 → slice_index result.1 lane ≡ lane_of sums.now lane place }
    ensures over { (lane at : ℕ) → lane < N → at + 1 ≡ slice_index (map W.number steps.now.first.items) place + slice_index packed.now lane % 1024 → slice_index (map W.number steps.now.first.items) place ≤ at → slice_index result.1 lane ≡ sum_over steps.now.tails.items numbers.now sums.now lane at }
{
    let begin = steps.begin(place);
    let mut labels = *packed;
    let mut own = sums[place];
    'lanes: for lane in 0..N {
        labels[lane] = packed[lane] / SPAN;
        let link = (packed[lane] % SPAN) as usize;
        if link > 0 {
            own[lane] = sum_at(steps, numbers, sums, lane, begin + link - 1);
        }
    }
    (labels, own)
}

// The sum of a lane over a link.
#[inline(always)]
fn sum_at<W, const N: usize>(
    steps: &Steps<W>,
    numbers: &[u64],
    sums: &[[u64; N]],
    lane: usize,
    at: usize,
) -> u64
    requires lane_in { lane < N }
    requires wide { All (λ (row : List ℕ). length row ≡ N) sums.now }
    requires over { HasSumOver steps.now.tails.items numbers.now sums.now lane at }
    ensures { result ≡ sum_over steps.now.tails.items numbers.now sums.now lane at }
{
    let tail = steps.tails[at] as usize;
    sums[tail][lane] + numbers[at]
}
