ghost use Rattle.std.specs.Prelude.{◌≡◌, ◌<◌, length, OnOk};
ghost use Rattle.ch_query.specs.declared.side.Side.TheVariants.{Rise};
ghost use Rattle.ch_query.specs.Climbing.{AreListed};
ghost use Rattle.ch_query.specs.Ready.{IsHalf};
ghost use Rattle.ch_query.specs.Searching.{IsSearching};
ghost use Rattle.ch_query.specs.Sums.{AreSumsOf, HaveNumbers, IsClimbSum, IsFootSummed};
ghost use Rattle.ch_query.specs.Ways.{AreLeastClimbs};

use crate::climb::Climbed;
use crate::descent::came_from;
use crate::frontier::Frontier;
use crate::half::Half;
use std::alloc::AllocError;

impl Half<'_> {
    /// The same as [`Half::climb`], and writes for the rank of each node that is listed what the numbers of the links of
    /// the climb to it sum to.
    pub fn climb_summed(
        &self,
        marks: &mut Frontier,
        numbers: &[u64],
        climbs: &mut Vec<Climbed>,
        sums: &mut [u64],
    ) -> Result<(), AllocError>
        requires half { IsHalf self.now }
        requires side { self.now.side ≡ Rise }
        requires nodes { length marks.old ≡ length self.now.hierarchy.now.ranks }
        requires numbers { HaveNumbers self.now.hierarchy.now numbers.now }
        requires room { length sums.old ≡ length self.now.hierarchy.now.ranks }
        ensures nodes { length marks.new ≡ length marks.old }
        ensures room { length sums.new ≡ length sums.old }
        ensures climbs { OnOk result (AreLeastClimbs self.now.hierarchy.now self.now.side self.now.seeds.now self.now.bound climbs.new.items) }
        ensures sums { OnOk result (AreSumsOf self.now.hierarchy.now numbers.now self.now.seeds.now sums.new climbs.new.items) }
    {
        self.climb(marks, climbs)?;
        self.sum_climbs(marks, climbs, numbers, sums);
        Ok(())
    }

    // Sums numbers along climbs. Each is listed behind the one that it goes on.
    fn sum_climbs(&self, marks: &Frontier, climbs: &[Climbed], numbers: &[u64], sums: &mut [u64])
        requires half { IsHalf self.now }
        requires side { self.now.side ≡ Rise }
        requires searching { IsSearching self.now.hierarchy.now self.now.side self.now.seeds.now self.now.bound marks.now }
        requires listed { AreListed marks.now climbs.now }
        requires numbers { HaveNumbers self.now.hierarchy.now numbers.now }
        requires room { length sums.old ≡ length self.now.hierarchy.now.ranks }
        ensures room { length sums.new ≡ length sums.old }
        ensures sums { AreSumsOf self.now.hierarchy.now numbers.now self.now.seeds.now sums.new climbs.now }
    {
        'climbs: for climbed in climbs {
            let sum = self.sum_to(marks, climbed.rank, numbers, sums);
            sums[climbed.rank as usize] = sum;
        }
    }

    // The sum along the climb to a rank: that of the one that it goes on, and the number of its last link.
    fn sum_to(&self, marks: &Frontier, rank: u32, numbers: &[u64], sums: &[u64]) -> u64
        requires half { IsHalf self.now }
        requires side { self.now.side ≡ Rise }
        requires searching { IsSearching self.now.hierarchy.now self.now.side self.now.seeds.now self.now.bound marks.now }
        requires rank_in { rank < length self.now.hierarchy.now.ranks }
        requires numbers { HaveNumbers self.now.hierarchy.now numbers.now }
        requires room { length sums.now ≡ length self.now.hierarchy.now.ranks }
        requires foot { IsFootSummed self.now.hierarchy.now numbers.now self.now.seeds.now marks.now sums.now rank }
        ensures { IsClimbSum self.now.hierarchy.now numbers.now self.now.seeds.now marks.now rank result }
    {
        match came_from(marks, rank) {
            None => 0,
            Some(foot) => {
                let link = self
                    .steps
                    .link_between(self.hierarchy, self.side, foot, rank);
                sums[foot as usize] + numbers[link]
            }
        }
    }
}
