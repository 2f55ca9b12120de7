ghost use Rattle.std.specs.Prelude.{◌≡◌, ◌+◌, ◌<◌, length, slice_index, IfOk, OnOk};
ghost use Rattle.ch_cost.specs.Cost.{IsNoLonger, IsOfWalks};
ghost use Rattle.ch_query.specs.Labels.{IsShortLimit};
ghost use Rattle.ch_query.specs.Climb.{foot_rank};
ghost use Rattle.ch_query.specs.Marks.{FitAll, IsNoMore, IsLatest};
ghost use Rattle.ch_query.specs.Searching.{IsStepAt, IsOpenedOver, IsFollowed, ArePassed, IsClimbing, IsSearching, IsTurned};
ghost use Rattle.ch_query.specs.Meeting.{IsBestSoFar, cost_of};
ghost use Rattle.ch_query.specs.Ready.{IsHalf};

use crate::frontier::{Frontier, Reached};
use crate::half::Half;
use crate::label::Label;
use crate::limit::counts;
use crate::meeting::{Meeting, cost_of, look_at};
use crate::upward::step_cost;
use ch_cost::Cost;
use std::alloc::AllocError;

impl Half<'_> {
    /// Takes a turn: settles the first open node, looks whether the other half has a label there, and follows the links
    /// that climb from it. Returns false where each open node is longer than the best meeting so far: the half has stopped.
    pub fn turn(
        &self,
        here: &mut Frontier,
        there: &Frontier,
        best: &mut Option<Meeting>,
    ) -> Result<bool, AllocError>
        requires half { IsHalf self.now }
        requires searching { IsSearching self.now.hierarchy.now self.now.side self.now.seeds.now self.now.bound here.old }
        requires climbing { IsClimbing self.now.hierarchy.now self.now.side self.now.seeds.now self.now.bound (cost_of best.old) here.old }
        requires there_nodes { length there.now ≡ length self.now.hierarchy.now.ranks }
        requires there_fits { FitAll there.now }
        requires best { IsBestSoFar self.now.bound here.old there.now best.old }
        ensures nodes { length here.new ≡ length here.old }
        ensures searching { OnOk result (IsSearching self.now.hierarchy.now self.now.side self.now.seeds.now self.now.bound here.new) }
        ensures climbing { OnOk result (IsClimbing self.now.hierarchy.now self.now.side self.now.seeds.now self.now.bound (cost_of best.new) here.new) }
        ensures less { OnOk result (IsNoMore (cost_of best.new) (cost_of best.old)) }
        ensures best { OnOk result (IsBestSoFar self.now.bound here.new there.now best.new) }
        ensures turned { IfOk result (λ goes_on. IsTurned goes_on here.old here.new (cost_of best.old) (cost_of best.new)) }
    {
        let Some(reached) = here.settle_next(cost_of(*best)) else {
            return Ok(false);
        };
        let rank = reached.rank;
        let found = look_at(
            rank,
            reached.label.cost,
            there.cost(rank),
            *best,
            self.bound,
        );
        *best = found;
        let limit = cost_of(found);
        self.pass_over(reached, limit, here)?;
        Ok(true)
    }

    /// Follows each link that climbs from a node that was reached, where the sum is below the limit.
    pub fn pass_over(
        &self,
        from: Reached,
        limit: Option<Cost>,
        here: &mut Frontier,
    ) -> Result<(), AllocError>
        requires half { IsHalf self.now }
        requires rank_in { from.rank < length self.now.hierarchy.now.ranks }
        requires here_nodes { length here.old ≡ length self.now.hierarchy.now.ranks }
        requires latest { IsLatest here.old from.label.cost from.rank }
        requires fits { IsOfWalks (from.rank + 1) from.label.cost }
        requires short { IsNoLonger from.label.cost self.now.bound }
        requires limit { IsShortLimit self.now.bound limit }
        ensures nodes { length here.new ≡ length here.old }
        ensures opened { OnOk result (IsOpenedOver self.now.hierarchy.now self.now.side self.now.bound from.rank from.label.cost here.old here.new) }
        ensures passed { OnOk result (ArePassed self.now.hierarchy.now self.now.side self.now.bound from.rank from.label.cost limit here.new) }
    {
        let begin = self.steps.first.get(from.rank as usize);
        let end = self.steps.first.get(from.rank as usize + 1);
        for place in begin..end {
            self.follow(from, place, limit, here)?;
        }
        Ok(())
    }

    /// Follows the link of the step at a place, from a node that was reached: the node at its head is opened, if the sum
    /// is better than what is known of it and counts. Few are better, so that is asked first.
    fn follow(
        &self,
        from: Reached,
        place: usize,
        limit: Option<Cost>,
        here: &mut Frontier,
    ) -> Result<(), AllocError>
        requires half { IsHalf self.now }
        requires foot { foot_rank self.now.hierarchy.now self.now.side (slice_index self.now.steps.now.links.items place) ≡ from.rank }
        requires step { IsStepAt self.now.hierarchy.now self.now.side self.now.steps.now.links.items self.now.steps.now.steps.items place }
        requires here_nodes { length here.old ≡ length self.now.hierarchy.now.ranks }
        requires latest { IsLatest here.old from.label.cost from.rank }
        requires fits { IsOfWalks (from.rank + 1) from.label.cost }
        requires short { IsNoLonger from.label.cost self.now.bound }
        requires limit { IsShortLimit self.now.bound limit }
        ensures nodes { length here.new ≡ length here.old }
        ensures opened { OnOk result (IsOpenedOver self.now.hierarchy.now self.now.side self.now.bound from.rank from.label.cost here.old here.new) }
        ensures followed { OnOk result (IsFollowed self.now.hierarchy.now self.now.side self.now.bound from.label.cost limit here.new (slice_index self.now.steps.now.links.items place)) }
    {
        let step = self.steps.steps[place];
        let cost = from.label.cost;
        let sum = cost.plus_wide(step_cost(self.hierarchy, self.steps, place));
        if !here.is_improved_by(step.head, sum) {
            return Ok(());
        }
        if !counts(sum, limit, self.bound) {
            return Ok(());
        }
        let label = Label {
            cost: sum,
            foot: from.rank,
        };
        here.open(step.head, label)?;
        Ok(())
    }
}
