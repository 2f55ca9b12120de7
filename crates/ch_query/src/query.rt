ghost use Rattle.std.specs.Prelude.{◌≡◌, length, option_map, IfOk, IfSome};
ghost use Rattle.ch_query.specs.Meeting.{IsMeetingOf, cost_of};
ghost use Rattle.ch_query.specs.Ready.{IsQuery};
ghost use Rattle.ch_query.specs.Seeds.{IsValueBetween, IsWalkBetween};

use crate::descent::WayBack;
use crate::frontier::Frontier;
use crate::half::Half;
use crate::layout::Layout;
use crate::meeting::{Meeting, cost_of};
use crate::search::FoundBetween;
use crate::seed::Seed;
use crate::side::Side;
use ch_cost::Cost;
use ch_graph::{Hierarchy, rise_fall_joins};
use std::alloc::AllocError;

/// A query: the least walk from one of the starts to one of the ends that with both is no longer than the bound.
///
/// It is asked with the marks of a search, one [`Frontier`] for each of its halves, of as many nodes as the hierarchy has.
/// What these hold doesn't matter, and the next query may have them.
#[derive(Clone, Copy)]
pub struct Query<'a> {
    /// The hierarchy.
    pub hierarchy: &'a Hierarchy,
    /// The steps of both halves.
    pub layout: &'a Layout,
    /// Where the walk may begin.
    pub starts: &'a [Seed],
    /// Where it may end.
    pub ends: &'a [Seed],
    /// How long start, walk and end may be together: the hierarchy's bound for one start and one end that cost nothing, and
    /// else 2^62.
    pub bound: Cost,
}

impl Query<'_> {
    /// Returns what the walk costs with its start and its end. `None` where there is none.
    pub fn cost(&self, up: &mut Frontier, down: &mut Frontier) -> Result<Option<Cost>, AllocError>
        requires query { IsQuery self.now }
        requires up { length up.old ≡ length self.now.hierarchy.now.ranks }
        requires down { length down.old ≡ length self.now.hierarchy.now.ranks }
        ensures up { length up.new ≡ length up.old }
        ensures down { length down.new ≡ length down.old }
        ensures value { IfOk result (IsValueBetween self.now.hierarchy.now self.now.starts.now self.now.ends.now self.now.bound) }
    {
        let best = self.run(up, down)?;
        Ok(cost_of(best))
    }

    /// Returns the walk, and what it costs with its start and its end. `None` where there is none.
    pub fn found(
        &self,
        up: &mut Frontier,
        down: &mut Frontier,
    ) -> Result<Option<FoundBetween>, AllocError>
        requires query { IsQuery self.now }
        requires up { length up.old ≡ length self.now.hierarchy.now.ranks }
        requires down { length down.old ≡ length self.now.hierarchy.now.ranks }
        ensures up { length up.new ≡ length up.old }
        ensures down { length down.new ≡ length down.old }
        ensures value { IfOk result (λ found. IsValueBetween self.now.hierarchy.now self.now.starts.now self.now.ends.now self.now.bound (option_map (λ f. f.cost) found)) }
        ensures walk { IfOk result (λ found. IfSome found (λ f. IsWalkBetween self.now.hierarchy.now self.now.starts.now self.now.ends.now f.start f.end f.links.items f.cost)) }
    {
        let best = self.run(up, down)?;
        let Some(meeting) = best else {
            return Ok(None);
        };
        let found = self.walk(up, down, meeting)?;
        Ok(Some(found))
    }

    /// Searches from the starts along links that rise and from the ends against links that fall, in turn, until each half
    /// has stopped. Returns where they meet at the least cost, of those that are no longer than the bound.
    fn run(&self, up: &mut Frontier, down: &mut Frontier) -> Result<Option<Meeting>, AllocError>
        requires query { IsQuery self.now }
        requires up { length up.old ≡ length self.now.hierarchy.now.ranks }
        requires down { length down.old ≡ length self.now.hierarchy.now.ranks }
        ensures up { length up.new ≡ length up.old }
        ensures down { length down.new ≡ length down.old }
        ensures value { IfOk result (λ best. IsValueBetween self.now.hierarchy.now self.now.starts.now self.now.ends.now self.now.bound (cost_of best)) }
        ensures met { IfOk result (λ best. IfSome best (IsMeetingOf self.now.hierarchy.now self.now.starts.now self.now.ends.now self.now.bound up.new down.new)) }
    {
        let rise = Half {
            hierarchy: self.hierarchy,
            steps: &self.layout.rising,
            side: Side::Rise,
            seeds: self.starts,
            bound: self.bound,
        };
        let fall = Half {
            hierarchy: self.hierarchy,
            steps: &self.layout.falling,
            side: Side::Fall,
            seeds: self.ends,
            bound: self.bound,
        };
        rise.begin(up)?;
        fall.begin(down)?;
        let mut best = None;
        'turns: loop {
            let rose = rise.turn(up, down, &mut best)?;
            let fell = fall.turn(down, up, &mut best)?;
            let goes_on = rose | fell;
            if !goes_on {
                return Ok(best);
            }
        }
    }

    /// The walk up to the node where the halves meet, and down from it.
    fn walk(
        &self,
        up: &Frontier,
        down: &Frontier,
        meeting: Meeting,
    ) -> Result<FoundBetween, AllocError>
        requires query { IsQuery self.now }
        requires met { IsMeetingOf self.now.hierarchy.now self.now.starts.now self.now.ends.now self.now.bound up.now down.now meeting }
        ensures cost { IfOk result (λ f. f.cost ≡ meeting.cost) }
        ensures walk { IfOk result (λ f. IsWalkBetween self.now.hierarchy.now self.now.starts.now self.now.ends.now f.start f.end f.links.items meeting.cost) }
    {
        rise_fall_joins();
        let rise = Half {
            hierarchy: self.hierarchy,
            steps: &self.layout.rising,
            side: Side::Rise,
            seeds: self.starts,
            bound: self.bound,
        };
        let fall = Half {
            hierarchy: self.hierarchy,
            steps: &self.layout.falling,
            side: Side::Fall,
            seeds: self.ends,
            bound: self.bound,
        };
        let alloc = *self.layout.rising.steps.allocator();
        let WayBack {
            mut links,
            seed: start,
        } = rise.way_back(alloc, up, meeting.rank)?;
        links.reverse();
        let fallen = fall.way_back(alloc, down, meeting.rank)?;
        links.extend_from_slice(&fallen.links)?;
        Ok(FoundBetween {
            cost: meeting.cost,
            start,
            end: fallen.seed,
            links,
        })
    }
}
