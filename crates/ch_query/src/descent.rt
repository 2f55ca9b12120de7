ghost use Rattle.std.specs.Prelude.{◌<◌, ◌≡◌, ◌≢◌, ◌↔◌, ℕ, Some, length, IfOk, IfSome, IfNone, IsTrue, slice_get};
ghost use Rattle.ch_cost.specs.declared.cost.Cost.{Cost as a_cost};
ghost use Rattle.ch_graph.specs.Hierarchy.{rank_of};
ghost use Rattle.ch_graph.specs.Marks.{mark, HasLabel};
ghost use Rattle.ch_query.specs.Climb.{IsWayBack};
ghost use Rattle.ch_query.specs.Seeds.{IsSeed, IsSeedAt};
ghost use Rattle.ch_query.specs.declared.label.Label.{Label};
ghost use Rattle.ch_query.specs.declared.seed.Seed.{Seed as a_seed};
ghost use Rattle.ch_query.specs.Marks.{costs_of};
ghost use Rattle.ch_query.specs.Ready.{IsHalf};
ghost use Rattle.ch_query.specs.Searching.{IsSearching};

use crate::frontier::Frontier;
use crate::half::Half;
use crate::seed::Seed;
use ch_cost::Cost;
use ch_graph::{Hierarchy, LinkId};
use std::alloc::{AllocError, Global};

/// The way by which a side came to a node.
#[derive(Drop)]
pub struct WayBack {
    /// The places of its links, from that node back to where the side began.
    pub links: Vec<LinkId>,
    /// The place of the seed where it began, among those of the side.
    pub seed: usize,
}

impl Half<'_> {
    /// Returns the way by which the half came to the node of a rank, which has a label.
    pub fn way_back(&self, alloc: Global, marks: &Frontier, top: u32) -> Result<WayBack, AllocError>
        requires half { IsHalf self.now }
        requires searching { IsSearching self.now.hierarchy.now self.now.side self.now.seeds.now self.now.bound marks.now }
        requires top_in { top < length self.now.hierarchy.now.ranks }
        requires label { (c : a_cost) × (costs_of marks.now top ≡ Some c) }
        ensures { IfOk result (λ back. (x : ℕ) → (c : a_cost) → x < length self.now.hierarchy.now.ranks → rank_of self.now.hierarchy.now x ≡ top → costs_of marks.now top ≡ Some c → IsWayBack self.now.hierarchy.now self.now.side self.now.seeds.now x c back) }
    {
        let mut links = Vec::new(alloc);
        let mut rank = top;
        'links: while let Some(foot) = came_from(marks, rank) {
            let at = self
                .steps
                .link_between(self.hierarchy, self.side, foot, rank);
            links.push(LinkId(at))?;
            rank = foot;
        }
        let seed = self.seed_at(rank, marks.cost(rank));
        Ok(WayBack { links, seed })
    }

    /// The place of the first seed that is at the node of a rank and costs this. There is one.
    fn seed_at(&self, rank: u32, cost: Option<Cost>) -> usize
        requires half { IsHalf self.now }
        requires one { (c : a_cost) × (cost ≡ Some c) × IsSeedAt self.now.hierarchy.now self.now.seeds.now rank c }
        ensures { (seed : a_seed) × (slice_get self.now.seeds.now result ≡ Some seed) × (rank_of self.now.hierarchy.now seed.node ≡ rank) × (cost ≡ Some seed.cost) }
    {
        let mut place = 0;
        'seeds: while !is_at(self.hierarchy, self.seeds[place], rank, cost) {
            place += 1;
        }
        place
    }
}

/// The rank of the node that the climb to the node of a rank came from, if it has a label and isn't where a side began.
pub fn came_from(marks: &Frontier, rank: u32) -> Option<u32>
    requires { rank < length marks.now }
    ensures some { IfSome result (λ foot. (e : Label) × (HasLabel (mark marks.now rank) e) × (e.foot ≡ foot) × (foot ≢ rank)) }
    ensures none { IfNone result ((e : Label) → HasLabel (mark marks.now rank) e → e.foot ≡ rank) }
{
    let label = marks.label(rank)?;
    if label.foot == rank {
        return None;
    }
    Some(label.foot)
}

/// Whether a seed is at the node of a rank and costs this.
fn is_at(hierarchy: &Hierarchy, seed: Seed, rank: u32, cost: Option<Cost>) -> bool
    requires { IsSeed hierarchy.now seed }
    ensures { IsTrue result ↔ ((rank_of hierarchy.now seed.node ≡ rank) × (cost ≡ Some seed.cost)) }
{
    let Some(cost) = cost else {
        return false;
    };
    (hierarchy.rank(seed.node) == rank) & (cost == seed.cost)
}
