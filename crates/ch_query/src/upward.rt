ghost use Rattle.std.specs.Prelude.{◌≡◌, ◌+◌, ◌^◌, ◌<◌, ℕ, length, slice_index, IfOk};
ghost use Rattle.ch_graph.specs.Hierarchy.{IsWellMade};
ghost use Rattle.ch_query.specs.Climb.{cost_at, Climbs, LeadsUp};
ghost use Rattle.ch_query.specs.LinkNumbers.{HasRoom};
ghost use Rattle.ch_query.specs.Counting.{all_below, IsCounted, IsSummed, HoldsFirst};
ghost use Rattle.ch_query.specs.Upward.{step_along, AreStepsOf};
ghost use Rattle.ch_query.specs.Searching.{IsOneStepAt};

use crate::link_numbers::LinkNumbers;
use crate::place::link_at;
use crate::side::Side;
use ch_cost::{Cost, ShortCost};
use ch_graph::Hierarchy;
use std::alloc::{AllocError, Global};

/// A step of a side: along a link that it climbs.
#[derive(Clone, Copy)]
pub struct UpwardStep {
    /// The rank of the node that it comes to.
    pub head: u32,
    /// What the link costs, if that fits into the 8 bytes of a [`ShortCost`].
    pub cost: ShortCost,
}

/// The steps of a side, in the order of the ranks of the nodes that it takes them from.
///
/// Those from one node lie together, and so do those from the nodes of high rank, where all queries come by. The
/// links lie apart, since a query reads those of the steps of its walk alone, and of the steps whose cost doesn't fit.
/// It holds 4 bytes a node and 16 a link that climbs, or 8 and 20 where there are 2^32 links or more.
#[derive(Drop)]
pub struct UpwardSteps {
    /// For each rank the place of the first step from the node of that rank, and then the number of steps.
    pub first: LinkNumbers,
    /// The steps.
    pub steps: Vec<UpwardStep>,
    /// For each step the place of the link that it goes along.
    pub links: LinkNumbers,
}

impl UpwardSteps {
    /// Room for the steps of a side over the links that are counted, and none of them put in.
    ///
    /// The counts become the places of the ranks. Takes 16 bytes a link that climbs, or 20 where there are 2^32 links or
    /// more.
    pub fn with_room(
        alloc: Global,
        hierarchy: &Hierarchy,
        side: Side,
        counts: LinkNumbers,
    ) -> Result<UpwardSteps, AllocError>
        requires made { IsWellMade hierarchy.now }
        requires few { length hierarchy.now.links < 2 ^ 64 }
        requires counted { IsCounted hierarchy.now side (length hierarchy.now.links) counts.items }
        requires limit { length hierarchy.now.links < counts.limit }
        ensures filled { IfOk result (λ upward. HoldsFirst hierarchy.now side 0 upward) }
        ensures room { IfOk result (λ upward. HasRoom hierarchy.now upward.first upward.links) }
    {
        let mut first = counts;
        let count = sum_up(hierarchy, side, &mut first);
        let links = LinkNumbers::with_room(alloc, count, hierarchy.links().len())?;
        let steps = vec![in alloc; first_step(hierarchy, side); count]?;
        Ok(UpwardSteps {
            first,
            steps,
            links,
        })
    }

    /// Puts in the link at a place, which the side climbs, before those from the same node.
    pub fn put(&mut self, hierarchy: &Hierarchy, side: Side, at: usize)
        requires made { IsWellMade hierarchy.now }
        requires climbs { Climbs hierarchy.now side at }
        requires filled { HoldsFirst hierarchy.now side at self.old }
        requires room { HasRoom hierarchy.now self.old.first self.old.links }
        ensures filled { HoldsFirst hierarchy.now side (at + 1) self.new }
        ensures room { HasRoom hierarchy.now self.new.first self.new.links }
    {
        let step = step_along(hierarchy, side, at);
        let foot = hierarchy.rank(side.foot(&link_at(hierarchy, at))) as usize;
        let place = self.first.get(foot) - 1;
        self.first.set(foot, place);
        self.links.set(place, at);
        self.steps[place] = step;
    }

    /// Returns the place in the hierarchy of the link that leads up from the node of one rank to that of another.
    /// There is one.
    ///
    /// Takes time by the number of steps from the lower node.
    pub fn link_between(&self, hierarchy: &Hierarchy, side: Side, foot: u32, head: u32) -> usize
        requires made { IsWellMade hierarchy.now }
        requires laid { AreStepsOf hierarchy.now side self.now }
        requires link { (k : ℕ) × LeadsUp hierarchy.now side foot head k }
        ensures { LeadsUp hierarchy.now side foot head result }
    {
        let mut place = self.first.get(foot as usize);
        'steps: while self.steps[place].head != head {
            place += 1;
        }
        self.links.get(place)
    }
}

/// Adds to the count of each rank those of the ranks below it. Returns how many links there are in all.
fn sum_up(hierarchy: &Hierarchy, side: Side, counts: &mut LinkNumbers) -> usize
    requires few { length hierarchy.now.links < 2 ^ 64 }
    requires counted { IsCounted hierarchy.now side (length hierarchy.now.links) counts.old.items }
    requires limit { length hierarchy.now.links < counts.old.limit }
    ensures sums { IsSummed hierarchy.now side counts.new.items }
    ensures all { result ≡ all_below hierarchy.now side (length counts.new.items) }
    ensures limit { counts.new.limit ≡ counts.old.limit }
{
    let mut sum = 0;
    'ranks: for rank in 0..counts.len() {
        sum += counts.get(rank);
        counts.set(rank, sum);
    }
    sum
}

/// The step along the first link; any step where there is no link.
fn first_step(hierarchy: &Hierarchy, side: Side) -> UpwardStep
    requires { IsWellMade hierarchy.now }
    ensures { 0 < length hierarchy.now.links → result ≡ step_along hierarchy.now side 0 }
{
    if hierarchy.links().is_empty() {
        return UpwardStep {
            head: 0,
            cost: ShortCost::of(Cost::ZERO),
        };
    }
    step_along(hierarchy, side, 0)
}

/// The step along the link at a place.
fn step_along(hierarchy: &Hierarchy, side: Side, at: usize) -> UpwardStep
    requires made { IsWellMade hierarchy.now }
    requires link_in { at < length hierarchy.now.links }
    ensures { result ≡ step_along hierarchy.now side at }
{
    let link = link_at(hierarchy, at);
    UpwardStep {
        head: hierarchy.rank(side.head(&link)),
        cost: ShortCost::of(link.cost.cost()),
    }
}

/// Returns what the step at a place costs: the link itself is read only where its cost doesn't fit into the step.
pub fn step_cost(hierarchy: &Hierarchy, upward: &UpwardSteps, place: usize) -> Cost
    requires { IsOneStepAt hierarchy.now upward.now.links.items upward.now.steps.items place }
    ensures { result ≡ cost_at hierarchy.now (slice_index upward.now.links.items place) }
{
    match upward.steps[place].cost.cost() {
        Some(cost) => cost,
        None => link_cost(hierarchy, upward, place),
    }
}

/// What the link of the step at a place costs, as the hierarchy has it.
#[cold]
#[inline(never)]
fn link_cost(hierarchy: &Hierarchy, upward: &UpwardSteps, place: usize) -> Cost
    requires place_in { place < length upward.now.links.items }
    requires link_in { slice_index upward.now.links.items place < length hierarchy.now.links }
    ensures { result ≡ cost_at hierarchy.now (slice_index upward.now.links.items place) }
{
    link_at(hierarchy, upward.links.get(place)).cost.cost()
}
