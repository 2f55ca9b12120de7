ghost use Rattle.std.specs.Prelude.{◌≡◌, length, OnOk};
ghost use Rattle.ch_graph.specs.Hierarchy.{rank_of};
ghost use Rattle.ch_query.specs.Seeds.{IsSeed};
ghost use Rattle.ch_query.specs.Ready.{IsHalf};
ghost use Rattle.ch_query.specs.Beginning.{NoneSettled, IsPlanted, IsBegun};

use crate::frontier::Frontier;
use crate::label::Label;
use crate::limit::is_short;
use crate::seed::Seed;
use crate::side::Side;
use crate::upward::UpwardSteps;
use ch_cost::Cost;
use ch_graph::Hierarchy;
use std::alloc::AllocError;

/// One half of a query: where it begins, the links that it climbs from there, and how long a sum may be.
///
/// Both halves of a query are searches of this one kind. What a half knows of the nodes is in a [`Frontier`], which a
/// search keeps from query to query, and lends to each.
#[derive(Clone, Copy)]
pub struct Half<'a> {
    /// The hierarchy.
    pub hierarchy: &'a Hierarchy,
    /// The steps over the links that the half climbs.
    pub steps: &'a UpwardSteps,
    /// Which links these are.
    pub side: Side,
    /// Where it begins.
    pub seeds: &'a [Seed],
    /// What counts is no longer than this.
    pub bound: Cost,
}

impl Half<'_> {
    /// Begins anew: forgets what was seen, and gives the node of each seed that is no longer than the bound a label, that
    /// of the least seed where a node has several.
    pub fn begin(&self, marks: &mut Frontier) -> Result<(), AllocError>
        requires half { IsHalf self.now }
        requires nodes { length marks.old ≡ length self.now.hierarchy.now.ranks }
        ensures nodes { length marks.new ≡ length marks.old }
        ensures begun { OnOk result (IsBegun self.now.hierarchy.now self.now.seeds.now self.now.bound (length self.now.seeds.now) marks.new) }
    {
        marks.clear();
        'seeds: for at in 0..self.seeds.len() {
            self.open_seed(self.seeds[at], marks)?;
        }
        Ok(())
    }

    /// Opens the node of a seed with what the seed costs, if that is no longer than the bound and less than what is known
    /// of the node.
    fn open_seed(&self, seed: Seed, marks: &mut Frontier) -> Result<(), AllocError>
        requires half { IsHalf self.now }
        requires seed { IsSeed self.now.hierarchy.now seed }
        requires nodes { length marks.old ≡ length self.now.hierarchy.now.ranks }
        requires none { NoneSettled marks.old }
        ensures nodes { length marks.new ≡ length marks.old }
        ensures seeded { OnOk result (IsPlanted self.now.bound (rank_of self.now.hierarchy.now seed.node) seed.cost marks.old marks.new) }
    {
        let rank = self.hierarchy.rank(seed.node);
        let cost = seed.cost;
        if !is_short(cost, self.bound) {
            return Ok(());
        }
        if !marks.is_improved_by(rank, cost) {
            return Ok(());
        }
        marks.open(rank, Label { cost, foot: rank })?;
        Ok(())
    }
}
