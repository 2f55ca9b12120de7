ghost use Rattle.std.specs.Prelude.{◌≡◌, length, IfNone, IfOk, IfSome, None, OnOk};
ghost use Rattle.ch_query.specs.Climbing.{AreListed, IsClimbedOn, IsEnd};
ghost use Rattle.ch_query.specs.Ready.{IsHalf};
ghost use Rattle.ch_query.specs.Searching.{IsClimbing, IsSearching};
ghost use Rattle.ch_query.specs.Ways.{AreLeastClimbs};

use crate::frontier::{Frontier, Reached};
use crate::half::Half;
use std::alloc::AllocError;

/// A node that a climb leads to.
#[derive(Clone, Copy)]
pub struct Climbed {
    /// Its rank.
    pub rank: u32,
    /// The length of the least climb to it, together with its start.
    pub length: u64,
}

impl Half<'_> {
    /// Lists the least climb to each node that one leads to within the bound, in place of what the list had.
    pub fn climb(&self, marks: &mut Frontier, climbs: &mut Vec<Climbed>) -> Result<(), AllocError>
        requires half { IsHalf self.now }
        requires nodes { length marks.old ≡ length self.now.hierarchy.now.ranks }
        ensures nodes { length marks.new ≡ length marks.old }
        ensures climbs { OnOk result (AreLeastClimbs self.now.hierarchy.now self.now.side self.now.seeds.now self.now.bound climbs.new.items) }
        ensures searching { OnOk result (IsSearching self.now.hierarchy.now self.now.side self.now.seeds.now self.now.bound marks.new) }
        ensures listed { OnOk result (AreListed marks.new climbs.new.items) }
    {
        climbs.clear();
        self.begin(marks)?;
        'turns: loop {
            match self.climb_on(marks)? {
                Some(reached) => {
                    let length = reached.label.cost.length();
                    let rank = reached.rank;
                    climbs.push(Climbed { rank, length })?;
                }
                None => return Ok(()),
            }
        }
    }

    /// Settles the first open node and follows the links that climb from it. `None` where no node is open.
    fn climb_on(&self, marks: &mut Frontier) -> Result<Option<Reached>, AllocError>
        requires half { IsHalf self.now }
        requires searching { IsSearching self.now.hierarchy.now self.now.side self.now.seeds.now self.now.bound marks.old }
        requires climbing { IsClimbing self.now.hierarchy.now self.now.side self.now.seeds.now self.now.bound None marks.old }
        ensures nodes { length marks.new ≡ length marks.old }
        ensures searching { OnOk result (IsSearching self.now.hierarchy.now self.now.side self.now.seeds.now self.now.bound marks.new) }
        ensures climbing { OnOk result (IsClimbing self.now.hierarchy.now self.now.side self.now.seeds.now self.now.bound None marks.new) }
        ensures end { IfOk result (λ reached. IfNone reached (IsEnd marks.old marks.new)) }
        ensures settled { IfOk result (λ reached. IfSome reached (λ r. IsClimbedOn r.rank r.label marks.old marks.new)) }
    {
        let Some(reached) = marks.settle_next(None) else {
            return Ok(None);
        };
        self.pass_over(reached, None, marks)?;
        Ok(Some(reached))
    }
}
