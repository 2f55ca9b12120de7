ghost use Rattle.std.specs.Prelude.{◌<◌, length, OnOk};
ghost use Rattle.ch_graph.specs.Hierarchy.{IsWellMade};
ghost use Rattle.ch_query.specs.declared.side.Side.TheVariants.{Fall as falling};
ghost use Rattle.ch_query.specs.Upward.{AreStepsOf};
ghost use Rattle.ch_query.specs.Ways.{AreFallsTo};

use crate::upward::{UpwardSteps, step_cost};
use ch_graph::Hierarchy;
use std::alloc::AllocError;

/// A link that falls in rank to a node.
#[derive(Clone, Copy)]
pub struct Fall {
    /// The rank of the node that it leaves, which is above the other: its head for the side that climbs it.
    pub tail: u32,
    /// The length of the link.
    pub length: u64,
}

impl UpwardSteps {
    /// Lists the links that fall to the node of a rank, in place of what the list had.
    pub fn list_falls(
        &self,
        hierarchy: &Hierarchy,
        rank: u32,
        falls: &mut Vec<Fall>,
    ) -> Result<(), AllocError>
        requires made { IsWellMade hierarchy.now }
        requires laid { AreStepsOf hierarchy.now falling self.now }
        requires rank_in { rank < length hierarchy.now.ranks }
        ensures falls { OnOk result (AreFallsTo hierarchy.now rank falls.new.items) }
    {
        falls.clear();
        let begin = self.first.get(rank as usize);
        let end = self.first.get(rank as usize + 1);
        'places: for place in begin..end {
            let tail = self.steps[place].head;
            let length = step_cost(hierarchy, self, place).length();
            falls.push(Fall { tail, length })?;
        }
        Ok(())
    }
}
