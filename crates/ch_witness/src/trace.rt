ghost use Rattle.std.specs.Prelude.{◌≡◌, ◌≢◌, IfOk, length, reverse};
ghost use Rattle.ch_witness.specs.Tree.{AreSteps, IsReachedBy, seen_of};
ghost use Rattle.ch_witness.specs.Ways.{IsWay};

use crate::label::Label;
use crate::rule::Rule;
use crate::step::TreeNode;
use crate::way::Way;
use smallvec::SmallVec;
use std::alloc::{AllocError, Global};

/// Returns the way to a node that the search has come to, by what is known of it.
pub fn way_to(
    alloc: Global,
    rule: Rule,
    steps: &[TreeNode],
    target: u32,
    label: Label,
) -> Result<Way, AllocError>
    requires steps { AreSteps rule steps.now }
    requires reached { IsReachedBy rule.from steps.now (length steps.now) label.before target label.cost }
    requires apart { target ≢ rule.avoid }
    ensures leads { IfOk result (IsWay (seen_of steps.now) rule.avoid rule.from target) }
    ensures costs { IfOk result (λ way. way.cost ≡ label.cost) }
{
    let mut backward: SmallVec<u32, 8> = SmallVec::new(alloc);
    backward.push(target)?;
    let mut before = label.before.place();
    'steps: while let Some(place) = before {
        let step = &steps[place];
        backward.push(step.node)?;
        before = step.before.place();
    }
    Ok(Way {
        nodes: reversed(backward),
        cost: label.cost,
    })
}

/// These nodes, the last first.
fn reversed(nodes: SmallVec<u32, 8>) -> SmallVec<u32, 8>
    ensures { result.items ≡ reverse nodes.items }
{
    let mut reversed = nodes;
    reversed.as_mut_slice().reverse();
    reversed
}
