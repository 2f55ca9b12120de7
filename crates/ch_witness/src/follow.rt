ghost use Rattle.std.specs.Prelude.{All, OnOk};
ghost use Rattle.ch_cost.specs.Cost.{IsInLimit};
ghost use Rattle.ch_witness.specs.Tree.{labels_of};
ghost use Rattle.ch_witness.specs.Frontier.{IsFollowed, AreFollowed};

use crate::frontier::Frontier;
use crate::parent::Parent;
use crate::rule::Rule;
use ch_cost::Cost;
use ch_laws::Entry;
use std::alloc::AllocError;

/// Follows each arc out of this step, which costs this much: it offers the frontier the ways over it that
/// don't enter the avoided node and cost at most the cutoff.
pub fn follow(
    rule: Rule,
    entries: &[Entry],
    cost: Cost,
    before: Parent,
    frontier: &mut Frontier,
) -> Result<(), AllocError>
    requires fits { IsInLimit cost }
    requires entries { All (λ e. IsInLimit e.cost) entries.now }
    ensures { OnOk result (AreFollowed rule entries.now cost before (labels_of frontier.old) (labels_of frontier.new)) }
{
    for entry in entries {
        follow_arc(rule, *entry, cost, before, frontier)?;
    }
    Ok(())
}

/// Follows one of these arcs.
fn follow_arc(
    rule: Rule,
    entry: Entry,
    cost: Cost,
    before: Parent,
    frontier: &mut Frontier,
) -> Result<(), AllocError>
    requires fits { IsInLimit cost }
    requires entry { IsInLimit entry.cost }
    ensures { OnOk result (IsFollowed rule entry cost before (labels_of frontier.old) (labels_of frontier.new)) }
{
    let sum = cost.plus(entry.cost.cost());
    if entry.other == rule.avoid {
        return Ok(());
    }
    if !sum.is_at_most(rule.cutoff) {
        return Ok(());
    }
    frontier.offer(entry.other, sum, before)
}
