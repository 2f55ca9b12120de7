ghost use Rattle.std.specs.Prelude.{◌≡◌, Some, IfSome};
ghost use Rattle.ch_cost.specs.Cost.{IsSummable};
ghost use Rattle.ch_query.specs.Meeting.{IsShortSum, IsLooked, cost_of};

use crate::limit::{is_below, is_short};
use ch_cost::Cost;

/// A node with a label of each side.
#[derive(Clone, Copy)]
pub struct Meeting {
    /// The rank of the node.
    pub rank: u32,
    /// What its two labels cost together.
    pub cost: Cost,
}

/// Returns what a meeting costs, if there is one.
pub fn cost_of(best: Option<Meeting>) -> Option<Cost>
    ensures { result ≡ cost_of best }
{
    match best {
        Some(meeting) => Some(meeting.cost),
        None => None,
    }
}

/// Returns the best meeting so far, once the node of a rank is settled with a label of this cost: where the other
/// side has a label there too, the sides may meet at less than before.
pub fn look_at(
    rank: u32,
    cost: Cost,
    other: Option<Cost>,
    best: Option<Meeting>,
    bound: Cost,
) -> Option<Meeting>
    requires fits { IsSummable cost }
    requires other_fits { IfSome other (λ d. IsSummable d) }
    ensures { IsLooked bound rank cost other best result }
{
    let Some(sum) = short_sum(cost, other, bound) else {
        return best;
    };
    if is_below(sum, cost_of(best)) {
        return Some(Meeting { rank, cost: sum });
    }
    best
}

/// What a cost and that of a label of the other side make together, if that is short: no longer than the bound.
fn short_sum(cost: Cost, other: Option<Cost>, bound: Cost) -> Option<Cost>
    requires fits { IsSummable cost }
    requires other_fits { IfSome other (λ d. IsSummable d) }
    ensures { IsShortSum bound (Some cost) other result }
{
    let there = other?;
    let sum = cost.plus_wide(there);
    if is_short(sum, bound) {
        return Some(sum);
    }
    None
}
