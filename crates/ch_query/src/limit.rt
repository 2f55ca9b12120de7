ghost use Rattle.std.specs.Prelude.{◌↔◌, IsTrue};
ghost use Rattle.ch_cost.specs.Cost.{IsNoLonger};
ghost use Rattle.ch_query.specs.Labels.{IsShortLimit, CountsBelow};
ghost use Rattle.ch_query.specs.Marks.{IsBelow, IsUpTo};

use ch_cost::Cost;

/// Whether a cost is below a limit, if there is one. A query's bound is given and stays; its limit is what the best meeting
/// so far costs, and there is none before the first.
pub fn is_below(cost: Cost, limit: Option<Cost>) -> bool
    ensures { IsTrue result ↔ IsBelow cost limit }
{
    match limit {
        Some(limit) => cost.is_below(limit),
        None => true,
    }
}

/// Whether a length is at most that of a limit, if there is one.
pub fn is_up_to(length: u64, limit: Option<Cost>) -> bool
    ensures { IsTrue result ↔ IsUpTo length limit }
{
    match limit {
        Some(limit) => length <= limit.length(),
        None => true,
    }
}

/// Whether a cost is short: no longer than the bound of a query. No other is kept.
pub fn is_short(cost: Cost, bound: Cost) -> bool
    ensures { IsTrue result ↔ IsNoLonger cost bound }
{
    cost.is_no_longer(bound)
}

/// Whether a sum counts: it is below the limit, or where there is none, no longer than the bound.
pub fn counts(sum: Cost, limit: Option<Cost>, bound: Cost) -> bool
    requires { IsShortLimit bound limit }
    ensures { IsTrue result ↔ CountsBelow bound limit sum }
{
    match limit {
        Some(limit) => sum.is_below(limit),
        None => is_short(sum, bound),
    }
}
