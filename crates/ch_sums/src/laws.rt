ghost use Rattle.ch_sums.specs.Numbers.{SummedWaysAreAlong, SumsAreAlong};

use best_routes::paths_are_walks;

/// What a least rise-fall walk of a hierarchy that is right by weight unfolds to is a path of the least length, and the
/// numbers of its arcs sum to those of the links. It does nothing when it runs.
pub fn sums_are_along()
    ensures { SumsAreAlong }
{
    paths_are_walks();
}

/// The same of any links from one node to another that are as long as the value of the hierarchy for the two. It does nothing
/// when it runs.
pub fn summed_ways_are_along()
    ensures { SummedWaysAreAlong }
{
    paths_are_walks();
}
