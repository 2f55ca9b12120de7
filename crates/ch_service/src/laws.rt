//! Laws, which do nothing when they run: why routes are exact, and what a cause shows.

ghost use Rattle.ch_graph.specs.declared.version.Version.TheVariants.{One, Two};
ghost use Rattle.ch_service.specs.Refusals.{AnswersTell, JoinedAnswersTell, PreparationsTell, RoutesTell};
ghost use Rattle.ch_service.specs.BestRoutes.{AnswersAreBestRoutes};
ghost use Rattle.ch_service.specs.Answer.{FirstRoutesAreExact, RightRoutesAreLeast, RoutesAreExact, RoutesHaveFewestArcs};

use ch_answer::fewest_walks_are_best_paths;
use ch_route::routes_are_least;
use grfile::{
    graphs_are_spelled_exactly, pairs_are_spelled_exactly, spelled_graphs_are_in_range,
    spelled_pairs_are_in_range,
};
use hierfile::hierarchies_have_one_spelling;

/// What answers by least walks with the fewest arcs, of texts that are read so, is one line of a best path for each pair,
/// of texts that spell a graph and pairs; and such lines answer so. By this law other contracts promise the same as
/// [`routes_in_memory`](crate::routes_in_memory).
pub fn answers_are_best_routes()
    ensures { AnswersAreBestRoutes }
{
    fewest_walks_are_best_paths();
    graphs_are_spelled_exactly();
    pairs_are_spelled_exactly();
}

/// Routes of a hierarchy that is right for a graph are least walks of that graph, and it is enough that it is right by
/// weight, as in version 1.
pub fn right_routes_are_least()
    ensures least { RightRoutesAreLeast Two }
    ensures by_weight { RightRoutesAreLeast One }
{
    routes_are_least();
}

/// Routes are exact: whenever [`prepare`](crate::prepare) has written a hierarchy from the text of a graph,
/// [`route`](crate::route), reading those bytes, answers each pair with the least length of a walk in that graph and the
/// nodes along a walk of exactly that length, and returns none exactly where there is no walk. Of all least walks it names
/// one with the fewest arcs. By a file of version 1 whose hierarchy is right by weight routes are exact too, but they
/// needn't have the fewest arcs.
pub fn routes_are_exact()
    ensures exact { RoutesAreExact Two }
    ensures fewest { RoutesHaveFewestArcs }
    ensures by_weight { RoutesAreExact One }
{
    hierarchies_have_one_spelling();
    spelled_graphs_are_in_range();
    spelled_pairs_are_in_range();
    routes_are_least();
}

/// And so are the first of them, where a call was refused later.
pub fn first_routes_are_exact()
    ensures exact { FirstRoutesAreExact Two }
    ensures by_weight { FirstRoutesAreExact One }
{
    hierarchies_have_one_spelling();
    spelled_graphs_are_in_range();
    spelled_pairs_are_in_range();
    routes_are_least();
}

/// By its cause alone a refusal shows which text is at fault, and what was written.
pub fn causes_tell_refusals()
    ensures answers { AnswersTell }
    ensures joined { JoinedAnswersTell }
    ensures prepared { PreparationsTell }
    ensures routes { RoutesTell }
{}
