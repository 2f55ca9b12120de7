ghost use Rattle.ch_answer.specs.BestLines.{AnswersAreLines, FewestWalksAreBestPaths};

use best_routes::paths_are_walks;

/// A least walk with the fewest arcs, of which contracts of routes speak, is a best path, and a best path is such a walk.
/// So a line answers by such walks exactly where it answers by best paths. It does nothing when it runs.
pub fn fewest_walks_are_best_paths()
    ensures routes { FewestWalksAreBestPaths }
    ensures lines { AnswersAreLines }
{
    paths_are_walks();
}
