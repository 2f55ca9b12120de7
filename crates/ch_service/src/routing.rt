ghost use Rattle.std.specs.Prelude.{◌≡◌, ℕ, List, Err, OnOk, IfErr, IfSome};
ghost use Rattle.ch_graph.specs.declared.version.Version.TheVariants.{One};
ghost use Rattle.ch_service.specs.Answer.{Answers, AnswersByFewest, Prepares, PreparesIn, Routes};
ghost use Rattle.ch_service.specs.Outcome.{IfBothKnown, Writes, StopsRouting};
ghost use Rattle.ch_service.specs.declared.error.ServiceError.TheVariants.{Unpack};
ghost use Rattle.ch_unpack.specs.declared.error.UnpackError.TheVariants.{TooLong};

use crate::error::ServiceError;
use crate::laws::routes_are_exact;
use crate::pairs::answer_pairs;
use ch_route::routes_are_least;
use grfile::{read_queries, spelled_graphs_are_in_range};
use hierfile::hierarchies_have_one_spelling;
use std::alloc::Global;
use std::io::{Read, Write};

/// Answers pairs of nodes by a hierarchy.
///
/// `hier` gives the file of the hierarchy, `queries` the query file, and `out` gets one line for each pair, in
/// order: its least length, how many arcs its route has, and the nodes of the route. Where [`prepare`](crate::prepare)
/// wrote the file, it is of all shortest paths one with the fewest arcs; by a file of version 1, whose costs count no
/// arcs, it is any of them. The hierarchy is read before the pairs, and where one is refused nothing is written. Where a
/// pair is refused, because memory ran out or its route is too long, the lines of the pairs before are written first; no
/// route is too long where the hierarchy is right for some graph, in the sense of its version. Takes memory for the
/// hierarchy and once more for its links by their ends, for the pairs, and one query at a time. Lines take none.
pub fn route<H: Read, Q: Read, W: Write>(
    alloc: Global,
    hier: &mut H,
    queries: &mut Q,
    out: &mut W,
) -> Result<(), ServiceError>
    ensures routes { OnOk result (IfBothKnown (H.remaining hier.old) (Q.remaining queries.old)
        (λ bytes pairs. Writes (Routes bytes pairs) (W.contents out.old) (W.contents out.new))) }

    // Where the bytes were prepared from the text of a graph.
    ensures exact { OnOk result (IfBothKnown (H.remaining hier.old) (Q.remaining queries.old)
        (λ bytes pairs. (graph_text : List ℕ) → Prepares graph_text bytes → Writes (Answers graph_text pairs) (W.contents out.old) (W.contents out.new))) }
    ensures fewest { OnOk result (IfBothKnown (H.remaining hier.old) (Q.remaining queries.old)
        (λ bytes pairs. (graph_text : List ℕ) → Prepares graph_text bytes → Writes (AnswersByFewest graph_text pairs) (W.contents out.old) (W.contents out.new))) }
    ensures never_long { result ≡ Err (Unpack TooLong) → IfSome (H.remaining hier.old)
        (λ bytes. (graph_text : List ℕ) → Prepares graph_text bytes → ⊥) }

    // Where they were prepared from it in version 1.
    ensures exact_by_weight { OnOk result (IfBothKnown (H.remaining hier.old) (Q.remaining queries.old)
        (λ bytes pairs. (graph_text : List ℕ) → PreparesIn One graph_text bytes → Writes (Answers graph_text pairs) (W.contents out.old) (W.contents out.new))) }
    ensures never_long_by_weight { result ≡ Err (Unpack TooLong) → IfSome (H.remaining hier.old)
        (λ bytes. (graph_text : List ℕ) → PreparesIn One graph_text bytes → ⊥) }

    // At a refusal.
    ensures refused { IfErr result (StopsRouting (H.remaining hier.old) (Q.remaining queries.old) (Q.remaining queries.new) (W.contents out.old) (W.contents out.new)) }
{
    routes_are_exact();
    hierarchies_have_one_spelling();
    spelled_graphs_are_in_range();
    routes_are_least();
    let hierarchy = hierfile::read(alloc, hier).map_err(ServiceError::Hierarchy)?;
    let pairs = read_queries(alloc, queries, hierarchy.nodes()).map_err(ServiceError::Queries)?;
    answer_pairs(alloc, &hierarchy, pairs.as_slice(), out)
}
