//! Laws, which do nothing when they run: what two jobs say together that are done, and that status 0 says so.

ghost use Rattle.std.specs.Prelude.{ℕ, [], List, Option, Some};
ghost use Rattle.outcomes.specs.declared.ending.Ending.TheVariants.{Done};
ghost use Rattle.performing.specs.Status.{HasPrepared, HasRenewed, RoutesAreExactAfter, TellsChecked, TellsPrepared, ZeroIsDone};

use ch_service::{answers_are_best_routes, routes_are_exact};

/// Routes by a prepared file are exact. If [`prepare_whole`](crate::prepare_whole) for a destination, or
/// [`perform_preparation`](crate::perform_preparation) from the text of a graph into an empty writer, is done, and
/// [`perform_route`](crate::perform_route), reading the bytes that are there then, is too, each pair is answered by a
/// shortest path of that graph, of all shortest paths one with the fewest arcs. So they are if
/// [`renew_whole`](crate::renew_whole) for a destination is done, whatever the old file was.
pub fn prepared_routes_are_exact()
    ensures put { (before : Option (List ℕ)) → RoutesAreExactAfter
        (λ graph_text bytes. HasPrepared (Some graph_text) (Some before) (Some (Some bytes))) }
    ensures written { RoutesAreExactAfter
        (λ graph_text bytes. TellsPrepared Done (Some graph_text) (Some []) (Some bytes)) }
    ensures renewed { (file : List ℕ) (before : Option (List ℕ)) → RoutesAreExactAfter
        (λ graph_text bytes. HasRenewed (Some graph_text) (Some file) (Some before) (Some (Some bytes))) }
{
    routes_are_exact();
    answers_are_best_routes();
}

/// Routes by a checked file are exact, whoever made it. If [`perform_check`](crate::perform_check) of a file against the
/// text of a graph is done, and [`perform_route`](crate::perform_route), reading the same bytes, is too, each pair is
/// answered as by a prepared file.
pub fn checked_routes_are_exact()
    ensures { (before after : Option (List ℕ)) → RoutesAreExactAfter
        (λ graph_text bytes. TellsChecked Done (Some graph_text) (Some bytes) before after) }
{
    routes_are_exact();
    answers_are_best_routes();
}

/// A job that ended with status 0 is done, and no other outcome has this status.
pub fn zero_is_done()
    ensures { ZeroIsDone }
{}
