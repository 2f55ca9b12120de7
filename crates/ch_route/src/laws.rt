ghost use Rattle.ch_route.specs.Laws.{LengthsAreLeast, LengthsAreLeastByWeight, NoneTooLong, NoneTooLongByWeight, RoutesAreFewest, RoutesAreLeastByWeight};
ghost use Rattle.ch_route.specs.Laws.{LengthsBetweenAreLeast, LengthsWithinAreLeast, NoneTooLongBetween, NoneTooLongBetweenByWeight, RoutesBetweenAreFewest, RoutesBetweenAreLeast, RoutesBetweenAreLeastByWeight};

use ch_laws::{
    least_route_is_a_least_walk, least_route_is_never_too_long, right_is_right_by_weight,
    route_by_weight_is_never_too_long, route_is_a_shortest_walk,
};

/// Routes of a hierarchy that is right for a graph are least walks of that graph with the fewest arcs, lengths are least,
/// and no route is too long. Where it is right by weight, routes are least walks and lengths are least, and in version 1
/// no route is too long. The same holds between several starts and several ends, over all pairs of them. It does nothing
/// when it runs.
pub fn routes_are_least()
    ensures fewest { RoutesAreFewest }
    ensures by_weight { RoutesAreLeastByWeight }
    ensures lengths { LengthsAreLeast }
    ensures lengths_by_weight { LengthsAreLeastByWeight }
    ensures never_long { NoneTooLong }
    ensures never_long_by_weight { NoneTooLongByWeight }
    ensures between { RoutesBetweenAreLeast }
    ensures between_fewest { RoutesBetweenAreFewest }
    ensures between_by_weight { RoutesBetweenAreLeastByWeight }
    ensures between_lengths { LengthsBetweenAreLeast }
    ensures within_lengths { LengthsWithinAreLeast }
    ensures between_never_long { NoneTooLongBetween }
    ensures between_never_long_by_weight { NoneTooLongBetweenByWeight }
{
    least_route_is_a_least_walk();
    least_route_is_never_too_long();
    right_is_right_by_weight();
    route_is_a_shortest_walk();
    route_by_weight_is_never_too_long();
}
