ghost use Rattle.ch_laws.specs.ByWeight.{NeverTooLongByWeight, RightIsRightByWeight, RouteIsShortest};

/// A hierarchy that is right for a graph is right for it by weight too.
pub fn right_is_right_by_weight()
    ensures { RightIsRightByWeight }
{}

/// What a least rise-fall walk unfolds to joins into a walk of the graph, where the hierarchy is right by weight, and
/// no walk is shorter.
pub fn route_is_a_shortest_walk()
    ensures { RouteIsShortest }
{}

/// And where the hierarchy is of version 1, that walk has fewer arcs than there are nodes. It does nothing when it
/// runs.
pub fn route_by_weight_is_never_too_long()
    ensures { NeverTooLongByWeight }
{}
