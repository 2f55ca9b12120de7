ghost use Rattle.ch_laws.specs.Theorems.{BoundsFit, NeverTooLong, RouteIsLeast};

/// What a least rise-fall walk of a right hierarchy unfolds to joins into a walk of the graph with fewer arcs than
/// there are nodes.
pub fn least_route_is_never_too_long()
    ensures { NeverTooLong }
{}

/// Its nodes lie along a walk of the graph, and what it costs is the distance.
pub fn least_route_is_a_least_walk()
    ensures { RouteIsLeast }
{}

/// The bound of a graph is at most what the arcs of a walk that repeats no node can cost together in the largest graph.
pub fn bounds_fit()
    ensures { BoundsFit }
{}
