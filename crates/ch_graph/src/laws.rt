ghost use Rattle.ch_graph.specs.Limits.{DistanceIsWithinBound};
ghost use Rattle.ch_graph.specs.Search.{SettledIsLeast};
ghost use Rattle.ch_graph.specs.Hierarchy.{ValueIsUnique};
ghost use Rattle.ch_graph.specs.Unfolding.{LinksUnfold, PlacesNameLinks, RiseFallJoins};

/// Every distance is within the bound of its graph: a least walk repeats no node, so it has fewer arcs than there
/// are nodes.
pub fn distance_is_within_bound()
    ensures { DistanceIsWithinBound }
{}

/// In a search of a graph by marks the cost of each settled node is its distance from the source: it follows from what
/// holds between two turns, whatever the queue and the lists are.
pub fn settled_is_least()
    ensures { SettledIsLeast }
{}

/// Two nodes have one value in a hierarchy, or none.
pub fn value_is_unique()
    ensures { ValueIsUnique }
{}

/// Each link of a well made hierarchy represents one list of links without a middle.
pub fn links_unfold()
    ensures { LinksUnfold }
{}

/// Places name one list of links.
pub fn places_name_links()
    ensures { PlacesNameLinks }
{}

/// The links of a rise-fall walk join, each to the next.
pub fn rise_fall_joins()
    ensures { RiseFallJoins }
{}
