ghost use Rattle.best_routes.specs.Walks.{PathsAreWalks, WalksArePaths};

/// A path is a walk of the same length over the same nodes, and each walk is such a path. It does nothing when it runs.
pub fn paths_are_walks()
    ensures walks { PathsAreWalks }
    ensures paths { WalksArePaths }
{}
