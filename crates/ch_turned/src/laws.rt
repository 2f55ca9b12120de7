ghost use Rattle.ch_turned.specs.Laws.{TurnedIsGraph, TurnedIsRight, TurnedIsRightByWeight, TurnedIsWellMade, WalksTurn};

/// A hierarchy that is right for a graph is, turned, right for the turned graph, and one that is right by weight is so by
/// weight. It does nothing when it runs.
pub fn turned_is_right()
    ensures right { TurnedIsRight }
    ensures by_weight { TurnedIsRightByWeight }
{}

/// A turned hierarchy is well made where its links are in order. It does nothing when it runs.
pub(crate) fn turned_is_well_made()
    ensures { TurnedIsWellMade }
{}

/// A graph that is turned is one of the same limits, and has the walks of the graph turned round, of the same costs. It
/// does nothing when it runs.
pub fn walks_turn()
    ensures graph { TurnedIsGraph }
    ensures walks { WalksTurn }
{}
