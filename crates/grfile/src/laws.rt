ghost use Rattle.grfile.specs.Reading.{
  GraphsAreSpelledExactly,
  PairsAreSpelledExactly,
  SpelledGraphsAreInRange,
  SpelledPairsAreInRange,
};

/// A text reads as a graph exactly where its lines say that graph, and it is within the limits. So a text spells one graph
/// at most, and none that spells one has a fault.
pub fn graphs_are_spelled_exactly()
    ensures { GraphsAreSpelledExactly }
{}

/// A text reads as pairs of this many nodes exactly where its lines say these pairs, and they are not too many.
pub fn pairs_are_spelled_exactly()
    ensures { PairsAreSpelledExactly }
{}

/// A graph that a text spells is within the limits.
pub fn spelled_graphs_are_in_range()
    ensures { SpelledGraphsAreInRange }
{}

/// Pairs that a text spells for this many nodes are pairs of these.
pub fn spelled_pairs_are_in_range()
    ensures { SpelledPairsAreInRange }
{}
