ghost use Rattle.ch_query.specs.Searching.{StopIsRight};
ghost use Rattle.ch_query.specs.Ways.{FreeValueIsValue, LongestIsExact, WaysAreWalks};

/// Where two sides were searched by marks, one from the starts along links that rise and one from the ends against links
/// that fall, until neither has an open node below the best sum of two labels of a node, that sum is the value of a
/// hierarchy: so they may stop there, whatever their queues and lists are.
pub fn labels_are_right()
    ensures { StopIsRight }
{}

/// A walk from a start to a node is a climb to a top ([`Search::climb`](crate::Search::climb)) and links that fall from
/// there ([`Search::falls_to`](crate::Search::falls_to)), taken by the ranks of the nodes. The least walk is the value of
/// the hierarchy for two nodes, and the distance in each graph that it is right for.
pub fn ways_are_walks()
    ensures walks { WaysAreWalks }
    ensures value { FreeValueIsValue }
    ensures exact { LongestIsExact }
{}
