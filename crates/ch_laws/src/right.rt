ghost use Rattle.ch_laws.specs.Theorems.{AlwaysRight, AlwaysWellMade};

use ch_graph::links_unfold;

/// The hierarchy of a state that lawful contractions lead to is right for its graph, whichever nodes were contracted
/// first and whichever witnesses were found.
pub fn reached_hierarchy_is_right()
    ensures { AlwaysRight }
{
    links_unfold();
}

/// And it is well made, so a file can hold it.
pub fn reached_hierarchy_is_well_made()
    ensures { AlwaysWellMade }
{}
