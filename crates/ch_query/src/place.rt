ghost use Rattle.std.specs.Prelude.{◌≡◌, ◌<◌, length};
ghost use Rattle.ch_query.specs.Places.{link_at};

use ch_graph::{Hierarchy, Link};

/// Returns the link at a place.
pub fn link_at(hierarchy: &Hierarchy, at: usize) -> Link
    requires { at < length hierarchy.now.links }
    ensures { result ≡ link_at hierarchy.now at }
{
    hierarchy.links()[at]
}
