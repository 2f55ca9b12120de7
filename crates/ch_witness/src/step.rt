ghost use Rattle.std.specs.Prelude.{◌≡◌};

use crate::parent::Parent;
use ch_cost::Cost;
use ch_overlay::Seen;
use std::snapshot::Snapshot;

/// A node that a search expanded: the step before it, and what the way to it costs. It takes 24 bytes.
///
/// Its row is among those that the search kept. The snapshot says which one it is, and takes no memory.
#[derive(Drop)]
pub struct TreeNode {
    pub node: u32,
    pub before: Parent,
    pub cost: Cost,
    pub seen: Snapshot<Seen>,
    ghost of_node: { node ≡ seen.value.node },
}
