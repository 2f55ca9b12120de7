ghost use Rattle.std.specs.Prelude.{IfOk};
ghost use Rattle.ch_laws.specs.Contraction.{IsOver};
ghost use Rattle.ch_overlay.specs.Overlay.{state_of};
ghost use Rattle.ch_contract.specs.Finish.{AreParts, IsMaking};

use crate::contraction::Contraction;
use crate::error::FinishError;
use crate::ledger::Ledger;
use crate::parts::{RanksAndLinks, parts_of};
use ch_graph::Hierarchy;
use ch_laws::{reached_hierarchy_is_right, reached_hierarchy_is_well_made};
use ch_overlay::Overlay;
use std::alloc::AllocError;

/// What a ledger comes to when each node is contracted.
#[derive(Drop)]
pub struct Finished {
    /// The hierarchy that the contractions lead to. It has no index: [`Hierarchy::into_indexed`] gives it one.
    pub hierarchy: Hierarchy,
    /// What was done, first to last: the entry of rank k is at k.
    pub log: Vec<Contraction>,
    /// The rows, which the hierarchy was made of and needs no longer.
    pub rows: Overlay,
}

/// Returns the hierarchy that the contractions of a ledger lead to, with an index and, for each shortcut, the places of the
/// two links that it stands for, its halves.
///
/// Refused while a node isn't contracted, which is tested first, or where memory runs out. Takes memory for the ranks,
/// for the links, and for where links and their halves are.
pub fn hierarchy_of(ledger: &Ledger) -> Result<Hierarchy, FinishError>
    ensures { IsMaking ledger.now result }
{
    let hierarchy = match plain_hierarchy_of(ledger) {
        Ok(hierarchy) => hierarchy,
        Err(error) => return Err(error),
    };
    let Ok(indexed) = hierarchy.into_indexed(ledger.allocator()) else {
        return Err(FinishError::OutOfMemory);
    };
    Ok(indexed)
}

/// Returns the hierarchy that the contractions of a ledger lead to, with no index.
///
/// Refused while a node isn't contracted, which is tested first, or where memory runs out. Takes memory for the ranks
/// and the links, and the time of a sort of these.
pub fn plain_hierarchy_of(ledger: &Ledger) -> Result<Hierarchy, FinishError>
    ensures { IsMaking ledger.now result }
{
    if !ledger.is_over() {
        return Err(FinishError::NodesLeft);
    }
    hierarchy_from(ledger, parts_of(ledger.allocator(), ledger.overlay()))
}

/// The hierarchy of the ranks and the links of a ledger's rows, whose nodes are all contracted, or out of memory as the
/// parts are.
fn hierarchy_from(
    ledger: &Ledger,
    parts: Result<RanksAndLinks, AllocError>,
) -> Result<Hierarchy, FinishError>
    requires over { IsOver (state_of ledger.now.overlay) }
    requires parts { IfOk parts (AreParts ledger.now.overlay) }
    ensures { IsMaking ledger.now result }
{
    let Ok(parts) = parts else {
        return Err(FinishError::OutOfMemory);
    };
    ledger.holds();
    reached_hierarchy_is_right();
    reached_hierarchy_is_well_made();
    let bound = ledger.graph().bound();
    Ok(Hierarchy::new(parts.ranks, parts.links, bound))
}
