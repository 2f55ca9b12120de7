ghost use Rattle.std.specs.Prelude.{◌≡◌, ◌<◌, All, length, map};
ghost use Rattle.std.specs.Arc.{arc_value};
ghost use Rattle.std.specs.List.{zip};
ghost use Rattle.ch_overlay.specs.Change.{puts, ChangesWriteTheirRows};

use crate::row::Row;
use std::marker::Model;
use std::sync::Arc;

/// The new rows of one contraction, made by [`Overlay::plan`](crate::Overlay::plan) or
/// [`Overlay::plan_by`](crate::Overlay::plan_by).
#[derive(Drop)]
pub struct Change {
    pub(crate) node: u32,
    pub(crate) rows: Vec<(u32, Arc<Row>)>,
}

impl Model for Change {
    ghost use Rattle.std.specs.Prelude.{map};
    ghost use Rattle.std.specs.Arc.{arc_value};
    ghost use Rattle.ch_overlay.specs.Change as changes;

    ghost Value = { changes.Change };

    ghost view = { λ c. record { node = c.node; rows = map (λ a. (a.0, arc_value a.1)) c.rows.items } };
}

impl Change {
    /// Returns the new rows, each with its node: first the row of the contracted node, and then those of its
    /// neighbours, by rising number.
    pub fn rows(&self) -> &[(u32, Arc<Row>)]
        ensures { map (λ a. (a.0, arc_value a.1)) result.now ≡ self.now.rows }
    {
        self.rows.as_slice()
    }
}

/// A change of an overlay has one row for each of several nodes, and once it is put in these are their rows. It does
/// nothing when it runs.
pub fn changes_write_their_rows()
    ensures { ChangesWriteTheirRows }
{}

/// Puts the new versions of the changed rows, in their order, in place of those of their nodes.
pub fn put_versions(all: &mut [u64], changed: &[(u32, Arc<Row>)], versions: &[u64])
    requires count { length versions.now ≡ length changed.now }
    requires in_range { All (λ a. a.0 < length all.old) changed.now }
    ensures { all.new ≡ puts all.old (zip (map (λ a. a.0) changed.now) versions.now) }
{
    for (i, (node, _)) in changed.iter().enumerate() {
        all[*node as usize] = versions[i];
    }
}

/// Puts the changed rows in place of those of their nodes.
pub fn put_rows(all: &mut [Arc<Row>], changed: Vec<(u32, Arc<Row>)>)
    requires { All (λ a. a.0 < length all.old) changed.items }
    ensures { all.new ≡ puts all.old changed.items }
{
    for (node, row) in changed {
        all[node as usize] = row;
    }
}
