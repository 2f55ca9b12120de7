ghost use Rattle.std.specs.Prelude.{◌↔◌, IsTrue, All};
ghost use Rattle.ch_overlay.specs.declared.source.Seen.{Seen};
ghost use Rattle.ch_core.specs.World.{StandsIn};

use crate::reads::Reads;
use ch_overlay::Seen;

/// Whether all of these rows are in the view, with their versions and contents. Looks once at each entry.
pub fn all_stand(view: &Reads, rows: &[Seen]) -> bool
    ensures { IsTrue result ↔ All (StandsIn view.now) rows.now }
{
    'rows: for seen in rows {
        if !stands(view, seen) {
            return false;
        }
    }
    true
}

/// Whether a row is in the view, with its version and content.
fn stands(view: &Reads, seen: &Seen) -> bool
    ensures { IsTrue result ↔ StandsIn view.now seen.now }
{
    match view.get(seen.node) {
        Some(standing) => standing.is(seen.version, &seen.row),
        None => false,
    }
}
