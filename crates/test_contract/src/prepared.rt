ghost use Rattle.std.specs.Prelude.{AllPairs};
ghost use Rattle.ch_laws.specs.Contraction.{IsFor};

use crate::networks::{ROW, graph_of};
use crate::overlays::{CHANGED, DIRECT, are_changed};
use ch_cost::NarrowCost;
use ch_overlay::{Entry, Middle, Overlay, Row, Shortcut, prepare};
use std::alloc::{AllocError, Global};
use std::sync::Arc;
use std::test::Fail;

/// The new rows when node 0 of three is contracted, each with its node, made before they are planned by the overlay's rows
/// of the nodes 1 and 2.
fn rows_made_before(
    alloc: Global,
    overlay: &Overlay,
    shortcuts: &[Shortcut],
) -> Result<Vec<(u32, Arc<Row>)>, AllocError>
    requires { AllPairs (λ p q. IsFor p q.from q.to → ⊥) shortcuts.now }
{
    let mut rows = Vec::new(alloc);
    if overlay.nodes() != 3 {
        return Ok(rows);
    }
    let first: &Row = overlay.row(1);
    let second: &Row = overlay.row(2);
    let near = [(1, first), (2, second)];
    let prepared = prepare(alloc, 0, overlay.row(0), near.as_slice(), shortcuts)?;
    for (node, row) in overlay.plan_by(prepared)?.rows() {
        rows.push((*node, Arc::try_clone(row)?))?;
    }
    Ok(rows)
}

#[test]
fn rows_made_before_without_a_shortcut(rt: HostRuntime) -> Result<(), Fail> {
    let alloc = rt.alloc();
    let graph = graph_of(alloc, 3, DIRECT)?;
    let overlay = Overlay::start(alloc, &graph)?;
    let rows = rows_made_before(alloc, &overlay, &[])?;
    assert!(rt; are_changed(rows.as_slice(), CHANGED));
    Ok(())
}

/// Whether the rows are those of 1, 0, 2 when node 0 is gone: an arc from 1 to 2 of this cost by way of 0, and none back.
fn are_joined(rows: &[(u32, Arc<Row>)], cost: NarrowCost) -> bool {
    let middle = Middle::at(0);
    let to = |other| Entry {
        other,
        cost,
        middle,
    };
    let [gone, first, second] = rows else {
        return false;
    };
    (gone.0 == 0)
        & (gone.1.rank == Some(0))
        & (first.0 == 1)
        & (first.1.out() == [to(2)].as_slice())
        & first.1.inn().is_empty()
        & (second.0 == 2)
        & (second.1.inn() == [to(1)].as_slice())
        & second.1.out().is_empty()
}

#[test]
fn rows_made_before_of_a_one_way_network(rt: HostRuntime) -> Result<(), Fail> {
    let alloc = rt.alloc();
    let graph = graph_of(alloc, 3, ROW)?;
    let overlay = Overlay::start(alloc, &graph)?;
    let cost = NarrowCost::of_weight(5);
    let shortcut = Shortcut {
        from: 1,
        to: 2,
        cost,
    };
    let rows = rows_made_before(alloc, &overlay, &[shortcut])?;
    assert!(rt; are_joined(rows.as_slice(), cost));
    assert!(rt; overlay.nodes() == 3);
    let neighbours = overlay.row(0).named(alloc)?;
    assert!(rt; neighbours.as_slice() == [1, 2].as_slice());
    Ok(())
}
