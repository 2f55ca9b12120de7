ghost use Rattle.std.specs.Prelude.{◌≡◌, ◌<◌, All, Contains, IsTrue, OnOk, length};
ghost use Rattle.ch_graph.specs.declared.link.Link.{Link};
ghost use Rattle.ch_laws.specs.Rows.{Rises};
ghost use Rattle.ch_check.specs.Comparing.{AreLinked, IsArc, IsLinked, link_in, link_of, link_out, entry_of};

use crate::fault::Fault;
use ch_graph::{Hierarchy, Link};
use ch_laws::Entry;
use ch_overlay::{Overlay, Row, entry_for};

/// Compares all rows with the links of a hierarchy, both ways. Fails at the first arc that isn't a link, or link that isn't
/// an arc.
pub fn compare(hierarchy: &Hierarchy, overlay: &Overlay) -> Result<(), Fault>
    requires nodes { length hierarchy.now.ranks ≡ length overlay.now.rows }
    ensures linked { OnOk result (AreLinked hierarchy.now.links overlay.now) }
    ensures arcs { OnOk result (All (IsArc overlay.now) hierarchy.now.links) }
{
    compare_rows(hierarchy, overlay)?;
    compare_links(hierarchy, overlay)
}

fn compare_rows(hierarchy: &Hierarchy, overlay: &Overlay) -> Result<(), Fault>
    ensures { OnOk result (AreLinked hierarchy.now.links overlay.now) }
{
    'nodes: for node in 0..overlay.nodes() {
        compare_row(hierarchy, overlay.row(node), node)?;
    }
    Ok(())
}

/// Looks whether each entry of the row of a node is a link of a hierarchy. Fails at the first that isn't.
pub fn compare_row(hierarchy: &Hierarchy, row: &Row, node: u32) -> Result<(), Fault>
    ensures { OnOk result (IsLinked hierarchy.now.links node row.now) }
{
    compare_out(hierarchy, row.out(), node)?;
    compare_in(hierarchy, row.inn(), node)
}

fn compare_out(hierarchy: &Hierarchy, outs: &[Entry], node: u32) -> Result<(), Fault>
    ensures { OnOk result (All (λ e. Contains hierarchy.now.links (link_out node e)) outs.now) }
{
    'outs: for entry in outs {
        let other = entry.other;
        if !has_link(hierarchy, node, other, entry) {
            return Err(Fault::Link {
                from: node,
                to: other,
            });
        }
    }
    Ok(())
}

fn compare_in(hierarchy: &Hierarchy, inns: &[Entry], node: u32) -> Result<(), Fault>
    ensures { OnOk result (All (λ e. Contains hierarchy.now.links (link_in node e)) inns.now) }
{
    'inns: for entry in inns {
        let other = entry.other;
        if !has_link(hierarchy, other, node, entry) {
            return Err(Fault::Link {
                from: other,
                to: node,
            });
        }
    }
    Ok(())
}

/// Whether a hierarchy has a link between two nodes with the cost and the middle of an entry.
fn has_link(hierarchy: &Hierarchy, from: u32, to: u32, entry: &Entry) -> bool
    ensures { IsTrue result → Contains hierarchy.now.links (link_of from to entry.now) }
{
    let Some(id) = hierarchy.find(from, to) else {
        return false;
    };
    let link = hierarchy.links()[id.0];
    is_same(&link, entry)
}

/// Whether a link and an entry have the same cost and the same middle.
fn is_same(link: &Link, entry: &Entry) -> bool
    ensures { IsTrue result → (link.now.cost ≡ entry.now.cost) × (link.now.middle ≡ entry.now.middle) }
{
    (link.cost == entry.cost) & (link.middle == entry.middle)
}

/// Looks whether each link is an arc of the rows. Fails at the first that isn't.
fn compare_links(hierarchy: &Hierarchy, overlay: &Overlay) -> Result<(), Fault>
    requires nodes { length hierarchy.now.ranks ≡ length overlay.now.rows }
    ensures { OnOk result (All (IsArc overlay.now) hierarchy.now.links) }
{
    'links: for link in hierarchy.links() {
        if !is_arc(hierarchy, overlay, link) {
            return Err(Fault::Link {
                from: link.from,
                to: link.to,
            });
        }
    }
    Ok(())
}

/// Whether a link is an arc of the rows. It is looked for at its lower end.
fn is_arc(hierarchy: &Hierarchy, overlay: &Overlay, link: &Link) -> bool
    requires nodes { length hierarchy.now.ranks ≡ length overlay.now.rows }
    requires from_in { link.now.from < length overlay.now.rows }
    requires to_in { link.now.to < length overlay.now.rows }
    ensures { IsTrue result → IsArc overlay.now link.now }
{
    let _ = overlay.nodes();
    if hierarchy.rank(link.from) < hierarchy.rank(link.to) {
        return has_entry(overlay.row(link.from).out(), link.to, link);
    }
    has_entry(overlay.row(link.to).inn(), link.from, link)
}

/// Whether a list has an entry for this node with the cost and the middle of a link.
fn has_entry(entries: &[Entry], other: u32, link: &Link) -> bool
    requires { Rises entries.now }
    ensures { IsTrue result → Contains entries.now (entry_of other link.now) }
{
    let Some(entry) = entry_for(entries, other) else {
        return false;
    };
    is_same(link, entry)
}
