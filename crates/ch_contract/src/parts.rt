ghost use Rattle.std.specs.Prelude.{◌≡◌, ◌++◌, IfOk, map};
ghost use Rattle.ch_laws.specs.Contraction.{IsOver};
ghost use Rattle.ch_overlay.specs.Overlay.{state_of};
ghost use Rattle.ch_contract.specs.Finish.{AreRanks, AreLinks, AreParts, link_in, link_out, row_links};

use ch_graph::Link;
use ch_overlay::{Entry, Overlay, Row};
use std::alloc::{AllocError, Global};

/// The rank of each node of an overlay whose nodes are all contracted.
fn ranks_of(alloc: Global, overlay: &Overlay) -> Result<Vec<u32>, AllocError>
    requires { IsOver (state_of overlay.now) }
    ensures { IfOk result (λ ranks. AreRanks overlay.now ranks.items) }
{
    let nodes = overlay.nodes();
    let mut ranks = Vec::with_capacity(alloc, nodes as usize)?;
    for node in 0..nodes {
        let Some(rank) = overlay.row(node).rank else {
            unreachable!()
        };
        ranks.push(rank)?;
    }
    Ok(ranks)
}

/// The ranks of all nodes and the links of all rows.
#[derive(Drop)]
pub struct RanksAndLinks {
    pub ranks: Vec<u32>,
    pub links: Vec<Link>,
}

/// Returns the ranks and the links of an overlay whose nodes are all contracted, the links by their ends.
///
/// Takes memory for the ranks and the links, and the time of a sort of these.
pub fn parts_of(alloc: Global, overlay: &Overlay) -> Result<RanksAndLinks, AllocError>
    requires { IsOver (state_of overlay.now) }
    ensures { IfOk result (AreParts overlay.now) }
{
    let ranks = ranks_of(alloc, overlay)?;
    let links = links_of(alloc, overlay)?;
    Ok(RanksAndLinks { ranks, links })
}

/// The links of all rows, by their ends. A row stays as it was when its node was contracted, and those of later nodes lost
/// their entries for it then. So each link is in one row, that of its end of lower rank.
fn links_of(alloc: Global, overlay: &Overlay) -> Result<Vec<Link>, AllocError>
    ensures { IfOk result (λ links. AreLinks overlay.now links.items) }
{
    let mut links = Vec::with_capacity(alloc, count_entries(overlay))?;
    for node in 0..overlay.nodes() {
        push_row(&mut links, node, overlay.row(node))?;
    }
    links.sort_unstable_by_key(|link| (link.from, link.to));
    Ok(links)
}

/// How many entries the rows have. Only the memory that is taken depends on it.
fn count_entries(overlay: &Overlay) -> usize {
    let mut count = 0usize;
    for row in overlay.rows() {
        count = count
            .saturating_add(row.out().len())
            .saturating_add(row.inn().len());
    }
    count
}

/// Puts the links of a node's row behind other links.
fn push_row(links: &mut Vec<Link>, node: u32, row: &Row) -> Result<(), AllocError>
    ensures { IfOk result (λ _. links.new.items ≡ links.old.items ++ row_links row.now node) }
{
    push_out(links, node, row.out())?;
    push_in(links, node, row.inn())
}

/// Puts a link behind others for each arc out of a node, to a node of higher rank.
fn push_out(links: &mut Vec<Link>, node: u32, entries: &[Entry]) -> Result<(), AllocError>
    ensures { IfOk result (λ _. links.new.items ≡ links.old.items ++ map (link_out node) entries.now) }
{
    for entry in entries {
        links.push(Link {
            from: node,
            to: entry.other,
            cost: entry.cost,
            middle: entry.middle,
        })?;
    }
    Ok(())
}

/// Puts a link behind others for each arc into a node, from a node of higher rank.
fn push_in(links: &mut Vec<Link>, node: u32, entries: &[Entry]) -> Result<(), AllocError>
    ensures { IfOk result (λ _. links.new.items ≡ links.old.items ++ map (link_in node) entries.now) }
{
    for entry in entries {
        links.push(Link {
            from: entry.other,
            to: node,
            cost: entry.cost,
            middle: entry.middle,
        })?;
    }
    Ok(())
}
