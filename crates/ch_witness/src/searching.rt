ghost use Rattle.std.specs.Prelude.{◌≡◌, ◌≢◌, ◌^◌, ◌<◌, ◌≤◌, ℕ, All, Contains, IfOk, length, map, slice_index};
ghost use Rattle.ch_cost.specs.Cost.{◌≼◌};
ghost use Rattle.ch_overlay.specs.declared.source.Seen.{Seen};
ghost use Rattle.ch_witness.specs.declared.error.SearchError.TheVariants.{Unseen};
ghost use Rattle.ch_witness.specs.Tree.{seen_of};
ghost use Rattle.ch_witness.specs.Ways.{AreUnrankedRows, AreWays, IsStartRead};

use crate::error::SearchError;
use crate::rule::Rule;
use crate::searcher::{Searcher, Traced};
use crate::step::TreeNode;
use crate::way::Found;
use ch_cost::Cost;
use ch_overlay::RowSource;
use std::alloc::{AllocError, Global};

/// Ways from one node to others that don't enter the node `avoid`, along the arcs of the rows that a source shows.
///
/// Dijkstra's algorithm (1959): it settles nodes in the order of their costs, of equal costs the smaller number first,
/// at most `settle` of them (1 to 65,536) and none above the cutoff, and expands those whose rows have no rank. It
/// asks the source for each of their rows once, and ends early where every target is settled. A target's way is the
/// best that was reached, settled or not. The rows that it returns are those of the source.
///
/// `from` and the targets differ from `avoid`, and the cutoff is at most the bound of the source. `OutOfMemory` where
/// memory runs out, `Unseen` where the source has no row of a node that is to be expanded; the source has then moved
/// as reading moves it, and nothing else. Memory and time grow with the nodes that are settled and their neighbours, with
/// 8 bytes for each number up to the greatest of them: a [`Searcher`] keeps that memory for its next search.
pub fn search<S: RowSource>(
    alloc: Global,
    source: &mut S,
    from: u32,
    avoid: u32,
    cutoff: Cost,
    targets: &[u32],
    settle: u32,
) -> Result<Found, SearchError>
    requires start { from ≢ avoid }
    requires targets { Contains targets.now avoid → ⊥ }
    requires cutoff { cutoff ≼ S.bound_of source.old }
    requires some { 1 ≤ settle }
    requires few { settle ≤ 2 ^ 16 }
    ensures ways { IfOk result (λ found. AreWays found.seen.items from avoid cutoff targets.now found.ways.items) }
    ensures direct { IfOk result (λ found. (k : ℕ) → k < length targets.now → slice_index targets.now k ≢ from → (s : Seen) × S.bears s × S.shows source.new s × IsStartRead found.seen.items from cutoff targets.now found.ways.items s) }
    ensures rows { IfOk result (λ found. AreUnrankedRows found.seen.items) }
    ensures bears { IfOk result (λ found. All S.bears found.seen.items) }
    ensures shows { IfOk result (λ found. All (S.shows source.new) found.seen.items) }
    ensures stays { S.stays source.old source.new }
    ensures found { S.whole source.old from → result ≡ Err Unseen → ⊥ }
{
    let mut searcher = Searcher::new(alloc);
    let rule = Rule {
        from,
        avoid,
        cutoff,
    };
    let none = Traced::new(alloc);
    let traced = searcher.search(alloc, source, rule, targets, &[], settle, none)?;
    let nodes = nodes_of(alloc, &traced.steps)?;
    let seen = searcher.rows.take_listed(&nodes, Vec::new(alloc))?;
    let ways = traced.ways;
    Ok(Found { ways, seen })
}

/// The nodes of the steps, in order.
fn nodes_of(alloc: Global, steps: &[TreeNode]) -> Result<Vec<u32>, AllocError>
    ensures { IfOk result (λ nodes. nodes.items ≡ map (λ s. s.node) (seen_of steps.now)) }
{
    let mut nodes = Vec::with_capacity(alloc, steps.len())?;
    'steps: for at in 0..steps.len() {
        nodes.push(steps[at].node)?;
    }
    Ok(nodes)
}
