ghost use Rattle.std.specs.Prelude.{◌≡◌, ◌<◌, ℕ, IfOk, length, slice_index};
ghost use Rattle.ch_witness.specs.Tree.{labels_of, seen_of, IsTree};
ghost use Rattle.ch_witness.specs.Ways.{IsWayOf, way_at};

use crate::aim::Aim;
use crate::error::SearchError;
use crate::frontier::Frontier;
use crate::memory::emptied;
use crate::rows::Rows;
use crate::rule::Rule;
use crate::step::TreeNode;
use crate::trace::way_to;
use crate::tree::Tree;
use crate::way::Way;
use ch_overlay::RowSource;
use std::alloc::{AllocError, Global};
use std::mem;

/// What a searcher found. The next search may take it back, for its memory.
#[derive(Drop)]
pub struct Traced {
    /// For each target, in their order, the best way that the search has reached, or `None`.
    pub ways: Vec<Option<Way>>,
    /// The nodes that the search expanded, in its order: the steps of each node of a way but the last are among them.
    pub steps: Vec<TreeNode>,
}

impl Traced {
    ghost use Rattle.std.specs.Prelude.{◌≡◌, []};

    /// Nothing was found yet. It takes no memory yet.
    pub fn new(alloc: Global) -> Traced
        ensures ways { result.ways.items ≡ [] }
        ensures steps { result.steps.items ≡ [] }
    {
        Traced {
            ways: Vec::new(alloc),
            steps: Vec::new(alloc),
        }
    }
}

/// What searches for ways are made in, one after the other: rows that are kept from one to the next, and memory that is
/// used again.
#[derive(Drop)]
pub struct Searcher {
    /// The rows that were read, by searches or by a caller.
    pub rows: Rows,
    frontier: Frontier,
}

impl Searcher {
    ghost use Rattle.std.specs.Prelude.{◌≢◌, ◌^◌, ◌≤◌, All, Contains, None};
    ghost use Rattle.ch_cost.specs.Cost.{◌≼◌};
    ghost use Rattle.ch_overlay.specs.declared.source.Seen.{Seen};
    ghost use Rattle.ch_witness.specs.declared.error.SearchError.TheVariants.{Unseen};
    ghost use Rattle.ch_witness.specs.Kept.{kept_of, AllNamed, AreKept, FindsRows, IsKept, IsReadOn};
    ghost use Rattle.ch_witness.specs.Ways.{AreUnrankedRows, AreWays, IsStartRead};

    /// No row was read yet. It takes no memory yet.
    pub fn new(alloc: Global) -> Searcher
        ensures { (x : ℕ) → kept_of result.rows x ≡ None }
    {
        Searcher {
            rows: Rows::new(alloc),
            frontier: Frontier::new(alloc),
        }
    }

    /// Finds the ways of [`search`](crate::search), along rows that are kept from one search to the next.
    ///
    /// The source is asked for a row only where none is kept for the node, and what it answers is kept, also where the
    /// search fails. The rows of the steps are those that are kept, so that several searches may rest on the same
    /// answers. It forgets what an earlier search found, and takes its memory. The conditions and the errors are those of
    /// [`search`](crate::search); a search that fails frees its reusable buffers.
    ///
    /// The aims are those of the targets, in their order, as far as they go. A target with an aim is done, as one that is
    /// settled is, where no node that is settled from then on can make its way a better one that is wanted. So the
    /// ways that are wanted are those of [`search`](crate::search), and fewer nodes are settled, and rows read, for them.
    pub fn search<S: RowSource>(
        &mut self,
        alloc: Global,
        source: &mut S,
        rule: Rule,
        targets: &[u32],
        aims: &[Aim],
        settle: u32,
        earlier: Traced,
    ) -> Result<Traced, SearchError>
        requires start { rule.from ≢ rule.avoid }
        requires targets { Contains targets.now rule.avoid → ⊥ }
        requires cutoff { rule.cutoff ≼ S.bound_of source.old }
        requires kept { AreKept S.bears (S.shows source.old) (S.bound_of source.old) (kept_of self.old.rows) }
        requires some { 1 ≤ settle }
        requires few { settle ≤ 2 ^ 16 }
        ensures ways { IfOk result (λ found. AreWays (seen_of found.steps.items) rule.from rule.avoid rule.cutoff targets.now found.ways.items) }
        ensures direct { IfOk result (λ found. (k : ℕ) → k < length targets.now → slice_index targets.now k ≢ rule.from → (s : Seen) × IsKept (kept_of self.new.rows) s × IsStartRead (seen_of found.steps.items) rule.from rule.cutoff targets.now found.ways.items s) }
        ensures rows { IfOk result (λ found. AreUnrankedRows (seen_of found.steps.items)) }
        ensures kept_rows { IfOk result (λ found. All (IsKept (kept_of self.new.rows)) (seen_of found.steps.items)) }
        ensures read { IsReadOn S.bears (S.shows source.new) (S.bound_of source.new) (S.stays source.old source.new) (kept_of self.old.rows) (kept_of self.new.rows) }
        ensures found { AllNamed (S.whole source.old) (kept_of self.old.rows) → S.whole source.old rule.from → FindsRows Unseen (S.whole source.new) (kept_of self.new.rows) result }
    {
        let Traced { ways, steps } = earlier;
        let frontier = mem::replace(&mut self.frontier, Frontier::new(alloc));
        let tree = Tree::new(
            Tree { steps, frontier },
            source,
            &mut self.rows,
            rule,
            targets,
            aims,
            settle,
        )?;
        let ways = ways_to(alloc, rule, &tree, targets, ways)?;
        let Tree { steps, frontier } = tree;
        self.frontier = frontier;
        Ok(Traced { ways, steps })
    }
}

/// Returns the way to each target, or `None` where the search hasn't come to it, in the memory of earlier ways.
fn ways_to(
    alloc: Global,
    rule: Rule,
    tree: &Tree,
    targets: &[u32],
    earlier: Vec<Option<Way>>,
) -> Result<Vec<Option<Way>>, AllocError>
    requires tree { IsTree rule tree.now.steps.items (labels_of tree.now.frontier) }
    ensures many { IfOk result (λ ways. length ways.items ≡ length targets.now) }
    ensures ways { IfOk result (λ ways. (k : ℕ) → k < length targets.now → IsWayOf (seen_of tree.now.steps.items) rule.avoid rule.from (slice_index targets.now k) (labels_of tree.now.frontier (slice_index targets.now k)) (way_at ways.items k)) }
{
    let mut ways = emptied(earlier, targets.len())?;
    'targets: for target in targets {
        ways.push(known_way(alloc, rule, tree, *target)?)?;
    }
    Ok(ways)
}

/// Returns the way to a node, or `None` where the search hasn't come to it.
fn known_way(alloc: Global, rule: Rule, tree: &Tree, target: u32) -> Result<Option<Way>, AllocError>
    requires tree { IsTree rule tree.now.steps.items (labels_of tree.now.frontier) }
    ensures { IfOk result (IsWayOf (seen_of tree.now.steps.items) rule.avoid rule.from target (labels_of tree.now.frontier target)) }
{
    let Some(label) = tree.frontier.label(target) else {
        return Ok(None);
    };
    Ok(Some(way_to(alloc, rule, &tree.steps, target, label)?))
}
