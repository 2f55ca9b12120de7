ghost use Rattle.std.specs.Prelude.{◌≡◌, ◌≢◌, ◌+◌, ◌^◌, ◌<◌, ◌≤◌, ℕ, IsTrue, IfOk, OnOk, Some, true, length, slice_index};
ghost use Rattle.ch_cost.specs.Cost.{◌≼◌};
ghost use Rattle.ch_overlay.specs.declared.source.Seen.{Seen};
ghost use Rattle.ch_witness.specs.declared.error.SearchError.TheVariants.{Unseen};
ghost use Rattle.ch_witness.specs.Kept.{kept_of, AllNamed, AreKept, FindsRows, IsKept, IsReadOn};
ghost use Rattle.ch_witness.specs.Tree.{labels_of, IsTree, IsNew, IsGoneOn, IsLater, IsStartSeen, AllAre, AllSeen};

use crate::aim::Aim;
use crate::error::SearchError;
use crate::follow::follow;
use crate::frontier::{Frontier, Reached};
use crate::memory::emptied;
use crate::parent::Parent;
use crate::rows::Rows;
use crate::rule::Rule;
use crate::step::TreeNode;
use ch_cost::Cost;
use ch_overlay::RowSource;
use std::snapshot::Snapshot;

/// The steps of a search, in its order, and what it knows of the nodes that it has come to.
#[derive(Drop)]
pub struct Tree {
    pub steps: Vec<TreeNode>,
    pub frontier: Frontier,
}

/// How many steps there is room for at first.
const STEPS: usize = 32;

impl Tree {
    /// Returns the tree of a whole search, which settles at most this many nodes. Forgets an earlier one, and uses
    /// its memory.
    pub fn new<S: RowSource>(
        earlier: Tree,
        source: &mut S,
        rows: &mut Rows,
        rule: Rule,
        targets: &[u32],
        aims: &[Aim],
        settle: u32,
    ) -> Result<Tree, SearchError>
        requires start { rule.from ≢ rule.avoid }
        requires cutoff { rule.cutoff ≼ S.bound_of source.old }
        requires kept { AreKept S.bears (S.shows source.old) (S.bound_of source.old) (kept_of rows.old) }
        requires some { 1 ≤ settle }
        requires few { settle ≤ 2 ^ 16 }
        ensures tree { IfOk result (λ tree. IsTree rule tree.steps.items (labels_of tree.frontier)) }
        ensures kept_rows { IfOk result (λ tree. AllSeen (IsKept (kept_of rows.new)) tree.steps.items) }
        ensures start { IfOk result (λ tree. (k : ℕ) → k < length targets.now → slice_index targets.now k ≢ rule.from → (seen : Seen) × IsKept (kept_of rows.new) seen × IsStartSeen rule seen tree.steps.items (labels_of tree.frontier)) }
        ensures read { IsReadOn S.bears (S.shows source.new) (S.bound_of source.new) (S.stays source.old source.new) (kept_of rows.old) (kept_of rows.new) }
        ensures found { AllNamed (S.whole source.old) (kept_of rows.old) → S.whole source.old rule.from → FindsRows Unseen (S.whole source.new) (kept_of rows.new) result }
    {
        let mut frontier = earlier.frontier;
        frontier.start(rule.from)?;
        let steps = emptied(earlier.steps, STEPS.min(settle as usize))?;
        let mut tree = Tree { steps, frontier };
        if are_all(targets, rule.from) {
            return Ok(tree);
        }
        let start = Reached {
            node: rule.from,
            before: Parent::NONE,
            cost: Cost::ZERO,
        };
        tree.expand(source, rows, rule, start)?;
        tree.grow(source, rows, rule, targets, aims, settle - 1)?;
        Ok(tree)
    }

    /// Continues the search: settles node after node and expands each, until this many turns are over, no node
    /// is open, or every target is done, and the row of the node that was settled last isn't read.
    pub fn grow<S: RowSource>(
        &mut self,
        source: &mut S,
        rows: &mut Rows,
        rule: Rule,
        targets: &[u32],
        aims: &[Aim],
        turns: u32,
    ) -> Result<(), SearchError>
        requires tree { IsTree rule self.old.steps.items (labels_of self.old.frontier) }
        requires few { length self.old.steps.items + turns ≤ 2 ^ 16 }
        requires cutoff { rule.cutoff ≼ S.bound_of source.old }
        requires kept { AreKept S.bears (S.shows source.old) (S.bound_of source.old) (kept_of rows.old) }
        ensures tree { OnOk result (IsTree rule self.new.steps.items (labels_of self.new.frontier)) }
        ensures later { OnOk result (IsLater self.old.steps.items self.new.steps.items (labels_of self.old.frontier) (labels_of self.new.frontier)) }
        ensures kept_rows { AllSeen (IsKept (kept_of rows.old)) self.old.steps.items → OnOk result (AllSeen (IsKept (kept_of rows.new)) self.new.steps.items) }
        ensures read { IsReadOn S.bears (S.shows source.new) (S.bound_of source.new) (S.stays source.old source.new) (kept_of rows.old) (kept_of rows.new) }
        ensures found { AllNamed (S.whole source.old) (kept_of rows.old) → AllAre (S.whole source.old) (labels_of self.old.frontier) → FindsRows Unseen (S.whole source.new) (kept_of rows.new) result }
    {
        let mut done = 0;
        'turns: for _ in 0..turns {
            let Some(reached) = self.frontier.settle_next() else {
                break;
            };
            done = self.done_targets(targets, aims, done, reached.cost);
            if done >= targets.len() {
                break;
            }
            self.expand(source, rows, rule, reached)?;
        }
        Ok(())
    }

    /// How many targets at the beginning of the list are done, where it is known of the first `known`, and nodes of
    /// this cost are settled now.
    fn done_targets(&self, targets: &[u32], aims: &[Aim], known: usize, cost: Cost) -> usize {
        let mut done = known;
        'targets: while done < targets.len() {
            if !self.is_done(targets[done], aims.get(done), cost) {
                break;
            }
            done += 1;
        }
        done
    }

    /// Whether a target is done: its way is final, or no node of this cost or more makes it a better one that is wanted.
    fn is_done(&self, target: u32, aim: Option<&Aim>, cost: Cost) -> bool {
        let label = self.frontier.label(target);
        if label.as_ref().is_some_and(|label| label.settled) {
            return true;
        }
        let Some(aim) = aim else {
            return false;
        };
        let Some(least) = cost.checked_plus(aim.last_arc) else {
            return true;
        };
        !least.is_at_most(aim.enough) || label.is_some_and(|label| label.cost.is_at_most(least))
    }

    /// Goes on from a node that was settled: reads its row and, where that has no rank, makes it a step and follows
    /// its arcs.
    pub fn expand<S: RowSource>(
        &mut self,
        source: &mut S,
        rows: &mut Rows,
        rule: Rule,
        reached: Reached,
    ) -> Result<(), SearchError>
        requires tree { IsTree rule self.old.steps.items (labels_of self.old.frontier) }
        requires label { labels_of self.old.frontier reached.node ≡ Some (record { cost = reached.cost; before = reached.before; settled = true }) }
        requires new { IsNew reached.node self.old.steps.items }
        requires few { length self.old.steps.items < 2 ^ 16 }
        requires cutoff { rule.cutoff ≼ S.bound_of source.old }
        requires kept { AreKept S.bears (S.shows source.old) (S.bound_of source.old) (kept_of rows.old) }
        ensures tree { OnOk result (IsTree rule self.new.steps.items (labels_of self.new.frontier)) }
        ensures later { OnOk result (IsLater self.old.steps.items self.new.steps.items (labels_of self.old.frontier) (labels_of self.new.frontier)) }
        ensures few { OnOk result (length self.new.steps.items ≤ length self.old.steps.items + 1) }
        ensures gone { OnOk result ((seen : Seen) × IsKept (kept_of rows.new) seen × IsGoneOn rule reached seen self.old.steps.items self.new.steps.items (labels_of self.old.frontier) (labels_of self.new.frontier)) }
        ensures read { IsReadOn S.bears (S.shows source.new) (S.bound_of source.new) (S.stays source.old source.new) (kept_of rows.old) (kept_of rows.new) }
        ensures found { AllNamed (S.whole source.old) (kept_of rows.old) → AllAre (S.whole source.old) (labels_of self.old.frontier) → FindsRows Unseen (S.whole source.new) (kept_of rows.new) result }
        ensures whole { AllNamed (S.whole source.old) (kept_of rows.old) → AllAre (S.whole source.old) (labels_of self.old.frontier) → OnOk result (AllAre (S.whole source.new) (labels_of self.new.frontier)) }
    {
        let kept_at = rows.read(source, reached.node)?;
        let seen = rows.at(kept_at);
        if seen.row.rank.is_some() {
            return Ok(());
        }
        let before = Parent::at(self.steps.len());
        follow(
            rule,
            seen.row.out(),
            reached.cost,
            before,
            &mut self.frontier,
        )?;
        self.steps.push(TreeNode {
            node: reached.node,
            before: reached.before,
            cost: reached.cost,
            seen: Snapshot::of(seen),
        })?;
        Ok(())
    }
}

/// Whether each of these nodes is that node.
fn are_all(nodes: &[u32], node: u32) -> bool
    ensures { IsTrue result → (k : ℕ) → k < length nodes.now → slice_index nodes.now k ≡ node }
{
    nodes.iter().all(|other| *other == node)
}
