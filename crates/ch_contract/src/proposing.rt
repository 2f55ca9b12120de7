ghost use Rattle.std.specs.Prelude.{◌≡◌, ◌≤◌, ◌^◌, ℕ, OnOk, None};
ghost use Rattle.ch_overlay.specs.Overlay.{AreEntries};
ghost use Rattle.ch_overlay.specs.Source.{IsBound, NamesAlone};
ghost use Rattle.ch_laws.specs.Rows.{Rises};
ghost use Rattle.ch_witness.specs.Kept.{kept_of, AllNamed, AreKept, FindsRows, IsReadOn};
ghost use Rattle.ch_witness.specs.declared.error.SearchError.TheVariants as search;
ghost use Rattle.ch_contract.specs.Drafts.{IsBegun, IsDrafted};
ghost use Rattle.ch_contract.specs.Proposal.{IsProposedBy};
ghost use Rattle.ch_overlay.specs.declared.source.SeeError.TheVariants as see;

use crate::draft::{Draft, Task, draft_pairs, leads_on};
use crate::error::ProposeError;
use crate::proposal::Proposal;
use crate::scratch::{Desk, Scratch};
use ch_overlay::{Row, RowSource, SeeError};
use ch_witness::{Rows, SearchError, Traced};
use std::alloc::Global;
use std::mem;
use std::sync::Arc;

/// Works out the contraction of a node by the rows that a source answers, each node asked for at most once.
///
/// A pair of neighbours, an arc from the first to the node and one from there to the second, gets a shortcut unless
/// the arcs cost more than the bound together, or a search finds another way that costs at most as much. A search
/// settles at most `settle` nodes (1 to 65,536). `OutOfMemory` where memory runs out, `Unseen` where the source
/// has no row of a node that is asked for, `Contracted` exactly where the node's row, which is read first, has a rank, and
/// before a row of another node is asked for; the source has then moved as reading moves it (a reader may know of newer
/// versions), and nothing else.
/// Memory and time grow with the nodes that are settled and their neighbours, with 8 bytes for each number up to the
/// greatest of them, which [`propose_with`] takes once.
pub fn propose<S: RowSource>(
    alloc: Global,
    source: &mut S,
    node: u32,
    settle: u32,
) -> Result<Proposal, ProposeError>
    requires some { 1 ≤ settle }
    requires few { settle ≤ 65536 }
    ensures { IsProposedBy S.bears (S.shows source.new) (S.bound_of source.old) (S.stays source.old source.new) (source.new ≡ source.old) (S.whole source.old node) node result }
{
    let mut scratch = Scratch::new(alloc);
    propose_with(alloc, source, &mut scratch, node, settle)
}

/// Returns the proposal of [`propose`], worked out in memory that is used again.
///
/// The conditions and the errors are those of [`propose`]. Nothing rests on what was worked out there before. The lists of
/// the proposal are made in the memory of the one that [`Scratch::keep`] took last.
pub fn propose_with<S: RowSource>(
    alloc: Global,
    source: &mut S,
    scratch: &mut Scratch,
    node: u32,
    settle: u32,
) -> Result<Proposal, ProposeError>
    requires some { 1 ≤ settle }
    requires few { settle ≤ 65536 }
    ensures { IsProposedBy S.bears (S.shows source.new) (S.bound_of source.old) (S.stays source.old source.new) (source.new ≡ source.old) (S.whole source.old node) node result }
{
    scratch.desk.searcher.rows.forget();
    propose_in(alloc, source, &mut scratch.desk, node, settle)
}

/// The same, where no row is kept yet.
fn propose_in<S: RowSource>(
    alloc: Global,
    source: &mut S,
    desk: &mut Desk,
    node: u32,
    settle: u32,
) -> Result<Proposal, ProposeError>
    requires none { (x : ℕ) → kept_of desk.old.searcher.rows x ≡ None }
    requires some { 1 ≤ settle }
    requires few { settle ≤ 65536 }
    ensures { IsProposedBy S.bears (S.shows source.new) (S.bound_of source.old) (S.stays source.old source.new) (source.new ≡ source.old) (S.whole source.old node) node result }
{
    let task = Task {
        node,
        bound: source.bound(),
        settle,
    };
    let place = desk.searcher.rows.read(source, node)?;
    let own = desk.searcher.rows.at(place);
    if own.row.rank.is_some() {
        return Err(ProposeError::Contracted);
    }
    let row = Arc::try_clone(&own.row)?;
    let listed = mem::replace(&mut desk.listed, Vec::new(alloc));
    let shortcuts = mem::replace(&mut desk.shortcuts, Vec::new(alloc));
    let mut draft = Draft::new(listed, shortcuts, node)?;
    draft_all(alloc, source, desk, task, &row, &mut draft)?;
    let Draft { listed, shortcuts } = draft;
    let earlier = mem::replace(&mut desk.rests_on, Vec::new(alloc));
    let rests_on = desk.searcher.rows.take_listed(&listed, earlier)?;
    desk.listed = listed;
    Ok(Proposal {
        bound: task.bound,
        node,
        rests_on,
        shortcuts,
    })
}

/// Works out the pairs of every neighbour with an arc to the node, whose row is given. What their searches find is in one
/// memory, which is freed at the end. It isn't on the desk, since its steps have snapshots of rows
/// ([`ch_witness::TreeNode`]), and a worker keeps its desk and can't keep these.
fn draft_all<S: RowSource>(
    alloc: Global,
    source: &mut S,
    desk: &mut Desk,
    task: Task,
    row: &Row,
    draft: &mut Draft,
) -> Result<(), SearchError>
    requires bound { task.bound ≡ S.bound_of source.old }
    requires limit { IsBound task.bound }
    requires inn_rises { Rises row.now.inn }
    requires out_rises { Rises row.now.out }
    requires entries { AreEntries (2 ^ 25) task.bound task.node row.now }
    requires kept { AreKept S.bears (S.shows source.old) (S.bound_of source.old) (kept_of desk.old.searcher.rows) }
    requires begun { IsBegun task.node draft.old }
    ensures draft { OnOk result (IsDrafted task.bound task.node row.now row.now.inn (kept_of desk.new.searcher.rows) draft.new) }
    ensures read { IsReadOn S.bears (S.shows source.new) (S.bound_of source.new) (S.stays source.old source.new) (kept_of desk.old.searcher.rows) (kept_of desk.new.searcher.rows) }
    ensures found { AllNamed (S.whole source.old) (kept_of desk.old.searcher.rows) → NamesAlone (S.whole source.old) row.now → FindsRows search.Unseen (S.whole source.new) (kept_of desk.new.searcher.rows) result }
{
    read_neighbours(source, &mut desk.searcher.rows, row)?;
    let mut traced = Traced::new(alloc);
    'inns: for into in row.inn() {
        draft_pairs(alloc, source, desk, task, row, into, draft, &mut traced)?;
    }
    Ok(())
}

/// Reads the row of each neighbour from which a pair may lead, so that each search knows the arcs to such of them as it
/// is to find.
fn read_neighbours<S: RowSource>(source: &mut S, rows: &mut Rows, row: &Row) -> Result<(), SeeError>
    requires kept { AreKept S.bears (S.shows source.old) (S.bound_of source.old) (kept_of rows.old) }
    ensures read { IsReadOn S.bears (S.shows source.new) (S.bound_of source.new) (S.stays source.old source.new) (kept_of rows.old) (kept_of rows.new) }
    ensures found { AllNamed (S.whole source.old) (kept_of rows.old) → NamesAlone (S.whole source.old) row.now → FindsRows see.Unseen (S.whole source.new) (kept_of rows.new) result }
{
    'inns: for into in row.inn() {
        if !leads_on(row.out(), into.other) {
            continue;
        }
        rows.read(source, into.other)?;
    }
    Ok(())
}
