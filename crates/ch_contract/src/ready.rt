ghost use Rattle.std.specs.Prelude.{◌≡◌, ◌++◌, IfNone, IfOk, IfSome, None, Some, All, map};
ghost use Rattle.ch_laws.specs.Rows.{Row};
ghost use Rattle.ch_overlay.specs.declared.source.SeeError.TheVariants.{Unseen};
ghost use Rattle.ch_overlay.specs.Prepared.{AreNamed};
ghost use Rattle.ch_overlay.specs.Source.{row_of, NamesAlone};
ghost use Rattle.ch_contract.specs.Ready.{AreAnswered, IsReadyFor, RowsRise};

use crate::proposal::Proposal;
use ch_overlay::{Prepared, Row, RowSource, SeeError, Seen, prepare};
use std::alloc::{AllocError, Global};
use std::marker::Model;

/// New rows of a contraction that is proposed, made before it is committed, and the rows that were read for them beside
/// those that the proposal rests on.
///
/// They are made by [`make_ready`] alone. As long as all these rows are current, they are the rows that the contraction
/// leads to.
#[derive(Drop)]
pub struct Ready {
    pub(crate) prepared: Prepared,
    pub(crate) beside: Vec<Seen>,
}

impl Model for Ready {
    ghost use Rattle.ch_contract.specs.Ready as ready;

    ghost Value = { ready.Ready };

    ghost view = { λ r. record { prepared = r.prepared; beside = r.beside.items } };
}

/// Makes the new rows of a contraction that is proposed, for [`Board::commit_ready`](crate::Board::commit_ready), which
/// then has less to do.
///
/// They are made by the rows that the proposal rests on and those of the node's other neighbours, which the source is asked
/// for once each. `OutOfMemory` where memory runs out, `Unseen` where the source has no row of one of these; nothing but
/// the source has moved then. Takes memory for the new rows, which grows with the entries of the neighbours' rows, and time
/// by these, and by the neighbours times the rows that the proposal rests on.
pub fn make_ready<S: RowSource>(
    alloc: Global,
    source: &mut S,
    proposal: &Proposal,
) -> Result<Ready, SeeError>
    ensures ready { IfOk result (IsReadyFor proposal.now) }
    ensures bears { IfOk result (λ r. All S.bears r.beside) }
    ensures stays { S.stays source.old source.new }
    ensures found { (row : Row) → row_of proposal.now.rests_on proposal.now.node ≡ Some row → NamesAlone (S.whole source.old) row → result ≡ Err Unseen → ⊥ }
{
    let row = proposal.own();
    let nodes = row.named(alloc)?;
    let beside = read_beside(alloc, source, proposal.rests_on(), nodes.as_slice())?;
    let prepared = prepare_by(alloc, proposal, nodes.as_slice(), beside.as_slice())?;
    Ok(Ready { prepared, beside })
}

/// The rows of those of these nodes that none of these answers is of, which are read.
fn read_beside<S: RowSource>(
    alloc: Global,
    source: &mut S,
    rests_on: &[Seen],
    nodes: &[u32],
) -> Result<Vec<Seen>, SeeError>
    ensures bears { IfOk result (λ beside. All S.bears beside.items) }
    ensures rise { IfOk result (λ beside. RowsRise beside.items) }
    ensures read { IfOk result (λ beside. AreAnswered (rests_on.now ++ beside.items) nodes.now) }
    ensures stays { S.stays source.old source.new }
    ensures found { All (S.whole source.old) nodes.now → result ≡ Err Unseen → ⊥ }
{
    let mut beside = Vec::new(alloc);
    'nodes: for node in nodes {
        if row_for(rests_on, *node).is_some() {
            continue;
        }
        let seen = source.row_of(*node)?;
        beside.push(seen)?;
    }
    Ok(beside)
}

/// The new rows by those of these nodes, which are all that the row of the proposal's node names.
fn prepare_by(
    alloc: Global,
    proposal: &Proposal,
    nodes: &[u32],
    beside: &[Seen],
) -> Result<Prepared, AllocError>
    requires named { (row : Row) → row_of proposal.now.rests_on proposal.now.node ≡ Some row → AreNamed row nodes.now }
    requires read { AreAnswered (proposal.now.rests_on ++ beside.now) nodes.now }
    requires rise { RowsRise beside.now }
    ensures { IfOk result (λ prepared. IsReadyFor proposal.now (record { prepared = prepared; beside = beside.now })) }
{
    let row = proposal.own();
    let near = near_rows(alloc, proposal.rests_on(), beside, nodes)?;
    let node = proposal.node();
    let prepared = prepare(alloc, node, row, near.as_slice(), proposal.shortcuts())?;
    Ok(prepared)
}

/// The rows of these nodes, each with its node.
fn near_rows<'a>(
    alloc: Global,
    rests_on: &'a [Seen],
    beside: &'a [Seen],
    nodes: &[u32],
) -> Result<Vec<(u32, &'a Row)>, AllocError>
    requires { AreAnswered (rests_on.now ++ beside.now) nodes.now }
    ensures nodes { IfOk result (λ near. map (λ a. a.0) near.items ≡ nodes.now) }
    ensures rows { IfOk result (λ near. All (λ a. row_of (rests_on.now ++ beside.now) a.0 ≡ Some a.1.now) near.items) }
{
    let mut near = Vec::with_capacity(alloc, nodes.len())?;
    'nodes: for node in nodes {
        let Some(row) = row_for_either(rests_on, beside, *node) else {
            unreachable!()
        };
        near.push((*node, row))?;
    }
    Ok(near)
}

/// The row of a node, by the first answer of two lists that is of this node.
fn row_for_either<'a>(rests_on: &'a [Seen], beside: &'a [Seen], node: u32) -> Option<&'a Row>
    ensures some { IfSome result (λ row. row_of (rests_on.now ++ beside.now) node ≡ Some row.now) }
    ensures none { IfNone result (row_of (rests_on.now ++ beside.now) node ≡ None) }
{
    match row_for(rests_on, node) {
        Some(row) => Some(row),
        None => row_for(beside, node),
    }
}

/// The row of a node, by the first answer that is of this node.
fn row_for(seen: &[Seen], node: u32) -> Option<&Row>
    ensures some { IfSome result (λ row. row_of seen.now node ≡ Some row.now) }
    ensures none { IfNone result (row_of seen.now node ≡ None) }
{
    'seen: for answer in seen {
        if answer.node == node {
            return Some(&answer.row);
        }
    }
    None
}
