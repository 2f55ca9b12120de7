ghost use Rattle.std.specs.Prelude.{◌≡◌, ◌≤◌, ◌^◌, IfOk};
ghost use Rattle.ch_contract.specs.Ledger.{IsLog};

use ch_contract::{Contraction, Receipt};
use ch_workers::is_account;
use std::alloc::{AllocError, Global};
use std::test::Fail;

/// A log in which this many nodes are contracted, the last first: the node of rank 0 is the one of the highest number.
fn falling_log(alloc: Global, nodes: u32) -> Result<Vec<Contraction>, AllocError>
    requires { nodes ≤ 2 ^ 20 }
    ensures { IfOk result (λ log. IsLog log.items) }
{
    let mut log = Vec::new(alloc);
    'ranks: for rank in 0..nodes {
        let neighbours = Vec::new(alloc);
        log.push(Contraction {
            node: nodes - 1 - rank,
            rank,
            neighbours,
            shortcuts: 0,
        })?;
    }
    Ok(log)
}

/// The receipts of these nodes and ranks.
fn receipts_of(alloc: Global, receipts: &[(u32, u32)]) -> Result<Vec<Receipt>, AllocError> {
    let mut list = Vec::new(alloc);
    'receipts: for (node, rank) in receipts {
        list.push(Receipt {
            node: *node,
            rank: *rank,
        })?;
    }
    Ok(list)
}

/// The lists of these receipts.
fn lists_of(alloc: Global, lists: &[&[(u32, u32)]]) -> Result<Vec<Vec<Receipt>>, AllocError> {
    let mut receipts = Vec::new(alloc);
    'lists: for list in lists {
        receipts.push(receipts_of(alloc, list)?)?;
    }
    Ok(receipts)
}

/// Whether lists of receipts account for the log of this many nodes.
fn account_for(alloc: Global, nodes: u8, receipts: &[Vec<Receipt>]) -> Result<bool, AllocError> {
    let log = falling_log(alloc, u32::from(nodes))?;
    is_account(alloc, &log, receipts)
}

/// Whether the lists of these receipts account for the log of this many nodes, or don't, as is wanted.
fn is_as_wanted(
    alloc: Global,
    nodes: u8,
    lists: &[&[(u32, u32)]],
    want: bool,
) -> Result<bool, AllocError> {
    let receipts = lists_of(alloc, lists)?;
    Ok(account_for(alloc, nodes, &receipts)? == want)
}

/// Nodes of a log, the nodes and ranks of receipts, list by list, and whether they account for the log. That of three
/// nodes contracts 2, 1 and 0.
type Account = (u8, &'static [&'static [(u32, u32)]], bool);

const ACCOUNTS: &[Account] = &[
    // no entries: no receipts account for them
    (0, &[], true),
    (0, &[&[], &[]], true),
    (0, &[&[(0, 0)]], false),
    // one list, and two that interleave
    (3, &[&[(2, 0), (1, 1), (0, 2)]], true),
    (3, &[&[(2, 0), (0, 2)], &[(1, 1)]], true),
    // a receipt is missing, or occurs twice
    (3, &[&[(2, 0), (0, 2)], &[]], false),
    (3, &[&[(2, 0), (1, 1), (0, 2)], &[(1, 1)]], false),
    // a receipt is of another node, a list falls, and a rank is beyond the log
    (3, &[&[(2, 0), (2, 1), (0, 2)]], false),
    (3, &[&[(1, 1), (2, 0), (0, 2)]], false),
    (3, &[&[(2, 0), (1, 1), (0, 2)], &[(5, 3)]], false),
];

/// Whether all of these are as wanted.
fn all_are_as_wanted(alloc: Global, accounts: &[Account]) -> Result<bool, AllocError> {
    let mut holds = true;
    'accounts: for (nodes, lists, want) in accounts {
        holds &= is_as_wanted(alloc, *nodes, lists, *want)?;
    }
    Ok(holds)
}

#[test]
fn receipts_account_for_a_log(rt: HostRuntime) -> Result<(), Fail> {
    assert!(rt; all_are_as_wanted(rt.alloc(), ACCOUNTS)?);
    Ok(())
}
