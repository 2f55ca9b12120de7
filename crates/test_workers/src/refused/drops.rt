//! Whether each estimator that a build received is dropped once, whichever growth was refused.
//!
//! Where memory runs out for the build itself, its result is `OutOfMemory`, and the test ends with that error once the
//! drops were compared. Each estimator has a count of its own, so none is dropped twice in place of another.
ghost use Rattle.std.specs.Prelude.{◌≡◌, [], All, IfOk};

use crate::drops::{list_of_three, two_lists};
use crate::kit::{Lists, TWO, tie};
use ch_estimate::{Depth, Estimator, Lease, Leases};
use ch_workers::{BuildError, OpenGate, Options, build};
use std::alloc::{AllocError, Global};
use std::sync::{Arc, Wait};
use std::test::Fail;
use std::thread::Threads;
use test_kit::{Drops, Numbered};

/// An estimator of this number that received nothing.
fn make_numbered(
    alloc: Global,
    lease: Lease,
    number: usize,
    drops: &Arc<Drops>,
) -> Result<Box<dyn Estimator + Send>, AllocError>
    ensures untold { IfOk result (λ estimator. heard estimator ≡ []) }
{
    let numbered = Numbered::new(Depth::new(alloc, lease), number, Arc::try_clone(drops)?);
    let estimator: Box<dyn Estimator + Send> = Box::new(alloc, numbered)?;
    Ok(estimator)
}

/// A list of three estimators of these numbers.
fn list_of(
    alloc: Global,
    leases: &mut Leases,
    numbers: [usize; 3],
    drops: &Arc<Drops>,
) -> Result<Vec<Box<dyn Estimator + Send>>, AllocError>
    ensures untold { IfOk result (λ list. All (λ estimator. heard estimator ≡ []) list.items) }
{
    let [first, second, third] = numbers;
    list_of_three(
        alloc,
        make_numbered(alloc, leases.lease()?, first, drops)?,
        make_numbered(alloc, leases.lease()?, second, drops)?,
        make_numbered(alloc, leases.lease()?, third, drops)?,
    )
}

/// The lists of two workers, of three estimators each.
fn three_each(alloc: Global, leases: &mut Leases, drops: &Arc<Drops>) -> Result<Lists, AllocError>
    ensures untold { IfOk result (λ lists. All (λ list. All (λ estimator. heard estimator ≡ []) list.items) lists.items) }
{
    let first = list_of(alloc, leases, [0, 1, 2], drops)?;
    let second = list_of(alloc, leases, [3, 4, 5], drops)?;
    two_lists(alloc, first, second)
}

/// How a build of the tie by these options ends, and whether each of its six estimators was then dropped once.
fn end_of<R: Threads + Wait + Sync>(
    rt: &R,
    alloc: Global,
    options: Options,
) -> Result<(Result<(), BuildError>, bool), Fail> {
    let graph = tie(alloc)?;
    let drops = Drops::new(alloc)?;
    let mut leases = Leases::new(alloc)?;
    let lists = three_each(alloc, &mut leases, &drops)?;
    let built = build(rt, alloc, graph, options, lists, &mut leases, &OpenGate);
    let are_dropped = drops.are_one_each(6);
    Ok((built.map(drop), are_dropped))
}

#[test]
fn estimators_of_two_workers(rt: HostRuntime) -> Result<(), Fail> {
    let options = Options { stint: 1, ..TWO };
    let (end, are_dropped) = end_of(&rt, rt.alloc(), options)?;
    assert!(rt; are_dropped);
    assert!(rt; matches!(end, Ok(()) | Err(BuildError::OutOfMemory)));
    end?;
    Ok(())
}

#[test]
fn estimators_for_bad_options(rt: HostRuntime) -> Result<(), Fail> {
    let bad = Options { settle: 0, ..TWO };
    let (end, are_dropped) = end_of(&rt, rt.alloc(), bad)?;
    assert!(rt; are_dropped);
    assert!(rt; end == Err(BuildError::BadOptions));
    Ok(())
}
