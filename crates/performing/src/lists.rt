ghost use Rattle.std.specs.Prelude.{◌≡◌, All, IfOk, Ok, vec_len};
ghost use Rattle.ch_estimate.specs.Leases.{CountId};
ghost use Rattle.std.specs.List.{AllZip};

use ch_estimate::{Lease, Leases};
use jobs::Order;
use std::alloc::{AllocError, Global};

/// Returns this many lists, each of one thing for each of the orders, as they follow each other, that is made for a
/// lease of its own.
pub fn a_list_each<T: Drop, F: Fn(Order, Lease) -> Result<T, AllocError>>(
    alloc: Global,
    leases: &mut Leases,
    count: u32,
    orders: &[Order],
    make: F,
) -> Result<Vec<Vec<T>>, AllocError>
    requires callable { F.IsAlwaysCallable make }
    ensures count { IfOk result (λ lists. vec_len lists ≡ count) }
    ensures made { IfOk result (λ lists. All (λ list. AllZip (λ order thing. (lease : CountId) × F.post make order lease (Ok thing)) orders.now list.items) lists.items) }
{
    let mut lists = Vec::new(alloc);
    'lists: for _ in 0..count {
        lists.push(one_for_each(alloc, leases, orders, &make)?)?;
    }
    Ok(lists)
}

// A list of one thing for each of the orders.
fn one_for_each<T: Drop, F: Fn(Order, Lease) -> Result<T, AllocError>>(
    alloc: Global,
    leases: &mut Leases,
    orders: &[Order],
    make: &F,
) -> Result<Vec<T>, AllocError>
    requires callable { F.IsAlwaysCallable make.now }
    ensures { IfOk result (λ list. AllZip (λ order thing. (lease : CountId) × F.post make.now order lease (Ok thing)) orders.now list.items) }
{
    let mut list = Vec::new(alloc);
    'orders: for order in orders {
        let lease = leases.lease()?;
        list.push(make(*order, lease)?)?;
    }
    Ok(list)
}
