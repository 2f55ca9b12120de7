ghost use Rattle.std.specs.Prelude.{◌≡◌, ◌+◌, IfOk, OnErr, OnOk};
ghost use Rattle.ch_estimate.specs.Leases.{IsOut};

use crate::counted::{Adds, Counted, Finds, Gives, Hands, KnownCount, Never, TakesBack};
use atomic_table::{Seat, Table};
use crossbeam_utils::sync::WaitGroup;
use std::alloc::{AllocError, Global};
use std::marker::Model;
use std::sync::{Arc, Wait};

/// The word that counts the leases that are out.
type Count = Table<(), KnownCount, (), Counted, Global>;

/// Leases that are out: a count of the work that is still to be returned.
///
/// Leases that are made between two returns of [`wait`](Leases::wait) are one group. A contract sees which count it is,
/// and that at most this many are out. Of 2^64 - 1 leases or more in a group, `wait` wouldn't return any more.
#[derive(Drop)]
pub struct Leases {
    alloc: Global,
    count: Arc<Count>,
    seat: Seat<(), KnownCount>,
    group: Option<WaitGroup>,
    /// How many leases the group has, or 2^64 - 1 where it has more.
    made: u64,
}

impl Model for Leases {
    ghost use Rattle.std.specs.Arc.{arc_value};
    ghost use Rattle.ch_estimate.specs.Leases.{Group, IsFirst, Tells};

    ghost Value = { Group };

    ghost view = { λ l. record { count = l.seat.table_id; out = l.seat.me.0.bound } };

    ghost invariant = { λ l. IsFirst (arc_value l.count).shared.table_id l.seat.me.0.bound l.seat × Tells l.made l.seat.me.0.bound };
}

/// A lease, returned by its drop, which any thread may do. A contract sees of which count it is.
pub struct Lease {
    count: Arc<Count>,
    seat: Seat<(), KnownCount>,
    member: WaitGroup,
}

impl Model for Lease {
    ghost use Rattle.std.specs.Arc.{arc_value};
    ghost use Rattle.atomic_table.specs.Seated.{table_id_coded};
    ghost use Rattle.ch_estimate.specs.Leases.{CountId, IsOut};

    ghost Value = { CountId };

    ghost coded = { table_id_coded };

    ghost view = { λ l. l.seat.table_id };

    ghost invariant = { λ l. IsOut (arc_value l.count).shared.table_id l.seat };
}

impl Leases {
    /// None is out. Takes memory for the count and for the first group.
    pub fn new(alloc: Global) -> Result<Leases, AllocError>
        ensures { IfOk result (λ leases. leases.out ≡ 0) }
    {
        let group = WaitGroup::new(alloc)?;
        let (table, seat) = Table::of_words(alloc, &[0], &())?;
        let count = Arc::new(alloc, table)?;
        Ok(Leases {
            alloc,
            count,
            seat,
            group: Some(group),
            made: 0,
        })
    }

    /// One more lease, the first of a new group where all earlier ones were waited for.
    ///
    /// Fails only where memory runs out; as many are then out as before.
    pub fn lease(&mut self) -> Result<Lease, AllocError>
        ensures one { OnOk result (self.new ≡ record self.old { out = self.old.out + 1 }) }
        ensures of { IfOk result (λ lease. lease ≡ self.old.count) }
        ensures refused { OnErr result (self.new ≡ self.old) }
    {
        let member = self.member()?;
        let count = Arc::try_clone(&self.count)?;
        self.count.shared.fetch_add::<Adds>(&mut self.seat, 0, 1);
        let seat = self.count.shared.split_seat::<Hands>(&mut self.seat);
        self.made = self.made.saturating_add(1);
        Ok(Lease {
            count,
            seat,
            member,
        })
    }

    /// One more member of the group that is waited for next.
    fn member(&mut self) -> Result<WaitGroup, AllocError>
        ensures { self.new ≡ self.old }
    {
        if self.group.is_none() {
            self.group = Some(WaitGroup::new(self.alloc)?);
        }
        match &self.group {
            Some(group) => group.clone(),
            None => unreachable!(),
        }
    }

    /// Returns when no lease is out: at once where none was made since the last return. The next lease begins a new
    /// group. Takes no memory.
    ///
    /// A lease leaves its group after it is counted back, so the count is zero as soon as the group is empty, and the
    /// first look finds that.
    pub fn wait<R: Wait>(&mut self, rt: &R)
        ensures { self.new ≡ record self.old { out = 0 } }
    {
        if let Some(group) = self.group.take() {
            group.wait(rt);
        }
        'looks: for _ in rt.forever() {
            if self.made < u64::MAX && self.count.shared.load::<Finds>(&mut self.seat, 0) == 0 {
                self.made = 0;
                return;
            }
        }
        unreachable!()
    }

    /// Where none is out, nobody has a lease of this count: no call of this can be made. It says what `out` means.
    pub fn none_is_left(&mut self, lease: Lease)
        requires none { self.old.out ≡ 0 }
        requires of { lease ≡ self.old.count }
        ensures { ⊥ }
    {
        let seat = lease.into_seat();
        self.count
            .shared
            .join_seat::<TakesBack>(&mut self.seat, seat);
        self.count.shared.load::<Never>(&mut self.seat, 0);
    }
}

impl Lease {
    /// Its part of the count.
    fn into_seat(self) -> Seat<(), KnownCount>
        ensures { IsOut self result }
    {
        let Self {
            count: _,
            seat,
            member: _,
        } = self;
        seat
    }
}

impl Drop for Lease {
    fn drop(self) {
        let Self {
            count,
            mut seat,
            member,
        } = self;
        count.shared.fetch_sub::<Gives>(&mut seat, 0, 1);
        drop(count);
        drop(member);
    }
}
