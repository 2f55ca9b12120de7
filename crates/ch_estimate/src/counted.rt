//! The count of leases that are out: the rule that it keeps, and what each step on it shows.
ghost use Rattle.ch_estimate.specs.Leases.{Keeps, adds, finds, gives, known};

use atomic_table::{Join, Play, Split, TableRule};

/// What the holder of a seat knows of the count. No value of it is made.
pub struct KnownCount {
    /// Of the first seat: at most this many are out.
    pub bound: u64,
    /// How much of the count is its own: one for a lease that is out.
    pub out: u64,
}

/// The rule of the count.
pub struct Counted;

impl TableRule<(), KnownCount, ()> for Counted {
    ghost holds = { λ _. Keeps };

    ghost first = { λ _. known 0 0 };
}

/// One more is counted.
pub struct Adds;

impl Play<(), KnownCount> for Adds {
    ghost then = { adds };
}

/// One is returned.
pub struct Gives;

impl Play<(), KnownCount> for Gives {
    ghost then = { gives };
}

/// A look at the count, which shows something where it is zero.
pub struct Finds;

impl Play<(), KnownCount> for Finds {
    ghost then = { finds };
}

/// A look that can't be taken.
pub struct Never;

impl Play<(), KnownCount> for Never {
    ghost then = { λ _ _ _ _. ⊥ };
}

/// The one that was counted goes to a lease.
pub struct Hands;

impl Split<KnownCount> for Hands {
    ghost use Rattle.std.specs.Prelude.{◌-◌};

    ghost left = { λ v. known v.bound (v.out - 1) };

    ghost right = { λ _. known 0 1 };
}

/// A lease's part comes back to the first seat.
pub struct TakesBack;

impl Join<KnownCount> for TakesBack {
    ghost both = { λ v w. known v.bound w.out };

    ghost spent = { known 0 0 };
}
