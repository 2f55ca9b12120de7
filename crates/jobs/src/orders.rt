ghost use Rattle.std.specs.Prelude.{◌≡◌, ◌≢◌, IfNone, IfSome};
ghost use Rattle.jobs.specs.Orders as orders;

use std::marker::Model;

/// The table of orders, in the order of the enum: of each its variant, its name on a command line, and which nodes go
/// first. The command line and its help take their lists from it; completions, pages, Python and tests are compared with
/// the help.
macro_rules! table {
    ($columns:ident) => {
        $columns! {
            Edges "edges" "those that leave the fewest arcs (edge difference)",
            Neighbours "neighbours" "edge difference plus contracted neighbours",
            Depth "depth" "edge difference plus depth",
            Balanced "balanced" "fewest shortcuts per removed arc, plus depth (recommended)"
        }
    };
}

macro_rules! orders {
    ($($order:ident $name:literal $help:literal),*) => { [$(Order::$order),*] };
}

macro_rules! names {
    ($($order:ident $name:literal $help:literal),*) => { [$($name),*] };
}

macro_rules! help {
    ($($order:ident $name:literal $help:literal),*) => {
        concat!("Which nodes are contracted first" $(, "; ", $name, ": ", $help)*)
    };
}

/// Which nodes workers contract first. Without workers the nodes are contracted by the order of their numbers.
#[derive(Clone, Copy, Debug, PartialEq, Eq)]
pub enum Order {
    /// Those whose contraction leaves the fewest arcs: edge difference.
    Edges,
    /// Edge difference plus the number of contracted neighbours.
    Neighbours,
    /// Edge difference plus the depth of the node.
    Depth,
    /// Those with the fewest shortcuts per removed arc, plus the depth of the node.
    Balanced,
}

impl Order {
    /// All of them.
    pub const ALL: [Order; 4] = table!(orders);

    /// Their names, in the same order.
    pub const NAMES: [&'static str; 4] = table!(names);

    /// The help for the option: which nodes go first by each.
    pub const HELP: &'static str = table!(help);

    /// How many of the first ones take turns, where a worker changes its order.
    const TURNS: usize = 3;

    /// Returns the order of this name, if there is one.
    pub fn named(name: &str) -> Option<Order>
        ensures some { IfSome result (λ order. orders.name_of order ≡ name.now) }
        ensures none { IfNone result ((order : Order) → orders.name_of order ≢ name.now) }
    {
        'orders: for order in Order::ALL {
            if order.name() == name {
                return Some(order);
            }
        }
        None
    }

    /// Its name on a command line.
    pub fn name(self) -> &'static str
        ensures { result.now ≡ orders.name_of self }
    {
        Order::NAMES[self as usize]
    }

    /// Whether it is one of those that take turns, where a worker changes its order.
    pub fn takes_turns(self) -> bool
        ensures { result ≡ orders.takes_turns self }
    {
        (self as usize) < Order::TURNS
    }

    /// This one, and then the others that take turns.
    pub(crate) fn and_others(self) -> Orders
        ensures { result ≡ orders.and_others self }
    {
        let mut all = Order::ALL;
        all[..=self as usize].rotate_right(1);
        let count = if self.takes_turns() {
            Order::TURNS
        } else {
            Order::TURNS + 1
        };
        Orders { all, count }
    }

    /// This one alone.
    pub(crate) fn alone(self) -> Orders
        ensures { result ≡ orders.alone self }
    {
        Orders {
            all: [self; 4],
            count: 1,
        }
    }
}

/// Orders by which a worker goes, one after the other.
#[derive(Drop)]
pub struct Orders {
    pub(crate) all: [Order; 4],
    pub(crate) count: usize,
}

impl Model for Orders {
    ghost use Rattle.std.specs.Prelude.{List, take, ◌≤◌};
    ghost use Rattle.jobs.specs.declared.orders.Order.{Order};

    ghost Value = { List Order };

    ghost view = { λ o. take o.count o.all };

    ghost invariant = { λ o. o.count ≤ 4 };
}

impl Orders {
    /// They, first to last.
    pub fn as_slice(&self) -> &[Order]
        ensures { result.now ≡ self.now }
    {
        &self.all[..self.count]
    }
}
