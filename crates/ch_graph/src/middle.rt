ghost use Rattle.std.specs.Prelude.{◌≡◌, ◌-◌, ◌<◌, ◌^◌, Some};
ghost use Rattle.ch_graph.specs.Middle.{same_middles, same_middles-laws, same_middles-partial};

use std::marker::Model;

/// The node where the two halves of a link or of an entry meet, or `None`: an `Option<u32>` in 4 bytes, since no node has
/// the number 2^32 - 1.
#[derive(Clone, Copy, Debug)]
pub struct Middle {
    // The node, or the greatest number for none.
    number: u32,
}

impl Model for Middle {
    ghost use Rattle.std.specs.Prelude.{Option, ℕ};
    ghost use Rattle.ch_graph.specs.Middle.{inside_of, node_in, number_of};

    ghost Value = { Option ℕ };

    ghost view = { λ m. node_in m.number };

    ghost inverse = { λ m. record { number = number_of m } };

    ghost inverse_ok = { λ a _. inside_of a };
}

impl Middle {
    /// The middle of an arc of the graph.
    pub const NONE: Middle = Middle { number: u32::MAX };

    /// The middle that is this node, whose number is below 2^32 - 1.
    pub fn at(node: u32) -> Middle
        requires { node < 2 ^ 32 - 1 }
        ensures { result ≡ Some node }
    {
        Middle { number: node }
    }

    /// Returns the node, or `None`.
    pub fn node(self) -> Option<u32>
        ensures { result ≡ self }
    {
        if self.number == u32::MAX {
            return None;
        }
        Some(self.number)
    }
}

impl PartialEq for Middle {
    ghost eq = { same_middles };

    ghost laws = { same_middles-partial };

    fn eq(&self, other: &Middle) -> bool {
        self.node() == other.node()
    }
}

impl Eq for Middle {
    ghost laws = { same_middles-laws };
}
