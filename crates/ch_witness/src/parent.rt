ghost use Rattle.std.specs.Prelude.{◌≡◌, ◌-◌, ◌<◌, ◌^◌, Some};

use std::marker::Model;

/// The place of the step that a way goes on from, or `None` at the start: an `Option<usize>` in 4 bytes, since a search
/// has fewer than 2^32 steps.
#[derive(Clone, Copy)]
pub struct Parent {
    // The place, or the greatest number for none.
    number: u32,
}

impl Model for Parent {
    ghost use Rattle.std.specs.Prelude.{Option, ℕ};
    ghost use Rattle.ch_witness.specs.Parent.{inside_of, number_of, place_in};

    ghost Value = { Option ℕ };

    ghost view = { λ b. place_in b.number };

    ghost inverse = { λ b. record { number = number_of b } };

    ghost inverse_ok = { λ a _. inside_of a };
}

impl Parent {
    /// The start has no step before it.
    pub const NONE: Parent = Parent { number: u32::MAX };

    /// Returns the step at a place below 2^32 - 1.
    pub fn at(place: usize) -> Parent
        requires { place < 2 ^ 32 - 1 }
        ensures { result ≡ Some place }
    {
        Parent {
            number: place as u32,
        }
    }

    /// Returns the place, or `None`.
    pub fn place(self) -> Option<usize>
        ensures { result ≡ self }
    {
        if self.number == u32::MAX {
            return None;
        }
        Some(self.number as usize)
    }
}
