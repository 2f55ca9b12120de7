ghost use Rattle.std.specs.Prelude.{◌≡◌};
ghost use Rattle.ch_cost.specs.ShortCost.{no_short, short_of, kept_in};

use crate::cost::Cost;

/// A cost in half its memory, where it fits.
///
/// For lists that are long and often read; a cost that doesn't fit has to be read elsewhere. No call takes memory or
/// fails.
#[derive(Clone, Copy, Debug)]
pub struct ShortCost {
    // The length, or the greatest number for any cost that doesn't fit.
    length: u32,
    // How many arcs.
    arcs: u32,
}

impl ShortCost {
    /// Returns the short form of no cost: it keeps none.
    pub fn none() -> ShortCost
        ensures { result ≡ no_short }
    {
        ShortCost {
            length: u32::MAX,
            arcs: 0,
        }
    }

    /// Returns the short form of a cost.
    pub fn of(cost: Cost) -> ShortCost
        ensures { result ≡ short_of cost }
    {
        let most = u64::from(u32::MAX);
        let (length, arcs) = (cost.length(), cost.arcs());
        if (length < most) & (arcs <= most) {
            return ShortCost {
                length: length as u32,
                arcs: arcs as u32,
            };
        }
        ShortCost::none()
    }

    /// Returns the cost that it was made of, or `None` where that didn't fit.
    pub fn cost(self) -> Option<Cost>
        ensures { result ≡ kept_in self }
    {
        if self.length == u32::MAX {
            return None;
        }
        Some(Cost::of_walk(u64::from(self.length), u64::from(self.arcs)))
    }
}
