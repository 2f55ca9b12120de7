ghost use Rattle.std.specs.Prelude.{◌≡◌};
ghost use Rattle.ch_query.specs.Climb.{foot_of, head_of};

use ch_graph::Link;

/// A side of a query. Both climb in rank, from the foot of a link to its head: one from the source, and one from the target
/// against the links.
#[derive(Clone, Copy)]
pub enum Side {
    /// From the source, along links that rise.
    Rise,
    /// From the target, against links that fall.
    Fall,
}

impl Side {
    /// Returns the end where the side comes to a link.
    pub fn foot(self, link: &Link) -> u32
        ensures { result ≡ foot_of self link.now }
    {
        match self {
            Side::Rise => link.from,
            Side::Fall => link.to,
        }
    }

    /// Returns the end where it leaves the link.
    pub fn head(self, link: &Link) -> u32
        ensures { result ≡ head_of self link.now }
    {
        match self {
            Side::Rise => link.to,
            Side::Fall => link.from,
        }
    }
}
