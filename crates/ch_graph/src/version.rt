ghost use Rattle.std.specs.Prelude.{◌≡◌};
ghost use Rattle.ch_graph.specs.Hierarchy.{version_number};

/// The version of the file that a hierarchy is of, which says what its costs count.
#[derive(Clone, Copy)]
pub enum Version {
    /// Costs are weights alone, and no link weighs nothing.
    One,
    /// Costs are weights and arcs.
    Two,
}

impl Version {
    /// Its number: 1 or 2.
    pub fn number(self) -> u8
        ensures { result ≡ version_number self }
    {
        match self {
            Version::One => 1,
            Version::Two => 2,
        }
    }
}
