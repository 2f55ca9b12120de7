ghost use Rattle.std.specs.Prelude.{◌≡◌, ◌<◌, ◌≤◌, IfSome, IfNone};

/// How many workers prepare a hierarchy, 0 to 64.
#[derive(Clone, Copy, Debug, PartialEq, Eq)]
pub struct Workers {
    count: u32,
    ghost few: { count ≤ 64 },
}

impl Workers {
    /// The greatest number.
    pub const MAX: u32 = 64;

    /// Returns this many workers, or `None` if that is more than the greatest number.
    pub fn new(count: u32) -> Option<Workers>
        ensures count { IfSome result (λ workers. workers.count ≡ count) }
        ensures few { IfNone result (64 < count) }
    {
        if count <= Self::MAX {
            Some(Workers { count })
        } else {
            None
        }
    }

    /// Returns no workers: the calling thread does the work.
    pub fn none() -> Workers
        ensures { result.count ≡ 0 }
    {
        Workers { count: 0 }
    }

    /// Returns one worker.
    pub fn one() -> Workers
        ensures { result.count ≡ 1 }
    {
        Workers { count: 1 }
    }

    /// Returns the number of workers.
    pub fn count(self) -> u32
        ensures count { result ≡ self.count }
        ensures few { result ≤ 64 }
    {
        self.count
    }
}
