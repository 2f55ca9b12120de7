ghost use Rattle.std.specs.Prelude.{◌≡◌, ◌<◌, ◌≤◌, ◌⊎◌, ◌^◌, IfSome, IfNone};

/// How many commits a worker makes by one order before it changes to the next, 1 to 1,099,511,627,776.
#[derive(Clone, Copy, Debug, PartialEq, Eq)]
pub struct Stint {
    commits: u64,
    ghost some: { 0 < commits },
    ghost few: { commits ≤ 2 ^ 40 },
}

impl Stint {
    /// The greatest number of commits.
    pub const MAX: u64 = 1_099_511_627_776;

    /// Returns this many commits, or `None` if that is none or more than the greatest number.
    pub fn new(commits: u64) -> Option<Stint>
        ensures commits { IfSome result (λ stint. stint.commits ≡ commits) }
        ensures outside { IfNone result ((commits ≡ 0) ⊎ (2 ^ 40 < commits)) }
    {
        if commits > 0 && commits <= Self::MAX {
            Some(Stint { commits })
        } else {
            None
        }
    }

    /// Returns the longest stint.
    pub fn longest() -> Stint
        ensures { result.commits ≡ 2 ^ 40 }
    {
        Stint { commits: Self::MAX }
    }

    /// Returns the number of commits.
    pub fn commits(self) -> u64
        ensures commits { result ≡ self.commits }
        ensures some { 0 < result }
        ensures few { result ≤ 2 ^ 40 }
    {
        self.commits
    }
}
