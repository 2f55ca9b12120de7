ghost use Rattle.std.specs.Prelude.{◌↔◌, IsTrue, IsFalse};
ghost use Rattle.ch_workers.specs.Options.{AreBad, AreGood};

/// How workers contract the nodes of a graph.
#[derive(Clone, Copy, Debug, PartialEq, Eq)]
pub struct Options {
    /// How many threads propose, 0 to 64. With 0 the nodes are contracted by the order of their numbers.
    pub workers: u32,
    /// How many sequential heaps the queue has for each worker, 1 to 4.
    pub heaps: u32,
    /// The seed of the generators that choose among heaps.
    pub seed: u64,
    /// How many nodes a witness search settles at most, 1 to 65,536.
    pub settle: u32,
    /// How often a node is put back for a greater key between two commits of a worker, 0 to 65,535.
    pub defer: u32,
    /// How many turns a worker takes at most, 1 to 2^40.
    pub turns: u64,
    /// How many commits a worker makes by an estimator before it goes on with the next of its list, 1 to 2^40.
    pub stint: u64,
}

impl Options {
    /// The greatest number of workers.
    pub const MAX_WORKERS: u32 = 64;

    /// The greatest number of heaps for each worker.
    pub const MAX_HEAPS: u32 = 4;

    /// The greatest number of nodes that a witness search may settle.
    pub const MAX_SETTLE: u32 = 65_536;

    /// The greatest number of times that a node may be put back.
    pub const MAX_DEFER: u32 = 65_535;

    /// The greatest number of turns.
    pub const MAX_TURNS: u64 = 1_099_511_627_776;

    /// The greatest number of commits by an estimator that has a next one.
    pub const MAX_STINT: u64 = 1_099_511_627_776;

    /// No workers: the calling thread contracts all nodes. The other numbers are the program's defaults: two heaps for each
    /// worker, 64 nodes for a search, 16 nodes put back, 2^32 turns, and one estimator for all of a worker's commits.
    pub const PLAIN: Options = Options {
        workers: 0,
        heaps: 2,
        seed: 1,
        settle: 64,
        defer: 16,
        turns: 1 << 32,
        stint: Self::MAX_STINT,
    };

    /// Whether a number is outside its range, or the number of lists isn't `workers`.
    pub fn are_bad(self, lists: usize) -> bool
        ensures bad { IsTrue result ↔ AreBad self lists }
        ensures good { IsFalse result → AreGood self lists }
    {
        if self.workers > Self::MAX_WORKERS {
            return true;
        }
        if self.heaps < 1 || self.heaps > Self::MAX_HEAPS {
            return true;
        }
        if self.settle < 1 || self.settle > Self::MAX_SETTLE {
            return true;
        }
        if self.defer > Self::MAX_DEFER {
            return true;
        }
        if self.turns < 1 || self.turns > Self::MAX_TURNS {
            return true;
        }
        if self.stint < 1 || self.stint > Self::MAX_STINT {
            return true;
        }
        lists != self.workers as usize
    }
}
