ghost use Rattle.std.specs.Prelude.{◌<◌, ◌≤◌};

use crate::options::Options;

/// Options of which each number is in its range.
#[derive(Clone, Copy)]
pub(crate) struct GoodOptions {
    pub(crate) options: Options,
    ghost many: { options.workers ≤ 64 },
    ghost heaps: { (1 ≤ options.heaps) × (options.heaps ≤ 4) },
    ghost some: { 0 < options.settle },
    ghost few: { options.settle ≤ 65536 },
}

/// Good options by which there is a worker at least.
#[derive(Clone, Copy)]
pub(crate) struct CrewOptions {
    pub(crate) options: Options,
    ghost workers: { 0 < options.workers },
    ghost many: { options.workers ≤ 64 },
    ghost heaps: { (1 ≤ options.heaps) × (options.heaps ≤ 4) },
    ghost some: { 0 < options.settle },
    ghost few: { options.settle ≤ 65536 },
}
