ghost use Rattle.std.specs.Prelude.{◌≡◌};
ghost use Rattle.domethyme_c.specs.Codes.{fault_code, numbers_code};

use ch_sums::NumbersError;
use hierfile::HierError;

/// The call did what it was asked.
pub const OK: u32 = 0;
/// No path leads from the source to the target.
pub const NO_PATH: u32 = 1;
/// The handle is closed.
pub const NO_HANDLE: u32 = 2;
/// A node isn't below the number of nodes.
pub const NODE_RANGE: u32 = 3;
/// An array is too short for the answer.
pub const NO_ROOM: u32 = 4;
/// Memory was refused.
pub const OUT_OF_MEMORY: u32 = 5;
/// The route would repeat a node.
pub const TOO_LONG: u32 = 6;
/// A start or an end has a length above 2^57, or more than 2^25 arcs.
pub const SEED_COST: u32 = 7;
/// A limit is above 2^62 and isn't the number that stands for none.
pub const BAD_LIMIT: u32 = 8;
/// There isn't one number for each link without a middle.
pub const NUMBER_COUNT: u32 = 9;
/// The numbers of the arcs that a link represents sum to more than 2^36.
pub const NUMBER_GREAT: u32 = 10;

/// An array is no set of numbers of the handle's hierarchy.
pub const BAD_SET: u32 = 11;

/// Stands for a length where there is no path.
pub const NO_LENGTH: u64 = 0xffff_ffff_ffff_ffff;

/// The code of a file's error.
pub(crate) fn code_of(error: HierError) -> u32
    ensures { result ≡ fault_code error }
{
    match error {
        HierError::OutOfMemory => OUT_OF_MEMORY,
        HierError::Read => 34,
        HierError::BadMagic => 35,
        HierError::Truncated => 36,
        HierError::TooBig => 37,
        HierError::BoundTooBig => 38,
        HierError::RankRange => 39,
        HierError::RankTwice => 40,
        HierError::LinkEnds => 41,
        HierError::LinkOrder => 42,
        HierError::LinkWeight => 43,
        HierError::MiddleRange => 44,
        HierError::MiddleRank => 45,
        HierError::HalfMissing => 46,
        HierError::HalfSum => 47,
        HierError::Trailing => 48,
    }
}

/// The code of a refusal of numbers.
pub(crate) fn numbers_code(error: NumbersError) -> u32
    ensures { result ≡ numbers_code error }
{
    match error {
        NumbersError::OutOfMemory => OUT_OF_MEMORY,
        NumbersError::Count => NUMBER_COUNT,
        NumbersError::TooGreat => NUMBER_GREAT,
    }
}
