ghost use Rattle.std.specs.Prelude.{◌≡◌, ◌<◌, ℕ, length, option_map, IfOk};
ghost use Rattle.ch_graph.specs.Graph.{Graph};
ghost use Rattle.ch_laws.specs.ByWeight.{IsRightByWeight};
ghost use Rattle.ch_sums.specs.Numbers.{AreSums, IsLengthBy, IsSummed};

use crate::laws::sums_are_along;
use crate::numbers::Numbers;
use ch_query::{HierarchyRef, SearchOf};
use std::alloc::AllocError;

/// How long a shortest path is, and what the numbers of its arcs sum to.
#[derive(Clone, Copy, Debug, PartialEq, Eq)]
pub struct Summed {
    /// The least length.
    pub length: u64,
    /// The sum: at most 2^62.
    pub sum: u64,
}

/// Returns the least length of a path from the first node of the pair to the second, and what the numbers of the arcs of
/// some path of that length sum to, or `None` where there is no path.
///
/// The numbers are those of the search's hierarchy. Of several shortest paths it is one with the fewest arcs, in version 2.
/// Takes the time of [`Search::distance`](ch_query::Search::distance).
pub fn sum_along<H: HierarchyRef>(
    search: &mut SearchOf<H>,
    numbers: &Numbers,
    pair: (u32, u32),
) -> Result<Option<Summed>, AllocError>
    requires source_in { pair.0 < length search.old.ranks }
    requires target_in { pair.1 < length search.old.ranks }
    requires numbers { length numbers.now ≡ length search.old.links }
    ensures length { IfOk result (λ found. IsLengthBy search.old pair.0 pair.1 (option_map (λ f. f.length) found)) }
    ensures along { IfOk result (λ found. (g : Graph) (number : ℕ → ℕ → ℕ) → IsRightByWeight g search.old → AreSums search.old number numbers.now → IsSummed g number pair.0 pair.1 found) }
    ensures kept { search.new ≡ search.old }
{
    sums_are_along();
    let _well_made = search.hierarchy().nodes();
    match search.distance(pair.0, pair.1)? {
        None => Ok(None),
        Some(found) => {
            let sum = numbers.along(&found.links);
            let length = found.cost.length();
            Ok(Some(Summed { length, sum }))
        }
    }
}
