ghost use Rattle.std.specs.Prelude.{◌≡◌, [], IfOk};

use std::alloc::AllocError;

/// Returns an empty list with room for this many items, in the memory of an earlier one where that is enough.
pub fn emptied<T: Drop>(earlier: Vec<T>, room: usize) -> Result<Vec<T>, AllocError>
    ensures { IfOk result (λ list. list.items ≡ []) }
{
    let mut list = earlier;
    list.clear();
    list.reserve(room)?;
    Ok(list)
}
