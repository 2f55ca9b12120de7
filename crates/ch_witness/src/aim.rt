use ch_cost::Cost;

/// What a search may know of a target before it begins, so as to end earlier.
///
/// It is trusted with nothing: where it is wrong, a way is missed or isn't the best, and each that is found is one.
#[derive(Clone, Copy, Debug)]
pub struct Aim {
    /// No way that costs more than this is wanted.
    pub enough: Cost,
    /// What each arc to the target costs at least, but for one from the start.
    pub last_arc: Cost,
}
