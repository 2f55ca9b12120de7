ghost use Rattle.ch_overlay.specs.Records.{mark_of};

use boxcar::tag::Names;
use ch_cost::Cost;

/// How a list of records is marked with the bound of its rows.
pub(crate) struct Bounds;

impl Names<Cost> for Bounds {
    ghost numbers = { mark_of };
}
