ghost use Rattle.std.specs.Prelude.{◌≡◌, Err};

use crate::error::ServiceError;
use ch_estimate::{Estimator, Leases};
use std::sync::Wait;

/// Refuses for this reason, where nothing was built: drops the estimators, and waits until no lease is out.
pub(crate) fn refuse<R: Wait>(
    rt: &R,
    why: ServiceError,
    lists: Vec<Vec<Box<dyn Estimator + Send>>>,
    leases: &mut Leases,
) -> Result<(), ServiceError>
    ensures refused { result ≡ Err why }
    ensures leases { leases.new ≡ record leases.old { out = 0 } }
{
    drop(lists);
    leases.wait(rt);
    Err(why)
}
