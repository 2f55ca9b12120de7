ghost use Rattle.ch_contract.specs.Ledger.{IsLog};

use ch_contract::Contraction;
use ch_estimate::Estimator;
use ch_workers::Listener;
use std::alloc::AllocError;

/// Passes a listener each entry of the log that it hasn't received, in order.
pub(crate) fn tell_rest<E: Estimator>(
    log: &[Contraction],
    listener: &mut Listener<E>,
) -> Result<(), AllocError>
    requires { IsLog log.now }
{
    let told = listener.told() as usize;
    'ranks: for rank in told..log.len() {
        listener.tell(&log[rank])?;
    }
    Ok(())
}
