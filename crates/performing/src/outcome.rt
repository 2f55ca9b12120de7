ghost use Rattle.std.specs.Prelude.{◌≡◌};
ghost use Rattle.performing.specs.Status.{outcome_of};

use ch_service::ServiceError;
use outcomes::Ending;

/// Returns the outcome after a call that prepares or answers.
pub(crate) fn outcome_of(ended: Result<(), ServiceError>) -> Ending
    ensures { result ≡ outcome_of ended }
{
    match ended {
        Ok(()) => Ending::Done,
        Err(error) => Ending::Refused(error.cause()),
    }
}
