ghost use Rattle.std.specs.Prelude.{◌≡◌};
ghost use Rattle.outcomes.specs.Outcomes.{IsQuiet, ending_after, status_after};

use crate::cause::Cause;
use std::io::Write;

/// How a job ended.
#[derive(Clone, Copy, Debug, PartialEq, Eq)]
pub enum Ending {
    /// All is done. Of a check: the hierarchy is right for the graph.
    Done,
    /// A check found that the hierarchy isn't right for the graph.
    Wrong,
    /// A check didn't show that it is.
    NotShown,
    /// The job was refused.
    Refused(Cause),
}

impl Ending {
    /// Returns the outcome of a call that is done or refused.
    pub fn after(ended: Result<(), Cause>) -> Ending
        ensures { result ≡ ending_after ended }
    {
        match ended {
            Ok(()) => Ending::Done,
            Err(cause) => Ending::Refused(cause),
        }
    }

    /// Returns the exit status of the program.
    pub fn status(&self) -> u8
        ensures { result ≡ status_after self.now }
    {
        match self {
            Ending::Done => 0,
            Ending::Wrong => 9,
            Ending::NotShown => 10,
            Ending::Refused(cause) => cause.status(),
        }
    }

    /// Writes the line of a refusal, and returns the status. A line that can't be written is not reported.
    pub fn report<E: Write>(&self, err: &mut E) -> u8
        ensures status { result ≡ status_after self.now }
        ensures quiet { IsQuiet result → err.new ≡ err.old }
    {
        match self {
            Ending::Refused(cause) => {
                let _ = writeln!(err, "routecli: {cause}");
                cause.status()
            }
            _ => self.status(),
        }
    }
}
