ghost use Rattle.std.specs.Prelude.{◌≡◌, Some};
ghost use Rattle.ch_service.specs.Cause.{cause_of};
ghost use Rattle.ch_service.specs.declared.error.ServiceError.TheVariants.{Build, OutOfMemory, Unpack, Write};
ghost use Rattle.outcomes.specs.Causes.{shown};

use ch_route::UnpackError;
use ch_workers::BuildError;
use counted_io::WriteFault;
use grfile::GrError;
use hierfile::HierError;
use outcomes::Cause;
use std::alloc::AllocError;
use std::error::Error;
use std::fmt;

/// Why a call didn't do its work.
///
/// What is shown of one is what is shown of its [`cause`](ServiceError::cause).
#[derive(Clone, Copy, Debug, PartialEq, Eq)]
pub enum ServiceError {
    /// The text of the graph was refused, or couldn't be read.
    Graph(GrError),
    /// The query file was refused, or couldn't be read.
    Queries(GrError),
    /// The file of the hierarchy was refused, or couldn't be read.
    Hierarchy(HierError),
    /// No hierarchy was built: memory ran out, the options are bad, or what the workers reported doesn't agree.
    Build(BuildError),
    /// The route of a pair wasn't found: memory ran out, or the route is too long. It would repeat a node then, so the
    /// hierarchy isn't right for any graph.
    Unpack(UnpackError),
    /// The answers, or the file of the hierarchy, couldn't be written.
    Write(WriteFault),
    /// Memory ran out beside the reading, the build and the search for a route.
    OutOfMemory,
}

impl ServiceError {
    /// Returns what it comes of.
    pub fn cause(&self) -> Cause
        ensures { result ≡ cause_of self.now }
    {
        match self {
            ServiceError::Graph(fault) => Cause::of_graph(*fault),
            ServiceError::Queries(fault) => Cause::of_queries(*fault),
            ServiceError::Hierarchy(fault) => Cause::of_hierarchy(*fault),
            ServiceError::Build(fault) => match fault {
                BuildError::OutOfMemory => Cause::Memory,
                BuildError::BadOptions => Cause::Options,
                BuildError::Mixed => Cause::Mixed,
            },
            ServiceError::Unpack(fault) => match fault {
                UnpackError::OutOfMemory => Cause::Memory,
                UnpackError::TooLong => Cause::TooLong,
            },
            ServiceError::Write(fault) => Cause::Write(*fault),
            ServiceError::OutOfMemory => Cause::Memory,
        }
    }
}

impl fmt::Display for ServiceError {
    ghost output = { λ e. Some (shown (cause_of e)) };

    fn fmt<W: fmt::Write>(&self, f: &mut fmt::Formatter<W>) -> fmt::Result {
        let cause = self.cause();
        write!(f, "{cause}")
    }
}

impl Error for ServiceError {}

impl From<AllocError> for ServiceError {
    ghost from_gives = { λ _ e. e ≡ OutOfMemory };

    fn from(_refused: AllocError) -> ServiceError {
        ServiceError::OutOfMemory
    }
}

impl From<BuildError> for ServiceError {
    ghost from_gives = { λ fault e. e ≡ Build fault };

    fn from(fault: BuildError) -> ServiceError {
        ServiceError::Build(fault)
    }
}

impl From<WriteFault> for ServiceError {
    ghost from_gives = { λ fault e. e ≡ Write fault };

    fn from(fault: WriteFault) -> ServiceError {
        ServiceError::Write(fault)
    }
}

impl From<UnpackError> for ServiceError {
    ghost from_gives = { λ fault e. e ≡ Unpack fault };

    fn from(fault: UnpackError) -> ServiceError {
        ServiceError::Unpack(fault)
    }
}
