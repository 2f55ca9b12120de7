ghost use Rattle.std.specs.Prelude.{◌≡◌, ◌≢◌, ◌↔◌};
ghost use Rattle.ch_workers.specs.declared.error.BuildError.TheVariants as building;
ghost use Rattle.ch_workers.specs.declared.trouble.Trouble.TheVariants.{OutOfMemory, Mixed};
ghost use Rattle.ch_contract.specs.declared.error.SweepError.TheVariants as sweeping;
ghost use Rattle.ch_rowbook.specs.declared.error.BookError.TheVariants as books;

use crate::error::BuildError;
use ch_contract::SweepError;
use ch_rowbook::BookError;
use std::alloc::AllocError;

/// Why a hierarchy wasn't built by good options.
#[derive(Clone, Copy)]
pub(crate) enum Trouble {
    /// Out of memory.
    OutOfMemory,
    /// The receipts and the log, the accounts of the queue, or the places of the book's records don't agree.
    Mixed,
}

impl Trouble {
    /// The error that reports it.
    pub(crate) fn error(self) -> BuildError
        ensures good { result ≢ building.BadOptions }
        ensures memory { (result ≡ building.OutOfMemory) ↔ (self ≡ OutOfMemory) }
        ensures mixed { (result ≡ building.Mixed) ↔ (self ≡ Mixed) }
    {
        match self {
            Trouble::OutOfMemory => BuildError::OutOfMemory,
            Trouble::Mixed => BuildError::Mixed,
        }
    }
}

impl From<AllocError> for Trouble {
    ghost from_gives = { λ _ e. e ≡ OutOfMemory };

    fn from(_refused: AllocError) -> Trouble {
        Trouble::OutOfMemory
    }
}

impl From<BookError> for Trouble {
    ghost from_gives = { λ s e. (e ≡ OutOfMemory) ↔ (s ≡ books.OutOfMemory) };

    fn from(refused: BookError) -> Trouble {
        match refused {
            BookError::OutOfMemory => Trouble::OutOfMemory,
            BookError::Slot => Trouble::Mixed,
        }
    }
}

impl From<SweepError> for Trouble {
    ghost from_gives = { λ s e. (e ≡ OutOfMemory) ↔ (s ≡ sweeping.OutOfMemory) };

    fn from(refused: SweepError) -> Trouble {
        match refused {
            SweepError::OutOfMemory => Trouble::OutOfMemory,
            SweepError::Slot => Trouble::Mixed,
        }
    }
}
