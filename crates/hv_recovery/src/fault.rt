ghost use Rattle.std.specs.Prelude.{◌≡◌};
ghost use Rattle.hv_recovery.specs.declared.fault.OpenFault.TheVariants as fault;

use hv_base::NoMemory;
use hv_journal::JournalFault;
use hv_shelf::ShelfFault;
use thiserror::Error;

/// Why a journal was not read.
#[derive(Clone, Copy, Debug, PartialEq, Eq, Error)]
pub enum OpenFault {
    /// At this offset there is no gate, or an open one behind which no record stands whose entry
    /// fits the ones before it.
    #[error("bad journal at byte {at}")]
    BadJournal { at: u64 },
    /// The store failed; its count of faults rose.
    #[error("the store failed")]
    Failed,
    /// Memory could not be had.
    #[error("out of memory")]
    NoMemory,
}

impl From<NoMemory> for OpenFault {
    ghost from_gives = { λ _ e. e ≡ fault.NoMemory };

    fn from(_refused: NoMemory) -> OpenFault {
        OpenFault::NoMemory
    }
}

impl From<ShelfFault> for OpenFault {
    ghost use Rattle.hv_recovery.specs.Causes.{of_store};

    ghost from_gives = { λ fault e. e ≡ of_store fault };

    fn from(fault: ShelfFault) -> OpenFault {
        match fault {
            ShelfFault::Failed => OpenFault::Failed,
            ShelfFault::NoMemory => OpenFault::NoMemory,
        }
    }
}

impl From<JournalFault> for OpenFault {
    ghost use Rattle.hv_recovery.specs.Causes.{of_gate};

    ghost from_gives = { λ fault e. e ≡ of_gate fault };

    fn from(fault: JournalFault) -> OpenFault {
        match fault {
            JournalFault::BadJournal { at } => OpenFault::BadJournal { at },
            JournalFault::NoMemory => OpenFault::NoMemory,
        }
    }
}
