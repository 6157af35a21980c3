ghost use Rattle.std.specs.Prelude.{◌≡◌};
ghost use Rattle.hv_journal.specs.declared.fault.JournalFault.TheVariants.{NoMemory as no_memory};

use std::alloc::AllocFailed;
use thiserror::Error;

/// Why a journal was not read.
#[derive(Clone, Copy, Debug, Error)]
pub enum JournalFault {
    /// At this offset there is no gate, or an open one behind which no record stands.
    #[error("bad journal at byte {at}")]
    BadJournal { at: u64 },
    /// Memory could not be had.
    #[error("out of memory")]
    NoMemory,
}

impl<T: Drop> From<AllocFailed<T>> for JournalFault {
    ghost from_gives = { λ _ e. e ≡ no_memory };

    fn from(_refused: AllocFailed<T>) -> JournalFault {
        JournalFault::NoMemory
    }
}
