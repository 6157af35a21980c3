ghost use Rattle.std.specs.Prelude.{◌≡◌};
ghost use Rattle.hv_rowfile.specs.declared.fault.FileFault.TheVariants.{NoMemory as no_memory};

use std::alloc::{AllocError, AllocFailed};
use thiserror::Error;

/// Why a file was not read.
#[derive(Clone, Copy, Debug, PartialEq, Eq, Error)]
pub enum FileFault {
    /// The bytes are no file: at this offset stands the first part of the head, or the first record, that
    /// is wrong or cut off, or what follows the last record.
    #[error("damaged at byte {at}")]
    Damaged { at: u64 },
    /// Memory could not be had.
    #[error("out of memory")]
    NoMemory,
}

impl From<AllocError> for FileFault {
    ghost from_gives = { λ _ e. e ≡ no_memory };

    fn from(_refused: AllocError) -> FileFault {
        FileFault::NoMemory
    }
}

impl<T: Drop> From<AllocFailed<T>> for FileFault {
    ghost from_gives = { λ _ e. e ≡ no_memory };

    fn from(_refused: AllocFailed<T>) -> FileFault {
        FileFault::NoMemory
    }
}
