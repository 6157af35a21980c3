ghost use Rattle.std.specs.Prelude.{◌≡◌};

use hv_base::{Failed, NoMemory};
use std::alloc::AllocError;
use thiserror::Error;

/// Why a call of a store was refused. After `NoMemory` nothing has changed.
#[derive(Clone, Copy, Debug, Error)]
pub enum ShelfFault {
    /// The store failed; its count of faults rose.
    #[error("the store failed")]
    Failed,
    #[error("out of memory")]
    NoMemory,
}

impl From<Failed> for ShelfFault {
    ghost use Rattle.hv_shelf.specs.declared.fault.ShelfFault.TheVariants as fault;

    ghost from_gives = { λ _ e. e ≡ fault.Failed };

    fn from(_fault: Failed) -> ShelfFault {
        ShelfFault::Failed
    }
}

impl From<NoMemory> for ShelfFault {
    ghost use Rattle.hv_shelf.specs.declared.fault.ShelfFault.TheVariants as fault;

    ghost from_gives = { λ _ e. e ≡ fault.NoMemory };

    fn from(_refused: NoMemory) -> ShelfFault {
        ShelfFault::NoMemory
    }
}

impl From<AllocError> for ShelfFault {
    ghost use Rattle.hv_shelf.specs.declared.fault.ShelfFault.TheVariants as fault;

    ghost from_gives = { λ _ e. e ≡ fault.NoMemory };

    fn from(_refused: AllocError) -> ShelfFault {
        ShelfFault::NoMemory
    }
}
