ghost use Rattle.std.specs.Prelude.{◌≡◌};
ghost use Rattle.hv_house.specs.declared.fault.HouseFault.TheVariants as fault;

use hv_base::NoMemory;
use std::alloc::AllocError;
use thiserror::Error;

/// Why a call of the house was refused.
#[derive(Clone, Copy, Debug, Error)]
pub enum HouseFault {
    /// The journal failed. The run ends.
    #[error("the store failed")]
    Store,
    /// A call on files failed, and the store counts so many faults. The house goes on.
    #[error("a call on files failed")]
    Failed { count: u64 },
    #[error("out of memory")]
    NoMemory,
}

impl From<NoMemory> for HouseFault {
    ghost from_gives = { λ _ e. e ≡ fault.NoMemory };

    fn from(_refused: NoMemory) -> HouseFault {
        HouseFault::NoMemory
    }
}

impl From<AllocError> for HouseFault {
    ghost from_gives = { λ _ e. e ≡ fault.NoMemory };

    fn from(_refused: AllocError) -> HouseFault {
        HouseFault::NoMemory
    }
}
