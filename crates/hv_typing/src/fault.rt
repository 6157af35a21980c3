ghost use Rattle.std.specs.Prelude.{◌≡◌};

use hv_base::{NoMemory, Refusal};
use std::alloc::{AllocError, AllocFailed};

/// Why something has no type: it is refused for its first fault, or memory ran out.
#[derive(Clone, Copy)]
pub enum TypeFault {
    Refused(Refusal),
    NoMemory,
}

impl From<NoMemory> for TypeFault {
    ghost use Rattle.hv_typing.specs.declared.fault.TypeFault.TheVariants as fault;

    ghost from_gives = { λ _ e. e ≡ fault.NoMemory };

    fn from(_refused: NoMemory) -> TypeFault {
        TypeFault::NoMemory
    }
}

impl From<AllocError> for TypeFault {
    ghost use Rattle.hv_typing.specs.declared.fault.TypeFault.TheVariants as fault;

    ghost from_gives = { λ _ e. e ≡ fault.NoMemory };

    fn from(_refused: AllocError) -> TypeFault {
        TypeFault::NoMemory
    }
}

impl<T: Drop> From<AllocFailed<T>> for TypeFault {
    ghost use Rattle.hv_typing.specs.declared.fault.TypeFault.TheVariants as fault;

    ghost from_gives = { λ _ e. e ≡ fault.NoMemory };

    fn from(_refused: AllocFailed<T>) -> TypeFault {
        TypeFault::NoMemory
    }
}
