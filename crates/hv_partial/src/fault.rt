ghost use Rattle.std.specs.Prelude.{◌≡◌};

use hv_base::NoMemory;
use std::alloc::{AllocError, AllocFailed};

/// Why an expression isn't lifted.
#[derive(Clone, Copy)]
pub(crate) enum NotLifted {
    NoMemory,
    /// An aggregate of it needs the rows themselves.
    NeedsRows,
}

impl From<NoMemory> for NotLifted {
    ghost use Rattle.hv_partial.specs.declared.fault.NotLifted.TheVariants as why;

    ghost from_gives = { λ _ e. e ≡ why.NoMemory };

    fn from(_refused: NoMemory) -> NotLifted {
        NotLifted::NoMemory
    }
}

impl From<AllocError> for NotLifted {
    ghost use Rattle.hv_partial.specs.declared.fault.NotLifted.TheVariants as why;

    ghost from_gives = { λ _ e. e ≡ why.NoMemory };

    fn from(_refused: AllocError) -> NotLifted {
        NotLifted::NoMemory
    }
}

impl<T: Drop> From<AllocFailed<T>> for NotLifted {
    ghost use Rattle.hv_partial.specs.declared.fault.NotLifted.TheVariants as why;

    ghost from_gives = { λ _ e. e ≡ why.NoMemory };

    fn from(_refused: AllocFailed<T>) -> NotLifted {
        NotLifted::NoMemory
    }
}
