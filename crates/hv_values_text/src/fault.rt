ghost use Rattle.std.specs.Prelude.{◌≡◌};

use hv_base::NoMemory as OutOfMemory;
use hv_lex::LexFault;
use std::alloc::{AllocError, AllocFailed};

/// Why no tree is given.
#[derive(Clone, Copy)]
pub enum Unread {
    /// The text isn't known here. It may be a statement all the same.
    Unknown,
    NoMemory,
}

impl From<OutOfMemory> for Unread {
    ghost use Rattle.hv_values_text.specs.declared.fault.Unread.{Unread};

    ghost from_gives = { λ _ e. e ≡ Unread.NoMemory };

    fn from(_refused: OutOfMemory) -> Unread {
        Unread::NoMemory
    }
}

impl From<AllocError> for Unread {
    ghost use Rattle.hv_values_text.specs.declared.fault.Unread.{Unread};

    ghost from_gives = { λ _ e. e ≡ Unread.NoMemory };

    fn from(_refused: AllocError) -> Unread {
        Unread::NoMemory
    }
}

impl<T: Drop> From<AllocFailed<T>> for Unread {
    ghost use Rattle.hv_values_text.specs.declared.fault.Unread.{Unread};

    ghost from_gives = { λ _ e. e ≡ Unread.NoMemory };

    fn from(_refused: AllocFailed<T>) -> Unread {
        Unread::NoMemory
    }
}

impl From<LexFault> for Unread {
    ghost use Rattle.hv_values_text.specs.Passing.{unread_by};

    ghost from_gives = { λ fault e. e ≡ unread_by fault };

    fn from(fault: LexFault) -> Unread {
        match fault {
            LexFault::BadCharacter { .. } => Unread::Unknown,
            LexFault::OpenString { .. } => Unread::Unknown,
            LexFault::WideNumber { .. } => Unread::Unknown,
            LexFault::NoMemory => Unread::NoMemory,
        }
    }
}
