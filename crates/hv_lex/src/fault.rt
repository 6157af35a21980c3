ghost use Rattle.std.specs.Prelude.{◌≡◌};

use hv_base::NoMemory as OutOfMemory;
use std::alloc::{AllocError, AllocFailed};
use thiserror::Error;

/// Why a text has no tokens: its first fault by place. Places are offsets of bytes from 0.
#[derive(Clone, Copy, Debug, PartialEq, Eq, Error)]
pub enum LexFault {
    /// A character that stands in no token, or not where it stands.
    #[error("bad character at {at}")]
    BadCharacter { at: u64 },
    /// A quote or a backquote that nothing closes.
    #[error("open string at {at}")]
    OpenString { at: u64 },
    /// A number above 9223372036854775807, at its first digit.
    #[error("number too wide at {at}")]
    WideNumber { at: u64 },
    #[error("out of memory")]
    NoMemory,
}

impl From<OutOfMemory> for LexFault {
    ghost use Rattle.hv_lex.specs.declared.fault.LexFault.{LexFault};

    ghost from_gives = { λ _ e. e ≡ LexFault.NoMemory };

    fn from(_refused: OutOfMemory) -> LexFault {
        LexFault::NoMemory
    }
}

impl From<AllocError> for LexFault {
    ghost use Rattle.hv_lex.specs.declared.fault.LexFault.{LexFault};

    ghost from_gives = { λ _ e. e ≡ LexFault.NoMemory };

    fn from(_refused: AllocError) -> LexFault {
        LexFault::NoMemory
    }
}

impl<T: Drop> From<AllocFailed<T>> for LexFault {
    ghost use Rattle.hv_lex.specs.declared.fault.LexFault.{LexFault};

    ghost from_gives = { λ _ e. e ≡ LexFault.NoMemory };

    fn from(_refused: AllocFailed<T>) -> LexFault {
        LexFault::NoMemory
    }
}
