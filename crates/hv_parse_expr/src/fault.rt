ghost use Rattle.std.specs.Prelude.{◌≡◌};

use hv_base::NoMemory as OutOfMemory;
use std::alloc::{AllocError, AllocFailed};
use thiserror::Error;

/// Why tokens are no expression or no statement.
#[derive(Clone, Copy, Debug, PartialEq, Eq, Error)]
pub enum ParseFault {
    /// The token at this place of the text opens level 65 of brackets and CASE.
    #[error("nested too deep at {at}")]
    Nesting { at: u64 },
    #[error("syntax")]
    Syntax,
    #[error("out of memory")]
    NoMemory,
}

/// Why a rule of the grammar reads nothing.
#[derive(Clone, Copy, Debug, PartialEq, Eq, Error)]
pub enum ReadFault {
    #[error("syntax")]
    Syntax,
    #[error("out of memory")]
    NoMemory,
}

impl From<OutOfMemory> for ReadFault {
    ghost use Rattle.hv_parse_expr.specs.declared.fault.ReadFault.{ReadFault};

    ghost from_gives = { λ _ e. e ≡ ReadFault.NoMemory };

    fn from(_refused: OutOfMemory) -> ReadFault {
        ReadFault::NoMemory
    }
}

impl From<AllocError> for ReadFault {
    ghost use Rattle.hv_parse_expr.specs.declared.fault.ReadFault.{ReadFault};

    ghost from_gives = { λ _ e. e ≡ ReadFault.NoMemory };

    fn from(_refused: AllocError) -> ReadFault {
        ReadFault::NoMemory
    }
}

impl<T: Drop> From<AllocFailed<T>> for ReadFault {
    ghost use Rattle.hv_parse_expr.specs.declared.fault.ReadFault.{ReadFault};

    ghost from_gives = { λ _ e. e ≡ ReadFault.NoMemory };

    fn from(_refused: AllocFailed<T>) -> ReadFault {
        ReadFault::NoMemory
    }
}

impl From<ReadFault> for ParseFault {
    ghost use Rattle.hv_parse_expr.specs.Reads.{parse_fault};

    ghost from_gives = { λ fault e. e ≡ parse_fault fault };

    fn from(fault: ReadFault) -> ParseFault {
        match fault {
            ReadFault::Syntax => ParseFault::Syntax,
            ReadFault::NoMemory => ParseFault::NoMemory,
        }
    }
}
