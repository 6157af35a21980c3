ghost use Rattle.std.specs.Prelude.{◌≡◌};

use hv_base::NoMemory as OutOfMemory;
use hv_lex::LexFault;
use hv_parse_expr::ParseFault;
use thiserror::Error;

/// Why a text is no statement. Places are offsets of bytes from 0.
#[derive(Clone, Copy, Debug, PartialEq, Eq, Error)]
pub enum TextFault {
    /// A character that stands in no token, or not where it stands.
    #[error("bad character at {at}")]
    BadCharacter { at: u64 },
    /// A quote or a backquote that nothing closes.
    #[error("open string at {at}")]
    OpenString { at: u64 },
    /// A number above 9223372036854775807, at its first digit.
    #[error("number too wide at {at}")]
    WideNumber { at: u64 },
    /// The tokens are no statement, or a SET text has no key.
    #[error("no statement")]
    Syntax,
    /// The token at this place opens level 65 of brackets and CASE.
    #[error("nested too deep at {at}")]
    Nesting { at: u64 },
    #[error("out of memory")]
    NoMemory,
}

impl From<LexFault> for TextFault {
    ghost use Rattle.hv_reading.specs.Faults.{of_lexing};

    ghost from_gives = { λ fault e. e ≡ of_lexing fault };

    fn from(fault: LexFault) -> TextFault {
        match fault {
            LexFault::BadCharacter { at } => TextFault::BadCharacter { at },
            LexFault::OpenString { at } => TextFault::OpenString { at },
            LexFault::WideNumber { at } => TextFault::WideNumber { at },
            LexFault::NoMemory => TextFault::NoMemory,
        }
    }
}

impl From<ParseFault> for TextFault {
    ghost use Rattle.hv_reading.specs.Faults.{of_parsing};

    ghost from_gives = { λ fault e. e ≡ of_parsing fault };

    fn from(fault: ParseFault) -> TextFault {
        match fault {
            ParseFault::Nesting { at } => TextFault::Nesting { at },
            ParseFault::Syntax => TextFault::Syntax,
            ParseFault::NoMemory => TextFault::NoMemory,
        }
    }
}

impl From<OutOfMemory> for TextFault {
    ghost use Rattle.hv_reading.specs.declared.fault.TextFault.{TextFault};

    ghost from_gives = { λ _ e. e ≡ TextFault.NoMemory };

    fn from(_refused: OutOfMemory) -> TextFault {
        TextFault::NoMemory
    }
}
