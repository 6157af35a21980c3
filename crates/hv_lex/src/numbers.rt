//! Numbers.

ghost use Rattle.std.specs.Prelude.{◌≡◌, ◌+◌, ◌<◌, ◌≤◌, ◌^◌, length, drop, pos, ℕ};
ghost use Rattle.std.specs.List.{prefix_len};
ghost use Rattle.std.specs.Option.{SomeIff};
ghost use Rattle.std.specs.Char.{is_ascii_digit};
ghost use Rattle.std.specs.Str.Parse.{AllDigits, digits_value};
ghost use Rattle.hv_ast.specs.Tokens.{number, number_of, lone, is_big_mark, first_is};
ghost use Rattle.hv_lex.specs.Lexed.{IsRead};

use crate::fault::LexFault;
use crate::pieces::Piece;
use crate::words::continues_word;
use hv_ast::Lexeme;

/// How many digits stand at the front.
pub fn digits_length(text: &[u8]) -> usize
    ensures { result ≡ prefix_len is_ascii_digit text.now }
{
    text.iter().take_while(|byte| byte.is_ascii_digit()).count()
}

/// The number that the digits write, None exactly where it is above `i64::MAX`.
pub fn value_of(digits: &[u8]) -> Option<i64>
    requires { AllDigits 10 digits.now }
    ensures { let value = digits_value 10 digits.now in SomeIff result (value < 2 ^ 63) (pos value) }
{
    let mut value: u64 = 0;
    for digit in digits {
        if value > 922_337_203_685_477_580 {
            return None;
        }
        value = value * 10 + u64::from(*digit - b'0');
    }
    i64::try_from(value).ok()
}

/// The number of `length` bytes at the front, unless a word character stands behind it.
fn lone(at: usize, text: &[u8], what: Lexeme, length: usize) -> Result<Piece, LexFault>
    requires { at + length < 2 ^ 64 }
    ensures { IsRead (lone at text.now what length) result }
{
    match text.get(length) {
        Some(behind) if continues_word(*behind) => Err(LexFault::BadCharacter {
            at: (at + length) as u64,
        }),
        _ => Ok(Piece::token(what, length)),
    }
}

/// Whether `L` or `l` stands behind so many bytes.
fn is_marked(text: &[u8], length: usize) -> bool
    ensures { result ≡ first_is is_big_mark (drop length text.now) }
{
    match text.get(length) {
        Some(behind) => *behind == b'L' || *behind == b'l',
        None => false,
    }
}

/// A number without a mark: INT if it fits.
fn number_of(value: i64) -> Lexeme
    ensures { (n : ℕ) → value ≡ pos n → result ≡ number_of n }
{
    match i32::try_from(value) {
        Ok(small) => Lexeme::Int(small),
        Err(_) => Lexeme::Big(value),
    }
}

/// The number at the front, whose first digit is at `at`.
pub fn number(at: usize, text: &[u8]) -> Result<Piece, LexFault>
    requires { at + length text.now + 1 < 2 ^ 64 }
    ensures { IsRead (number at text.now) result }
{
    let length = digits_length(text);
    let Some(value) = value_of(&text[..length]) else {
        return Err(LexFault::WideNumber { at: at as u64 });
    };
    if is_marked(text, length) {
        lone(at, text, Lexeme::Big(value), length + 1)
    } else {
        lone(at, text, number_of(value), length)
    }
}
