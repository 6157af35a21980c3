//! What stands at the front of bytes.

ghost use Rattle.std.specs.Prelude.{◌≡◌, ◌<◌, ◌^◌, ℕ, drop, nat_lt, pos, slice_index, IfOk};
ghost use Rattle.std.specs.List.{prefix_len};
ghost use Rattle.std.specs.Str.{is_utf8};
ghost use Rattle.std.specs.Str.Parse.{AllDigits, digits_value};
ghost use Rattle.hv_values_text.specs.Fronts.{after_spaces, is_plain, literal_of};
ghost use Rattle.hv_values_text.specs.Passing.{Knows};

use crate::fault::Unread;
use hv_ast::Literal;
use hv_base::Text;
use hv_lex::{is_space, value_of};

/// The first byte, 0 where there is none.
pub fn first_byte(text: &[u8]) -> u8
    ensures { result ≡ slice_index text.now 0 }
{
    match text {
        [first, ..] => *first,
        [] => 0,
    }
}

/// What stands after so many bytes.
pub fn after(text: &[u8], length: usize) -> &[u8]
    ensures { result.now ≡ drop length text.now }
{
    text.get(length..).unwrap_or_default()
}

/// The text after the spaces that it begins with.
pub fn after_spaces(text: &[u8]) -> &[u8]
    ensures { result.now ≡ after_spaces text.now }
{
    let mut rest = text;
    while let [first, others @ ..] = rest {
        if !is_space(*first) {
            return rest;
        }
        rest = others;
    }
    rest
}

/// Whether the byte is neither this quote nor a backslash.
fn is_plain(quote: u8, byte: u8) -> bool
    ensures { result ≡ is_plain quote byte }
{
    byte != quote && byte != b'\\'
}

/// How many bytes stand before the first quote of this kind or backslash.
pub fn plain_length(quote: u8, text: &[u8]) -> usize
    ensures { result ≡ prefix_len (is_plain quote) text.now }
{
    text.iter()
        .take_while(|byte| is_plain(quote, **byte))
        .count()
}

/// The text of these bytes, where they are UTF-8.
pub fn text_of(content: Vec<u8>) -> Result<Text, Unread>
    ensures front { IfOk result (λ text. text ≡ content.items) }
    ensures known { Knows (is_utf8 content.items) result }
{
    match Text::from_utf8(content) {
        Some(text) => Ok(text),
        None => Err(Unread::Unknown),
    }
}

/// Lets go of a value, in a function without other paths.
pub fn let_go<T: Drop>(_value: T) {}

/// Whether these bytes are UTF-8.
pub fn test_text(content: &[u8]) -> Result<(), Unread>
    ensures known { Knows (is_utf8 content.now) result }
{
    match str::from_utf8(content) {
        Ok(_) => Ok(()),
        Err(_) => Err(Unread::Unknown),
    }
}

/// The number that the digits write, where it is no more than `i64::MAX`.
pub fn small_value(digits: &[u8]) -> Result<i64, Unread>
    requires { AllDigits 10 digits.now }
    ensures front { IfOk result (λ value. (digits_value 10 digits.now < 2 ^ 63)
        × (value ≡ pos (digits_value 10 digits.now))) }
    ensures known { Knows (nat_lt (digits_value 10 digits.now) (2 ^ 63)) result }
{
    match value_of(digits) {
        Some(value) => Ok(value),
        None => Err(Unread::Unknown),
    }
}

/// The literal of a number: INT if it fits.
pub fn literal_of(value: i64) -> Literal
    ensures { (n : ℕ) → value ≡ pos n → result ≡ literal_of n }
{
    match i32::try_from(value) {
        Ok(small) => Literal::Int(small),
        Err(_) => Literal::Big(value),
    }
}
