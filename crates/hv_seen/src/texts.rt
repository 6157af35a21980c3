ghost use Rattle.std.specs.Prelude.{◌≡◌, IfOk, option_map, pos, ◌+◌, length};
ghost use Rattle.std.specs.Int.{int_wrap, w32};
ghost use Rattle.hv_expr.specs.Values.{text_of, number_of, text_value, int_value, items_of, both_of, truth_value};
ghost use Rattle.hv_expr.specs.Functions.{instr, size_of, part_of};
ghost use Rattle.hv_text.specs.Characters.{character_count, lowered, raised, trimmed, substring, substring_from};
ghost use Rattle.hv_text.specs.Patterns.{is_like};
ghost use Rattle.hv_value.specs.Conversion.{converted};
ghost use Rattle.hv_seen.specs.Makes.{made_value};
ghost use Rattle.hv_seen.specs.Seen.{seen_value};

use crate::seen::{Seen, null, number, of_int, owned, text};
use hv_base::{NoMemory, Text};
use hv_text::{find, length, like, lower, substring, substring_from, trim, upper};
use hv_value::{SqlType, Value, convert};
use std::alloc::Global;

/// A function of one operand that may make a text or an array.
#[derive(Clone, Copy)]
pub enum Maker {
    Cast,
    Lower,
    Upper,
    Trim,
}

/// The low 32 bits.
pub fn low_int(number: usize) -> i32
    ensures { result ≡ int_wrap w32 (pos number) }
{
    let low = (number % 0x1_0000_0000) as u32;
    low.cast_signed()
}

/// How many characters the text has, the low 32 bits of their number; NULL where no text is seen.
pub fn length_of<'a>(value: &Seen) -> Seen<'a>
    ensures { seen_value result ≡ int_value (option_map (λ text. pos (character_count text)) (text_of (seen_value value.now))) }
{
    match text(value) {
        Some(text) => of_int(Some(low_int(length(text.as_str())))),
        None => null(),
    }
}

fn place_in(text: &str, part: &str) -> i32
    ensures { result ≡ int_wrap w32 (instr text.now part.now) }
{
    match find(text, part) {
        Some(skipped) => low_int(skipped + 1),
        None => 0,
    }
}

/// The place of the first part in the text, from 1, or 0; NULL where one of them is no text.
pub fn place_of<'a>(value: &Seen, part: &Seen) -> Seen<'a>
    ensures { seen_value result ≡ int_value (both_of instr (text_of (seen_value value.now)) (text_of (seen_value part.now))) }
{
    match (text(value), text(part)) {
        (Some(text), Some(part)) => of_int(Some(place_in(text.as_str(), part.as_str()))),
        _ => null(),
    }
}

/// Whether the text is like the pattern, None where one of them is no text.
pub fn is_like(value: &Seen, pattern: &Seen) -> Option<bool>
    ensures { result ≡ both_of is_like (text_of (seen_value value.now)) (text_of (seen_value pattern.now)) }
{
    match (text(value), text(pattern)) {
        (Some(text), Some(pattern)) => Some(like(text.as_str(), pattern.as_str())),
        _ => None,
    }
}

fn lower_of(alloc: Global, value: &Seen) -> Result<Value, NoMemory>
    ensures { IfOk result (λ made. made ≡ text_value (option_map lowered (text_of (seen_value value.now)))) }
{
    match text(value) {
        Some(text) => Ok(Value::Str(lower(alloc, text.as_str())?)),
        None => Ok(Value::Null),
    }
}

fn upper_of(alloc: Global, value: &Seen) -> Result<Value, NoMemory>
    ensures { IfOk result (λ made. made ≡ text_value (option_map raised (text_of (seen_value value.now)))) }
{
    match text(value) {
        Some(text) => Ok(Value::Str(upper(alloc, text.as_str())?)),
        None => Ok(Value::Null),
    }
}

fn trimmed_of(alloc: Global, value: &Seen) -> Result<Value, NoMemory>
    ensures { IfOk result (λ made. made ≡ text_value (option_map trimmed (text_of (seen_value value.now)))) }
{
    match text(value) {
        Some(text) => Ok(Value::Str(Text::of(alloc, trim(text.as_str()))?)),
        None => Ok(Value::Null),
    }
}

/// The characters from a place on; NULL where the text or the place is none.
pub fn rest_from(alloc: Global, value: &Seen, place: &Seen) -> Result<Value, NoMemory>
    ensures { IfOk result (λ made. made ≡ text_value (both_of substring_from (text_of (seen_value value.now)) (number_of (seen_value place.now)))) }
{
    match (text(value), number(place)) {
        (Some(text), Some(place)) => {
            Ok(Value::Str(Text::of(alloc, substring_from(text.as_str(), place))?))
        }
        _ => Ok(Value::Null),
    }
}

/// At most so many characters from a place on; NULL where the text, the place or the count is none.
pub fn part_from(alloc: Global, value: &Seen, place: &Seen, count: &Seen) -> Result<Value, NoMemory>
    ensures { IfOk result (λ made. made ≡ text_value (part_of (text_of (seen_value value.now)) (number_of (seen_value place.now)) (number_of (seen_value count.now)))) }
{
    match (text(value), number(place), number(count)) {
        (Some(text), Some(place), Some(count)) => {
            Ok(Value::Str(Text::of(alloc, substring(text.as_str(), place, count))?))
        }
        _ => Ok(Value::Null),
    }
}

fn cast(alloc: Global, kind: &SqlType, value: &Seen) -> Result<Value, NoMemory>
    ensures { IfOk result (λ made. made ≡ converted (seen_value value.now) kind.now) }
{
    let value = owned(alloc, value)?;
    convert(alloc, &value, kind)
}

/// What the function makes of the value.
pub fn make(alloc: Global, maker: Maker, kind: &SqlType, value: &Seen) -> Result<Value, NoMemory>
    ensures { IfOk result (λ made. made ≡ made_value maker kind.now (seen_value value.now)) }
{
    match maker {
        Maker::Cast => cast(alloc, kind, value),
        Maker::Lower => lower_of(alloc, value),
        Maker::Upper => upper_of(alloc, value),
        Maker::Trim => trimmed_of(alloc, value),
    }
}
