ghost use Rattle.std.specs.Prelude.{◌≡◌, IsTrue, MatchOption};
ghost use Rattle.hv_seen.specs.Makes.{is_made};
ghost use Rattle.hv_value.specs.Conversion.{converted, from_bool, from_int, from_big, from_text, from_day, from_items};
ghost use Rattle.hv_seen.specs.Seen.{seen_value};

use crate::seen::{Seen, of_big, of_bool, of_day, of_int};
use hv_base::{List, Text};
use hv_value::{CivilDate, SqlType, Value, low_half, parse_date, read_big, read_int};

#[tactic(auto, using(crate::proofs::Layers::layers))]
fn cast_bool<'a>(truth: bool, to: &SqlType) -> Option<Seen<'a>>
    ensures { MatchOption result (IsTrue (is_made to.now)) (λ seen. seen_value seen ≡ from_bool truth to.now) }
{
    match to {
        SqlType::Boolean => Some(of_bool(truth)),
        SqlType::Int => Some(Seen::Int(if truth { 1 } else { 0 })),
        SqlType::BigInt => Some(Seen::Big(if truth { 1 } else { 0 })),
        SqlType::Str => None,
        _ => Some(Seen::Null),
    }
}

#[tactic(auto, using(crate::proofs::Layers::layers))]
fn cast_int<'a>(number: i32, to: &SqlType) -> Option<Seen<'a>>
    ensures { MatchOption result (IsTrue (is_made to.now)) (λ seen. seen_value seen ≡ from_int number to.now) }
{
    match to {
        SqlType::Boolean => Some(of_bool(number != 0)),
        SqlType::Int => Some(Seen::Int(number)),
        SqlType::BigInt => Some(Seen::Big(i64::from(number))),
        SqlType::Str => None,
        _ => Some(Seen::Null),
    }
}

#[tactic(auto, using(crate::proofs::Layers::layers))]
fn cast_big<'a>(number: i64, to: &SqlType) -> Option<Seen<'a>>
    ensures { MatchOption result (IsTrue (is_made to.now)) (λ seen. seen_value seen ≡ from_big number to.now) }
{
    match to {
        SqlType::Boolean => Some(of_bool(number != 0)),
        SqlType::Int => Some(Seen::Int(low_half(number))),
        SqlType::BigInt => Some(Seen::Big(number)),
        SqlType::Str => None,
        _ => Some(Seen::Null),
    }
}

#[tactic(auto, using(crate::proofs::Layers::layers))]
fn cast_text<'a>(text: &Text, to: &SqlType) -> Option<Seen<'a>>
    ensures { MatchOption result (IsTrue (is_made to.now)) (λ seen. seen_value seen ≡ from_text text.now to.now) }
{
    match to {
        SqlType::Int => Some(of_int(read_int(text.bytes()))),
        SqlType::BigInt => Some(of_big(read_big(text.bytes()))),
        SqlType::Date => Some(of_day(parse_date(text.bytes()))),
        SqlType::Str => None,
        _ => Some(Seen::Null),
    }
}

#[tactic(auto, using(crate::proofs::Layers::layers))]
fn cast_day<'a>(day: &i32, to: &SqlType) -> Option<Seen<'a>>
    ensures { MatchOption result (IsTrue (is_made to.now)) (λ seen. seen_value seen ≡ from_day day.now to.now) }
{
    let Some(_) = CivilDate::of(*day) else {
        return Some(Seen::Null);
    };
    match to {
        SqlType::Date => Some(Seen::Day(*day)),
        SqlType::Str => None,
        _ => Some(Seen::Null),
    }
}

#[tactic(auto, using(crate::proofs::Layers::layers))]
fn cast_items<'a>(items: &List<Value>, to: &SqlType) -> Option<Seen<'a>>
    ensures { MatchOption result (IsTrue (is_made to.now)) (λ seen. seen_value seen ≡ from_items items.now to.now) }
{
    match to {
        SqlType::ArrayOf(_) => None,
        _ => Some(Seen::Null),
    }
}

/// The value as a value of the type; what isn't a conversion counts as NULL. It takes no memory, and is
/// None only where the type's values have to be made.
#[tactic(auto, using(crate::proofs::Layers::layers, crate::proofs::Layers::casts))]
pub fn cast<'a>(to: &SqlType, value: &Seen) -> Option<Seen<'a>>
    ensures { MatchOption result (IsTrue (is_made to.now)) (λ seen. seen_value seen ≡ converted (seen_value value.now) to.now) }
{
    match value {
        Seen::Null => Some(Seen::Null),
        Seen::False => cast_bool(false, to),
        Seen::True => cast_bool(true, to),
        Seen::Int(number) => cast_int(*number, to),
        Seen::Big(number) => cast_big(*number, to),
        Seen::Str(text) => cast_text(text, to),
        Seen::Day(day) => cast_day(day, to),
        Seen::Array(items) => cast_items(items, to),
    }
}
