ghost use Rattle.std.specs.Prelude.{◌≡◌, IfOk, option_map};
ghost use Rattle.hv_expr.specs.Values.{int_of, number_of, text_of, day_of, is_null, taken, is_layer_of};
ghost use Rattle.hv_value.specs.Conversion.{some_int, some_big, some_day};
ghost use Rattle.hv_value.specs.declared.value.Value.TheVariants as value;
ghost use Rattle.hv_value.specs.declared.value.Value.TheViews.{out-Value};
ghost use Rattle.hv_seen.specs.Seen.{seen_value};

use hv_base::{Duplicate, List, NoMemory, Text};
use hv_value::{SqlType, Value, is_day};
use std::alloc::Global;

/// A value that stands somewhere else, or a scalar. The two BOOLEANs are variants of their own: a byte beside
/// the variant's own byte would be stored apart and read together, which stalls.
#[derive(Clone, Copy)]
pub enum Seen<'a> {
    Null,
    False,
    True,
    Int(i32),
    Big(i64),
    Str(&'a Text),
    Day(i32),
    Array(&'a List<Value>),
}

/// The value as it is seen. It takes no memory.
#[inline(always)]
#[tactic(auto, using(crate::proofs::Layers::layers))]
pub fn view(value: &Value) -> Seen<'_>
    ensures { seen_value result ≡ value.now }
{
    match value {
        Value::Null => Seen::Null,
        Value::Bool(truth) => of_bool(*truth),
        Value::Int(number) => Seen::Int(*number),
        Value::Big(number) => Seen::Big(*number),
        Value::Str(text) => Seen::Str(text),
        Value::Day(day) => Seen::Day(*day),
        Value::Array(items) => Seen::Array(items),
    }
}

/// NULL.
#[tactic(auto, using(crate::proofs::Layers::layers))]
pub fn null<'a>() -> Seen<'a>
    ensures { seen_value result ≡ value.Null }
{
    Seen::Null
}

#[inline(always)]
fn is_of(kind: &SqlType, value: &Value) -> bool
    ensures { result ≡ is_layer_of kind.now (out-Value value.now) }
{
    match value {
        Value::Null => false,
        Value::Bool(_) => matches!(kind, SqlType::Boolean),
        Value::Int(_) => matches!(kind, SqlType::Int),
        Value::Big(_) => matches!(kind, SqlType::BigInt),
        Value::Str(_) => matches!(kind, SqlType::Str),
        Value::Day(day) => matches!(kind, SqlType::Date) && is_day(*day),
        Value::Array(_) => matches!(kind, SqlType::ArrayOf(_)),
    }
}

/// The value at a place of the type: NULL where it isn't of it.
#[inline(always)]
#[tactic(auto, unfolding(hv_expr::specs::Values::taken))]
pub fn taken<'a>(kind: &SqlType, value: &'a Value) -> Seen<'a>
    ensures { seen_value result ≡ taken kind.now value.now }
{
    if is_of(kind, value) {
        view(value)
    } else {
        null()
    }
}

/// The INT that is seen.
#[tactic(auto, using(crate::proofs::Layers::layers))]
pub fn int(value: &Seen) -> Option<i32>
    ensures { result ≡ int_of (seen_value value.now) }
{
    match value {
        Seen::Int(number) => Some(*number),
        _ => None,
    }
}

/// The integer of either width that is seen.
#[tactic(auto, using(crate::proofs::Layers::layers))]
pub fn number(value: &Seen) -> Option<i64>
    ensures { result ≡ number_of (seen_value value.now) }
{
    match value {
        Seen::Int(number) => Some(i64::from(*number)),
        Seen::Big(number) => Some(*number),
        _ => None,
    }
}

/// The text that is seen.
#[tactic(auto, using(crate::proofs::Layers::layers))]
pub fn text<'a>(value: &Seen<'a>) -> Option<&'a Text>
    ensures { option_map (λ text. text.now) result ≡ text_of (seen_value value.now) }
{
    match value {
        Seen::Str(text) => Some(text),
        _ => None,
    }
}

/// The day number of the DATE that is seen, counted from 1970-01-01.
#[tactic(auto, using(crate::proofs::Layers::layers))]
pub fn day(value: &Seen) -> Option<i32>
    ensures { result ≡ day_of (seen_value value.now) }
{
    match value {
        Seen::Day(day) => Some(*day),
        _ => None,
    }
}

/// Whether NULL is seen.
#[tactic(auto, using(crate::proofs::Layers::layers))]
pub fn is_null(value: &Seen) -> bool
    ensures { result ≡ is_null (seen_value value.now) }
{
    matches!(value, Seen::Null)
}

/// A BOOLEAN.
#[inline]
#[tactic(auto, using(crate::proofs::Layers::layers))]
pub fn of_bool<'a>(truth: bool) -> Seen<'a>
    ensures { seen_value result ≡ value.Bool truth }
{
    if truth { Seen::True } else { Seen::False }
}

/// An INT, or NULL.
#[tactic(auto, using(crate::proofs::Layers::layers))]
pub fn of_int<'a>(number: Option<i32>) -> Seen<'a>
    ensures { seen_value result ≡ some_int number }
{
    match number {
        None => Seen::Null,
        Some(number) => Seen::Int(number),
    }
}

/// A BIGINT, or NULL.
#[tactic(auto, using(crate::proofs::Layers::layers))]
pub fn of_big<'a>(number: Option<i64>) -> Seen<'a>
    ensures { seen_value result ≡ some_big number }
{
    match number {
        None => Seen::Null,
        Some(number) => Seen::Big(number),
    }
}

/// The DATE of a day number, or NULL.
#[tactic(auto, using(crate::proofs::Layers::layers))]
pub fn of_day<'a>(day: Option<i32>) -> Seen<'a>
    ensures { seen_value result ≡ some_day day }
{
    match day {
        None => Seen::Null,
        Some(day) => Seen::Day(day),
    }
}

/// The value itself, copied. NoMemory where memory for a text or an array could not be had.
#[tactic(auto, using(crate::proofs::Layers::layers))]
pub fn owned(alloc: Global, value: &Seen) -> Result<Value, NoMemory>
    ensures { IfOk result (λ made. made ≡ seen_value value.now) }
{
    match value {
        Seen::Null => Ok(Value::Null),
        Seen::False => Ok(Value::Bool(false)),
        Seen::True => Ok(Value::Bool(true)),
        Seen::Int(number) => Ok(Value::Int(*number)),
        Seen::Big(number) => Ok(Value::Big(*number)),
        Seen::Str(text) => Ok(Value::Str(text.duplicate(alloc)?)),
        Seen::Day(day) => Ok(Value::Day(*day)),
        Seen::Array(items) => Ok(Value::Array(items.duplicate(alloc)?)),
    }
}
