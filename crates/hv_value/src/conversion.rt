ghost use Rattle.std.specs.Prelude.{◌≡◌, IfOk, IsTrue, map};
ghost use Rattle.std.specs.List.{list_all};
ghost use Rattle.std.specs.Int.{int_wrap, w32};
ghost use Rattle.std.specs.Fmt.{signed_decimal};
ghost use Rattle.hv_value.specs.Dates.{civil_text};
ghost use Rattle.hv_value.specs.Conversion.{converted, from_bool, from_int, from_big, from_text, from_day, from_items, is_item_of, usable_item, is_convertible, is_of};
ghost use Rattle.hv_value.specs.declared.sql_type.SqlType.TheVariants.{ArrayOf};

use crate::dates::{CivilDate, parse_date};
use crate::days::is_day;
use crate::printing::print_date;
use crate::reading::{read_big, read_int};
use crate::sql_type::{Elem, SqlType};
use crate::value::Value;
use hv_base::{Duplicate, List, NoMemory, Text};
use itoa::Buffer;
use std::alloc::Global;

fn decimal(alloc: Global, number: i64) -> Result<Text, NoMemory>
    ensures { IfOk result (λ text. text ≡ signed_decimal number) }
{
    let mut buffer = Buffer::new();
    Text::of(alloc, buffer.format(number))
}

fn from_bool(alloc: Global, truth: bool, to: &SqlType) -> Result<Value, NoMemory>
    ensures { IfOk result (λ v. v ≡ from_bool truth to.now) }
{
    match to {
        SqlType::Boolean => Ok(Value::Bool(truth)),
        SqlType::Int => Ok(Value::Int(if truth { 1 } else { 0 })),
        SqlType::BigInt => Ok(Value::Big(if truth { 1 } else { 0 })),
        SqlType::Str => Ok(Value::Str(Text::of(alloc, if truth { "TRUE" } else { "FALSE" })?)),
        _ => Ok(Value::Null),
    }
}

fn from_int(alloc: Global, number: i32, to: &SqlType) -> Result<Value, NoMemory>
    ensures { IfOk result (λ v. v ≡ from_int number to.now) }
{
    match to {
        SqlType::Boolean => Ok(Value::Bool(number != 0)),
        SqlType::Int => Ok(Value::Int(number)),
        SqlType::BigInt => Ok(Value::Big(i64::from(number))),
        SqlType::Str => Ok(Value::Str(decimal(alloc, i64::from(number))?)),
        _ => Ok(Value::Null),
    }
}

/// The low 32 bits in two's complement.
pub fn low_half(number: i64) -> i32
    ensures { result ≡ int_wrap w32 number }
{
    let low = number.rem_euclid(0x1_0000_0000) as u32;
    low.cast_signed()
}

fn from_big(alloc: Global, number: i64, to: &SqlType) -> Result<Value, NoMemory>
    ensures { IfOk result (λ v. v ≡ from_big number to.now) }
{
    match to {
        SqlType::Boolean => Ok(Value::Bool(number != 0)),
        SqlType::Int => Ok(Value::Int(low_half(number))),
        SqlType::BigInt => Ok(Value::Big(number)),
        SqlType::Str => Ok(Value::Str(decimal(alloc, number)?)),
        _ => Ok(Value::Null),
    }
}

fn from_text(alloc: Global, text: &Text, to: &SqlType) -> Result<Value, NoMemory>
    ensures { IfOk result (λ v. v ≡ from_text text.now to.now) }
{
    match to {
        SqlType::Int => match read_int(text.bytes()) {
            Some(number) => Ok(Value::Int(number)),
            None => Ok(Value::Null),
        },
        SqlType::BigInt => match read_big(text.bytes()) {
            Some(number) => Ok(Value::Big(number)),
            None => Ok(Value::Null),
        },
        SqlType::Str => Ok(Value::Str(text.duplicate(alloc)?)),
        SqlType::Date => match parse_date(text.bytes()) {
            Some(day) => Ok(Value::Day(day)),
            None => Ok(Value::Null),
        },
        _ => Ok(Value::Null),
    }
}

fn date_text(alloc: Global, date: CivilDate) -> Result<Text, NoMemory>
    ensures { IfOk result (λ text. text ≡ civil_text date) }
{
    let mut bytes = Vec::new(alloc);
    print_date(date, &mut bytes)?;
    Ok(Text::from_bytes(bytes))
}

fn from_day(alloc: Global, day: i32, to: &SqlType) -> Result<Value, NoMemory>
    ensures { IfOk result (λ v. v ≡ from_day day to.now) }
{
    let Some(date) = CivilDate::of(day) else {
        return Ok(Value::Null);
    };
    match to {
        SqlType::Str => Ok(Value::Str(date_text(alloc, date)?)),
        SqlType::Date => Ok(Value::Day(day)),
        _ => Ok(Value::Null),
    }
}

fn is_item_of(elem: &Elem, item: &Value) -> bool
    ensures { result ≡ is_item_of elem.now item.now }
{
    match item {
        Value::Null => true,
        Value::Bool(_) => matches!(elem, Elem::Boolean),
        Value::Int(_) => matches!(elem, Elem::Int),
        Value::Big(_) => matches!(elem, Elem::BigInt),
        Value::Str(_) => matches!(elem, Elem::Str),
        Value::Day(_) => matches!(elem, Elem::Date),
        Value::Array(_) => false,
    }
}

fn are_items_of(elem: &Elem, items: &[Value]) -> bool
    ensures { result ≡ list_all (is_item_of elem.now) items.now }
{
    for item in items {
        if !is_item_of(elem, item) {
            return false;
        }
    }
    true
}

// A DATE out of range counts as NULL.
fn usable_item(alloc: Global, item: &Value) -> Result<Value, NoMemory>
    ensures { IfOk result (λ v. v ≡ usable_item item.now) }
{
    match item {
        Value::Day(day) if !is_day(*day) => Ok(Value::Null),
        _ => item.duplicate(alloc),
    }
}

fn usable_items(alloc: Global, items: &[Value]) -> Result<List<Value>, NoMemory>
    ensures { IfOk result (λ usable. usable ≡ map usable_item items.now) }
{
    let mut usable = Vec::with_capacity(alloc, items.len())?;
    for item in items {
        usable.push(usable_item(alloc, item)?)?;
    }
    Ok(List::from_vec(usable))
}

fn from_items(alloc: Global, items: &List<Value>, to: &SqlType) -> Result<Value, NoMemory>
    ensures { IfOk result (λ v. v ≡ from_items items.now to.now) }
{
    match to {
        SqlType::ArrayOf(elem) if are_items_of(elem, items.as_slice()) => {
            Ok(Value::Array(usable_items(alloc, items.as_slice())?))
        }
        _ => Ok(Value::Null),
    }
}

fn is_convertible_item(from: &Elem, to: &Elem) -> bool
    ensures { result ≡ is_convertible (ArrayOf from.now) (ArrayOf to.now) }
{
    match from {
        Elem::Null => true,
        Elem::Boolean => matches!(to, Elem::Boolean),
        Elem::Int => matches!(to, Elem::Int),
        Elem::BigInt => matches!(to, Elem::BigInt),
        Elem::Str => matches!(to, Elem::Str),
        Elem::Date => matches!(to, Elem::Date),
    }
}

/// Whether values of the one type convert to the other.
pub fn is_convertible(from: &SqlType, to: &SqlType) -> bool
    ensures { result ≡ is_convertible from.now to.now }
{
    match from {
        SqlType::Null => true,
        SqlType::Boolean | SqlType::Int | SqlType::BigInt => matches!(
            to,
            SqlType::Boolean | SqlType::Int | SqlType::BigInt | SqlType::Str
        ),
        SqlType::Str => matches!(
            to,
            SqlType::Int | SqlType::BigInt | SqlType::Str | SqlType::Date
        ),
        SqlType::Date => matches!(to, SqlType::Str | SqlType::Date),
        SqlType::ArrayOf(from) => match to {
            SqlType::ArrayOf(to) => is_convertible_item(from, to),
            _ => false,
        },
    }
}

/// The value as a value of the type; what isn't a conversion counts as NULL.
#[tactic(auto, unfolding(crate::specs::Conversion::converted))]
pub fn convert(alloc: Global, value: &Value, to: &SqlType) -> Result<Value, NoMemory>
    ensures { IfOk result (λ v. v ≡ converted value.now to.now) }
{
    match value {
        Value::Null => Ok(Value::Null),
        Value::Bool(truth) => from_bool(alloc, *truth, to),
        Value::Int(number) => from_int(alloc, *number, to),
        Value::Big(number) => from_big(alloc, *number, to),
        Value::Str(text) => from_text(alloc, text, to),
        Value::Day(day) => from_day(alloc, *day, to),
        Value::Array(items) => from_items(alloc, items, to),
    }
}

/// What a value converts to is a value of the type, or NULL.
#[tactic(auto, using(crate::proofs::ConversionLemmas::conversions))]
pub fn converted_is_of_its_type(value: &Value, to: &SqlType)
    ensures { IsTrue (is_of to.now (converted value.now to.now)) }
{}
