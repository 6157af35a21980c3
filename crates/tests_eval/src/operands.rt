//! Operands: `NULL`, `TRUE`, `5`, `5L`, `'text`, `@2020-01-01`, `[1,2` and `$0`, a place of the row.

use hv_base::{Boxed, List, NoMemory, Text};
use hv_expr::TypedExpr;
use hv_value::{Elem, SqlType, Value, parse_date};
use std::alloc::Global;

fn number(word: &str) -> Value {
    match word.strip_suffix('L') {
        Some(digits) => digits.parse::<i64>().map_or(Value::Null, Value::Big),
        None => word.parse::<i32>().map_or(Value::Null, Value::Int),
    }
}

fn array(alloc: Global, words: &str) -> Result<Value, NoMemory> {
    let mut items = Vec::new(alloc);
    for word in words.split(',') {
        items.push(number(word))?;
    }
    Ok(Value::Array(List::from_vec(items)))
}

pub(crate) fn value(alloc: Global, word: &str) -> Result<Value, NoMemory> {
    if let Some(text) = word.strip_prefix('\'') {
        return Ok(Value::Str(Text::of(alloc, text)?));
    }
    if let Some(text) = word.strip_prefix('@') {
        return Ok(parse_date(text.as_bytes()).map_or(Value::Null, Value::Day));
    }
    if let Some(words) = word.strip_prefix('[') {
        return array(alloc, words);
    }
    match word {
        "TRUE" => Ok(Value::Bool(true)),
        "FALSE" => Ok(Value::Bool(false)),
        _ => Ok(number(word)),
    }
}

fn kind_of(value: &Value) -> SqlType {
    match value {
        Value::Null => SqlType::Null,
        Value::Bool(_) => SqlType::Boolean,
        Value::Int(_) => SqlType::Int,
        Value::Big(_) => SqlType::BigInt,
        Value::Str(_) => SqlType::Str,
        Value::Day(_) => SqlType::Date,
        Value::Array(_) => SqlType::ArrayOf(Elem::Int),
    }
}

fn column(place: &str) -> TypedExpr {
    let kinds = [
        SqlType::Int,
        SqlType::Str,
        SqlType::BigInt,
        SqlType::Date,
        SqlType::ArrayOf(Elem::Int),
        SqlType::Boolean,
        SqlType::Int,
        SqlType::Str,
    ];
    let place = place.parse::<u32>().unwrap_or(7);
    let kind = kinds.get(place as usize).copied().unwrap_or(SqlType::Int);
    TypedExpr::Column(if place == 7 { 0 } else { place }, kind)
}

pub(crate) fn operand(alloc: Global, word: &str) -> Result<Boxed<TypedExpr>, NoMemory> {
    if let Some(place) = word.strip_prefix('$') {
        return Boxed::new(alloc, column(place));
    }
    let value = value(alloc, word)?;
    let kind = kind_of(&value);
    Boxed::new(alloc, TypedExpr::Literal(value, kind))
}
