//! Values as rows write them: a type and what it holds, as INT 1, STRING 'a', DATE 0, ARRAY<INT> [1,NULL].
use hv_base::{List, Text};
use hv_value::{Elem, SqlType, Value};
use std::alloc::Global;

fn element(name: &str) -> Option<Elem> {
    match name {
        "NULL" => Some(Elem::Null),
        "BOOLEAN" => Some(Elem::Boolean),
        "INT" => Some(Elem::Int),
        "BIGINT" => Some(Elem::BigInt),
        "STRING" => Some(Elem::Str),
        "DATE" => Some(Elem::Date),
        _ => None,
    }
}

fn item_type(elem: Elem) -> SqlType {
    match elem {
        Elem::Null => SqlType::Null,
        Elem::Boolean => SqlType::Boolean,
        Elem::Int => SqlType::Int,
        Elem::BigInt => SqlType::BigInt,
        Elem::Str => SqlType::Str,
        Elem::Date => SqlType::Date,
    }
}

/// The type of a name, as `INT` or `ARRAY<INT>`.
pub fn type_of(name: &str) -> Option<SqlType> {
    match name.strip_prefix("ARRAY<") {
        Some(rest) => Some(SqlType::ArrayOf(element(rest.strip_suffix(">")?)?)),
        None => Some(item_type(element(name)?)),
    }
}

fn text(alloc: Global, written: &str) -> Option<Value> {
    let inner = written.strip_prefix("'")?.strip_suffix("'")?;
    Some(Value::Str(Text::of(alloc, inner).ok()?))
}

fn array(alloc: Global, kind: SqlType, written: &str) -> Option<Value> {
    let mut items = Vec::new(alloc);
    let inner = written.strip_prefix("[")?.strip_suffix("]")?;
    if !inner.is_empty() {
        for item in inner.split(',') {
            items.push(scalar(alloc, kind, item)?).ok()?;
        }
    }
    Some(Value::Array(List::from_vec(items)))
}

fn scalar(alloc: Global, kind: SqlType, written: &str) -> Option<Value> {
    if written == "NULL" {
        return Some(Value::Null);
    }
    match kind {
        SqlType::Boolean => Some(Value::Bool(written.parse::<bool>().ok()?)),
        SqlType::Int => Some(Value::Int(written.parse::<i32>().ok()?)),
        SqlType::BigInt => Some(Value::Big(written.parse::<i64>().ok()?)),
        SqlType::Str => text(alloc, written),
        SqlType::Date => Some(Value::Day(written.parse::<i32>().ok()?)),
        SqlType::Null | SqlType::ArrayOf(_) => None,
    }
}

/// The type and the value that a text writes: None where it writes none, and where memory runs out.
pub fn cell_of(alloc: Global, written: &str) -> Option<(SqlType, Value)> {
    let (name, held) = written.split_once(' ')?;
    let kind = type_of(name)?;
    let value = match kind {
        SqlType::ArrayOf(elem) if held != "NULL" => array(alloc, item_type(elem), held),
        _ => scalar(alloc, kind, held),
    };
    Some((kind, value?))
}
