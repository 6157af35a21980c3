//! What is printed.

use hv_base::{List, NoMemory, Refusal};
use hv_logic::{Column, Shape};
use hv_typing::OutputColumn;
use hv_value::{Elem, Row, SqlType, print_value};
use std::alloc::Global;

pub(crate) fn refusal(alloc: Global, refusal: Refusal, out: &mut Vec<u8>) -> Result<(), NoMemory> {
    let number = refusal.number();
    let name = refusal.name();
    let text = format!(in alloc; "{number} {name}")?;
    Ok(out.extend_from_slice(text.as_bytes())?)
}

fn elem(elem: Elem) -> &'static str {
    match elem {
        Elem::Null => "ARRAY<NULL>",
        Elem::Boolean => "ARRAY<BOOLEAN>",
        Elem::Int => "ARRAY<INT>",
        Elem::BigInt => "ARRAY<BIGINT>",
        Elem::Str => "ARRAY<STRING>",
        Elem::Date => "ARRAY<DATE>",
    }
}

fn kind(kind: SqlType) -> &'static str {
    match kind {
        SqlType::Null => "NULL",
        SqlType::Boolean => "BOOLEAN",
        SqlType::Int => "INT",
        SqlType::BigInt => "BIGINT",
        SqlType::Str => "STRING",
        SqlType::Date => "DATE",
        SqlType::ArrayOf(of) => elem(of),
    }
}

fn named(name: &str, of: SqlType, out: &mut Vec<u8>) -> Result<(), NoMemory> {
    out.extend_from_slice(name.as_bytes())?;
    out.extend_from_slice(b" ")?;
    Ok(out.extend_from_slice(kind(of).as_bytes())?)
}

fn columns(columns: &[Column], out: &mut Vec<u8>) -> Result<(), NoMemory> {
    for (i, column) in columns.iter().enumerate() {
        if i > 0 {
            out.extend_from_slice(b", ")?;
        }
        named(column.name.as_str(), column.kind, out)?;
    }
    Ok(())
}

/// A new table: its columns, its partition columns, the places of its bucket columns and their number.
pub(crate) fn shape(alloc: Global, shape: &Shape, out: &mut Vec<u8>) -> Result<(), NoMemory> {
    columns(shape.columns.as_slice(), out)?;
    out.extend_from_slice(b" /")?;
    if !shape.parts.is_empty() {
        out.extend_from_slice(b" ")?;
    }
    columns(shape.parts.as_slice(), out)?;
    for place in shape.bucketed.as_slice() {
        let text = format!(in alloc; " #{place}")?;
        out.extend_from_slice(text.as_bytes())?;
    }
    let count = shape.buckets;
    let text = format!(in alloc; " {count}")?;
    Ok(out.extend_from_slice(text.as_bytes())?)
}

/// The columns of a table that is described.
pub(crate) fn described(listed: &[Column], out: &mut Vec<u8>) -> Result<(), NoMemory> {
    out.extend_from_slice(b"describes ")?;
    columns(listed, out)
}

/// The names and types of output columns.
pub(crate) fn outputs(columns: &List<OutputColumn>, out: &mut Vec<u8>) -> Result<(), NoMemory> {
    for (i, column) in columns.as_slice().iter().enumerate() {
        if i > 0 {
            out.extend_from_slice(b", ")?;
        }
        named(column.name.as_str(), column.kind, out)?;
    }
    Ok(out.extend_from_slice(b":")?)
}

/// A row, behind a space.
pub(crate) fn row(row: &Row, out: &mut Vec<u8>) -> Result<(), NoMemory> {
    out.extend_from_slice(b" (")?;
    for (i, value) in row.values.as_slice().iter().enumerate() {
        if i > 0 {
            out.extend_from_slice(b", ")?;
        }
        print_value(value, out)?;
    }
    Ok(out.extend_from_slice(b")")?)
}
