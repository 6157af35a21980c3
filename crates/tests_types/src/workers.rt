//! Each query by one worker, and by several in parts of one row, over rows that are made for its tables.

use hv_base::{List, NoMemory, RowId, Text, WriteId};
use hv_exec::run;
use hv_logic::{Column, Found, TableInfo, TableRows};
use hv_typing::TypedQuery;
use hv_value::{Elem, Row, SqlType, Value};
use hv_workers::run_cut;
use std::alloc::Global;
use std::thread::Threads;

static WORKERS: [usize; 3] = [1, 3, 8];

// So many rows are made for a table: values repeat, and some are NULL.
const ROWS: u64 = 13;

static TEXTS: [&str; 3] = ["", "1", "x"];

fn text(alloc: Global, number: u64) -> Result<Value, NoMemory> {
    let place = (number % 3) as usize;
    Ok(Value::Str(Text::of(alloc, TEXTS[place])?))
}

fn scalar(alloc: Global, kind: SqlType, number: u64) -> Result<Value, NoMemory> {
    let small = (number % 3) as i32;
    match kind {
        SqlType::Null => Ok(Value::Null),
        SqlType::Boolean => Ok(Value::Bool(small == 1)),
        SqlType::Int => Ok(Value::Int(small)),
        SqlType::BigInt => Ok(Value::Big(i64::from(small))),
        SqlType::Str => text(alloc, number),
        SqlType::Date => Ok(Value::Day(small)),
        SqlType::ArrayOf(_) => Ok(Value::Null),
    }
}

fn kind_of(elem: Elem) -> SqlType {
    match elem {
        Elem::Null => SqlType::Null,
        Elem::Boolean => SqlType::Boolean,
        Elem::Int => SqlType::Int,
        Elem::BigInt => SqlType::BigInt,
        Elem::Str => SqlType::Str,
        Elem::Date => SqlType::Date,
    }
}

fn array(alloc: Global, elem: Elem, number: u64) -> Result<Value, NoMemory> {
    let mut items = Vec::new(alloc);
    for item in 0..number % 3 {
        items.push(scalar(alloc, kind_of(elem), item)?)?;
    }
    Ok(Value::Array(List::from_vec(items)))
}

fn value(alloc: Global, kind: SqlType, number: u64) -> Result<Value, NoMemory> {
    if number % 5 == 4 {
        return Ok(Value::Null);
    }
    match kind {
        SqlType::ArrayOf(elem) => array(alloc, elem, number),
        _ => scalar(alloc, kind, number),
    }
}

fn add_values(
    alloc: Global,
    columns: &[Column],
    number: u64,
    values: &mut Vec<Value>,
) -> Result<(), NoMemory> {
    for column in columns {
        let place = values.len() as u64;
        let mixed = number
            .wrapping_mul(place.wrapping_add(1))
            .wrapping_add(place);
        values.push(value(alloc, column.kind, mixed)?)?;
    }
    Ok(())
}

fn found(alloc: Global, info: &TableInfo, number: u64) -> Result<Found, NoMemory> {
    let mut values = Vec::new(alloc);
    add_values(alloc, info.shape.columns.as_slice(), number, &mut values)?;
    add_values(alloc, info.shape.parts.as_slice(), number, &mut values)?;
    Ok(Found {
        partition: Text::of(alloc, "")?,
        id: RowId {
            write: WriteId(1),
            statement: 0,
            bucket: 0,
            row: number,
        },
        row: Row {
            values: List::from_vec(values),
        },
    })
}

fn table(alloc: Global, info: &TableInfo) -> Result<TableRows, NoMemory> {
    let mut rows = Vec::new(alloc);
    for number in 0..ROWS {
        rows.push(found(alloc, info, number)?)?;
    }
    Ok(TableRows {
        table: info.table,
        rows: List::from_vec(rows),
    })
}

fn tables(alloc: Global, infos: &[TableInfo]) -> Result<Vec<TableRows>, NoMemory> {
    let mut tables = Vec::new(alloc);
    for info in infos {
        tables.push(table(alloc, info)?)?;
    }
    Ok(tables)
}

/// Whether several workers make the rows of a query that one makes, over rows for tables of these descriptions.
pub(crate) fn are_same<R: Threads + Sync>(
    rt: &R,
    alloc: Global,
    query: &TypedQuery,
    infos: &[TableInfo],
) -> Result<bool, NoMemory> {
    let tables = tables(alloc, infos)?;
    let rows = run(alloc, query, &tables, 1)?;
    for workers in &WORKERS {
        if run_cut(rt, alloc, query, &tables, *workers, 1)? != rows {
            return Ok(false);
        }
    }
    Ok(true)
}
