//! The buckets and partitions of rows, and the files and touches of a change.
use crate::cells::{cell_of, type_of};
use crate::words::{number, piece};
use hv_base::{List, NoMemory, RowId, TableId, Text, WriteId};
use hv_logic::{Column, Effect, Found, Shape, TableInfo};
use hv_route::{bucket_of, number_rows, partition_text, partition_values, route, touches};
use hv_value::{Row, SqlType, Value};
use std::alloc::Global;

/// Columns `p` and `q`, or `p` alone, of the types that begin the cells behind the first argument.
fn columns_of(alloc: Global, words: &[&str]) -> Result<Vec<Column>, NoMemory> {
    let mut columns = Vec::new(alloc);
    for word in words.iter().skip(1) {
        let (name, _) = word.split_once(' ').unwrap_or(("", ""));
        let kind = type_of(name).unwrap_or(SqlType::Null);
        let name = Text::of(alloc, if columns.is_empty() { "p" } else { "q" })?;
        columns.push(Column { name, kind })?;
    }
    Ok(columns)
}

/// The values of the cells behind their columns' types.
fn values_of(alloc: Global, words: &[&str]) -> Result<Vec<Value>, NoMemory> {
    let mut values = Vec::new(alloc);
    for word in words.iter().skip(1) {
        let (_, cell) = word.split_once(' ').unwrap_or(("", ""));
        if let Some((_, value)) = cell_of(alloc, cell) {
            values.push(value)?;
        }
    }
    Ok(values)
}

fn bucket(alloc: Global, out: &mut String, words: &[&str]) -> Result<(), NoMemory> {
    let columns = columns_of(alloc, words)?;
    let values = values_of(alloc, words)?;
    let places: &[u32] = if columns.len() == 1 { &[0] } else { &[0, 1] };
    let buckets = piece(words, 0).parse::<u32>().unwrap_or(0);
    Ok(write!(out, "{}", bucket_of(&columns, places, buckets, &values))?)
}

/// The text of a partition, and whether it says the values.
fn partition(alloc: Global, out: &mut String, words: &[&str]) -> Result<(), NoMemory> {
    let columns = columns_of(alloc, words)?;
    let values = values_of(alloc, words)?;
    let text = partition_text(alloc, &columns, &values)?;
    let back = partition_values(alloc, &columns, &text)?;
    Ok(write!(out, "{text} {}", back.as_slice() == values.as_slice())?)
}

fn column(alloc: Global, name: &str, kind: SqlType) -> Result<Column, NoMemory> {
    Ok(Column {
        name: Text::of(alloc, name)?,
        kind,
    })
}

/// `t (id INT, s STRING) PARTITIONED BY (p STRING) CLUSTERED BY (id) INTO 2 BUCKETS`.
fn table(alloc: Global) -> Result<TableInfo, NoMemory> {
    let id = column(alloc, "id", SqlType::Int)?;
    let s = column(alloc, "s", SqlType::Str)?;
    let p = column(alloc, "p", SqlType::Str)?;
    Ok(TableInfo {
        table: TableId(7),
        shape: Shape {
            name: Text::of(alloc, "t")?,
            columns: List::from_vec(vec![in alloc; id, s]?),
            parts: List::from_vec(vec![in alloc; p]?),
            bucketed: List::from_vec(vec![in alloc; 0u32]?),
            buckets: 2,
        },
    })
}

fn row_of(alloc: Global, id: i32, s: &str, p: Option<&str>) -> Result<Row, NoMemory> {
    let s = Text::of(alloc, s)?;
    let p = match p {
        Some(p) => Value::Str(Text::of(alloc, p)?),
        None => Value::Null,
    };
    Ok(Row {
        values: List::from_vec(vec![in alloc; Value::Int(id), Value::Str(s), p]?),
    })
}

/// `id`, `s`, and the partition column `p`, which may be NULL.
static INSERTS: [(i32, &str, Option<&str>); 4] = [
    (4, "b", Some("a")),
    (1, "x", Some("a")),
    (3, "w", None),
    (2, "y", Some("a")),
];

/// Partitions with the statement, bucket and number of a row of write id 1.
static DELETES: [(&str, u32, u32, u64); 3] = [("p=b", 0, 0, 2), ("p=a", 0, 1, 3), ("p=a", 0, 1, 0)];

fn effect(alloc: Global) -> Result<Effect, NoMemory> {
    let mut inserts = Vec::new(alloc);
    for (id, s, p) in &INSERTS {
        inserts.push(row_of(alloc, *id, s, *p)?)?;
    }
    let mut deletes = Vec::new(alloc);
    for (partition, statement, bucket, row) in &DELETES {
        deletes.push(Found {
            partition: Text::of(alloc, partition)?,
            id: RowId {
                write: WriteId(1),
                statement: *statement,
                bucket: *bucket,
                row: *row,
            },
            row: row_of(alloc, 9, "", None)?,
        })?;
    }
    Ok(Effect {
        inserts: List::from_vec(inserts),
        deletes: List::from_vec(deletes),
    })
}

fn files(alloc: Global, out: &mut String) -> Result<(), NoMemory> {
    let shape = table(alloc)?.shape;
    for file in route(alloc, &shape, WriteId(5), 2, effect(alloc)?)? {
        let (partition, recs) = (&file.partition, file.recs.as_slice());
        write!(
            out,
            "{partition} {} {} {recs:?} ",
            file.deletes, file.bucket
        )?;
    }
    Ok(())
}

fn founds(alloc: Global, out: &mut String) -> Result<(), NoMemory> {
    let shape = table(alloc)?.shape;
    let inserts = effect(alloc)?.inserts;
    let founds = number_rows(alloc, &shape, WriteId(5), 2, inserts)?;
    Ok(write!(out, "{:?}", founds.as_slice())?)
}

fn touched(alloc: Global, out: &mut String) -> Result<(), NoMemory> {
    let found = touches(alloc, &table(alloc)?, &effect(alloc)?);
    Ok(write!(out, "{found:?}")?)
}

/// Rows of a STRING of so many bytes in partitions of texts of so many, or in partitions by number.
fn wide(alloc: Global, words: &[&str]) -> Result<Effect, NoMemory> {
    let letters = vec![in alloc; b'a'; 65_536]?;
    let letters = str::from_utf8(&letters).unwrap_or("");
    let s = letters.get(..number(words, 0) as usize).unwrap_or("");
    let p = letters.get(..number(words, 1) as usize).unwrap_or("");
    let count = number(words, 2);
    let mut inserts = Vec::new(alloc);
    for number in 1..=count {
        let numbered = format!(in alloc; "{number}")?;
        let p = if count == 1 { p } else { numbered.as_str() };
        inserts.push(row_of(alloc, 1, s, Some(p))?)?;
    }
    Ok(Effect {
        inserts: List::from_vec(inserts),
        deletes: List::empty(alloc),
    })
}

fn limits(alloc: Global, out: &mut String, words: &[&str]) -> Result<(), NoMemory> {
    let found = touches(alloc, &table(alloc)?, &wide(alloc, words)?);
    Ok(write!(out, "{:?}", found.map(|touched| touched.len()))?)
}

pub fn answer(alloc: Global, out: &mut String, call: &str, words: &[&str]) -> Result<(), NoMemory> {
    match call {
        "bucket" => bucket(alloc, out, words),
        "partition" => partition(alloc, out, words),
        "files" => files(alloc, out),
        "founds" => founds(alloc, out),
        "touches" => touched(alloc, out),
        "limits" => limits(alloc, out, words),
        _ => Ok(()),
    }
}
