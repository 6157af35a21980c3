//! Which rows of a table stand in partitions that a query or a change needs.

use crate::tables::Tables;
use hv_base::{Boxed, Duplicate, List, NoMemory};
use hv_rewrite::{PartitionTest, are_wide, prune, prune_rows};
use hv_typing::{Deletes, Logic, TypedChange, TypedQuery};
use hv_value::Row;
use std::alloc::Global;

type Out = Result<(), NoMemory>;

/// The values behind so many others.
fn parts_of(alloc: Global, row: &Row, count: usize) -> Result<Row, NoMemory> {
    let mut values = Vec::new(alloc);
    for (place, value) in row.values.as_slice().iter().enumerate() {
        if place >= count {
            values.push(value.duplicate(alloc)?)?;
        }
    }
    Ok(Row {
        values: List::from_vec(values),
    })
}

fn told(kept: bool) -> &'static [u8] {
    if kept { b" yes" } else { b" no" }
}

/// Whether each row of the table stands in a partition that is kept.
fn show(
    alloc: Global,
    test: &PartitionTest,
    place: usize,
    tables: &Tables,
    out: &mut Vec<u8>,
) -> Out {
    let (columns, _) = tables.widths(place);
    for row in tables.rows(place) {
        let parts = parts_of(alloc, row, columns)?;
        out.extend_from_slice(told(test.keeps(alloc, &parts)?))?;
    }
    Ok(())
}

fn by_query(
    alloc: Global,
    query: &TypedQuery,
    place: usize,
    tables: &Tables,
    out: &mut Vec<u8>,
) -> Out {
    let stored = tables.stored(alloc)?;
    let wide = are_wide(query, stored.as_slice());
    out.extend_from_slice(if wide { b"wide:" } else { b"not wide:" })?;
    let test = prune(alloc, query, place)?;
    show(alloc, &test, place, tables, out)
}

fn by_change(
    alloc: Global,
    change: &TypedChange,
    place: usize,
    tables: &Tables,
    out: &mut Vec<u8>,
) -> Out {
    let Deletes::Matching(filter) = &change.deletes else {
        return Ok(out.extend_from_slice(b"all")?);
    };
    let (columns, parts) = tables.widths(place);
    let width = columns.saturating_add(parts).min(1_024) as u32;
    out.extend_from_slice(b"rows:")?;
    let test = prune_rows(alloc, filter, width)?;
    show(alloc, &test, place, tables, out)
}

fn by_logic(alloc: Global, logic: &Logic, place: usize, tables: &Tables, out: &mut Vec<u8>) -> Out {
    match logic {
        Logic::Query(query) => by_query(alloc, query, place, tables, out),
        Logic::Change(change) => by_change(alloc, change, place, tables, out),
        _ => Ok(out.extend_from_slice(b"all")?),
    }
}

/// Which rows of the table of that name stand in partitions that the statement needs.
pub(crate) fn kept(
    alloc: Global,
    name: &str,
    text: &str,
    tables: &Tables,
    out: &mut Vec<u8>,
) -> Out {
    let Some(place) = tables.place(name) else {
        return Ok(out.extend_from_slice(b"no table")?);
    };
    let logic: Option<Boxed<Logic>> = tables.logic(alloc, text)?;
    match &logic {
        None => Ok(out.extend_from_slice(b"no statement")?),
        Some(logic) => by_logic(alloc, logic.get(), place, tables, out),
    }
}
