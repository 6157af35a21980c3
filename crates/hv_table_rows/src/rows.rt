ghost use Rattle.std.specs.Prelude.{◌≡◌, ◌++◌, IfOk, OnOk, IsPermutation, IsSorted};
ghost use Rattle.std.specs.List.{flat_map};
ghost use Rattle.hv_route.specs.Partitions.{partition_values};
ghost use Rattle.hv_table_rows.specs.Orders.{row_at_cmp};
ghost use Rattle.hv_table_rows.specs.Reading.{row_with, found_with, deleted_with, is_gone, left_of};

use crate::row_at::RowAt;
use hv_base::{Duplicate, List, NoMemory, Text};
use hv_logic::{Column, Found};
use hv_route::partition_values;
use hv_rowfile::Rec;
use hv_value::{Row, Value};
use hv_wids::WriteIdList;
use std::alloc::Global;

/// A partition's text with the values that it says.
#[derive(Drop)]
pub struct Partition {
    pub text: Text,
    pub values: List<Value>,
}

impl Partition {
    /// The one of this text.
    pub fn of(alloc: Global, parts: &[Column], text: &Text) -> Result<Partition, NoMemory>
        ensures text { IfOk result (λ partition. partition.text ≡ text.now) }
        ensures values { IfOk result (λ partition. partition.values ≡ partition_values parts.now partition.text) }
    {
        Ok(Partition {
            text: text.duplicate(alloc)?,
            values: partition_values(alloc, parts, text)?,
        })
    }

    /// Goes to the one of this text, whose values are taken from it once.
    pub fn turn(&mut self, alloc: Global, parts: &[Column], text: &Text) -> Result<(), NoMemory>
        requires { self.old.values ≡ partition_values parts.now self.old.text }
        ensures text { OnOk result (self.new.text ≡ text.now) }
        ensures values { OnOk result (self.new.values ≡ partition_values parts.now self.new.text) }
    {
        if self.text != *text {
            *self = Partition::of(alloc, parts, text)?;
        }
        Ok(())
    }
}

/// The row with these values behind its own.
fn row_with(alloc: Global, row: Row, values: &[Value]) -> Result<Row, NoMemory>
    ensures { IfOk result (λ whole. whole ≡ row_with row values.now) }
{
    let mut all = row.values.into_vec();
    all.reserve_exact(values.len())?;
    for value in values {
        all.push(value.duplicate(alloc)?)?;
    }
    Ok(Row {
        values: List::from_vec(all),
    })
}

/// Whether a row stands where one of these does, which rise.
fn is_gone(gone: &[RowAt], row: &RowAt) -> bool
    requires { IsSorted row_at_cmp gone.now }
    ensures { result ≡ is_gone gone.now row.now }
{
    gone.binary_search(row).is_ok()
}

/// Appends the row that a record inserts under a valid write id, unless it is one of those that are gone.
fn push_row(
    alloc: Global,
    list: &WriteIdList,
    partition: &Partition,
    gone: &[RowAt],
    rec: Rec,
    rows: &mut Vec<Found>,
) -> Result<(), NoMemory>
    requires { IsSorted row_at_cmp gone.now }
    ensures { OnOk result (rows.new.items ≡ rows.old.items
        ++ left_of gone.now (found_with list.now partition.now.text partition.now.values rec)) }
{
    match rec {
        Rec::Insert { id, row } => {
            if !list.valid(id.write) {
                return Ok(());
            }
            let partition_text = partition.text.duplicate(alloc)?;
            let at = RowAt {
                partition: partition_text,
                id,
            };
            if is_gone(gone, &at) {
                return Ok(());
            }
            let row = row_with(alloc, row, partition.values.as_slice())?;
            let partition = at.partition;
            Ok(rows.push(Found { partition, id, row })?)
        }
        Rec::Delete { .. } => Ok(()),
    }
}

/// Appends the rows that these records insert under valid write ids but for those that are gone.
pub fn push_rows(
    alloc: Global,
    list: &WriteIdList,
    partition: &Partition,
    gone: &[RowAt],
    recs: Vec<Rec>,
    rows: &mut Vec<Found>,
) -> Result<(), NoMemory>
    requires { IsSorted row_at_cmp gone.now }
    ensures { OnOk result (rows.new.items ≡ rows.old.items ++ left_of gone.now
        (flat_map (found_with list.now partition.now.text partition.now.values) recs.items)) }
{
    for rec in recs {
        push_row(alloc, list, partition, gone, rec, rows)?;
    }
    Ok(())
}

/// Appends where the row stands that a record with a valid deleter deletes.
fn push_deleted(
    alloc: Global,
    list: &WriteIdList,
    partition: &Text,
    rec: &Rec,
    gone: &mut Vec<RowAt>,
) -> Result<(), NoMemory>
    ensures { OnOk result (gone.new.items ≡ gone.old.items ++ deleted_with list.now partition.now rec.now) }
{
    match rec {
        Rec::Insert { .. } => Ok(()),
        Rec::Delete { id, by } => {
            if !list.valid(*by) {
                return Ok(());
            }
            let partition = partition.duplicate(alloc)?;
            Ok(gone.push(RowAt { partition, id: *id })?)
        }
    }
}

/// Appends where the rows stand that these records with valid deleters delete.
pub fn push_all_deleted(
    alloc: Global,
    list: &WriteIdList,
    partition: &Text,
    recs: &[Rec],
    gone: &mut Vec<RowAt>,
) -> Result<(), NoMemory>
    ensures { OnOk result (gone.new.items ≡ gone.old.items ++ flat_map (deleted_with list.now partition.now) recs.now) }
{
    for rec in recs {
        push_deleted(alloc, list, partition, rec, gone)?;
    }
    Ok(())
}

/// The same rows, rising.
pub fn rows_rising(rows: Vec<RowAt>) -> Result<Vec<RowAt>, NoMemory>
    ensures sorted { IfOk result (λ found. IsSorted row_at_cmp found.items) }
    ensures same { IfOk result (λ found. IsPermutation rows.items found.items) }
{
    let mut rows = rows;
    rows.sort()?;
    Ok(rows)
}
