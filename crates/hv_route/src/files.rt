ghost use Rattle.std.specs.Prelude.{◌≡◌, ◌++◌, IfOk, OnOk, map};
ghost use Rattle.hv_base.specs.Identifiers.{row_id_cmp};
ghost use Rattle.hv_value.specs.Order.{row_cmp};
ghost use Rattle.hv_base.specs.Sorting.{sorted_by};
ghost use Rattle.hv_route.specs.Back.{AreHeld};
ghost use Rattle.hv_route.specs.Placing.{placed_cmp};
ghost use Rattle.hv_route.specs.Routes.{partition_of, bucket_in, stored, place_of_row, place_of_deleted, inserts_from, file_of_rows, delete_by, file_of_deletes, insert_files, delete_files, files_of};

use crate::buckets::bucket_of;
use crate::held::see_rows;
use crate::partitions::partition_text;
use crate::placed::Placed;
use crate::runs::{Run, runs_of};
use hv_base::{List, NoMemory, RowId, Text, WriteId};
use hv_logic::{Effect, Found, Shape};
use hv_rowfile::Rec;
use hv_value::{Row, Value};
use std::alloc::Global;

/// A file that a change makes: the records of one kind in a bucket of a partition.
#[derive(Drop)]
pub struct OutFile {
    pub partition: Text,
    /// Whether it holds deletes, and not inserted rows.
    pub deletes: bool,
    pub bucket: u32,
    pub recs: List<Rec>,
}

/// The text of the partition of a row, which has the table's columns and then the partition columns.
pub fn partition_of(alloc: Global, shape: &Shape, row: &Row) -> Result<Text, NoMemory>
    ensures { IfOk result (λ text. text ≡ partition_of shape.now row.now) }
{
    let own = shape.columns.len();
    let values = row.values.as_slice();
    let behind: &[Value] = if own < values.len() {
        &values[own..]
    } else {
        &[]
    };
    partition_text(alloc, shape.parts.as_slice(), behind)
}

fn bucket_in(shape: &Shape, row: &Row) -> u32
    ensures { result ≡ bucket_in shape.now row.now }
{
    bucket_of(
        shape.columns.as_slice(),
        shape.bucketed.as_slice(),
        shape.buckets,
        row.values.as_slice(),
    )
}

fn stored(shape: &Shape, row: Row) -> Row
    ensures { result ≡ stored shape.now row }
{
    let mut values = row.values.into_vec();
    values.truncate(shape.columns.len());
    Row {
        values: List::from_vec(values),
    }
}

fn place_rows(alloc: Global, shape: &Shape, rows: List<Row>) -> Result<Vec<Placed<Row>>, NoMemory>
    ensures { IfOk result (λ placed. placed.items ≡ map (place_of_row shape.now) rows) }
{
    let mut placed = Vec::new(alloc);
    for row in rows.into_vec() {
        let partition = partition_of(alloc, shape, &row)?;
        let bucket = bucket_in(shape, &row);
        placed.push(Placed {
            partition,
            bucket,
            item: row,
        })?;
    }
    Ok(placed)
}

/// The rows by partition, bucket and the row order.
pub fn placed_rows(
    alloc: Global,
    shape: &Shape,
    rows: List<Row>,
) -> Result<Vec<Placed<Row>>, NoMemory>
    ensures { IfOk result (λ placed. placed.items ≡ sorted_by (placed_cmp row_cmp) (map (place_of_row shape.now) rows)) }
{
    let mut placed = place_rows(alloc, shape, rows)?;
    placed.sort()?;
    Ok(placed)
}

fn place_deletes(alloc: Global, deletes: List<Found>) -> Result<Vec<Placed<RowId>>, NoMemory>
    ensures { IfOk result (λ placed. placed.items ≡ map place_of_deleted deletes) }
{
    let mut placed = Vec::new(alloc);
    for found in deletes.into_vec() {
        let Found { partition, id, .. } = found;
        placed.push(Placed {
            partition,
            bucket: id.bucket,
            item: id,
        })?;
    }
    Ok(placed)
}

fn placed_deletes(alloc: Global, deletes: List<Found>) -> Result<Vec<Placed<RowId>>, NoMemory>
    ensures { IfOk result (λ placed. placed.items ≡ sorted_by (placed_cmp row_id_cmp) (map place_of_deleted deletes)) }
{
    let mut placed = place_deletes(alloc, deletes)?;
    placed.sort()?;
    Ok(placed)
}

fn inserts_of(
    alloc: Global,
    shape: &Shape,
    write: WriteId,
    statement: u32,
    bucket: u32,
    rows: List<Row>,
) -> Result<List<Rec>, NoMemory>
    ensures { IfOk result (λ recs. recs ≡ inserts_from shape.now write.0 statement bucket 0 rows) }
{
    let mut recs = Vec::new(alloc);
    for row in rows.into_vec() {
        let id = RowId {
            write,
            statement,
            bucket,
            row: recs.len() as u64,
        };
        recs.push(Rec::Insert {
            id,
            row: stored(shape, row),
        })?;
    }
    Ok(List::from_vec(recs))
}

fn file_of_rows(
    alloc: Global,
    shape: &Shape,
    write: WriteId,
    statement: u32,
    run: Run<Row>,
) -> Result<OutFile, NoMemory>
    ensures { IfOk result (λ file. file ≡ file_of_rows shape.now write.0 statement run) }
{
    let Run {
        partition,
        bucket,
        items,
    } = run;
    Ok(OutFile {
        partition,
        deletes: false,
        bucket,
        recs: inserts_of(alloc, shape, write, statement, bucket, items)?,
    })
}

fn deletes_of(alloc: Global, write: WriteId, ids: &[RowId]) -> Result<List<Rec>, NoMemory>
    ensures { IfOk result (λ recs. recs ≡ map (delete_by write.0) ids.now) }
{
    let mut recs = Vec::new(alloc);
    for id in ids {
        recs.push(Rec::Delete { id: *id, by: write })?;
    }
    Ok(List::from_vec(recs))
}

fn file_of_deletes(alloc: Global, write: WriteId, run: Run<RowId>) -> Result<OutFile, NoMemory>
    ensures { IfOk result (λ file. file ≡ file_of_deletes write.0 run) }
{
    let Run {
        partition,
        bucket,
        items,
    } = run;
    Ok(OutFile {
        partition,
        deletes: true,
        bucket,
        recs: deletes_of(alloc, write, items.as_slice())?,
    })
}

fn insert_files(
    alloc: Global,
    shape: &Shape,
    write: WriteId,
    statement: u32,
    rows: List<Row>,
) -> Result<Vec<OutFile>, NoMemory>
    ensures { IfOk result (λ files. files.items ≡ insert_files shape.now write.0 statement rows) }
{
    let mut files = Vec::new(alloc);
    for run in runs_of(alloc, placed_rows(alloc, shape, rows)?)? {
        files.push(file_of_rows(alloc, shape, write, statement, run)?)?;
    }
    Ok(files)
}

fn push_delete_files(
    alloc: Global,
    files: &mut Vec<OutFile>,
    write: WriteId,
    deletes: List<Found>,
) -> Result<(), NoMemory>
    ensures { OnOk result (files.new.items ≡ files.old.items ++ delete_files write.0 deletes) }
{
    for run in runs_of(alloc, placed_deletes(alloc, deletes)?)? {
        files.push(file_of_deletes(alloc, write, run)?)?;
    }
    Ok(())
}

/// The files that a statement's effect makes in a table of this shape, under its write id: those of the inserted rows,
/// and then those of the deletes, each by partition and bucket. The rows move into the files; each of their values is one that
/// its type holds.
#[tactic(auto, unfolding(crate::specs::Routes::files_of))]
pub fn route(
    alloc: Global,
    shape: &Shape,
    write: WriteId,
    statement: u32,
    effect: Effect,
) -> Result<Vec<OutFile>, NoMemory>
    ensures files { IfOk result (λ files. files.items ≡ files_of shape.now write.0 statement effect) }
    ensures held { AreHeld effect.inserts }
{
    let Effect { inserts, deletes } = effect;
    see_rows(inserts.as_slice());
    let mut files = insert_files(alloc, shape, write, statement, inserts)?;
    push_delete_files(alloc, &mut files, write, deletes)?;
    Ok(files)
}
