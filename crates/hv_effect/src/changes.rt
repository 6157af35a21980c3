//! What a change of a table comes to.

ghost use Rattle.std.specs.Prelude.{◌≡◌, IfOk, slice_get};
ghost use Rattle.hv_typing.specs.Rows.{rows_of, source_frames};
ghost use Rattle.hv_joins.specs.Sources.{frames_in};
ghost use Rattle.hv_meaning.specs.Meaning.{tables_of, inserts_of, change_effect, within_limits, or_none, changed_in, merge_of, merged_in};
ghost use Rattle.hv_effect.specs.Tables.{found_of};
ghost use Rattle.hv_effect.specs.Merged.{outcome_meant};

use crate::deletes::{deleted, matched};
use crate::merging::{MergeOutcome, merged};
use crate::rows::{rows_alone, rows_selected, rows_updated};
use crate::touching::{Touching, untouched};
use hv_base::{Duplicate, List, NoMemory};
use hv_changes::columns_of;
use hv_exec::{rows_of_source, run};
use hv_joins::SourceRows;
use hv_logic::{Effect, Found, Meaning, Shape, TableInfo, TableRows};
use hv_route::{RouteFault, touches};
use hv_typing::{Origin, TypedChange, TypedMerge, TypedQuery, TypedSource};
use hv_value::Row;
use std::alloc::Global;

/// The rows of a query over these tables.
pub(crate) fn query_rows(
    alloc: Global,
    query: &TypedQuery,
    tables: &[TableRows],
) -> Result<Vec<Row>, NoMemory>
    ensures { IfOk result (λ rows. rows.items ≡ rows_of query.now (tables_of (found_of tables.now))) }
{
    let rows = run(alloc, &*query, &*tables, 1)?;
    Ok(rows)
}

fn inserts_of(
    alloc: Global,
    shape: &Shape,
    change: &TypedChange,
    gone: &[Found],
    tables: &[TableRows],
) -> Result<List<Row>, NoMemory>
    ensures { IfOk result (λ made. made ≡ inserts_of shape.now change.now gone.now (tables_of (found_of tables.now))) }
{
    let all = columns_of(alloc, shape)?;
    let columns = all.as_slice();
    let values = change.values.as_slice();
    match &change.origin {
        Origin::Values(rows) => rows_alone(alloc, columns, values, rows.as_slice()),
        Origin::Query(query) => {
            let rows = query_rows(alloc, query.get(), tables)?;
            rows_selected(alloc, columns, values, rows.as_slice())
        }
        Origin::Deleted => rows_updated(alloc, columns, values, gone),
    }
}

fn change_effect(
    alloc: Global,
    shape: &Shape,
    change: &TypedChange,
    found: &[Found],
    tables: &[TableRows],
) -> Result<Effect, NoMemory>
    ensures { IfOk result (λ effect. effect ≡ change_effect shape.now change.now found.now (tables_of (found_of tables.now))) }
{
    let gone = matched(alloc, &change.deletes, &*found)?;
    let inserts = inserts_of(alloc, shape, change, gone.as_slice(), tables)?;
    let width = shape.columns.len();
    let deletes = deleted(
        alloc,
        width,
        &change.deletes,
        inserts.as_slice(),
        found,
        gone,
    )?;
    Ok(Effect {
        inserts,
        deletes: List::from_vec(deletes),
    })
}

fn within_limits(alloc: Global, info: &TableInfo, effect: Effect) -> Result<Touching, NoMemory>
    ensures { IfOk result (λ meaning. meaning ≡ within_limits info.now effect) }
{
    match touches(alloc, info, &effect) {
        Ok(touches) => Ok(Touching {
            meaning: Meaning::Change(info.duplicate(alloc)?, effect),
            touches,
        }),
        Err(RouteFault::RowLimit) => Ok(untouched(alloc, Meaning::RowLimit)),
        Err(RouteFault::PartitionLimit) => Ok(untouched(alloc, Meaning::PartitionLimit)),
        Err(RouteFault::NoMemory) => Err(NoMemory),
    }
}

fn rows_at(tables: &[TableRows], place: usize) -> &[Found]
    ensures { result.now ≡ or_none (slice_get (found_of tables.now) place) }
{
    match tables.get(place) {
        Some(table) => table.rows.as_slice(),
        None => &[],
    }
}

/// What a change comes to over tables of these descriptions, where these rows stand.
pub(crate) fn changed_in(
    alloc: Global,
    infos: &[TableInfo],
    tables: &[TableRows],
    change: &TypedChange,
) -> Result<Option<Touching>, NoMemory>
    ensures { IfOk result (λ meaning. meaning ≡ changed_in (slice_get infos.now change.now.table)
        (slice_get (found_of tables.now) change.now.table) (tables_of (found_of tables.now)) change.now) }
{
    let place = change.table as usize;
    let Some(info) = infos.get(place) else {
        return Ok(None);
    };
    let found = rows_at(tables, place);
    let effect = change_effect(alloc, &info.shape, change, found, tables)?;
    Ok(Some(within_limits(alloc, info, effect)?))
}

fn outcome_meant(
    alloc: Global,
    info: &TableInfo,
    outcome: MergeOutcome,
) -> Result<Touching, NoMemory>
    ensures { IfOk result (λ meaning. meaning ≡ outcome_meant info.now outcome) }
{
    match outcome {
        MergeOutcome::Twice(partition, id) => Ok(untouched(alloc, Meaning::Twice(partition, id))),
        MergeOutcome::Change(effect) => within_limits(alloc, info, effect),
    }
}

fn merge_of<'a>(
    alloc: Global,
    info: &TableInfo,
    found: &'a [Found],
    source: &'a SourceRows<'a>,
    merge: &'a TypedMerge,
) -> Result<Touching, NoMemory>
    ensures { IfOk result (λ meaning. meaning ≡ merge_of info.now found.now (frames_in source.now) merge.now) }
{
    let columns = columns_of(alloc, &info.shape)?;
    let outcome = merged(alloc, columns.as_slice(), merge, found, source)?;
    outcome_meant(alloc, info, outcome)
}

/// The rows of a MERGE's source over these tables.
fn source_over<'a>(
    alloc: Global,
    source: &'a TypedSource,
    tables: &'a [TableRows],
) -> Result<SourceRows<'a>, NoMemory>
    ensures { IfOk result (λ rows. frames_in rows ≡ source_frames source.now (tables_of (found_of tables.now))) }
{
    rows_of_source(alloc, source, tables)
}

fn merged_at(
    alloc: Global,
    info: &TableInfo,
    tables: &[TableRows],
    merge: &TypedMerge,
) -> Result<Touching, NoMemory>
    ensures { IfOk result (λ meaning. meaning ≡ merge_of info.now (or_none (slice_get (found_of tables.now) merge.now.table))
        (source_frames merge.now.source (tables_of (found_of tables.now))) merge.now) }
{
    let source = source_over(alloc, &merge.source, &*tables)?;
    let found = rows_at(tables, merge.table as usize);
    let meaning = merge_of(alloc, info, &*found, &source, &*merge)?;
    Ok(meaning)
}

/// What a MERGE comes to over tables of these descriptions, where these rows stand.
pub(crate) fn merged_in(
    alloc: Global,
    infos: &[TableInfo],
    tables: &[TableRows],
    merge: &TypedMerge,
) -> Result<Option<Touching>, NoMemory>
    ensures { IfOk result (λ meaning. meaning ≡ merged_in (slice_get infos.now merge.now.table)
        (slice_get (found_of tables.now) merge.now.table) (tables_of (found_of tables.now)) merge.now) }
{
    let place = merge.table as usize;
    let Some(info) = infos.get(place) else {
        return Ok(None);
    };
    Ok(Some(merged_at(alloc, info, tables, merge)?))
}
