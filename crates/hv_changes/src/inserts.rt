//! INSERT over its target's columns.

ghost use Rattle.std.specs.Prelude.{◌≡◌, IfOk};
ghost use Rattle.hv_typing.specs.Faults.{Types, and_then};
ghost use Rattle.hv_typing.specs.Inserts.{value_at, value_for, new_value, values_for, overwritten, insert_typed, if_convertible, rows_typed, values_inserted, query_inserted};

use crate::columns::{column_kinds, columns_of, kind_at, place_named};
use crate::partitions::{are_static, partition_met, static_of, static_value};
use crate::queries::{output_kinds, outputs_convert};
use crate::values::{all_convert, all_counted, converted_rows, rows_typed};
use hv_ast::{Expr, Insert, PartitionItem};
use hv_base::{Boxed, List, NoMemory, Refusal};
use hv_expr::TypedExpr;
use hv_logic::{Column, Shape};
use hv_types::item_as_kind;
use hv_typing::{Deletes, Origin, TypeFault, TypedChange, TypedQuery};
use hv_value::{SqlType, Value};
use std::alloc::Global;

const BAD_COUNT: TypeFault = TypeFault::Refused(Refusal::BadCount);

// Places are numbers of 32 bits: there is no memory for more columns.
fn value_at(
    alloc: Global,
    kinds: &[SqlType],
    kind: SqlType,
    place: Option<usize>,
) -> Result<TypedExpr, NoMemory>
    ensures { IfOk result (λ made. made ≡ value_at kinds.now kind place) }
{
    let Some(place) = place else {
        return Ok(TypedExpr::Literal(Value::Null, kind));
    };
    let Ok(number) = u32::try_from(place) else {
        return Err(NoMemory);
    };
    let column = TypedExpr::Column(number, kind_at(kinds, place));
    item_as_kind(alloc, kind, column)
}

fn value_for(
    alloc: Global,
    targets: &[Column],
    kinds: &[SqlType],
    column: &Column,
) -> Result<TypedExpr, NoMemory>
    ensures { IfOk result (λ made. made ≡ value_for targets.now kinds.now column.now) }
{
    let place = place_named(targets, &column.name);
    value_at(alloc, kinds, column.kind, place)
}

fn new_value(
    alloc: Global,
    items: &[PartitionItem],
    targets: &[Column],
    kinds: &[SqlType],
    column: &Column,
) -> Result<TypedExpr, TypeFault>
    ensures { Types result (new_value items.now targets.now kinds.now column.now) }
{
    match static_of(items, &column.name) {
        None => Ok(value_for(alloc, targets, kinds, column)?),
        Some(expr) => Ok(static_value(alloc, column.kind, expr)?.into_inner()),
    }
}

/// The values of a new row, where the static ones convert.
#[tactic(auto, using(crate::proofs::Orders::orders), unfolding(hv_typing::specs::Inserts::values_for))]
fn values_for(
    alloc: Global,
    items: &[PartitionItem],
    targets: &[Column],
    kinds: &[SqlType],
    columns: &[Column],
) -> Result<List<TypedExpr>, TypeFault>
    ensures { Types result (values_for items.now targets.now kinds.now columns.now) }
{
    let mut made = Vec::with_capacity(alloc, columns.len())?;
    for column in columns {
        made.push(new_value(alloc, items, targets, kinds, column)?)?;
    }
    Ok(List::from_vec(made))
}

/// Which rows go, under OVERWRITE.
#[tactic(auto, unfolding(hv_typing::specs::Inserts::overwritten))]
fn overwritten(
    alloc: Global,
    overwrite: bool,
    shape: &Shape,
    items: &[PartitionItem],
) -> Result<Deletes, TypeFault>
    ensures { Types result (overwritten overwrite shape.now items.now) }
{
    if !overwrite {
        return Ok(Deletes::Nothing);
    }
    if shape.parts.is_empty() {
        return Ok(Deletes::Matching(None));
    }
    if !are_static(items, shape.parts.as_slice()) {
        return Ok(Deletes::Received);
    }
    let columns = columns_of(alloc, shape)?;
    let condition = partition_met(alloc, columns.as_slice(), items)?;
    Ok(Deletes::Matching(Some(condition)))
}

#[tactic(auto, unfolding(hv_typing::specs::Inserts::insert_typed))]
fn insert_typed(
    alloc: Global,
    place: u32,
    shape: &Shape,
    insert: &Insert,
    targets: &[Column],
    kinds: &[SqlType],
    origin: Origin,
) -> Result<TypedChange, TypeFault>
    ensures { Types result (insert_typed place shape.now insert.now targets.now kinds.now origin) }
{
    let items = insert.partition.as_slice();
    let columns = columns_of(alloc, shape)?;
    let values = values_for(alloc, items, targets, kinds, columns.as_slice())?;
    Ok(TypedChange {
        table: place,
        deletes: overwritten(alloc, insert.overwrite, shape, items)?,
        values,
        origin,
    })
}

fn if_convertible(converts: bool, change: TypedChange) -> Result<TypedChange, TypeFault>
    ensures { Types result (if_convertible converts change) }
{
    if converts {
        Ok(change)
    } else {
        Err(TypeFault::Refused(Refusal::BadType))
    }
}

#[tactic(auto, unfolding(hv_typing::specs::Inserts::values_inserted))]
fn values_inserted(
    alloc: Global,
    place: u32,
    shape: &Shape,
    insert: &Insert,
    targets: &[Column],
    rows: List<List<TypedExpr>>,
) -> Result<TypedChange, TypeFault>
    ensures { Types result (values_inserted place shape.now insert.now targets.now rows) }
{
    if !all_counted(targets.len(), rows.as_slice()) {
        return Err(BAD_COUNT);
    }
    let converts = all_convert(targets, rows.as_slice());
    let kinds = column_kinds(alloc, targets)?;
    let origin = Origin::Values(converted_rows(alloc, targets, rows)?);
    let change = insert_typed(alloc, place, shape, insert, targets, &kinds, origin)?;
    if_convertible(converts, change)
}

/// The typed INSERT of VALUES for these columns, or its first fault behind its PARTITION and its column
/// list.
pub fn rows_inserted(
    alloc: Global,
    place: u32,
    shape: &Shape,
    insert: &Insert,
    targets: &[Column],
    rows: &[List<Expr>],
) -> Result<TypedChange, TypeFault>
    ensures { Types result (and_then (rows_typed rows.now) (values_inserted place shape.now insert.now targets.now)) }
{
    let rows = rows_typed(alloc, rows)?;
    values_inserted(alloc, place, shape, insert, targets, rows)
}

/// The typed INSERT of a query's rows for these columns, or its first fault behind the query's own.
#[tactic(auto, unfolding(hv_typing::specs::Inserts::query_inserted))]
pub fn query_inserted(
    alloc: Global,
    place: u32,
    shape: &Shape,
    insert: &Insert,
    targets: &[Column],
    query: Boxed<TypedQuery>,
) -> Result<TypedChange, TypeFault>
    ensures { Types result (query_inserted place shape.now insert.now targets.now query) }
{
    let columns = query.get().columns.as_slice();
    if columns.len() != targets.len() {
        return Err(BAD_COUNT);
    }
    let converts = outputs_convert(targets, columns);
    let kinds = output_kinds(alloc, columns)?;
    let origin = Origin::Query(query);
    let change = insert_typed(alloc, place, shape, insert, targets, &kinds, origin)?;
    if_convertible(converts, change)
}
