//! UPDATE, DELETE and TRUNCATE over their target's columns.

ghost use Rattle.std.specs.Prelude.{◌≡◌, IfOk, [], slice_set};
ghost use Rattle.hv_typing.specs.Faults.{Types};
ghost use Rattle.hv_typing.specs.Sources.{filter_typed};
ghost use Rattle.hv_typing.specs.Columns.{fields_of, kind_at};
ghost use Rattle.hv_typing.specs.Updates.{is_bucketed, is_fixed, is_set, if_free, place_set, value_set, kept, one_set, all_set, sets_of, update_of, updated, delete_of, deleted, partitions_met, truncated};

use crate::columns::{column_kinds, columns_of, fields_named, fields_of, kind_at, place_named};
use crate::partitions::{are_given, partition_met};
use crate::values::if_converts;
use hv_ast::{Assignment, Delete, Expr, PartitionItem, Truncate, Update};
use hv_base::{Boxed, List, NoMemory, Refusal, Text};
use hv_expr::TypedExpr;
use hv_logic::{Column, Shape};
use hv_types::{condition_of, type_expr};
use hv_typing::{Deletes, Field, Origin, Over, TypeFault, TypedChange};
use hv_value::SqlType;
use std::alloc::Global;

fn is_bucketed(places: &[u32], place: usize) -> bool
    ensures { result ≡ is_bucketed places.now place }
{
    for other in places {
        if *other as usize == place {
            return true;
        }
    }
    false
}

fn is_fixed(shape: &Shape, place: usize) -> bool
    ensures { result ≡ is_fixed shape.now place }
{
    shape.columns.len() <= place || is_bucketed(shape.bucketed.as_slice(), place)
}

fn is_set(before: &[Assignment], name: &Text) -> bool
    ensures { result ≡ is_set before.now name.now }
{
    for other in before {
        if other.column == *name {
            return true;
        }
    }
    false
}

/// The place of the column that is set, where there is one.
fn if_free(
    shape: &Shape,
    before: &[Assignment],
    name: &Text,
    place: Option<usize>,
) -> Result<usize, TypeFault>
    ensures { Types result (if_free shape.now before.now name.now place) }
{
    let Some(place) = place else {
        return Err(TypeFault::Refused(Refusal::NoColumn));
    };
    if is_fixed(shape, place) {
        Err(TypeFault::Refused(Refusal::FixedColumn))
    } else if is_set(before, name) {
        Err(TypeFault::Refused(Refusal::BadCount))
    } else {
        Ok(place)
    }
}

fn place_set(
    shape: &Shape,
    columns: &[Column],
    before: &[Assignment],
    name: &Text,
) -> Result<usize, TypeFault>
    ensures { Types result (place_set shape.now columns.now before.now name.now) }
{
    if_free(shape, before, name, place_named(columns, name))
}

/// What it is set to, as its type.
fn value_set(
    alloc: Global,
    fields: &[Field],
    kind: SqlType,
    expr: &Expr,
) -> Result<Boxed<TypedExpr>, TypeFault>
    ensures { Types result (value_set fields.now kind expr.now) }
{
    let value = type_expr(alloc, expr, fields, Over::Row)?;
    if_converts(alloc, kind, value)
}

/// Each column as it is.
fn kept(alloc: Global, kinds: &[SqlType]) -> Result<List<TypedExpr>, NoMemory>
    ensures { IfOk result (λ values. values ≡ kept 0 kinds.now) }
{
    let mut values = Vec::with_capacity(alloc, kinds.len())?;
    for i in 0..kinds.len() {
        let Ok(place) = u32::try_from(i) else {
            return Err(NoMemory);
        };
        values.push(TypedExpr::Column(place, kinds[i]))?;
    }
    Ok(List::from_vec(values))
}

fn with_value(values: List<TypedExpr>, place: usize, value: Boxed<TypedExpr>) -> List<TypedExpr>
    ensures { result ≡ slice_set values place value }
{
    let mut values = values.into_vec();
    if place < values.len() {
        values[place] = value.into_inner();
    }
    List::from_vec(values)
}

/// One assignment more.
#[tactic(auto, unfolding(hv_typing::specs::Updates::one_set))]
fn one_set(
    alloc: Global,
    shape: &Shape,
    columns: &[Column],
    fields: &[Field],
    kinds: &[SqlType],
    before: &[Assignment],
    values: List<TypedExpr>,
    assignment: &Assignment,
) -> Result<List<TypedExpr>, TypeFault>
    ensures { Types result (one_set shape.now columns.now fields.now kinds.now before.now values assignment.now) }
{
    let place = place_set(shape, columns, before, &assignment.column)?;
    let value = value_set(alloc, fields, kind_at(kinds, place), &assignment.value)?;
    Ok(with_value(values, place, value))
}

#[tactic(auto, unfolding(hv_typing::specs::Updates::all_set))]
pub fn all_set(
    alloc: Global,
    shape: &Shape,
    columns: &[Column],
    fields: &[Field],
    kinds: &[SqlType],
    assignments: &[Assignment],
) -> Result<List<TypedExpr>, TypeFault>
    ensures { Types result (all_set shape.now columns.now fields.now kinds.now [] (kept 0 kinds.now) assignments.now) }
{
    let mut values = kept(alloc, kinds)?;
    for (i, assignment) in assignments.iter().enumerate() {
        let before = &assignments[..i];
        values = one_set(
            alloc, shape, columns, fields, kinds, before, values, assignment,
        )?;
    }
    Ok(values)
}

/// The values of an updated row.
fn sets_of(
    alloc: Global,
    shape: &Shape,
    columns: &[Column],
    assignments: &[Assignment],
) -> Result<List<TypedExpr>, TypeFault>
    ensures { Types result (sets_of shape.now columns.now assignments.now) }
{
    let fields = fields_named(alloc, &shape.name, columns)?;
    let kinds = column_kinds(alloc, columns)?;
    all_set(
        alloc,
        shape,
        columns,
        fields.as_slice(),
        kinds.as_slice(),
        assignments,
    )
}

fn filter_typed(
    alloc: Global,
    shape: &Shape,
    filter: &Option<Expr>,
) -> Result<Option<Boxed<TypedExpr>>, TypeFault>
    ensures { Types result (filter_typed (fields_of shape.now) filter.now) }
{
    let Some(filter) = filter else {
        return Ok(None);
    };
    let fields = fields_of(alloc, shape)?;
    Ok(Some(condition_of(alloc, filter, fields.as_slice(), Over::Row)?))
}

/// The typed UPDATE, or its first fault.
#[tactic(auto, unfolding(hv_typing::specs::Updates::updated))]
pub fn updated(
    alloc: Global,
    place: u32,
    shape: &Shape,
    update: &Update,
) -> Result<TypedChange, TypeFault>
    ensures { Types result (updated place shape.now update.now) }
{
    let columns = columns_of(alloc, shape)?;
    let values = sets_of(
        alloc,
        shape,
        columns.as_slice(),
        update.assignments.as_slice(),
    )?;
    let filter = filter_typed(alloc, shape, &update.filter)?;
    Ok(TypedChange {
        table: place,
        deletes: Deletes::Matching(filter),
        values,
        origin: Origin::Deleted,
    })
}

fn delete_of(alloc: Global, place: u32, filter: Option<Boxed<TypedExpr>>) -> TypedChange
    ensures { result ≡ delete_of place filter }
{
    TypedChange {
        table: place,
        deletes: Deletes::Matching(filter),
        values: List::empty(alloc),
        origin: Origin::Values(List::empty(alloc)),
    }
}

/// The typed DELETE, or its first fault.
#[tactic(auto, unfolding(hv_typing::specs::Updates::deleted))]
pub fn deleted(
    alloc: Global,
    place: u32,
    shape: &Shape,
    delete: &Delete,
) -> Result<TypedChange, TypeFault>
    ensures { Types result (deleted place shape.now delete.now) }
{
    let filter = filter_typed(alloc, shape, &delete.filter)?;
    Ok(delete_of(alloc, place, filter))
}

/// The condition that a row is of the partitions that the list names; none without a list.
#[tactic(auto, unfolding(hv_typing::specs::Updates::partitions_met))]
fn partitions_met(
    alloc: Global,
    shape: &Shape,
    items: &[PartitionItem],
) -> Result<Option<Boxed<TypedExpr>>, TypeFault>
    ensures { Types result (partitions_met shape.now items.now) }
{
    if items.is_empty() {
        return Ok(None);
    }
    if !are_given(shape.parts.as_slice(), items) {
        return Err(TypeFault::Refused(Refusal::BadCount));
    }
    let columns = columns_of(alloc, shape)?;
    Ok(Some(partition_met(alloc, columns.as_slice(), items)?))
}

/// The typed TRUNCATE, or its first fault.
#[tactic(auto, unfolding(hv_typing::specs::Updates::truncated))]
pub fn truncated(
    alloc: Global,
    place: u32,
    shape: &Shape,
    truncate: &Truncate,
) -> Result<TypedChange, TypeFault>
    ensures { Types result (truncated place shape.now truncate.now) }
{
    let condition = partitions_met(alloc, shape, truncate.partition.as_slice())?;
    Ok(delete_of(alloc, place, condition))
}
