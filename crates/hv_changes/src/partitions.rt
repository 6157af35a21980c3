//! PARTITION: the static values, and the rows of the partition that a statement names.

ghost use Rattle.std.specs.Prelude.{◌≡◌, IfOk, [], option_map};
ghost use Rattle.hv_typing.specs.Faults.{Types};
ghost use Rattle.hv_typing.specs.Targets.{static_of, is_static, are_static, is_item, are_items, value_stands, item_stands, items_stand, partition_stands};
ghost use Rattle.hv_typing.specs.Partitions.{static_value, equals_at, item_met, items_met, partition_met, is_given, are_given};

use crate::columns::{column_kinds, column_named, kind_at, place_named};
use crate::values::if_converts;
use hv_ast::{Expr, PartitionItem};
use hv_base::{Boxed, List, NoMemory, Refusal, Text};
use hv_expr::{Many, Two, TypedExpr};
use hv_logic::Column;
use hv_types::type_expr;
use hv_typing::{Over, TypeFault};
use hv_value::SqlType;
use std::alloc::Global;

const BAD_COUNT: TypeFault = TypeFault::Refused(Refusal::BadCount);

/// The static value of the column of that name.
pub(crate) fn static_of<'a>(items: &'a [PartitionItem], name: &Text) -> Option<&'a Expr>
    ensures { option_map (λ expr. expr.now) result ≡ static_of items.now name.now }
{
    for item in items {
        if item.name == *name {
            return item.value.as_ref();
        }
    }
    None
}

pub(crate) fn is_static(items: &[PartitionItem], name: &Text) -> bool
    ensures { result ≡ is_static items.now name.now }
{
    static_of(items, name).is_some()
}

pub(crate) fn are_static(items: &[PartitionItem], columns: &[Column]) -> bool
    ensures { result ≡ are_static items.now columns.now }
{
    for column in columns {
        if !is_static(items, &column.name) {
            return false;
        }
    }
    true
}

fn is_item(items: &[PartitionItem], name: &Text) -> bool
    ensures { result ≡ is_item items.now name.now }
{
    for item in items {
        if item.name == *name {
            return true;
        }
    }
    false
}

pub(crate) fn are_items(items: &[PartitionItem], columns: &[Column]) -> bool
    ensures { result ≡ are_items items.now columns.now }
{
    for column in columns {
        if !is_item(items, &column.name) {
            return false;
        }
    }
    true
}

fn value_stands(alloc: Global, value: &Option<Expr>) -> Result<(), TypeFault>
    ensures { Types result (value_stands value.now) }
{
    let Some(expr) = value else {
        return Ok(());
    };
    type_expr(alloc, expr, &[], Over::Row)?;
    Ok(())
}

fn item_stands(
    alloc: Global,
    parts: &[Column],
    before: &[PartitionItem],
    item: &PartitionItem,
) -> Result<(), TypeFault>
    ensures { Types result (item_stands parts.now before.now item.now) }
{
    if column_named(&item.name, parts).is_none() {
        return Err(TypeFault::Refused(Refusal::NoColumn));
    }
    if is_item(before, &item.name) {
        return Err(BAD_COUNT);
    }
    value_stands(alloc, &item.value)
}

#[tactic(auto, unfolding(hv_typing::specs::Targets::items_stand))]
fn items_stand(alloc: Global, parts: &[Column], items: &[PartitionItem]) -> Result<(), TypeFault>
    ensures { Types result (items_stand parts.now [] items.now) }
{
    for (i, item) in items.iter().enumerate() {
        item_stands(alloc, parts, &items[..i], item)?;
    }
    Ok(())
}

/// The first fault of PARTITION in an INSERT, but for the conversions of its values.
#[tactic(auto, unfolding(hv_typing::specs::Targets::partition_stands))]
pub(crate) fn partition_stands(
    alloc: Global,
    parts: &[Column],
    items: &[PartitionItem],
) -> Result<(), TypeFault>
    ensures { Types result (partition_stands parts.now items.now) }
{
    if items.is_empty() {
        return Ok(());
    }
    items_stand(alloc, parts, items)?;
    if are_items(items, parts) {
        Ok(())
    } else {
        Err(BAD_COUNT)
    }
}

pub(crate) fn static_value(
    alloc: Global,
    kind: SqlType,
    expr: &Expr,
) -> Result<Boxed<TypedExpr>, TypeFault>
    ensures { Types result (static_value kind expr.now) }
{
    let value = type_expr(alloc, expr, &[], Over::Row)?;
    if_converts(alloc, kind, value)
}

// Places are numbers of 32 bits: there is no memory for more columns.
fn equals_at(
    alloc: Global,
    place: usize,
    kind: SqlType,
    value: Boxed<TypedExpr>,
) -> Result<TypedExpr, NoMemory>
    ensures { IfOk result (λ made. made ≡ equals_at place kind value) }
{
    let Ok(number) = u32::try_from(place) else {
        return Err(NoMemory);
    };
    let column = Boxed::new(alloc, TypedExpr::Column(number, kind))?;
    Ok(TypedExpr::Two(Two::NullSafeEqual, SqlType::Boolean, column, value))
}

/// The condition that a row has the item's value in the item's column.
fn item_met(
    alloc: Global,
    columns: &[Column],
    kinds: &[SqlType],
    item: &PartitionItem,
) -> Result<TypedExpr, TypeFault>
    ensures { Types result (item_met columns.now kinds.now item.now) }
{
    let Some(place) = place_named(columns, &item.name) else {
        return Err(BAD_COUNT);
    };
    let Some(expr) = &item.value else {
        return Err(BAD_COUNT);
    };
    let kind = kind_at(kinds, place);
    let value = static_value(alloc, kind, expr)?;
    Ok(equals_at(alloc, place, kind, value)?)
}

#[tactic(auto, using(crate::proofs::Orders::orders), unfolding(hv_typing::specs::Partitions::items_met))]
fn items_met(
    alloc: Global,
    columns: &[Column],
    kinds: &[SqlType],
    items: &[PartitionItem],
) -> Result<List<TypedExpr>, TypeFault>
    ensures { Types result (items_met columns.now kinds.now items.now) }
{
    let mut conditions = Vec::with_capacity(alloc, items.len())?;
    for item in items {
        conditions.push(item_met(alloc, columns, kinds, item)?)?;
    }
    Ok(List::from_vec(conditions))
}

/// The condition that a row is of the partitions that these items name.
#[tactic(auto, unfolding(hv_typing::specs::Partitions::partition_met))]
pub(crate) fn partition_met(
    alloc: Global,
    columns: &[Column],
    items: &[PartitionItem],
) -> Result<Boxed<TypedExpr>, TypeFault>
    ensures { Types result (partition_met columns.now items.now) }
{
    let kinds = column_kinds(alloc, columns)?;
    let conditions = items_met(alloc, columns, kinds.as_slice(), items)?;
    let all = TypedExpr::Many(Many::And, SqlType::Boolean, conditions);
    Ok(Boxed::new(alloc, all)?)
}

fn is_given(parts: &[Column], before: &[PartitionItem], item: &PartitionItem) -> bool
    ensures { result ≡ is_given parts.now before.now item.now }
{
    item.value.is_some()
        && column_named(&item.name, parts).is_some()
        && !is_item(before, &item.name)
}

/// Whether these are partition columns, each once and with a value.
#[tactic(auto, unfolding(hv_typing::specs::Partitions::are_given))]
pub(crate) fn are_given(parts: &[Column], items: &[PartitionItem]) -> bool
    ensures { result ≡ are_given parts.now [] items.now }
{
    for (i, item) in items.iter().enumerate() {
        if !is_given(parts, &items[..i], item) {
            return false;
        }
    }
    true
}
