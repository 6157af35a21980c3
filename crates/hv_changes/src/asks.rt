//! The list of ALTER TABLE COMPACT.

ghost use Rattle.std.specs.Prelude.{◌≡◌};
ghost use Rattle.hv_typing.specs.Faults.{Types};
ghost use Rattle.hv_typing.specs.Asks.{asked_values, column_typed, columns_typed, is_whole_list, item_typed, items_typed, list_typed};

use crate::columns::column_named;
use crate::partitions::{are_given, are_items, static_of, static_value};
use hv_ast::PartitionItem;
use hv_base::{List, Refusal};
use hv_expr::TypedExpr;
use hv_logic::Column;
use hv_typing::TypeFault;
use std::alloc::Global;

const BAD_COUNT: TypeFault = TypeFault::Refused(Refusal::BadCount);

fn item_typed(alloc: Global, parts: &[Column], item: &PartitionItem) -> Result<TypedExpr, TypeFault>
    ensures { Types result (item_typed parts.now item.now) }
{
    let Some(column) = column_named(&item.name, parts) else {
        return Err(BAD_COUNT);
    };
    let Some(expr) = &item.value else {
        return Err(BAD_COUNT);
    };
    Ok(static_value(alloc, column.kind, expr)?.into_inner())
}

#[tactic(auto, using(crate::proofs::Orders::orders), unfolding(hv_typing::specs::Asks::items_typed))]
fn items_typed(
    alloc: Global,
    parts: &[Column],
    items: &[PartitionItem],
) -> Result<List<TypedExpr>, TypeFault>
    ensures { Types result (items_typed parts.now items.now) }
{
    let mut values = Vec::with_capacity(alloc, items.len())?;
    for item in items {
        values.push(item_typed(alloc, parts, item)?)?;
    }
    Ok(List::from_vec(values))
}

fn column_typed(
    alloc: Global,
    items: &[PartitionItem],
    column: &Column,
) -> Result<TypedExpr, TypeFault>
    ensures { Types result (column_typed items.now column.now) }
{
    match static_of(items, &column.name) {
        None => Err(BAD_COUNT),
        Some(expr) => Ok(static_value(alloc, column.kind, expr)?.into_inner()),
    }
}

#[tactic(auto, using(crate::proofs::Orders::orders), unfolding(hv_typing::specs::Asks::columns_typed))]
fn columns_typed(
    alloc: Global,
    items: &[PartitionItem],
    parts: &[Column],
) -> Result<List<TypedExpr>, TypeFault>
    ensures { Types result (columns_typed items.now parts.now) }
{
    let mut values = Vec::with_capacity(alloc, parts.len())?;
    for column in parts {
        values.push(column_typed(alloc, items, column)?)?;
    }
    Ok(List::from_vec(values))
}

#[tactic(auto, unfolding(hv_typing::specs::Asks::asked_values))]
fn asked_values(
    alloc: Global,
    parts: &[Column],
    items: &[PartitionItem],
) -> Result<List<TypedExpr>, TypeFault>
    ensures { Types result (asked_values parts.now items.now) }
{
    items_typed(alloc, parts, items)?;
    columns_typed(alloc, items, parts)
}

fn is_whole_list(parts: &[Column], items: &[PartitionItem]) -> bool
    ensures { result ≡ is_whole_list parts.now items.now }
{
    are_given(parts, items) && are_items(items, parts)
}

/// The value of each partition column, or the first fault of the list.
#[tactic(auto, unfolding(hv_typing::specs::Asks::list_typed))]
pub fn list_typed(
    alloc: Global,
    parts: &[Column],
    items: &[PartitionItem],
) -> Result<List<TypedExpr>, TypeFault>
    ensures { Types result (list_typed parts.now items.now) }
{
    if is_whole_list(parts, items) {
        asked_values(alloc, parts, items)
    } else {
        Err(BAD_COUNT)
    }
}
