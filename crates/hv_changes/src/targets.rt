//! The target columns of an INSERT: PARTITION and the column list.

ghost use Rattle.std.specs.Prelude.{◌≡◌, ◌++◌, IfOk, []};
ghost use Rattle.hv_typing.specs.Faults.{Types};
ghost use Rattle.hv_typing.specs.Targets.{is_listed, are_listed, dynamic_parts, column_listed, columns_listed, columns_for, targets_of};

use crate::columns::{column_named, columns_of};
use crate::partitions::{is_static, partition_stands};
use hv_ast::PartitionItem;
use hv_base::{Duplicate, List, NoMemory, Refusal, Text};
use hv_logic::{Column, Shape};
use hv_typing::TypeFault;
use std::alloc::Global;

const BAD_COUNT: TypeFault = TypeFault::Refused(Refusal::BadCount);

fn is_listed(names: &[Text], name: &Text) -> bool
    ensures { result ≡ is_listed names.now name.now }
{
    for other in names {
        if *name == *other {
            return true;
        }
    }
    false
}

fn column_listed(
    alloc: Global,
    items: &[PartitionItem],
    columns: &[Column],
    before: &[Text],
    name: &Text,
) -> Result<Column, TypeFault>
    ensures { Types result (column_listed items.now columns.now before.now name.now) }
{
    let Some(column) = column_named(name, columns) else {
        return Err(TypeFault::Refused(Refusal::NoColumn));
    };
    if is_listed(before, name) || is_static(items, &column.name) {
        return Err(BAD_COUNT);
    }
    Ok(column.duplicate(alloc)?)
}

#[tactic(auto, using(crate::proofs::Orders::orders), unfolding(hv_typing::specs::Targets::columns_listed))]
fn columns_listed(
    alloc: Global,
    items: &[PartitionItem],
    columns: &[Column],
    names: &[Text],
) -> Result<List<Column>, TypeFault>
    ensures { Types result (columns_listed items.now columns.now [] names.now) }
{
    let mut listed = Vec::with_capacity(alloc, names.len())?;
    for (i, name) in names.iter().enumerate() {
        listed.push(column_listed(alloc, items, columns, &names[..i], name)?)?;
    }
    Ok(List::from_vec(listed))
}

fn are_listed(names: &[Text], columns: &[Column]) -> bool
    ensures { result ≡ are_listed names.now columns.now }
{
    for column in columns {
        if !is_listed(names, &column.name) {
            return false;
        }
    }
    true
}

fn dynamic_parts(
    alloc: Global,
    items: &[PartitionItem],
    parts: &[Column],
) -> Result<Vec<Column>, NoMemory>
    ensures { IfOk result (λ made. made.items ≡ dynamic_parts items.now parts.now) }
{
    let mut made = Vec::with_capacity(alloc, parts.len())?;
    for column in parts {
        if !is_static(items, &column.name) {
            made.push(column.duplicate(alloc)?)?;
        }
    }
    Ok(made)
}

/// The columns and then the dynamic partition columns.
fn all_targets(
    alloc: Global,
    shape: &Shape,
    items: &[PartitionItem],
) -> Result<List<Column>, NoMemory>
    ensures { IfOk result (λ targets. targets ≡ shape.now.columns ++ dynamic_parts items.now shape.now.parts) }
{
    let mut columns = shape.columns.duplicate(alloc)?.into_vec();
    let mut parts = dynamic_parts(alloc, items, shape.parts.as_slice())?;
    columns.append(&mut parts)?;
    Ok(List::from_vec(columns))
}

#[tactic(auto, unfolding(hv_typing::specs::Targets::columns_for))]
fn columns_for(
    alloc: Global,
    shape: &Shape,
    items: &[PartitionItem],
    names: &[Text],
) -> Result<List<Column>, TypeFault>
    ensures { Types result (columns_for shape.now items.now names.now) }
{
    if names.is_empty() {
        return Ok(all_targets(alloc, shape, items)?);
    }
    let columns = columns_of(alloc, shape)?;
    let targets = columns_listed(alloc, items, columns.as_slice(), names)?;
    let parts = dynamic_parts(alloc, items, shape.parts.as_slice())?;
    if are_listed(names, parts.as_slice()) {
        Ok(targets)
    } else {
        Err(BAD_COUNT)
    }
}

/// The columns that the values of an INSERT's source are for, in their order, or the first fault of its
/// PARTITION and its column list.
#[tactic(auto, unfolding(hv_typing::specs::Targets::targets_of))]
pub fn targets_of(
    alloc: Global,
    shape: &Shape,
    items: &[PartitionItem],
    names: &[Text],
) -> Result<List<Column>, TypeFault>
    ensures { Types result (targets_of shape.now items.now names.now) }
{
    partition_stands(alloc, shape.parts.as_slice(), items)?;
    columns_for(alloc, shape, items, names)
}
