ghost use Rattle.std.specs.Prelude.{◌≡◌, IfOk, map, option_map, position};
ghost use Rattle.hv_typing.specs.Columns.{columns_of, is_named, field_of, fields_of, kinds_of, kind_at};
ghost use Rattle.hv_typing.specs.Targets.{column_named};

use hv_base::{Duplicate, List, NoMemory, Text};
use hv_logic::{Column, Shape};
use hv_typing::Field;
use hv_value::SqlType;
use std::alloc::Global;

/// The columns of a table as its rows have their values: its columns and then its partition columns.
pub fn columns_of(alloc: Global, shape: &Shape) -> Result<List<Column>, NoMemory>
    ensures { IfOk result (λ columns. columns ≡ columns_of shape.now) }
{
    let mut columns = shape.columns.duplicate(alloc)?.into_vec();
    let mut parts = shape.parts.duplicate(alloc)?.into_vec();
    columns.append(&mut parts)?;
    Ok(List::from_vec(columns))
}

fn field_of(alloc: Global, alias: &Text, column: &Column) -> Result<Field, NoMemory>
    ensures { IfOk result (λ field. field ≡ field_of alias.now column.now) }
{
    Ok(Field {
        source: alias.duplicate(alloc)?,
        name: column.name.duplicate(alloc)?,
        kind: column.kind,
    })
}

/// Columns in scope, under the name of their source.
pub fn fields_named(
    alloc: Global,
    alias: &Text,
    columns: &[Column],
) -> Result<List<Field>, NoMemory>
    ensures { IfOk result (λ fields. fields ≡ map (field_of alias.now) columns.now) }
{
    let mut fields = Vec::with_capacity(alloc, columns.len())?;
    for column in columns {
        fields.push(field_of(alloc, alias, column)?)?;
    }
    Ok(List::from_vec(fields))
}

/// The columns of a table that is updated, or deleted from.
pub(crate) fn fields_of(alloc: Global, shape: &Shape) -> Result<List<Field>, NoMemory>
    ensures { IfOk result (λ fields. fields ≡ fields_of shape.now) }
{
    let columns = columns_of(alloc, shape)?;
    fields_named(alloc, &shape.name, columns.as_slice())
}

pub fn column_kinds(alloc: Global, columns: &[Column]) -> Result<Vec<SqlType>, NoMemory>
    ensures { IfOk result (λ kinds. kinds.items ≡ kinds_of columns.now) }
{
    let mut kinds = Vec::with_capacity(alloc, columns.len())?;
    for column in columns {
        kinds.push(column.kind)?;
    }
    Ok(kinds)
}

pub(crate) fn kind_at(kinds: &[SqlType], place: usize) -> SqlType
    ensures { result ≡ kind_at kinds.now place }
{
    match kinds.get(place) {
        Some(kind) => *kind,
        None => SqlType::Null,
    }
}

pub(crate) fn column_named<'a>(name: &Text, columns: &'a [Column]) -> Option<&'a Column>
    ensures { option_map (λ column. column.now) result ≡ column_named name.now columns.now }
{
    for column in columns {
        if column.name == *name {
            return Some(column);
        }
    }
    None
}

/// The place of the column of that name.
pub(crate) fn place_named(columns: &[Column], name: &Text) -> Option<usize>
    ensures { result ≡ position (is_named name.now) columns.now }
{
    columns.iter().position(|column| column.name == *name)
}
