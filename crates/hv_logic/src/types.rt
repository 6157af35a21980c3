ghost use Rattle.std.specs.Prelude.{◌≡◌, IfOk, map};
ghost use Rattle.hv_logic.specs.Shapes.{scalar_of, element_of, type_of, column_of};

use crate::catalog::Column;
use hv_ast::{ColumnDefinition, ScalarName, TypeName};
use hv_base::{Duplicate, List, NoMemory};
use hv_value::{Elem, SqlType};
use std::alloc::Global;

fn scalar_type(name: ScalarName) -> SqlType
    ensures { result ≡ scalar_of name }
{
    match name {
        ScalarName::Boolean => SqlType::Boolean,
        ScalarName::Int => SqlType::Int,
        ScalarName::BigInt => SqlType::BigInt,
        ScalarName::String => SqlType::Str,
        ScalarName::Date => SqlType::Date,
    }
}

fn element_type(name: ScalarName) -> Elem
    ensures { result ≡ element_of name }
{
    match name {
        ScalarName::Boolean => Elem::Boolean,
        ScalarName::Int => Elem::Int,
        ScalarName::BigInt => Elem::BigInt,
        ScalarName::String => Elem::Str,
        ScalarName::Date => Elem::Date,
    }
}

/// The type that a written type names.
pub fn named_type(name: TypeName) -> SqlType
    ensures { result ≡ type_of name }
{
    match name {
        TypeName::Scalar(scalar) => scalar_type(scalar),
        TypeName::Array(scalar) => SqlType::ArrayOf(element_type(scalar)),
    }
}

fn defined_column(alloc: Global, definition: &ColumnDefinition) -> Result<Column, NoMemory>
    ensures { IfOk result (λ column. column ≡ column_of definition.now) }
{
    Ok(Column {
        name: definition.name.duplicate(alloc)?,
        kind: named_type(definition.kind),
    })
}

/// The columns that a CREATE TABLE defines.
pub(crate) fn defined_columns(
    alloc: Global,
    definitions: &[ColumnDefinition],
) -> Result<List<Column>, NoMemory>
    ensures { IfOk result (λ columns. columns ≡ map column_of definitions.now) }
{
    let mut columns = Vec::new(alloc);
    for definition in definitions {
        columns.push(defined_column(alloc, definition)?)?;
    }
    Ok(List::from_vec(columns))
}
