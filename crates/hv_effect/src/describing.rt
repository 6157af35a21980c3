//! What DESCRIBE lists.

ghost use Rattle.std.specs.Prelude.{◌≡◌, IfOk, map};
ghost use Rattle.hv_meaning.specs.Describing.{array_text, described, description, description_names, type_text};

use crate::touching::{Touching, untouched};
use hv_base::{Duplicate, List, NoMemory, Text};
use hv_logic::{Column, Meaning};
use hv_value::{Elem, Row, SqlType, Value};
use std::alloc::Global;

fn array_text(element: Elem) -> &'static str
    ensures { result.now ≡ array_text element }
{
    match element {
        Elem::Null => "array<void>",
        Elem::Boolean => "array<boolean>",
        Elem::Int => "array<int>",
        Elem::BigInt => "array<bigint>",
        Elem::Str => "array<string>",
        Elem::Date => "array<date>",
    }
}

fn type_text(kind: SqlType) -> &'static str
    ensures { result.now ≡ type_text kind }
{
    match kind {
        SqlType::Null => "void",
        SqlType::Boolean => "boolean",
        SqlType::Int => "int",
        SqlType::BigInt => "bigint",
        SqlType::Str => "string",
        SqlType::Date => "date",
        SqlType::ArrayOf(element) => array_text(element),
    }
}

fn description(alloc: Global, column: &Column) -> Result<Row, NoMemory>
    ensures { IfOk result (λ row. row ≡ description column.now) }
{
    let mut values = Vec::new(alloc);
    values.push(Value::Str(column.name.duplicate(alloc)?))?;
    values.push(Value::Str(Text::of(alloc, type_text(column.kind))?))?;
    Ok(Row {
        values: List::from_vec(values),
    })
}

fn descriptions(alloc: Global, columns: &[Column]) -> Result<List<Row>, NoMemory>
    ensures { IfOk result (λ rows. rows ≡ map description columns.now) }
{
    let mut rows = Vec::new(alloc);
    for column in columns {
        rows.push(description(alloc, column)?)?;
    }
    Ok(List::from_vec(rows))
}

fn description_names(alloc: Global) -> Result<List<Text>, NoMemory>
    ensures { IfOk result (λ names. names ≡ description_names) }
{
    let mut names = Vec::new(alloc);
    names.push(Text::of(alloc, "col_name")?)?;
    names.push(Text::of(alloc, "data_type")?)?;
    Ok(List::from_vec(names))
}

/// The names and types of these columns.
pub(crate) fn described(alloc: Global, columns: &[Column]) -> Result<Touching, NoMemory>
    ensures { IfOk result (λ meaning. meaning ≡ described columns.now) }
{
    let names = description_names(alloc)?;
    let rows = descriptions(alloc, columns)?;
    Ok(untouched(alloc, Meaning::Listing(names, rows)))
}
