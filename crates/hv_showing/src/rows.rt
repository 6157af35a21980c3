//! Rows of texts, in row order.

ghost use Rattle.std.specs.Prelude.{◌≡◌, IfOk, pos};
ghost use Rattle.hv_value.specs.declared.value.Value.TheVariants as value;
ghost use Rattle.hv_history.specs.Shown.{in_order, text_row, one_name};

use hv_base::{Duplicate, List, NoMemory, Text};
use hv_value::{Row, Value};
use std::alloc::Global;

/// A text as a value.
pub fn text_value(alloc: Global, text: &Text) -> Result<Value, NoMemory>
    ensures { IfOk result (λ made. made ≡ value.Str text.now) }
{
    Ok(Value::Str(text.duplicate(alloc)?))
}

/// A text of the program as a value.
pub fn word_value(alloc: Global, word: &str) -> Result<Value, NoMemory>
    ensures { IfOk result (λ made. made ≡ value.Str word.now) }
{
    Ok(Value::Str(Text::of(alloc, word)?))
}

/// The number of a transaction as a value. One that is no BIGINT, which no book has room for, counts as want of memory.
pub fn number_value(number: u64) -> Result<Value, NoMemory>
    ensures { IfOk result (λ made. made ≡ value.Big (pos number)) }
{
    match i64::try_from(number) {
        Ok(big) => Ok(Value::Big(big)),
        Err(_) => Err(NoMemory),
    }
}

/// A row of this text alone.
pub fn text_row(alloc: Global, text: &Text) -> Result<Row, NoMemory>
    ensures { IfOk result (λ row. row ≡ text_row text.now) }
{
    let mut values = Vec::new(alloc);
    values.push(text_value(alloc, text)?)?;
    Ok(Row {
        values: List::from_vec(values),
    })
}

/// The name of one column.
pub fn one_name(alloc: Global, name: &str) -> Result<List<Text>, NoMemory>
    ensures { IfOk result (λ names. names ≡ one_name name.now) }
{
    let mut names = Vec::new(alloc);
    names.push(Text::of(alloc, name)?)?;
    Ok(List::from_vec(names))
}

/// These rows in row order, one of those that are the same.
pub fn in_order(rows: Vec<Row>) -> Result<Vec<Row>, NoMemory>
    ensures { IfOk result (λ ordered. ordered.items ≡ in_order rows.items) }
{
    let mut rows = rows;
    rows.sort()?;
    rows.dedup();
    Ok(rows)
}
