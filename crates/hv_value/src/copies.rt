ghost use Rattle.std.specs.Prelude.{◌≡◌, IfOk};

use crate::row::Row;
use crate::value::Value;
use hv_base::{Duplicate, List, NoMemory};
use std::alloc::Global;

impl Duplicate for Value {
    #[cycle(value_copies)]
    fn duplicate(&self, alloc: Global) -> Result<Value, NoMemory> {
        match self {
            Value::Null => Ok(Value::Null),
            Value::Bool(truth) => Ok(Value::Bool(*truth)),
            Value::Int(number) => Ok(Value::Int(*number)),
            Value::Big(number) => Ok(Value::Big(*number)),
            Value::Str(text) => Ok(Value::Str(text.duplicate(alloc)?)),
            Value::Day(day) => Ok(Value::Day(*day)),
            Value::Array(items) => Ok(Value::Array(duplicates(alloc, items.as_slice())?)),
        }
    }
}

#[cycle(value_copies)]
fn duplicates(alloc: Global, values: &[Value]) -> Result<List<Value>, NoMemory>
    ensures { IfOk result (λ copies. copies ≡ values.now) }
{
    let mut copies = Vec::with_capacity(alloc, values.len())?;
    for value in values {
        copies.push(value.duplicate(alloc)?)?;
    }
    Ok(List::from_vec(copies))
}

impl Duplicate for Row {
    fn duplicate(&self, alloc: Global) -> Result<Row, NoMemory> {
        Ok(Row {
            values: duplicates(alloc, self.values.as_slice())?,
        })
    }
}
