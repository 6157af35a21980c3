//! A query as the source of an INSERT: the types of its columns.

ghost use Rattle.std.specs.Prelude.{◌≡◌, IfOk, map, drop};
ghost use Rattle.hv_typing.specs.Inserts.{output_kind, outputs_convert};

use hv_base::NoMemory;
use hv_logic::Column;
use hv_typing::OutputColumn;
use hv_value::{SqlType, is_convertible};
use std::alloc::Global;

pub(crate) fn output_kinds(
    alloc: Global,
    columns: &[OutputColumn],
) -> Result<Vec<SqlType>, NoMemory>
    ensures { IfOk result (λ kinds. kinds.items ≡ map output_kind columns.now) }
{
    let mut kinds = Vec::with_capacity(alloc, columns.len())?;
    for column in columns {
        kinds.push(column.kind)?;
    }
    Ok(kinds)
}

pub(crate) fn outputs_convert(columns: &[Column], outputs: &[OutputColumn]) -> bool
    ensures { result ≡ outputs_convert columns.now outputs.now }
{
    let mut rest = columns;
    for output in outputs {
        let [column, behind @ ..] = rest else {
            return true;
        };
        if !is_convertible(&output.kind, &column.kind) {
            return false;
        }
        rest = behind;
    }
    true
}
