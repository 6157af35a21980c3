ghost use Rattle.std.specs.Prelude.{◌≡◌, ◌++◌, IfOk, OnOk, if◌then◌else◌};
ghost use Rattle.hv_typing.specs.Grouped.{distinct};
ghost use Rattle.hv_typing.specs.Rows.{same_row};

use crate::distinct::once;
use hv_base::NoMemory;
use hv_value::Row;
use std::alloc::Global;

// The rows of both, the first before the second.
fn both(mut first: Vec<Row>, second: Vec<Row>) -> Result<Vec<Row>, NoMemory>
    ensures { IfOk result (λ rows. rows.items ≡ first.items ++ second.items) }
{
    let mut rest = second;
    rest.reverse();
    while let Some(row) = rest.pop() {
        first.push(row)?;
    }
    Ok(first)
}

/// The rows of a select behind those that were found, each once unless all are asked for.
pub fn with(alloc: Global, found: Vec<Row>, more: Vec<Row>, all: bool) -> Result<Vec<Row>, NoMemory>
    ensures { IfOk result (λ rows. rows.items ≡ (if all then found.items ++ more.items else distinct same_row (found.items ++ more.items))) }
{
    let rows = both(found, more)?;
    if all { Ok(rows) } else { once(alloc, rows) }
}
