ghost use Rattle.std.specs.Prelude.{◌≡◌, IfOk};
ghost use Rattle.hv_typing.specs.Grouped.{distinct};
ghost use Rattle.hv_typing.specs.Rows.{same_row};

use hv_base::NoMemory;
use hv_value::Row;
use indexmap::IndexSet;
use std::alloc::Global;

fn rows_once(alloc: Global, rows: Vec<Row>) -> Result<IndexSet<Row>, NoMemory>
    ensures { IfOk result (λ kept. kept.keys ≡ distinct same_row rows.items) }
{
    let mut kept = IndexSet::new(alloc);
    let mut rest = rows;
    rest.reverse();
    while let Some(row) = rest.pop() {
        kept.insert(row)?;
    }
    Ok(kept)
}

fn rows_of_set(alloc: Global, set: IndexSet<Row>) -> Result<Vec<Row>, NoMemory>
    ensures { IfOk result (λ rows. rows.items ≡ set.keys) }
{
    let mut rows = Vec::new(alloc);
    let mut left = set;
    while let Some(row) = left.pop() {
        rows.push(row)?;
    }
    rows.reverse();
    Ok(rows)
}

/// Each row once, where it first comes.
pub fn once(alloc: Global, rows: Vec<Row>) -> Result<Vec<Row>, NoMemory>
    ensures { IfOk result (λ kept. kept.items ≡ distinct same_row rows.items) }
{
    rows_of_set(alloc, rows_once(alloc, rows)?)
}
