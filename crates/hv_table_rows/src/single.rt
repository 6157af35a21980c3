ghost use Rattle.std.specs.Prelude.{◌≡◌, map, IfOk};
ghost use Rattle.hv_logic.specs.Rows.{found_cmp};
ghost use Rattle.hv_table_rows.specs.Orders.{found_in, placed_cmp};
ghost use Rattle.hv_table_rows.specs.Reading.{AreOnce};

use crate::placed::Placed;
use crate::rising::rise;
use hv_base::NoMemory;
use hv_logic::Found;
use std::alloc::Global;

fn placed(alloc: Global, rows: Vec<Found>) -> Result<Vec<Placed>, NoMemory>
    ensures { IfOk result (λ placed. map found_in placed.items ≡ rows.items) }
{
    let mut placed = Vec::new(alloc);
    for found in rows {
        placed.push(Placed { found })?;
    }
    Ok(placed)
}

fn founds(alloc: Global, rows: Vec<Placed>) -> Result<Vec<Found>, NoMemory>
    ensures { IfOk result (λ founds. founds.items ≡ map found_in rows.items) }
{
    let mut founds = Vec::new(alloc);
    for row in rows {
        founds.push(row.found)?;
    }
    Ok(founds)
}

/// These rows in their order, one of those that stand at one place.
fn once_placed(rows: Vec<Placed>) -> Result<Vec<Placed>, NoMemory>
    ensures { IfOk result (λ once. AreOnce placed_cmp rows.items once.items) }
{
    let mut rows = rows;
    rows.sort()?;
    rows.dedup();
    Ok(rows)
}

/// These rows by partition and identifier, one of those of one identifier, in whatever order they come.
fn once_sorted(alloc: Global, rows: Vec<Found>) -> Result<Vec<Found>, NoMemory>
    ensures { IfOk result (λ once. AreOnce found_cmp rows.items once.items) }
{
    let rows = once_placed(placed(alloc, rows)?)?;
    founds(alloc, rows)
}

/// These rows by partition and identifier, one of those of one identifier. Where they rise already none is moved.
pub fn once(alloc: Global, rows: Vec<Found>) -> Result<Vec<Found>, NoMemory>
    ensures { IfOk result (λ once. AreOnce found_cmp rows.items once.items) }
{
    if rise(rows.as_slice()) {
        return Ok(rows);
    }
    once_sorted(alloc, rows)
}
