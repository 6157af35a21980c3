ghost use Rattle.std.specs.Prelude.{◌≡◌, ◌⊎◌, ◌++◌, OnOk, IfOk, Err, map};
ghost use Rattle.std.specs.List.{list_all, list_any};
ghost use Rattle.std.specs.Ordering.{bool_cmp};
ghost use Rattle.hv_base.specs.Sorting.{sorted_by};
ghost use Rattle.hv_route.specs.Placing.{placed_cmp};
ghost use Rattle.hv_route.specs.Touching.{place_of_insert, place_of_delete, rows_touched, touch_of, touches_of, stored_fits, is_long, is_above, within_limits, touched};
ghost use Rattle.hv_route.specs.declared.fault.RouteFault.TheVariants as fault;

use crate::fault::RouteFault;
use crate::files::partition_of;
use crate::placed::Placed;
use crate::runs::{Run, runs_of};
use hv_base::{Duplicate, List, NoMemory, TableId, Touch};
use hv_logic::{Effect, Found, Shape, TableInfo, values_fit};
use hv_value::Row;
use std::alloc::Global;

const TEXT_LIMIT: usize = 240;

const PARTITION_LIMIT: usize = 100;

fn push_inserts(
    alloc: Global,
    placed: &mut Vec<Placed<bool>>,
    shape: &Shape,
    rows: &[Row],
) -> Result<(), NoMemory>
    ensures { OnOk result (placed.new.items ≡ placed.old.items ++ map (place_of_insert shape.now) rows.now) }
{
    for row in rows {
        let partition = partition_of(alloc, shape, row)?;
        placed.push(Placed {
            partition,
            bucket: 0,
            item: false,
        })?;
    }
    Ok(())
}

fn push_deletes(
    alloc: Global,
    placed: &mut Vec<Placed<bool>>,
    deletes: &[Found],
) -> Result<(), NoMemory>
    ensures { OnOk result (placed.new.items ≡ placed.old.items ++ map place_of_delete deletes.now) }
{
    for found in deletes {
        let partition = found.partition.duplicate(alloc)?;
        placed.push(Placed {
            partition,
            bucket: 0,
            item: true,
        })?;
    }
    Ok(())
}

fn rows_touched(
    alloc: Global,
    shape: &Shape,
    effect: &Effect,
) -> Result<Vec<Placed<bool>>, NoMemory>
    ensures { IfOk result (λ placed. placed.items ≡ sorted_by (placed_cmp bool_cmp) (rows_touched shape.now effect.now)) }
{
    let mut placed = Vec::new(alloc);
    push_inserts(alloc, &mut placed, shape, effect.inserts.as_slice())?;
    push_deletes(alloc, &mut placed, effect.deletes.as_slice())?;
    placed.sort()?;
    Ok(placed)
}

fn touch_of(table: TableId, run: Run<bool>) -> Touch
    ensures { result ≡ touch_of table.0 run }
{
    let mut inserted = 0;
    let mut deleted = 0;
    for mark in run.items.as_slice() {
        if *mark {
            deleted += 1;
        } else {
            inserted += 1;
        }
    }
    Touch {
        table,
        partition: run.partition,
        inserted,
        deleted,
    }
}

fn touches_of(alloc: Global, info: &TableInfo, effect: &Effect) -> Result<List<Touch>, NoMemory>
    ensures { IfOk result (λ touches. touches ≡ touches_of info.now effect.now) }
{
    let mut touches = Vec::new(alloc);
    for run in runs_of(alloc, rows_touched(alloc, &info.shape, effect)?)? {
        touches.push(touch_of(info.table, run))?;
    }
    Ok(List::from_vec(touches))
}

fn stored_fits(shape: &Shape, row: &Row) -> bool
    ensures { result ≡ stored_fits shape.now row.now }
{
    let values = row.values.as_slice();
    let own = shape.columns.len().min(values.len());
    values_fit(&values[..own])
}

fn all_fit(shape: &Shape, rows: &[Row]) -> bool
    ensures { result ≡ list_all (stored_fits shape.now) rows.now }
{
    for row in rows {
        if !stored_fits(shape, row) {
            return false;
        }
    }
    true
}

fn has_long(touches: &[Touch]) -> bool
    ensures { result ≡ list_any is_long touches.now }
{
    for touch in touches {
        if touch.partition.len() > TEXT_LIMIT {
            return true;
        }
    }
    false
}

fn is_above(touches: &[Touch]) -> bool
    ensures { result ≡ is_above touches.now }
{
    has_long(touches) || touches.len() > PARTITION_LIMIT
}

fn within_limits(touches: List<Touch>) -> Result<List<Touch>, RouteFault>
    ensures { result ≡ within_limits touches }
{
    if is_above(touches.as_slice()) {
        Err(RouteFault::PartitionLimit)
    } else {
        Ok(touches)
    }
}

/// How many rows a statement's effect inserts and deletes in each partition of the table, rising by partition, without
/// partitions of no row. `RowLimit` where the values that a file keeps of an inserted row take more than 65,536 bytes;
/// else `PartitionLimit` where the text of a touched partition has more than 240 bytes or more than 100 partitions are
/// touched.
pub fn touches(alloc: Global, info: &TableInfo, effect: &Effect) -> Result<List<Touch>, RouteFault>
    ensures { (result ≡ touched info.now effect.now) ⊎ (result ≡ Err fault.NoMemory) }
{
    if all_fit(&info.shape, effect.inserts.as_slice()) {
        within_limits(touches_of(alloc, info, effect)?)
    } else {
        Err(RouteFault::RowLimit)
    }
}
