//! SHOW PARTITIONS.

ghost use Rattle.std.specs.Prelude.{◌≡◌, ◌++◌, IfOk, OnOk};
ghost use Rattle.std.specs.List.{flat_map};
ghost use Rattle.std.specs.Option.{option_copied};
ghost use Rattle.hv_history.specs.Shown.{each_from, inserted_row, inserted_of};
ghost use Rattle.hv_showing.specs.Fronts.{transactions_then, then_at, IsFrontOf, rows_at, inserted_in};

use crate::fronts::{Front, wrote_then};
use crate::rows::text_row;
use hv_base::{List, NoMemory, Touch};
use hv_book::Book;
use hv_value::Row;
use std::alloc::Global;

fn put_touch(alloc: Global, table: u64, touch: &Touch, rows: &mut Vec<Row>) -> Result<(), NoMemory>
    ensures { OnOk result (rows.new.items ≡ rows.old.items ++ inserted_row table touch.now) }
{
    if touch.table.0 == table && 0 < touch.inserted {
        rows.push(text_row(alloc, &touch.partition)?)?;
    }
    Ok(())
}

/// Appends the partitions of a table in which what was written inserted rows, as often as it did.
pub fn put_touches(
    alloc: Global,
    table: u64,
    wrote: &[Touch],
    rows: &mut Vec<Row>,
) -> Result<(), NoMemory>
    ensures { OnOk result (rows.new.items ≡ rows.old.items ++ flat_map (inserted_row table) wrote.now) }
{
    for touch in wrote {
        put_touch(alloc, table, touch, rows)?;
    }
    Ok(())
}

fn put_wrote(
    alloc: Global,
    table: u64,
    wrote: Option<&List<Touch>>,
    rows: &mut Vec<Row>,
) -> Result<(), NoMemory>
    ensures { OnOk result (rows.new.items ≡ rows.old.items ++ inserted_in table (option_copied wrote.entry)) }
{
    match wrote {
        Some(wrote) => {
            put_touches(alloc, table, wrote.as_slice(), rows)?;
            Ok(())
        }
        None => Ok(()),
    }
}

/// Appends the partitions of a table in which the transaction of that number inserted rows, where it had committed before the place.
fn put_inserted(
    alloc: Global,
    book: &Book,
    front: Front,
    table: u64,
    txn: u64,
    rows: &mut Vec<Row>,
) -> Result<(), NoMemory>
    requires { IsFrontOf book.now.entries front }
    ensures { OnOk result (rows.new.items
        ≡ rows.old.items ++ rows_at (inserted_of table) txn (then_at book.now.entries front.position txn)) }
{
    put_wrote(alloc, table, wrote_then(book, front, txn), rows)
}

/// The partitions of a table in which commits before the place inserted rows, each as often as they did.
pub fn inserted_rows(
    alloc: Global,
    book: &Book,
    front: Front,
    table: u64,
) -> Result<Vec<Row>, NoMemory>
    requires { IsFrontOf book.now.entries front }
    ensures { IfOk result (λ rows. rows.items
        ≡ each_from (inserted_of table) 1 (transactions_then book.now.entries front.position)) }
{
    let mut rows = Vec::new(alloc);
    for i in 0..front.opened {
        put_inserted(alloc, book, front, table, i + 1, &mut rows)?;
    }
    Ok(rows)
}
