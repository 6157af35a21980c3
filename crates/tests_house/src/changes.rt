//! The change of a transaction: which rows, and their files.
ghost use Rattle.std.specs.Prelude.{◌<◌, ◌≤◌, IfOk};
ghost use Rattle.hv_dirs.specs.Names.{write_end};
ghost use Rattle.hv_session.specs.hv_beginning.specs.hv_steps.specs.hv_table_reader.specs.hv_acts.specs.hv_telling.specs.hv_house.specs.House.{entries_of};
ghost use Rattle.tests_house.specs.Asking.{IsOpen, StaysOpen, IsTable};

use crate::asking::{can_put, holds_id, table_of, write_of};
use crate::calls::Said;
use crate::ending::commit_change;
use crate::house::leave;
use crate::words::{cut, number};
use hv_base::{List, NoMemory, RowId, TableId, Text, TxnId, WriteId};
use hv_logic::{Effect, Found, TableInfo};
use hv_route::{OutFile, route};
use hv_session::hv_beginning::hv_steps::hv_table_reader::hv_acts::hv_telling::hv_house::{
    House, HouseFault,
};
use hv_shelf::Shelf;
use hv_table_rows::place_of_file;
use hv_value::{Row, Value};
use std::alloc::Global;
use std::mem::ManuallyDrop;

/// One more than the greatest write id of which a directory is named.
const WRITE_END: u64 = 10_000_000;

/// The row of `a=7`: 7, in the partition `p=a`.
fn inserted(alloc: Global, word: &str) -> Result<Row, NoMemory> {
    let (partition, word) = cut(word, '=');
    let number = word.parse::<i32>().unwrap_or(0);
    let partition = Text::of(alloc, partition)?;
    let mut values = Vec::with_capacity(alloc, 2)?;
    values.push_reserved(Value::Int(number));
    values.push_reserved(Value::Str(partition));
    Ok(Row {
        values: List::from_vec(values),
    })
}

/// The row of `p=a.1.0`: row 0 of write id 1, in the partition `p=a`.
fn deleted(alloc: Global, word: &str) -> Result<Found, NoMemory> {
    let (partition, word) = cut(word, '.');
    let (write, row) = cut(word, '.');
    Ok(Found {
        partition: Text::of(alloc, partition)?,
        id: RowId {
            write: WriteId(number(write)),
            statement: 0,
            bucket: 0,
            row: number(row),
        },
        row: Row {
            values: List::empty(alloc),
        },
    })
}

/// Adds what a word such as `+a=7` or `-p=a.1.0` says.
fn put_word(
    alloc: Global,
    word: &str,
    inserts: &mut Vec<Row>,
    deletes: &mut Vec<Found>,
) -> Result<(), NoMemory> {
    if let Some(word) = word.strip_prefix('+') {
        inserts.reserve(1)?;
        inserts.push_reserved(inserted(alloc, word)?);
    } else if let Some(word) = word.strip_prefix('-') {
        deletes.reserve(1)?;
        deletes.push_reserved(deleted(alloc, word)?);
    }
    Ok(())
}

/// The change of such words. Where memory lacks its rows are left, and not let go of at each exit.
fn effect_of(alloc: Global, rows: &str) -> Result<Effect, NoMemory> {
    let mut inserts = ManuallyDrop::new(Vec::new(alloc));
    let mut deletes = ManuallyDrop::new(Vec::new(alloc));
    for word in rows.split(' ') {
        put_word(alloc, word, &mut inserts, &mut deletes)?;
    }
    Ok(Effect {
        inserts: List::from_vec(ManuallyDrop::into_inner(inserts)),
        deletes: List::from_vec(ManuallyDrop::into_inner(deletes)),
    })
}

/// Puts one file, where that can be done.
fn put_one<D: Shelf>(
    alloc: Global,
    house: &mut House<D>,
    txn: TxnId,
    table: TableId,
    write: WriteId,
    file: &OutFile,
) -> Result<bool, HouseFault>
    requires ready { IsOpen D.told house.old }
    requires first { 1 ≤ write.0 }
    requires last { write.0 < write_end }
    ensures ready { IfOk result (λ _. StaysOpen D.told house.old house.new) }
{
    let can = can_put(file);
    let own = holds_id(house.book(), txn, table, write);
    if !can || !own {
        return Ok(false);
    }
    let place = place_of_file(alloc, table, write, file)?;
    house.put(alloc, txn, place, file)?;
    Ok(true)
}

/// Puts files one after another, up to one that can't be put.
#[tactic(auto, using(crate::proofs::Rooms::own_limits, crate::proofs::Rooms::stays_open))]
fn put_each<D: Shelf>(
    alloc: Global,
    house: &mut House<D>,
    txn: TxnId,
    table: TableId,
    write: WriteId,
    files: &[OutFile],
) -> Result<Said, HouseFault>
    requires ready { IsOpen D.told house.old }
    requires first { 1 ≤ write.0 }
    requires last { write.0 < write_end }
    ensures ready { IfOk result (λ _. StaysOpen D.told house.old house.new) }
{
    for file in files {
        if !put_one(alloc, house, txn, table, write, file)? {
            return Ok(Said::Refused);
        }
    }
    Ok(Said::Done)
}

/// Puts the files of these rows of a table, or commits a transaction that put them.
fn change_in<D: Shelf>(
    alloc: Global,
    house: &mut House<D>,
    commits: bool,
    txn: TxnId,
    info: &TableInfo,
    rows: &str,
) -> Result<Said, HouseFault>
    requires ready { IsOpen D.told house.old }
    requires table { IsTable (entries_of house.old) info.now }
    ensures ready { IfOk result (λ _. StaysOpen D.told house.old house.new) }
{
    let id = write_of(house.book().held(), txn.0, info.table.0).unwrap_or(0);
    if id == 0 || id >= WRITE_END {
        return Ok(Said::Refused);
    }
    let write = WriteId(id);
    let effect = effect_of(alloc, rows)?;
    if commits {
        return commit_change(alloc, house, txn, write, info, effect);
    }
    let files = route(alloc, &info.shape, write, 0, effect)?;
    let done = put_each(alloc, house, txn, info.table, write, &files);
    leave(files);
    done
}

/// Puts the files of a change under the transaction's write id in a table, or commits a transaction that put them: `TABLE ROWS`.
pub(crate) fn change<D: Shelf>(
    alloc: Global,
    house: &mut House<D>,
    commits: bool,
    txn: TxnId,
    words: &str,
) -> Result<Said, HouseFault>
    requires ready { IsOpen D.told house.old }
    ensures ready { IfOk result (λ _. StaysOpen D.told house.old house.new) }
{
    let (table, rows) = cut(words, ' ');
    match table_of(alloc, house.book(), TableId(number(table)))? {
        Some(info) => {
            let done = change_in(alloc, house, commits, txn, &info, rows);
            leave(info);
            done
        }
        None => Ok(Said::Refused),
    }
}
