//! What is asked before a call, so that its condition holds.
ghost use Rattle.std.specs.Prelude.{◌≡◌, ◌<◌, ◌≤◌, true, false, IfOk, IfSome};
ghost use Rattle.hv_dirs.specs.Names.{write_end};
ghost use Rattle.hv_history.specs.State.{given_in};
ghost use Rattle.hv_book.specs.Briefs.{held_by};
ghost use Rattle.hv_rowfile.specs.Layout.{RowIsTaken, RecIsTaken};
ghost use Rattle.hv_value.specs.declared.value.Value.TheVariants.{Int};
ghost use Rattle.hv_table_rows.specs.Putting.{CanPut};
ghost use Rattle.hv_trail.specs.Kept.{trail_of};
ghost use Rattle.hv_session.specs.hv_beginning.specs.hv_steps.specs.hv_table_reader.specs.hv_acts.specs.hv_telling.specs.hv_house.specs.House.{entries_of};
ghost use Rattle.hv_session.specs.hv_beginning.specs.hv_steps.specs.hv_table_reader.specs.hv_acts.specs.hv_telling.specs.hv_house.specs.Steps.{HoldsId};
ghost use Rattle.tests_house.specs.Asking.{IsTableOf, IsDone};

use hv_base::{NoMemory, TableId, TxnId, WriteId};
use hv_book::{Book, Held};
use hv_history::numbered;
use hv_logic::TableInfo;
use hv_meta::{is_running, made_shape};
use hv_route::OutFile;
use hv_rowfile::Rec;
use hv_session::hv_beginning::hv_steps::hv_table_reader::hv_acts::hv_telling::hv_house::House;
use hv_shelf::Shelf;
use hv_table_rows::place_of_file;
use hv_value::{Row, Value};
use std::alloc::Global;

/// The write id that an open transaction has in a table.
pub(crate) fn write_of(held: &[Held], txn: u64, table: u64) -> Option<u64>
    ensures { result ≡ given_in table (held_by txn held.now) }
{
    for one in held {
        if one.txn == txn && one.table == table {
            return Some(one.write);
        }
    }
    None
}

/// Whether a running transaction has this write id in that table.
pub(crate) fn holds_id(book: &Book, txn: TxnId, table: TableId, write: WriteId) -> bool
    ensures { result ≡ true → HoldsId book.now.entries txn.0 table.0 write.0 }
{
    let running = is_running(book, txn);
    let given = write_of(book.held(), txn.0, table.0);
    running && given == Some(write.0)
}

/// The table of this number, where there is one.
pub(crate) fn table_of(
    alloc: Global,
    book: &Book,
    table: TableId,
) -> Result<Option<TableInfo>, NoMemory>
    ensures { IfOk result (IsTableOf book.now.entries) }
{
    let Some(note) = numbered(book.tables(), table.0) else {
        return Ok(None);
    };
    if note.id != table.0 {
        return Ok(None);
    }
    let shape = made_shape(alloc, book.table_tree(table.0))?;
    Ok(Some(TableInfo { table, shape }))
}

/// The number that a value is.
fn number_of(value: &Value) -> Option<i32>
    ensures { IfSome result (λ n. value.now ≡ Int n) }
{
    match value {
        Value::Int(number) => Some(*number),
        _ => None,
    }
}

/// Whether a row is one number.
fn is_number(row: &Row) -> bool
    ensures { result ≡ true → RowIsTaken row.now }
{
    match row.values.as_slice() {
        [value] => number_of(value).is_some(),
        _ => false,
    }
}

/// Whether a record is of one inserted number, in this bucket.
fn can_write(bucket: u32, rec: &Rec) -> bool
    ensures { result ≡ true → RecIsTaken false bucket rec.now }
{
    match rec {
        Rec::Insert { id, row } => id.bucket == bucket && id.write.0 > 0 && is_number(row),
        Rec::Delete { .. } => false,
    }
}

/// Whether a file can be put: one of deletes, or of one inserted number.
#[tactic(auto, using(crate::proofs::Facts::one_record))]
pub(crate) fn can_put(file: &OutFile) -> bool
    ensures { result ≡ true → CanPut file.now }
{
    if file.deletes {
        return true;
    }
    match file.recs.as_slice() {
        [rec] => can_write(file.bucket, rec),
        _ => false,
    }
}

/// Whether a transaction put these files under its write id, each of which has its mark, and no call on files failed for it.
pub(crate) fn is_done<D: Shelf>(
    alloc: Global,
    house: &House<D>,
    txn: TxnId,
    table: TableId,
    write: WriteId,
    files: &[OutFile],
) -> Result<bool, NoMemory>
    requires first { 1 ≤ write.0 }
    requires last { write.0 < write_end }
    ensures { IfOk result (λ done. done ≡ true → IsDone
        (entries_of house.now) (trail_of house.now.trail) txn table.0 write.0 files.now) }
{
    if !holds_id(house.book(), txn, table, write) {
        return Ok(false);
    }
    for file in files {
        let place = place_of_file(alloc, table, write, file)?;
        if !house.has_put(txn, &place) {
            return Ok(false);
        }
    }
    Ok(house.broken(txn).is_none())
}
