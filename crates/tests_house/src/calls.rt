//! Statements begin, or are opened and started one by one, and note their entries by the names of these.
ghost use Rattle.std.specs.Prelude.{◌≤◌, IfOk, OnOk, length};
ghost use Rattle.hv_built.specs.Running.{Runs};
ghost use Rattle.tests_house.specs.Asking.{IsOpen, StaysOpen, IsRefusal};

use crate::words::{add, add_number, add_numbers};
use hv_ast::{Stmt, discard};
use hv_base::{Limits, TableId, Text, TxnId};
use hv_fits::start_fits;
use hv_history::{Cause, Entry};
use hv_locks::LockState;
use hv_meta::{create_fits, drop_fits, given_fits, is_unended, note_of};
use hv_reading::read_statement;
use hv_session::hv_beginning::hv_steps::hv_table_reader::hv_acts::hv_telling::hv_house::{
    EntryFault, House, HouseFault,
};
use hv_shelf::Shelf;
use std::alloc::Global;
use std::io;

/// The longest text of a statement.
const MOST_TEXT: usize = 32_768;

/// More than any room.
const UNBOUNDED: Limits = Limits { entries: u64::MAX };

/// What a call was answered.
pub(crate) enum Said {
    Done,
    /// It wasn't made, since its condition doesn't hold.
    Refused,
    /// These words, with that number behind them.
    Of(&'static str, u64),
    /// A statement has begun: its transaction, and the place of its Start.
    Begun(u64, u64),
}

/// Says it.
pub(crate) fn add_said(alloc: Global, said: &mut String, answer: Said) -> io::Result<()> {
    match answer {
        Said::Done => add(said, "done"),
        Said::Refused => add(said, "refused"),
        Said::Of(what, number) => add_number(alloc, said, what, number),
        Said::Begun(txn, place) => {
            add_numbers(alloc, said, "transaction ", txn, " starts at ", place)
        }
    }
}

/// What is said where the house refused an entry. A fault is handed on.
pub(crate) fn refusal(why: EntryFault) -> Result<Said, HouseFault>
    ensures refused { OnOk result (IsRefusal why) }
{
    match why {
        EntryFault::NotOpen { at } => Ok(Said::Of("had ended at ", at)),
        EntryFault::Full { entries } => Ok(Said::Of("full with ", entries)),
        EntryFault::House(fault) => Err(fault),
    }
}

/// Begins a statement, or says what stands in its way.
fn begin<D: Shelf>(
    house: &mut House<D>,
    session: Text,
    text: Text,
    tree: Stmt,
) -> Result<Said, HouseFault>
    requires ready { IsOpen D.told house.old }
    requires tree { Runs text tree }
    requires short { length text ≤ 32768 }
    requires named { length session ≤ 32 }
    ensures ready { IfOk result (λ _. StaysOpen D.told house.old house.new) }
{
    if !house.can_begin(&tree) {
        let state = house.check(&tree);
        discard(tree);
        return match state {
            LockState::Waiting { blocker } => Ok(Said::Of("waits for ", blocker.0)),
            LockState::Granted => Ok(Said::Refused),
        };
    }
    match house.begin(session, 1, text, tree) {
        Ok((txn, place)) => Ok(Said::Begun(txn.0, place)),
        Err(fault) => Err(fault),
    }
}

/// Opens a transaction for a statement, which waits then for its Start.
fn open<D: Shelf>(
    house: &mut House<D>,
    session: Text,
    text: Text,
    tree: Stmt,
) -> Result<Said, HouseFault>
    requires ready { IsOpen D.told house.old }
    requires tree { Runs text tree }
    requires short { length text ≤ 32768 }
    requires named { length session ≤ 32 }
    ensures ready { IfOk result (λ _. StaysOpen D.told house.old house.new) }
{
    match house.open_txn(session, 1, text, tree) {
        Ok(txn) => Ok(Said::Of("transaction ", txn.0)),
        Err(why) => refusal(why),
    }
}

/// Opens a statement that waits, or begins it.
pub(crate) fn statement<D: Shelf>(
    alloc: Global,
    house: &mut House<D>,
    waits: bool,
    words: &str,
) -> Result<Said, HouseFault>
    requires ready { IsOpen D.told house.old }
    ensures ready { IfOk result (λ _. StaysOpen D.told house.old house.new) }
{
    let session = Text::of(alloc, "s")?;
    let text = Text::of(alloc, words)?;
    if text.len() > MOST_TEXT {
        return Ok(Said::Refused);
    }
    match read_statement(alloc, &text) {
        Ok(tree) => {
            if waits {
                open(house, session, text, tree)
            } else {
                begin(house, session, text, tree)
            }
        }
        Err(_) => Ok(Said::Refused),
    }
}

/// Starts an opened transaction.
pub(crate) fn start<D: Shelf>(house: &mut House<D>, txn: TxnId) -> Result<Said, HouseFault>
    requires ready { IsOpen D.told house.old }
    ensures ready { IfOk result (λ _. StaysOpen D.told house.old house.new) }
{
    if !start_fits(house.book(), &UNBOUNDED, txn, 0) {
        return Ok(Said::Refused);
    }
    match house.start(txn) {
        Ok(place) => Ok(Said::Of("starts at ", place)),
        Err(why) => refusal(why),
    }
}

/// Gives a transaction the next write id of a table.
pub(crate) fn give<D: Shelf>(
    house: &mut House<D>,
    txn: TxnId,
    table: TableId,
) -> Result<Said, HouseFault>
    requires ready { IsOpen D.told house.old }
    ensures ready { IfOk result (λ _. StaysOpen D.told house.old house.new) }
{
    let Some(write) = house.next_write(table) else {
        return Ok(Said::Refused);
    };
    if !given_fits(house.book(), &UNBOUNDED, txn, table, write) {
        return Ok(Said::Refused);
    }
    match house.write_id(txn, table) {
        Ok(write) => Ok(Said::Of("write id ", write.0)),
        Err(why) => refusal(why),
    }
}

/// Makes the table of a transaction, which ends by that.
pub(crate) fn create<D: Shelf>(house: &mut House<D>, txn: TxnId) -> Result<Said, HouseFault>
    requires ready { IsOpen D.told house.old }
    ensures ready { IfOk result (λ _. StaysOpen D.told house.old house.new) }
{
    let book = house.book();
    let table = TableId(book.tables().len() as u64 + 1);
    if !create_fits(book, txn, table) {
        return Ok(Said::Refused);
    }
    match house.create(txn) {
        Ok(table) => Ok(Said::Of("table ", table.0)),
        Err(why) => refusal(why),
    }
}

/// Drops a table where that fits, of a transaction that is open.
fn drop_open<D: Shelf>(house: &mut House<D>, txn: TxnId, table: TableId) -> Result<Said, HouseFault>
    requires ready { IsOpen D.told house.old }
    ensures ready { IfOk result (λ _. StaysOpen D.told house.old house.new) }
{
    if !drop_fits(house.book(), txn, table) {
        return Ok(Said::Refused);
    }
    match house.drop_table(txn, table) {
        Ok(place) => Ok(Said::Of("ended at ", place)),
        Err(why) => refusal(why),
    }
}

/// Drops a table, by which its transaction ends, or is told where it ended.
pub(crate) fn drop_table<D: Shelf>(
    house: &mut House<D>,
    txn: TxnId,
    table: TableId,
) -> Result<Said, HouseFault>
    requires ready { IsOpen D.told house.old }
    ensures ready { IfOk result (λ _. StaysOpen D.told house.old house.new) }
{
    let book = house.book();
    let Some(_) = note_of(book, txn.0) else {
        return Ok(Said::Refused);
    };
    if is_unended(book, txn) {
        return drop_open(house, txn, table);
    }
    match house.drop_table(txn, table) {
        Ok(place) => Ok(Said::Of("ended at ", place)),
        Err(why) => refusal(why),
    }
}

/// Aborts a transaction as one that lacked memory, or is told where it ended.
pub(crate) fn abort<D: Shelf>(house: &mut House<D>, txn: TxnId) -> Result<Said, HouseFault>
    requires ready { IsOpen D.told house.old }
    ensures ready { IfOk result (λ _. StaysOpen D.told house.old house.new) }
{
    let Some(_) = note_of(house.book(), txn.0) else {
        return Ok(Said::Refused);
    };
    match house.abort(txn, Cause::Memory) {
        Ok(place) => Ok(Said::Of("ended at ", place)),
        Err(why) => refusal(why),
    }
}

/// Aborts a transaction since there is no room.
pub(crate) fn abort_full<D: Shelf>(house: &mut House<D>, txn: TxnId) -> Result<Said, HouseFault>
    requires ready { IsOpen D.told house.old }
    ensures ready { IfOk result (λ _. StaysOpen D.told house.old house.new) }
{
    let cause = Cause::Full;
    if !house.fits(&Entry::Abort { txn, cause }, None) {
        return Ok(Said::Refused);
    }
    match house.abort(txn, Cause::Full) {
        Ok(place) => Ok(Said::Of("ended at ", place)),
        Err(why) => refusal(why),
    }
}
