//! How a transaction commits.
ghost use Rattle.std.specs.Prelude.{◌≡◌, ◌<◌, ◌≤◌, true, IfOk};
ghost use Rattle.hv_dirs.specs.Names.{write_end};
ghost use Rattle.hv_history.specs.declared.entry.Entry.TheVariants as entry;
ghost use Rattle.hv_trail.specs.Kept.{trail_of};
ghost use Rattle.hv_session.specs.hv_beginning.specs.hv_steps.specs.hv_table_reader.specs.hv_acts.specs.hv_telling.specs.hv_house.specs.House.{entries_of, IsSmall};
ghost use Rattle.hv_session.specs.hv_beginning.specs.hv_steps.specs.hv_table_reader.specs.hv_acts.specs.hv_telling.specs.hv_house.specs.Steps.{CanCommit};
ghost use Rattle.tests_house.specs.Asking.{IsOpen, StaysOpen, AreTouches, IsTable, IsDone};

use crate::asking::is_done;
use crate::calls::{Said, refusal};
use crate::house::leave;
use hv_base::{List, NoMemory, TableId, Touch, TxnId, WriteId};
use hv_conflicts::clash;
use hv_logic::{Effect, TableInfo};
use hv_meta::{commit_fits, is_running};
use hv_route::{OutFile, RouteFault, route, touches};
use hv_session::hv_beginning::hv_steps::hv_table_reader::hv_acts::hv_telling::hv_house::{
    House, HouseFault,
};
use hv_shelf::Shelf;
use std::alloc::Global;

/// Commits these touches, where that fits and meets no conflict.
fn commit<D: Shelf>(
    house: &mut House<D>,
    txn: TxnId,
    wrote: List<Touch>,
) -> Result<Said, HouseFault>
    requires ready { IsOpen D.told house.old }
    requires small { IsSmall (entry.Commit txn wrote) }
    requires can { CanCommit (entries_of house.old) (trail_of house.old.trail) txn wrote }
    ensures ready { IfOk result (λ _. StaysOpen D.told house.old house.new) }
{
    let book = house.book();
    if !is_running(book, txn) {
        return Ok(Said::Refused);
    }
    if let Some(found) = clash(book, txn, wrote.as_slice()) {
        return Ok(Said::Of("conflict with ", found.by.0));
    }
    if !commit_fits(book, txn, wrote.as_slice()) {
        return Ok(Said::Refused);
    }
    match house.commit(txn, wrote) {
        Ok(place) => Ok(Said::Of("ended at ", place)),
        Err(why) => refusal(why),
    }
}

/// Whether a transaction put these files under its write id, and no call on files failed for it. The files are left.
fn is_put<D: Shelf>(
    alloc: Global,
    house: &House<D>,
    txn: TxnId,
    table: TableId,
    write: WriteId,
    files: Vec<OutFile>,
) -> Result<bool, NoMemory>
    requires first { 1 ≤ write.0 }
    requires last { write.0 < write_end }
    ensures { IfOk result (λ done. done ≡ true → IsDone
        (entries_of house.now) (trail_of house.now.trail) txn table.0 write.0 files.items) }
{
    let done = is_done(alloc, house, txn, table, write, &files);
    leave(files);
    done
}

/// Commits a change with these touches, whose files were put.
fn commit_put<D: Shelf>(
    alloc: Global,
    house: &mut House<D>,
    txn: TxnId,
    write: WriteId,
    info: &TableInfo,
    wrote: List<Touch>,
    effect: Effect,
) -> Result<Said, HouseFault>
    requires ready { IsOpen D.told house.old }
    requires table { IsTable (entries_of house.old) info.now }
    requires first { 1 ≤ write.0 }
    requires last { write.0 < write_end }
    requires touches { AreTouches info.now effect wrote }
    ensures ready { IfOk result (λ _. StaysOpen D.told house.old house.new) }
{
    let files = route(alloc, &info.shape, write, 0, effect)?;
    let done = is_put(alloc, house, txn, info.table, write, files)?;
    if !done {
        return Ok(Said::Refused);
    }
    commit(house, txn, wrote)
}

/// Commits a change whose files were put, where it is within its limits.
pub(crate) fn commit_change<D: Shelf>(
    alloc: Global,
    house: &mut House<D>,
    txn: TxnId,
    write: WriteId,
    info: &TableInfo,
    effect: Effect,
) -> Result<Said, HouseFault>
    requires ready { IsOpen D.told house.old }
    requires table { IsTable (entries_of house.old) info.now }
    requires first { 1 ≤ write.0 }
    requires last { write.0 < write_end }
    ensures ready { IfOk result (λ _. StaysOpen D.told house.old house.new) }
{
    match touches(alloc, info, &effect) {
        Ok(wrote) => commit_put(alloc, house, txn, write, info, wrote, effect),
        Err(RouteFault::NoMemory) => {
            leave(effect);
            Err(HouseFault::NoMemory)
        }
        Err(RouteFault::RowLimit | RouteFault::PartitionLimit) => {
            leave(effect);
            Ok(Said::Refused)
        }
    }
}

/// Commits a transaction that changed nothing.
pub(crate) fn commit_idle<D: Shelf>(
    alloc: Global,
    house: &mut House<D>,
    txn: TxnId,
) -> Result<Said, HouseFault>
    requires ready { IsOpen D.told house.old }
    ensures ready { IfOk result (λ _. StaysOpen D.told house.old house.new) }
{
    match house.broken(txn) {
        Some(_) => Ok(Said::Refused),
        None => commit(house, txn, List::empty(alloc)),
    }
}
