//! The lines of a case of calls, one call each.
ghost use Rattle.std.specs.Prelude.{IfOk, OnOk};
ghost use Rattle.tests_house.specs.Asking.{told_memory, IsOpen, StaysOpen};

use crate::calls::{Said, abort, abort_full, add_said, create, drop_table, give, start, statement};
use crate::changes::change;
use crate::compacting::{ask, pick};
use crate::ending::commit_idle;
use crate::house::{LIMITS, boot, leave};
use crate::seeing::see;
use crate::showing::{add_book, add_files};
use crate::stores::{copied, fresh, kept, lay};
use crate::words::{add, add_number, cut, number, say};
use hv_base::{JobId, Limits, TableId, TxnId, WriteId};
use hv_session::hv_beginning::hv_steps::hv_table_reader::hv_acts::hv_telling::hv_house::{
    BootFault, House, HouseFault,
};
use hv_shelf::{MemoryShelf, Shelf};
use std::alloc::Global;
use std::io;
use std::io::ErrorKind;

/// Makes the call of a line.
fn call<D: Shelf>(
    alloc: Global,
    house: &mut House<D>,
    word: &str,
    rest: &str,
) -> Result<Said, HouseFault>
    requires ready { IsOpen D.told house.old }
    ensures ready { IfOk result (λ _. StaysOpen D.told house.old house.new) }
{
    let (first, more) = cut(rest, ' ');
    let txn = TxnId(number(first));
    match word {
        "begin" => statement(alloc, house, false, rest),
        "open" => statement(alloc, house, true, rest),
        "start" => start(house, txn),
        "give" => give(house, txn, TableId(number(more))),
        "put" => change(alloc, house, false, txn, more),
        "commit" => {
            if more.is_empty() {
                commit_idle(alloc, house, txn)
            } else {
                change(alloc, house, true, txn, more)
            }
        }
        "abort" => abort(house, txn),
        "full" => abort_full(house, txn),
        "create" => create(house, txn),
        "drop" => drop_table(house, txn, TableId(number(more))),
        "ask" => ask(alloc, house, first, more),
        "pick" => pick(house, JobId(number(first)), WriteId(number(more))),
        _ => Ok(Said::Refused),
    }
}

/// Makes the call of a line, and says what was answered. A call that failed ends the run.
fn call_line(
    alloc: Global,
    house: &mut House<MemoryShelf>,
    word: &str,
    rest: &str,
    said: &mut String,
) -> io::Result<()>
    requires ready { IsOpen told_memory house.old }
    ensures ready { OnOk result (IsOpen told_memory house.new) }
{
    match call(alloc, house, word, rest) {
        Ok(answer) => add_said(alloc, said, answer),
        Err(_) => Err(ErrorKind::Other.into()),
    }
}

/// Says what came of a line.
fn say_outcome(
    alloc: Global,
    house: &mut House<MemoryShelf>,
    line: &str,
    said: &mut String,
) -> io::Result<()>
    requires ready { IsOpen told_memory house.old }
    ensures ready { OnOk result (IsOpen told_memory house.new) }
{
    let (word, rest) = cut(line, ' ');
    match word {
        "book" => add_book(alloc, said, house.book()),
        "files" => add_files(alloc, said, house.shelf()),
        "see" => see(alloc, said, house, rest),
        _ => call_line(alloc, house, word, rest, said),
    }
}

/// Says a line, and what came of it.
fn say_answer(
    alloc: Global,
    house: &mut House<MemoryShelf>,
    line: &str,
    said: &mut String,
) -> io::Result<()>
    requires ready { IsOpen told_memory house.old }
    ensures ready { OnOk result (IsOpen told_memory house.new) }
{
    add(said, line)?;
    add(said, ": ")?;
    say_outcome(alloc, house, line, said)?;
    add(said, "\n")
}

/// Says that a store was opened again, and whether a file was laid into it.
fn say_opened(said: &mut String, word: &str, laid: bool) -> io::Result<()> {
    add(said, word)?;
    say(said, if laid { ": done" } else { ": refused" })
}

/// Says of a store that was not opened again whether it is as before.
fn say_closed(
    alloc: Global,
    said: &mut String,
    word: &str,
    why: BootFault,
    before: &MemoryShelf,
    now: &MemoryShelf,
) -> io::Result<()> {
    let BootFault::Full { entries } = why else {
        return Err(ErrorKind::Other.into());
    };
    let same = now.journal() == before.journal() && now.files() == before.files();
    let how = if same { ", as before" } else { ", changed" };
    add(said, word)?;
    add_number(alloc, said, ": full with ", entries)?;
    say(said, how)
}

/// Opens a store once more, behind a file that is laid into it where the line says so. Where there is no room for that, goes on with an
/// empty one.
fn reopened(
    alloc: Global,
    store: MemoryShelf,
    limits: Limits,
    word: &str,
    rest: &str,
    said: &mut String,
) -> io::Result<House<MemoryShelf>>
    ensures ready { IfOk result (IsOpen told_memory) }
{
    let mut store = store;
    let laid = rest.is_empty() || lay(alloc, &mut store, rest) == Ok(true);
    let Ok(before) = copied(alloc, &store) else {
        leave(store);
        return Err(ErrorKind::OutOfMemory.into());
    };
    match boot(alloc, store, limits) {
        Ok(house) => {
            leave(before);
            kept(house, say_opened(said, word, laid))
        }
        Err((why, store)) => {
            let done = say_closed(alloc, said, word, why, &before, &store);
            leave(before);
            leave(store);
            done?;
            fresh(alloc, limits)
        }
    }
}

/// Does what a line says. `room` goes on with an empty store and room for so many entries, `again` opens the store once more, and `lay`
/// lays a file into it before.
fn step(
    alloc: Global,
    house: House<MemoryShelf>,
    room: &mut Limits,
    line: &str,
    said: &mut String,
) -> io::Result<House<MemoryShelf>>
    requires ready { IsOpen told_memory house }
    ensures ready { IfOk result (IsOpen told_memory) }
{
    let mut house = house;
    let (word, rest) = cut(line, ' ');
    match word {
        "room" => {
            leave(house.close());
            let entries = number(rest);
            *room = Limits { entries };
            say(said, line)?;
            fresh(alloc, *room)
        }
        "again" | "lay" => reopened(alloc, house.close(), *room, word, rest, said),
        _ => {
            let done = say_answer(alloc, &mut house, line, said);
            kept(house, done)
        }
    }
}

/// Does what each line of a case says over an empty store, up to one that fails.
pub(crate) fn play(alloc: Global, lines: &str, said: &mut String) -> io::Result<()> {
    let mut room = LIMITS;
    let mut house = fresh(alloc, room)?;
    for line in lines.lines() {
        match step(alloc, house, &mut room, line, said) {
            Ok(next) => house = next,
            Err(why) => return Err(why),
        }
    }
    leave(house.close());
    Ok(())
}
