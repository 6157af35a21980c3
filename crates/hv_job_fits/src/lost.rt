ghost use Rattle.std.specs.Prelude.{◌≡◌, ◌↔◌, IsTrue, IsSomeAnd, nat_lt};
ghost use Rattle.std.specs.List.{list_any};
ghost use Rattle.hv_queue.specs.hv_history.specs.State.{state_of, numbered};
ghost use Rattle.hv_queue.specs.hv_history.specs.JobsFit.{is_aborted_one, ForgotFits};
ghost use Rattle.hv_queue.specs.hv_tallies.specs.hv_earlier.specs.hv_meta.specs.hv_book.specs.Past.{total, ended_weight};
ghost use Rattle.hv_job_fits.specs.Notes.{is_aborted_note, is_lost, lost_weight, is_lost_in, is_forgot};

use crate::notes::entry_count;
use hv_base::{Limits, TableId, WriteId};
use hv_ids::{IdNote, PlacedIds};
use hv_queue::hv_history::numbered;
use hv_queue::hv_tallies::hv_earlier::hv_meta::has_room;
use hv_queue::hv_tallies::hv_earlier::hv_meta::hv_book::{Book, ForgotNote, TransactionNote};
use hv_queue::hv_tallies::{both, either};
use hv_queue::is_live;

fn is_aborted_note(notes: &[TransactionNote], txn: u64) -> bool
    ensures { result ≡ is_aborted_note (numbered notes.now txn) }
{
    match numbered(notes, txn) {
        Some(note) => match note.ending {
            Some(end) => !end.committed,
            None => false,
        },
        None => false,
    }
}

/// Whether the transaction of that number was aborted.
fn is_aborted(book: &Book, txn: u64) -> bool
    ensures { result ≡ is_aborted_one (numbered (state_of book.now.entries).transactions txn) }
{
    is_aborted_note(book.transactions(), txn)
}

/// Whether this is that write id, and its transaction was aborted.
fn is_lost(book: &Book, write: u64, id: IdNote) -> bool
    ensures { result ≡ is_lost (state_of book.now.entries).transactions write id.write id.txn }
{
    let aborted = is_aborted(book, id.txn);
    both(id.write == write, aborted)
}

fn is_any_lost(book: &Book, write: u64, ids: &[IdNote]) -> bool
    ensures { result ≡ list_any (is_lost_in (state_of book.now.entries).transactions write) ids.now }
{
    for id in ids {
        if is_lost(book, write, *id) {
            return true;
        }
    }
    false
}

/// Goes over those of the table, the last first.
fn is_ended_lost(book: &Book, table: u64, write: u64, ids: &PlacedIds) -> bool
    ensures { result ≡ nat_lt 0 (total (ended_weight table
        (lost_weight (state_of book.now.entries).transactions write)) ids.now.ids) }
{
    let mut number = ids.last(table);
    while number > 0 {
        let lost = is_lost(book, write, ids.numbered(number).id);
        if lost {
            return true;
        }
        number = ids.before(number);
    }
    false
}

fn is_forgot(note: &ForgotNote, position: u64, table: u64, write: u64) -> bool
    ensures { result ≡ is_forgot position table write note.now }
{
    note.table == table && note.at < position && note.write == write
}

fn is_forgotten(forgotten: &[ForgotNote], position: u64, table: u64, write: u64) -> bool
    ensures { result ≡ list_any (is_forgot position table write) forgotten.now }
{
    for note in forgotten {
        if is_forgot(note, position, table, write) {
            return true;
        }
    }
    false
}

/// Whether it fits the book that an aborted write id is forgotten. It walks the write ids of the table that were aborted or
/// whose transactions are open, and those that were forgotten.
pub fn forgot_fits(book: &Book, limits: &Limits, table: TableId, write: WriteId) -> bool
    ensures fits { IsTrue result ↔ IsSomeAnd (numbered (state_of book.now.entries).tables table.0)
        (ForgotFits limits.now (state_of book.now.entries) write.0) }
{
    let past = book.past();
    let live = is_live(book, table.0);
    let pending = is_any_lost(book, write.0, past.pending.of_table(table.0));
    let ended = is_ended_lost(book, table.0, write.0, &past.aborted);
    let position = entry_count(book);
    let forgotten = is_forgotten(past.forgotten.as_slice(), position, table.0, write.0);
    let room = has_room(book, limits, 1);
    let lost = either(pending, ended);
    let new = both(!forgotten, room);
    let rest = both(lost, new);
    both(live, rest)
}
