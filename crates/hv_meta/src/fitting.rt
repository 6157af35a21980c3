ghost use Rattle.std.specs.Prelude.{◌≡◌, ◌↔◌, IsTrue, ◌==◌};
ghost use Rattle.std.specs.List.{list_any};
ghost use Rattle.hv_book.specs.hv_history.specs.State.{state_of};
ghost use Rattle.hv_book.specs.Briefs.{held_by};
ghost use Rattle.hv_meta.specs.States.{is_next_note, is_held};
ghost use Rattle.hv_book.specs.hv_history.specs.Legal.{BootFits, OpenedFits, GivenFits, FullFits, FaultFits, LostFits, IsStatement, Of};

use crate::facts::{has_room, is_running, is_unended, next_txn};
use hv_base::{Limits, TableId, Text, TxnId, WriteId};
use hv_book::hv_history::numbered;
use hv_book::{Book, Held, TableNote};

/// Whether a Boot of this number fits the book.
pub fn boot_fits(book: &Book, limits: &Limits, run: u64) -> bool
    ensures fits { IsTrue result ↔ BootFits limits.now (state_of book.now.entries) run }
{
    run == book.openings().count && has_room(book, limits, 1)
}

/// Whether an Opened with this number and a text that runs fits the book.
pub fn opened_fits(book: &Book, limits: &Limits, txn: TxnId, text: &Text) -> bool
    requires runs { IsStatement text.now }
    ensures fits { IsTrue result ↔ OpenedFits limits.now (state_of book.now.entries) txn.0 text.now }
{
    txn == next_txn(book) && has_room(book, limits, 2)
}

fn is_next_note(note: Option<TableNote>, write: u64) -> bool
    ensures { result ≡ is_next_note write note }
{
    match note {
        Some(note) => note.is_live && write > 0 && write - 1 == note.high,
        None => false,
    }
}

pub fn holds(held: &[Held], txn: u64, table: u64) -> bool
    ensures { result ≡ is_held table (held_by txn held.now) }
{
    for one in held {
        if one.txn == txn && one.table == table {
            return true;
        }
    }
    false
}

/// Whether a Given of this write id fits the book.
pub fn given_fits(book: &Book, limits: &Limits, txn: TxnId, table: TableId, write: WriteId) -> bool
    ensures fits { IsTrue result ↔ Of (state_of book.now.entries) txn.0
        (GivenFits limits.now (state_of book.now.entries) table.0 write.0) }
{
    let running = is_running(book, txn);
    let next = is_next_note(numbered(book.tables(), table.0).copied(), write.0);
    let held = holds(book.held(), txn.0, table.0);
    let room = has_room(book, limits, 1);
    running && next && !held && room
}

/// Whether an abort of this transaction fits the book since the journal is full.
pub fn full_fits(book: &Book, limits: &Limits, txn: TxnId) -> bool
    ensures fits { IsTrue result
        ↔ Of (state_of book.now.entries) txn.0 (FullFits limits.now (state_of book.now.entries)) }
{
    is_unended(book, txn) && !has_room(book, limits, 1)
}

fn is_kept(kept: &[u64], count: u64) -> bool
    ensures { result ≡ list_any (λ other. other == count) kept.now }
{
    for other in kept {
        if *other == count {
            return true;
        }
    }
    false
}

/// Whether an abort of this transaction fits the book since the store failed, with this count of faults.
pub fn fault_fits(book: &Book, txn: TxnId, count: u64) -> bool
    ensures fits { IsTrue result
        ↔ Of (state_of book.now.entries) txn.0 (FaultFits (state_of book.now.entries) count) }
{
    is_running(book, txn) && !is_kept(&book.openings().kept, count)
}

/// Whether an abort of this transaction fits the book since the run that held it stopped.
pub fn lost_fits(book: &Book, txn: TxnId) -> bool
    ensures fits { IsTrue result
        ↔ Of (state_of book.now.entries) txn.0 (LostFits (state_of book.now.entries)) }
{
    is_unended(book, txn) && book.openings().only_lost
}
