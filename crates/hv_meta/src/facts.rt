ghost use Rattle.std.specs.Prelude.{◌≡◌, ◌↔◌, ◌+◌, ◌*◌, ◌^◌, ◌≤◌, IsTrue, IsSomeAnd, length};
ghost use Rattle.std.specs.Option.{option_map};
ghost use Rattle.hv_book.specs.hv_history.specs.State.{state_of, numbered};
ghost use Rattle.hv_book.specs.hv_history.specs.Legal.{is_open, IsRunning, load, HasRoom, Of};
ghost use Rattle.hv_book.specs.Briefs.{brief};
ghost use Rattle.hv_meta.specs.States.{state_in, noted_state, is_unended_note, is_running_note};

use hv_base::{Limits, TxnId};
use hv_book::hv_history::numbered;
use hv_book::{Book, TransactionNote};

/// How far a transaction has come.
#[derive(Clone, Copy)]
pub enum TxnState {
    /// No transaction has this number.
    Unknown,
    /// It has not ended. `started` says whether it has its snapshot.
    Running { started: bool },
    /// It ended by the entry at this place.
    Ended { at: u64 },
}

/// The number of the next transaction.
pub fn next_txn(book: &Book) -> TxnId
    ensures next { result.0 ≡ length (state_of book.now.entries).transactions + 1 }
{
    TxnId(book.transactions().len() as u64 + 1)
}

/// What is kept of the transaction of this number.
pub fn note_of(book: &Book, txn: u64) -> Option<TransactionNote>
    ensures note { result ≡ option_map brief (numbered (state_of book.now.entries).transactions txn) }
{
    numbered(book.transactions(), txn).copied()
}

fn noted_state(note: Option<TransactionNote>) -> TxnState
    ensures { result ≡ noted_state note }
{
    match note {
        Some(note) => match note.ending {
            Some(end) => TxnState::Ended { at: end.at },
            None => TxnState::Running {
                started: note.started.is_some(),
            },
        },
        None => TxnState::Unknown,
    }
}

/// How far the transaction has come.
pub fn state_of(book: &Book, txn: TxnId) -> TxnState
    ensures state { result ≡ state_in (state_of book.now.entries) txn.0 }
{
    noted_state(note_of(book, txn.0))
}

fn is_unended_note(note: Option<TransactionNote>) -> bool
    ensures { result ≡ is_unended_note note }
{
    match note {
        Some(note) => note.ending.is_none(),
        None => false,
    }
}

fn is_running_note(note: Option<TransactionNote>) -> bool
    ensures { result ≡ is_running_note note }
{
    match note {
        Some(note) => note.ending.is_none() && note.started.is_some(),
        None => false,
    }
}

/// Whether the transaction is there and has not ended.
pub fn is_unended(book: &Book, txn: TxnId) -> bool
    ensures unended { IsTrue result ↔ Of (state_of book.now.entries) txn.0 (λ t. IsTrue (is_open t)) }
{
    is_unended_note(note_of(book, txn.0))
}

/// Whether the transaction has started and has not ended.
pub fn is_running(book: &Book, txn: TxnId) -> bool
    ensures running { IsTrue result ↔ Of (state_of book.now.entries) txn.0 IsRunning }
{
    is_running_note(note_of(book, txn.0))
}

/// The entries, and the one that each open transaction and each working job still needs.
pub fn load(book: &Book) -> u128
    ensures load { result ≡ load (state_of book.now.entries) }
    ensures bound { result ≤ 3 * 2 ^ 64 }
{
    book.load()
}

/// Whether so many more of the load stay within the limit.
pub fn has_room(book: &Book, limits: &Limits, more: u64) -> bool
    ensures room { IsTrue result ↔ HasRoom limits.now (state_of book.now.entries) more }
{
    load(book) + u128::from(more) <= u128::from(limits.entries)
}
