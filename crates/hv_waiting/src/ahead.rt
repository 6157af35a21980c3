//! Who goes before a transaction that waits for its Start.
ghost use Rattle.std.specs.Prelude.{◌≡◌, ◌↔◌, ◌&&◌, ◌||◌, IsTrue, Some};
ghost use Rattle.hv_logic.specs.Names.{names_in};
ghost use Rattle.hv_history.specs.State.{state_of, numbered};
ghost use Rattle.hv_history.specs.Legal.{Of, IsWaiting};
ghost use Rattle.hv_session.specs.hv_beginning.specs.hv_steps.specs.hv_table_reader.specs.hv_acts.specs.hv_telling.specs.hv_house.specs.hv_recovery.specs.hv_fits.specs.Texts.{TextsRun, first_among, is_waiting_state};
ghost use Rattle.hv_waiting.specs.Queue.{first_at, ahead_among, first_ahead, numbered_one, where_waiting, IsBehind};

use hv_ast::Stmt;
use hv_base::TxnId;
use hv_book::Book;
use hv_meta::{TxnState, is_running, is_unended, state_of};
use hv_names::locks_conflict;

fn may_go_first(runs: bool, unended: bool, earlier: bool) -> bool
    ensures { result ≡ (runs || (unended && earlier)) }
{
    runs || (unended && earlier)
}

/// Whether another transaction goes before one of its own number that waits: it is open, and has started or was opened before that.
fn goes_first(book: &Book, own: u64, other: u64) -> bool
    ensures { result ≡ first_at own other (numbered (state_of book.now.entries).transactions other) }
{
    let runs = is_running(book, TxnId(other));
    let unended = is_unended(book, TxnId(other));
    may_go_first(runs, unended, other < own)
}

/// Whether it has locks too that conflict with those of a statement.
fn goes_ahead(book: &Book, own: u64, tree: &Stmt, other: u64) -> bool
    requires texts { TextsRun (state_of book.now.entries) }
    ensures { result ≡ ahead_among own (names_in tree.now) (state_of book.now.entries).transactions other }
{
    match book.opening_tree(other) {
        Some(that) => goes_first(book, own, other) && locks_conflict(tree, that),
        None => false,
    }
}

/// The first of these transactions that does.
fn first_of(book: &Book, own: u64, tree: &Stmt, numbers: &[u64]) -> Option<u64>
    requires texts { TextsRun (state_of book.now.entries) }
    ensures { result ≡ first_among (ahead_among own (names_in tree.now)
        (state_of book.now.entries).transactions) numbers.now }
{
    for other in numbers {
        if goes_ahead(book, own, tree, *other) {
            return Some(*other);
        }
    }
    None
}

/// The first of all.
fn first_ahead(book: &Book, own: u64, tree: &Stmt) -> Option<u64>
    requires texts { TextsRun (state_of book.now.entries) }
    ensures first { result ≡ first_ahead own (names_in tree.now) 1 (state_of book.now.entries).transactions }
{
    first_of(book, own, tree, book.ongoing())
}

fn is_waiting_state(state: TxnState) -> bool
    ensures { result ≡ is_waiting_state state }
{
    match state {
        TxnState::Running { started } => !started,
        TxnState::Unknown | TxnState::Ended { .. } => false,
    }
}

/// Whether the transaction is there and waits for its Start.
fn is_waiting(book: &Book, txn: TxnId) -> bool
    ensures waiting { IsTrue result ↔ Of (state_of book.now.entries) txn.0 IsWaiting }
{
    is_waiting_state(state_of(book, txn))
}

fn numbered_one(first: Option<u64>) -> Option<TxnId>
    ensures { result ≡ numbered_one first }
{
    match first {
        Some(number) => Some(TxnId(number)),
        None => None,
    }
}

fn where_waiting(waits: bool, first: Option<u64>) -> Option<TxnId>
    ensures { result ≡ where_waiting waits first }
{
    if waits { numbered_one(first) } else { None }
}

/// The lowest open transaction that stands in the way of one that waits.
pub(crate) fn who_is_ahead(book: &Book, txn: TxnId) -> Option<TxnId>
    requires texts { TextsRun (state_of book.now.entries) }
    ensures way { (by : TxnId) → (result ≡ Some by) ↔ Of (state_of book.now.entries) txn.0
        (IsBehind (state_of book.now.entries) txn.0 by.0) }
{
    match book.opening_tree(txn.0) {
        Some(tree) => where_waiting(is_waiting(book, txn), first_ahead(book, txn.0, tree)),
        None => None,
    }
}
