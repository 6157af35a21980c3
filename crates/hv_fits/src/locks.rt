ghost use Rattle.std.specs.Prelude.{◌≡◌, ◌∷◌, [], ◌↔◌, IsTrue, Option, Some};
ghost use Rattle.std.specs.Option.{option_map};
ghost use Rattle.hv_logic.specs.Names.{names_in};
ghost use Rattle.hv_history.specs.State.{state_of, numbered};
ghost use Rattle.hv_history.specs.Legal.{Of, IsWaiting, StartFits, BlockedFits, HasRoom, first_holder};
ghost use Rattle.hv_fits.specs.Texts.{TextsRun, holds_among, first_among, is_waiting_state, IsReady};

use hv_ast::Stmt;
use hv_base::{Limits, TxnId};
use hv_book::Book;
use hv_meta::{TxnState, has_room, is_running, state_of};
use hv_names::locks_conflict;

/// Whether the transaction of this number holds locks that conflict with those of a statement.
fn holds(book: &Book, txn: u64, tree: &Stmt) -> bool
    requires texts { TextsRun (state_of book.now.entries) }
    ensures { result ≡ holds_among (names_in tree.now) (state_of book.now.entries).transactions txn }
{
    match book.opening_tree(txn) {
        Some(other) => is_running(book, TxnId(txn)) && locks_conflict(tree, other),
        None => false,
    }
}

/// The first transaction that holds locks that conflict with those of a statement.
pub fn first_holder(book: &Book, tree: &Stmt) -> Option<u64>
    requires texts { TextsRun (state_of book.now.entries) }
    ensures holder { result ≡ first_holder (names_in tree.now) 1 (state_of book.now.entries).transactions }
{
    first_among(book, tree, book.ongoing())
}

/// The first of these transactions that holds locks that conflict with those of a statement.
fn first_among(book: &Book, tree: &Stmt, numbers: &[u64]) -> Option<u64>
    requires texts { TextsRun (state_of book.now.entries) }
    ensures { result ≡ first_among (holds_among (names_in tree.now)
        (state_of book.now.entries).transactions) numbers.now }
{
    for txn in numbers {
        if holds(book, *txn, tree) {
            return Some(*txn);
        }
    }
    None
}

fn is_waiting_state(state: TxnState) -> bool
    ensures { result ≡ is_waiting_state state }
{
    match state {
        TxnState::Running { started } => !started,
        TxnState::Unknown | TxnState::Ended { .. } => false,
    }
}

/// Whether the transaction is there and waits for its Start.
fn is_waiting(book: &Book, txn: TxnId) -> bool
    ensures waiting { IsTrue result ↔ Of (state_of book.now.entries) txn.0 IsWaiting }
{
    is_waiting_state(state_of(book, txn))
}

fn is_that(first: Option<u64>, number: u64) -> bool
    ensures { IsTrue result ↔ (first ≡ Some number) }
{
    match first {
        Some(other) => other == number,
        None => false,
    }
}

/// Whether the transaction waits for its Start and no lock is held against it.
fn is_ready(book: &Book, txn: TxnId) -> bool
    requires texts { TextsRun (state_of book.now.entries) }
    ensures ready { IsTrue result ↔ Of (state_of book.now.entries) txn.0
        (IsReady (state_of book.now.entries)) }
{
    match book.opening_tree(txn.0) {
        Some(tree) => {
            let waiting = is_waiting(book, txn);
            let free = first_holder(book, tree).is_none();
            waiting && free
        }
        None => false,
    }
}

/// Whether this is the statement that opened its transaction, and there is room for its Start.
fn is_first_with_room(book: &Book, limits: &Limits, statement: u32) -> bool
    ensures more { IsTrue result ↔ ((statement ≡ 0) × HasRoom limits.now (state_of book.now.entries) 1) }
{
    statement == 0 && has_room(book, limits, 1)
}

/// Whether a Start of this transaction fits the book.
pub fn start_fits(book: &Book, limits: &Limits, txn: TxnId, statement: u32) -> bool
    requires texts { TextsRun (state_of book.now.entries) }
    ensures fits { IsTrue result ↔ Of (state_of book.now.entries) txn.0
        (StartFits limits.now (state_of book.now.entries) statement) }
{
    let ready = is_ready(book, txn);
    let more = is_first_with_room(book, limits, statement);
    ready && more
}

/// Whether an abort of this transaction fits the book since that one holds a lock against it.
pub fn blocked_fits(book: &Book, txn: TxnId, holder: TxnId) -> bool
    requires texts { TextsRun (state_of book.now.entries) }
    ensures fits { IsTrue result ↔ Of (state_of book.now.entries) txn.0
        (BlockedFits (state_of book.now.entries) holder.0) }
{
    match book.opening_tree(txn.0) {
        Some(tree) => {
            let waiting = is_waiting(book, txn);
            let held = is_that(first_holder(book, tree), holder.0);
            waiting && held
        }
        None => false,
    }
}
