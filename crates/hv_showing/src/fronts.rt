//! How the transactions of a book stood before a place of it.

ghost use Rattle.std.specs.Prelude.{◌≡◌};
ghost use Rattle.std.specs.Option.{option_copied, option_map};
ghost use Rattle.hv_book.specs.Commits.{wrote_in};
ghost use Rattle.hv_book.specs.Past.{is_before};
ghost use Rattle.hv_earlier.specs.Fates.{fate_of};
ghost use Rattle.hv_showing.specs.Fronts.{then_at, IsFrontOf, started_in, runs_so, is_running_in, is_done};

use hv_base::{List, Touch};
use hv_book::{Book, TransactionNote};
use hv_earlier::{Fate, fate_in, opened_at};
use hv_history::numbered;

/// A place of a book, with how many transactions were opened before it.
#[derive(Clone, Copy)]
pub struct Front {
    pub position: u64,
    pub opened: u64,
}

pub fn front_at(book: &Book, position: usize) -> Front
    ensures front { IsFrontOf book.now.entries result }
    ensures position { result.position ≡ position }
{
    Front {
        position: position as u64,
        opened: opened_at(book, position),
    }
}

/// How the transaction of that number stood there.
pub fn stood(book: &Book, front: Front, txn: u64) -> Option<Fate>
    requires { IsFrontOf book.now.entries front }
    ensures { result ≡ option_map fate_of (then_at book.now.entries front.position txn) }
{
    fate_in(book.transactions(), front.position, front.opened, txn)
}

fn is_before(position: u64, at: Option<u64>) -> bool
    ensures { result ≡ is_before position at }
{
    match at {
        Some(at) => at < position,
        None => false,
    }
}

fn started_in(position: u64, note: Option<&TransactionNote>) -> bool
    ensures { result ≡ started_in position (option_copied note.entry) }
{
    match note {
        Some(note) => is_before(position, note.started),
        None => false,
    }
}

/// Whether one that stood so runs, by whether it had started.
fn runs_so(fate: Option<Fate>, started: bool) -> bool
    ensures { result ≡ runs_so fate started }
{
    match fate {
        Some(Fate::Open) => started,
        Some(Fate::Committed) => false,
        Some(Fate::Aborted) => false,
        None => false,
    }
}

/// Whether the transaction of that number was open and started there.
pub fn was_running(book: &Book, front: Front, txn: u64) -> bool
    requires { IsFrontOf book.now.entries front }
    ensures { result ≡ is_running_in (then_at book.now.entries front.position txn) }
{
    let fate = stood(book, front, txn);
    runs_so(
        fate,
        started_in(front.position, numbered(book.transactions(), txn)),
    )
}

fn is_done(fate: Option<Fate>) -> bool
    ensures { result ≡ is_done fate }
{
    match fate {
        Some(Fate::Open) => false,
        Some(Fate::Committed) => true,
        Some(Fate::Aborted) => false,
        None => false,
    }
}

/// Whether the transaction of that number had committed there.
fn had_committed(book: &Book, front: Front, txn: u64) -> bool
    requires { IsFrontOf book.now.entries front }
    ensures { result ≡ is_done (option_map fate_of (then_at book.now.entries front.position txn)) }
{
    is_done(stood(book, front, txn))
}

/// What the transaction of that number wrote, where it had committed its writes there.
pub fn wrote_then(book: &Book, front: Front, txn: u64) -> Option<&List<Touch>>
    requires { IsFrontOf book.now.entries front }
    ensures { option_copied result ≡ wrote_in (then_at book.now.entries front.position txn) }
{
    if had_committed(book, front, txn) {
        book.committed(txn)
    } else {
        None
    }
}
