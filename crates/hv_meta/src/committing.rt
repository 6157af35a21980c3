ghost use Rattle.std.specs.Prelude.{◌≡◌, ◌↔◌, ◌==◌, IsTrue};
ghost use Rattle.std.specs.List.{list_any};
ghost use Rattle.hv_book.specs.hv_history.specs.declared.state.Transaction.{Transaction};
ghost use Rattle.hv_book.specs.hv_history.specs.State.{state_of, numbered};
ghost use Rattle.hv_book.specs.hv_history.specs.Legal.{CommitFits, ConflictFits, Of, touch_cmp, touch_conflicts, touches_conflict, commits_against, deletes_in, deleted_behind};
ghost use Rattle.hv_book.specs.Briefs.{held_by};
ghost use Rattle.hv_book.specs.Commits.{passes_at, wrote_in, IsRising};
ghost use Rattle.hv_meta.specs.Committing.{MayWrite, are_rising, is_own, are_own, is_met, are_used, are_whole, against, started_place, note_behind, wrote_deletes};

use crate::facts::{is_running, note_of};
use crate::fitting::holds;
use hv_base::{TableId, Text, Touch, TxnId};
use hv_book::{Book, Held, TransactionNote};
use std::cmp::Ordering;

fn touch_order(a: &Touch, b: &Touch) -> Ordering
    ensures { result ≡ touch_cmp a.now b.now }
{
    a.table
        .0
        .cmp(&b.table.0)
        .then(a.partition.cmp(&b.partition))
}

fn are_rising(wrote: &[Touch]) -> bool
    ensures { result ≡ are_rising wrote.now }
{
    let mut rest = wrote;
    while let [first, behind @ ..] = rest {
        if let [second, ..] = behind {
            if !touch_order(first, second).is_lt() {
                return false;
            }
        }
        rest = behind;
    }
    true
}

fn is_own(held: &[Held], txn: u64, touch: &Touch) -> bool
    ensures { result ≡ is_own (held_by txn held.now) touch.now }
{
    (touch.inserted > 0 || touch.deleted > 0) && holds(held, txn, touch.table.0)
}

fn are_own(held: &[Held], txn: u64, wrote: &[Touch]) -> bool
    ensures { result ≡ are_own (held_by txn held.now) wrote.now }
{
    for touch in wrote {
        if !is_own(held, txn, touch) {
            return false;
        }
    }
    true
}

fn is_met(wrote: &[Touch], table: u64) -> bool
    ensures { result ≡ is_met wrote.now table }
{
    for touch in wrote {
        if touch.table.0 == table {
            return true;
        }
    }
    false
}

fn are_used(held: &[Held], txn: u64, wrote: &[Touch]) -> bool
    ensures { result ≡ are_used wrote.now (held_by txn held.now) }
{
    for one in held {
        if one.txn == txn && !is_met(wrote, one.table) {
            return false;
        }
    }
    true
}

/// Whether the touches rise, are the transaction's own, and use each of its write ids.
fn are_whole(held: &[Held], txn: u64, wrote: &[Touch]) -> bool
    ensures { result ≡ are_whole wrote.now (held_by txn held.now) }
{
    are_rising(wrote) && are_own(held, txn, wrote) && are_used(held, txn, wrote)
}

fn touch_conflicts(a: &Touch, b: &Touch) -> bool
    ensures { result ≡ touch_conflicts a.now b.now }
{
    a.table == b.table && a.partition == b.partition && a.deleted > 0 && b.deleted > 0
}

/// Whether a touch conflicts with one of those.
pub fn conflicts_with(touch: &Touch, those: &[Touch]) -> bool
    ensures { result ≡ list_any (touch_conflicts touch.now) those.now }
{
    for other in those {
        if touch_conflicts(touch, other) {
            return true;
        }
    }
    false
}

fn touches_conflict(these: &[Touch], those: &[Touch]) -> bool
    ensures { result ≡ touches_conflict these.now those.now }
{
    for touch in these {
        if conflicts_with(touch, those) {
            return true;
        }
    }
    false
}

/// Whether a Commit stands at this place, behind the other, that conflicts with these touches.
fn conflicts_at(book: &Book, place: u64, at: u64, wrote: &[Touch]) -> bool
    ensures { result ≡ passes_at (against place wrote.now) book.now.entries at }
{
    match book.touches(at) {
        Some(those) => at > place && touches_conflict(wrote, those.as_slice()),
        None => false,
    }
}

/// Walks the places behind this one, the last first.
fn conflicts_behind(book: &Book, places: &[u64], place: u64, wrote: &[Touch]) -> bool
    requires rising { IsRising places.now }
    ensures { result ≡ list_any (passes_at (against place wrote.now) book.now.entries) places.now }
{
    for i in (0..places.len()).rev() {
        if places[i] <= place {
            return false;
        }
        if conflicts_at(book, place, places[i], wrote) {
            return true;
        }
    }
    false
}

/// Whether a commit behind this place conflicts with these touches.
fn has_conflict(book: &Book, place: u64, wrote: &[Touch]) -> bool
    ensures conflict { result ≡ list_any
        (λ (other : Transaction). commits_against place wrote.now other.ending)
        (state_of book.now.entries).transactions }
{
    conflicts_behind(book, book.commits(), place, wrote)
}

/// Whether the transaction runs, and these touches may be what it wrote.
fn may_write(book: &Book, txn: TxnId, wrote: &[Touch]) -> bool
    ensures may { IsTrue result ↔ Of (state_of book.now.entries) txn.0 (MayWrite wrote.now) }
{
    let running = is_running(book, txn);
    let whole = are_whole(book.held(), txn.0, wrote);
    running && whole
}

/// The place of a transaction's Start, or 0.
pub fn started_place(note: Option<TransactionNote>) -> u64
    ensures { result ≡ started_place note }
{
    match note {
        Some(note) => note.started.unwrap_or(0),
        None => 0,
    }
}

/// Whether a Commit of these touches fits the book. It walks what the transaction wrote and was given,
/// and the commits behind its snapshot.
pub fn commit_fits(book: &Book, txn: TxnId, wrote: &[Touch]) -> bool
    ensures fits { IsTrue result ↔ Of (state_of book.now.entries) txn.0
        (CommitFits (state_of book.now.entries) wrote.now) }
{
    let may = may_write(book, txn, wrote);
    let place = started_place(note_of(book, txn.0));
    let conflict = has_conflict(book, place, wrote);
    may && !conflict
}

fn deletes_in(touch: &Touch, table: u64, partition: &Text) -> bool
    ensures { result ≡ deletes_in table partition.now touch.now }
{
    touch.table.0 == table && touch.partition == *partition && touch.deleted > 0
}

fn any_deletes(wrote: &[Touch], table: u64, partition: &Text) -> bool
    ensures { result ≡ list_any (deletes_in table partition.now) wrote.now }
{
    for touch in wrote {
        if deletes_in(touch, table, partition) {
            return true;
        }
    }
    false
}

/// Whether the transaction of that number committed deletes in that partition.
fn wrote_deletes(book: &Book, by: u64, table: u64, partition: &Text) -> bool
    ensures deletes { result ≡ wrote_deletes table partition.now
        (wrote_in (numbered (state_of book.now.entries).transactions by)) }
{
    match book.committed(by) {
        Some(wrote) => any_deletes(wrote.as_slice(), table, partition),
        None => false,
    }
}

fn note_behind(place: u64, note: Option<TransactionNote>) -> bool
    ensures { result ≡ note_behind place note }
{
    match note {
        Some(note) => match note.ending {
            Some(end) => end.at > place,
            None => false,
        },
        None => false,
    }
}

/// Whether an abort of this transaction fits the book since it conflicts with that commit.
pub fn conflict_fits(book: &Book, txn: TxnId, by: TxnId, table: TableId, partition: &Text) -> bool
    ensures fits { IsTrue result ↔ Of (state_of book.now.entries) txn.0
        (ConflictFits (state_of book.now.entries) by.0 table.0 partition.now) }
{
    let running = is_running(book, txn);
    let place = started_place(note_of(book, txn.0));
    let behind = note_behind(place, note_of(book, by.0));
    let deletes = wrote_deletes(book, by.0, table.0, partition);
    running && behind && deletes
}
