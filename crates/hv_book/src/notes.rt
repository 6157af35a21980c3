ghost use Rattle.std.specs.Prelude.{◌≡◌, ◌+◌, ◌<◌, ◌≤◌, ◌^◌, ◌++◌, ◌∷◌, [], Option, None, Some, true, false, OnOk, IsOk, filter, vec_len, vec_capacity, slice_set, slice_index_or};
ghost use Rattle.std.specs.List.{AllByRecursion};
ghost use Rattle.hv_history.specs.State.{changed, numbered};
ghost use Rattle.hv_book.specs.Notes.{start_note, end_note, one_more, gone, other_than, held_by_other, is_open_note};

use hv_history::{numbered, place_of};

/// Where a transaction ended, and whether its writes count.
#[derive(Clone, Copy)]
pub struct End {
    pub at: u64,
    pub committed: bool,
}

/// What is kept of a transaction: the place of its first Start, and its end.
#[derive(Clone, Copy)]
pub struct TransactionNote {
    pub started: Option<u64>,
    pub ending: Option<End>,
}

/// What is kept of a table: its id, whether it is live, and how many write ids were given in it.
#[derive(Clone, Copy)]
pub struct TableNote {
    pub id: u64,
    pub is_live: bool,
    pub high: u64,
}

/// A write id that an open transaction was given in a table.
#[derive(Clone, Copy)]
pub struct Held {
    pub txn: u64,
    pub table: u64,
    pub write: u64,
}

/// Appends to a vector that has room.
pub fn append<T: Drop>(items: &mut Vec<T>, item: T)
    requires room { vec_len items.old < vec_capacity items.old }
    ensures items { items.new.items ≡ items.old.items ++ item ∷ [] }
    ensures len { vec_len items.new ≡ vec_len items.old + 1 }
    ensures capacity { vec_capacity items.old ≤ vec_capacity items.new }
{
    items.push(item).unwrap();
}

/// Notes the first Start of a transaction that has not ended.
pub fn start(notes: &mut Vec<TransactionNote>, txn: u64, place: u64)
    ensures items { notes.new.items ≡ changed (start_note place) notes.old.items txn }
    ensures len { vec_len notes.new ≡ vec_len notes.old }
    ensures capacity { vec_capacity notes.new ≡ vec_capacity notes.old }
{
    if let Some(at) = place_of(notes, txn) {
        notes[at] = started(notes[at], place);
    }
}

#[tactic(auto, unfolding(crate::specs::Notes::start_note))]
fn started(note: TransactionNote, place: u64) -> TransactionNote
    ensures { result ≡ start_note place note }
{
    if note.ending.is_none() && note.started.is_none() {
        TransactionNote {
            started: Some(place),
            ending: None,
        }
    } else {
        note
    }
}

/// Notes the end of a transaction that has not ended.
pub fn finish(notes: &mut Vec<TransactionNote>, txn: u64, end: End)
    ensures items { notes.new.items ≡ changed (end_note end.at end.committed) notes.old.items txn }
    ensures len { vec_len notes.new ≡ vec_len notes.old }
    ensures capacity { vec_capacity notes.new ≡ vec_capacity notes.old }
{
    if let Some(at) = place_of(notes, txn) {
        notes[at] = ended(notes[at], end);
    }
}

#[tactic(auto, unfolding(crate::specs::Notes::end_note))]
fn ended(note: TransactionNote, end: End) -> TransactionNote
    ensures { result ≡ end_note end.at end.committed note }
{
    if note.ending.is_none() {
        TransactionNote {
            started: note.started,
            ending: Some(end),
        }
    } else {
        note
    }
}

/// Whether the transaction of that number has not ended.
pub fn is_open(notes: &[TransactionNote], txn: u64) -> bool
    ensures { result ≡ is_open_note (numbered notes.now txn) }
{
    match numbered(notes, txn) {
        Some(note) => note.ending.is_none(),
        None => false,
    }
}

/// Takes the number out of those of the open transactions.
pub fn close(numbers: &mut Vec<u64>, txn: u64)
    ensures items { numbers.new.items ≡ filter (other_than txn) numbers.old.items }
    ensures len { vec_len numbers.new ≤ vec_len numbers.old }
    ensures capacity { vec_capacity numbers.new ≡ vec_capacity numbers.old }
{
    numbers.retain(|other| *other != txn);
}

/// Takes away the write ids that a transaction holds.
pub fn let_go(held: &mut Vec<Held>, txn: u64)
    ensures items { held.new.items ≡ filter (held_by_other txn) held.old.items }
    ensures len { vec_len held.new ≤ vec_len held.old }
    ensures capacity { vec_capacity held.new ≡ vec_capacity held.old }
{
    held.retain(|other| other.txn != txn);
}

/// Counts a write id more of a table.
pub fn count_one(tables: &mut Vec<TableNote>, table: u64, limit: u64)
    requires below { AllByRecursion (λ note. note.high ≤ limit) tables.old.items }
    requires limit { limit + 1 < 2 ^ 64 }
    ensures items { tables.new.items ≡ changed one_more tables.old.items table }
    ensures len { vec_len tables.new ≡ vec_len tables.old }
    ensures capacity { vec_capacity tables.new ≡ vec_capacity tables.old }
{
    if let Some(at) = place_of(tables, table) {
        tables[at] = one_more(tables[at]);
    }
}

#[tactic(auto, unfolding(crate::specs::Notes::one_more))]
fn one_more(note: TableNote) -> TableNote
    requires { note.high + 1 < 2 ^ 64 }
    ensures { result ≡ one_more note }
{
    TableNote {
        id: note.id,
        is_live: note.is_live,
        high: note.high + 1,
    }
}

/// Notes that a table was dropped.
pub fn drop_table(tables: &mut Vec<TableNote>, table: u64)
    ensures items { tables.new.items ≡ changed gone tables.old.items table }
    ensures len { vec_len tables.new ≡ vec_len tables.old }
    ensures capacity { vec_capacity tables.new ≡ vec_capacity tables.old }
{
    if let Some(at) = place_of(tables, table) {
        tables[at] = gone(tables[at]);
    }
}

#[tactic(auto, unfolding(crate::specs::Notes::gone))]
fn gone(note: TableNote) -> TableNote
    ensures { result ≡ gone note }
{
    TableNote {
        id: note.id,
        is_live: false,
        high: note.high,
    }
}
