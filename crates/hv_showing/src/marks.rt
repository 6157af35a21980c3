//! Which transactions have a write id of a live table that isn't forgotten.

ghost use Rattle.std.specs.Prelude.{◌≡◌, ◌≤◌, IfOk, OnOk, length, map, take};
ghost use Rattle.std.specs.List.{list_any};
ghost use Rattle.hv_history.specs.State.{changed, nothing_yet, numbered};
ghost use Rattle.hv_history.specs.Legal.{AllFit, profile};
ghost use Rattle.hv_history.specs.Shown.{is_kept, is_kept_in, has_kept};
ghost use Rattle.hv_showing.specs.Fronts.{tables_then, transactions_then};
ghost use Rattle.hv_showing.specs.Marks.{or_mark, marked_by, marked_over, is_marked, keeps, is_forgot};

use hv_base::NoMemory;
use hv_book::{Book, ForgotNote};
use hv_earlier::was_live;
use hv_history::{Entry, numbered, place_of};
use std::alloc::Global;

fn is_forgot(position: u64, table: u64, write: u64, note: &ForgotNote) -> bool
    ensures { result ≡ is_forgot position table write note.now }
{
    note.table == table && note.at < position && note.write == write
}

fn any_forgot(position: u64, table: u64, write: u64, notes: &[ForgotNote]) -> bool
    ensures { result ≡ list_any (is_forgot position table write) notes.now }
{
    for note in notes {
        if is_forgot(position, table, write, note) {
            return true;
        }
    }
    false
}

fn keeps(live: Option<bool>, forgotten: bool) -> bool
    ensures { result ≡ keeps live forgotten }
{
    match live {
        Some(live) => live && !forgotten,
        None => false,
    }
}

/// Whether the table of this number was live at a place, and this write id of it wasn't forgotten.
fn was_kept(book: &Book, position: usize, table: u64, write: u64) -> bool
    ensures { result ≡ is_kept_in write (numbered (tables_then book.now.entries position) table) }
{
    let live = was_live(book, position, table);
    let past = book.past();
    let forgotten = past.forgotten.as_slice();
    keeps(live, any_forgot(position as u64, table, write, forgotten))
}

#[tactic(auto, unfolding(crate::specs::Marks::or_mark))]
fn or_mark(kept: bool, mark: bool) -> bool
    ensures { result ≡ or_mark kept mark }
{
    mark || kept
}

/// Sets the mark of the transaction of that number, where its id counts.
fn mark(marks: &mut Vec<bool>, txn: u64, kept: bool)
    ensures items { marks.new.items ≡ changed (or_mark kept) marks.old.items txn }
{
    if let Some(at) = place_of(marks, txn) {
        marks[at] = or_mark(kept, marks[at]);
    }
}

fn mark_entry(
    book: &Book,
    position: usize,
    entry: &Entry,
    marks: &mut Vec<bool>,
) -> Result<(), NoMemory>
    ensures { OnOk result (marks.new.items
        ≡ marked_by (is_kept (tables_then book.now.entries position)) entry.now marks.old.items) }
{
    match entry {
        Entry::Opened { .. } => {
            marks.push(false)?;
            Ok(())
        }
        Entry::Given { txn, table, write } => {
            mark(marks, txn.0, was_kept(book, position, table.0, write.0));
            Ok(())
        }
        _ => Ok(()),
    }
}

fn mark_entries(
    book: &Book,
    position: usize,
    entries: &[Entry],
    marks: &mut Vec<bool>,
) -> Result<(), NoMemory>
    ensures { OnOk result (marks.new.items
        ≡ marked_over (is_kept (tables_then book.now.entries position)) entries.now marks.old.items) }
{
    for entry in entries {
        mark_entry(book, position, entry, marks)?;
    }
    Ok(())
}

/// Those before a place.
pub fn before(entries: &[Entry], position: usize) -> &[Entry]
    requires { position ≤ length entries.now }
    ensures { result.now ≡ take position entries.now }
{
    &entries[..position]
}

/// Of each transaction that was opened before a place whether it had such an id there. It walks the entries before the place once.
pub fn marks_at(alloc: Global, book: &Book, position: usize) -> Result<Vec<bool>, NoMemory>
    requires place { position ≤ length book.now.entries }
    requires fit { AllFit profile nothing_yet book.now.entries }
    ensures { IfOk result (λ marks. marks.items
        ≡ map (has_kept (tables_then book.now.entries position)) (transactions_then book.now.entries position)) }
{
    let mut marks = Vec::new(alloc);
    mark_entries(book, position, before(book.entries(), position), &mut marks)?;
    Ok(marks)
}

/// Whether the mark of that number is set.
pub fn is_marked(marks: &[bool], txn: u64) -> bool
    ensures { result ≡ is_marked (numbered marks.now txn) }
{
    match numbered(marks, txn) {
        Some(mark) => *mark,
        None => false,
    }
}
