//! SHOW LOCKS.

ghost use Rattle.std.specs.Prelude.{◌≡◌, ◌++◌, IfOk, OnOk, take};
ghost use Rattle.std.specs.List.{list_any};
ghost use Rattle.std.specs.Option.{option_copied};
ghost use Rattle.hv_fits.specs.Texts.{TextsRun};
ghost use Rattle.hv_history.specs.State.{state_of};
ghost use Rattle.hv_history.specs.Shown.{each_from, held_rows, is_exclusive_on, lock_names, lock_row, lock_rows, mode_text};
ghost use Rattle.hv_showing.specs.Fronts.{transactions_then, then_at, IsFrontOf, held_in, rows_at};

use crate::fronts::{Front, was_running};
use crate::rows::{number_value, text_value, word_value};
use hv_ast::Stmt;
use hv_base::{List, NoMemory, Text};
use hv_book::Book;
use hv_locks::Lock;
use hv_names::names_in;
use hv_value::Row;
use std::alloc::Global;

/// Whether a lock has this name alone.
fn is_exclusive_on(lock: &Lock, name: &Text) -> bool
    ensures { result ≡ is_exclusive_on name.now lock.now }
{
    lock.exclusive && lock.name == *name
}

/// Whether one of these locks has this name alone.
fn is_exclusive(locks: &[Lock], name: &Text) -> bool
    ensures { result ≡ list_any (is_exclusive_on name.now) locks.now }
{
    for lock in locks {
        if is_exclusive_on(lock, name) {
            return true;
        }
    }
    false
}

fn mode_text(exclusive: bool) -> &'static str
    ensures { result.now ≡ mode_text exclusive }
{
    if exclusive { "exclusive" } else { "shared" }
}

fn lock_row(alloc: Global, txn: u64, locks: &[Lock], lock: &Lock) -> Result<Row, NoMemory>
    ensures { IfOk result (λ row. row ≡ lock_row txn locks.now lock.now) }
{
    let mode = mode_text(is_exclusive(locks, &lock.name));
    let mut values = Vec::new(alloc);
    values.push(text_value(alloc, &lock.name)?)?;
    values.push(number_value(txn)?)?;
    values.push(word_value(alloc, mode)?)?;
    Ok(Row {
        values: List::from_vec(values),
    })
}

/// Appends the rows of these locks of a transaction.
pub fn put_locks(
    alloc: Global,
    txn: u64,
    locks: &[Lock],
    rows: &mut Vec<Row>,
) -> Result<(), NoMemory>
    ensures { OnOk result (rows.new.items ≡ rows.old.items ++ held_rows txn locks.now) }
{
    for lock in locks {
        rows.push(lock_row(alloc, txn, locks, lock)?)?;
    }
    Ok(())
}

/// Appends the rows of the locks that a statement asks for.
fn put_held(
    alloc: Global,
    txn: u64,
    tree: Option<&Stmt>,
    rows: &mut Vec<Row>,
) -> Result<(), NoMemory>
    ensures { OnOk result (rows.new.items ≡ rows.old.items ++ held_in txn (option_copied tree.entry)) }
{
    match tree {
        Some(tree) => {
            let locks = names_in(alloc, tree)?;
            put_locks(alloc, txn, locks.as_slice(), rows)?;
            Ok(())
        }
        None => Ok(()),
    }
}

/// Appends the locks of the transaction of that number, where it was open and started at the place.
fn put_running(
    alloc: Global,
    book: &Book,
    front: Front,
    txn: u64,
    rows: &mut Vec<Row>,
) -> Result<(), NoMemory>
    requires front { IsFrontOf book.now.entries front }
    requires texts { TextsRun (state_of (take front.position book.now.entries)) }
    ensures { OnOk result (rows.new.items
        ≡ rows.old.items ++ rows_at lock_rows txn (then_at book.now.entries front.position txn)) }
{
    if was_running(book, front, txn) {
        put_held(alloc, txn, book.opening_tree(txn), rows)
    } else {
        Ok(())
    }
}

/// The locks of the transactions that were open and started at the place.
pub fn locks_then(alloc: Global, book: &Book, front: Front) -> Result<Vec<Row>, NoMemory>
    requires front { IsFrontOf book.now.entries front }
    requires texts { TextsRun (state_of (take front.position book.now.entries)) }
    ensures { IfOk result (λ rows. rows.items
        ≡ each_from lock_rows 1 (transactions_then book.now.entries front.position)) }
{
    let mut rows = Vec::new(alloc);
    for i in 0..front.opened {
        put_running(alloc, book, front, i + 1, &mut rows)?;
    }
    Ok(rows)
}

/// The names of the columns.
pub fn lock_names(alloc: Global) -> Result<List<Text>, NoMemory>
    ensures { IfOk result (λ names. names ≡ lock_names) }
{
    let mut names = Vec::new(alloc);
    names.push(Text::of(alloc, "table")?)?;
    names.push(Text::of(alloc, "txnid")?)?;
    names.push(Text::of(alloc, "mode")?)?;
    Ok(List::from_vec(names))
}
