//! SHOW TRANSACTIONS.

ghost use Rattle.std.specs.Prelude.{◌≡◌, ◌++◌, IfOk, OnOk, map};
ghost use Rattle.std.specs.Option.{option_copied};
ghost use Rattle.hv_history.specs.Shown.{each_from, has_kept, transaction_names, transaction_row, transaction_rows};
ghost use Rattle.hv_showing.specs.Fronts.{tables_then, transactions_then, then_at, IsFrontOf, rows_at, shows_open, shown_so};

use crate::fronts::{Front, stood};
use crate::marks::is_marked;
use crate::rows::{number_value, text_value, word_value};
use hv_base::{List, NoMemory, Text};
use hv_book::Book;
use hv_earlier::Fate;
use hv_value::Row;
use std::alloc::Global;

/// The row of a transaction of this state and session.
pub fn transaction_row(
    alloc: Global,
    txn: u64,
    state: &str,
    session: &Text,
) -> Result<Row, NoMemory>
    ensures { IfOk result (λ row. row ≡ transaction_row txn state.now session.now) }
{
    let mut values = Vec::new(alloc);
    values.push(number_value(txn)?)?;
    values.push(word_value(alloc, state)?)?;
    values.push(text_value(alloc, session)?)?;
    Ok(Row {
        values: List::from_vec(values),
    })
}

/// Appends the row of a transaction of this session.
fn put_row(
    alloc: Global,
    txn: u64,
    state: &str,
    session: Option<&Text>,
    rows: &mut Vec<Row>,
) -> Result<(), NoMemory>
    ensures { OnOk result (rows.new.items
        ≡ rows.old.items ++ shows_open txn (option_copied session.entry) state.now) }
{
    if let Some(session) = session {
        rows.push(transaction_row(alloc, txn, state, session)?)?;
    }
    Ok(())
}

/// Appends the row of a transaction that stood so, where it is shown.
fn put_transaction(
    alloc: Global,
    txn: u64,
    fate: Option<Fate>,
    kept: bool,
    session: Option<&Text>,
    rows: &mut Vec<Row>,
) -> Result<(), NoMemory>
    ensures { OnOk result (rows.new.items
        ≡ rows.old.items ++ shown_so txn fate kept (option_copied session.entry)) }
{
    match fate {
        Some(Fate::Open) => {
            put_row(alloc, txn, "open", session, rows)?;
            Ok(())
        }
        Some(Fate::Aborted) => {
            if kept {
                put_row(alloc, txn, "aborted", session, rows)?;
            }
            Ok(())
        }
        Some(Fate::Committed) => Ok(()),
        None => Ok(()),
    }
}

/// Appends the row of the transaction of that number, where it was shown at the place.
fn put_stood(
    alloc: Global,
    book: &Book,
    front: Front,
    marks: &[bool],
    txn: u64,
    rows: &mut Vec<Row>,
) -> Result<(), NoMemory>
    requires front { IsFrontOf book.now.entries front }
    requires marks { marks.now ≡ map (has_kept (tables_then book.now.entries front.position))
        (transactions_then book.now.entries front.position) }
    ensures { OnOk result (rows.new.items ≡ rows.old.items
        ++ rows_at (transaction_rows (tables_then book.now.entries front.position)) txn
        (then_at book.now.entries front.position txn)) }
{
    let fate = stood(book, front, txn);
    let kept = is_marked(marks, txn);
    put_transaction(alloc, txn, fate, kept, book.session(txn), rows)
}

/// The transactions that were open at the place, and the aborted ones whose marks are set.
pub fn transactions_at(
    alloc: Global,
    book: &Book,
    front: Front,
    marks: &[bool],
) -> Result<Vec<Row>, NoMemory>
    requires front { IsFrontOf book.now.entries front }
    requires marks { marks.now ≡ map (has_kept (tables_then book.now.entries front.position))
        (transactions_then book.now.entries front.position) }
    ensures { IfOk result (λ rows. rows.items ≡ each_from
        (transaction_rows (tables_then book.now.entries front.position)) 1
        (transactions_then book.now.entries front.position)) }
{
    let mut rows = Vec::new(alloc);
    for i in 0..front.opened {
        put_stood(alloc, book, front, marks, i + 1, &mut rows)?;
    }
    Ok(rows)
}

/// The names of the columns.
pub fn transaction_names(alloc: Global) -> Result<List<Text>, NoMemory>
    ensures { IfOk result (λ names. names ≡ transaction_names) }
{
    let mut names = Vec::new(alloc);
    names.push(Text::of(alloc, "txnid")?)?;
    names.push(Text::of(alloc, "state")?)?;
    names.push(Text::of(alloc, "session")?)?;
    Ok(List::from_vec(names))
}
