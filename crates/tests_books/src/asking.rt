//! What is printed for a transaction, and what is known at a position.
use crate::answers::answer;
use crate::replay::Replay;
use crate::words::{number, piece};
use hv_ast::{Stmt, discard};
use hv_base::{NoMemory, TableId, Text};
use hv_book::Book;
use hv_earlier::{catalog_at, list_at};
use hv_history::{Ending, Table, Transaction, numbered};
use hv_logic::TableInfo;
use hv_reading::{TextFault, read_statement, read_text};
use std::alloc::{AllocError, Global};
use std::str;

pub fn prints(
    alloc: Global,
    out: &mut String,
    book: &Book,
    words: &[&str],
) -> Result<(), NoMemory> {
    let done = match answer(alloc, book.entries(), number(words, 0))? {
        Some(printed) => out.push_str(str::from_utf8(printed.as_slice()).unwrap_or("bytes")),
        None => out.push_str("open"),
    };
    Ok(done?)
}

/// How a write id of this transaction shows, if it does: open (o) or aborted (a).
fn mark(transaction: Option<&Transaction>) -> &'static str {
    match transaction {
        Some(transaction) => match &transaction.ending {
            None => "o",
            Some(Ending::Aborted(..)) => "a",
            Some(_) => "",
        },
        None => "",
    }
}

/// A table by name, with its highest write id and the ids that no reader sees.
fn show_known(
    out: &mut String,
    table: &Table,
    transactions: &[Transaction],
) -> Result<(), AllocError> {
    let owners = table.owners.as_slice();
    write!(out, "{} {}", table.info.shape.name, owners.len())?;
    for at in 0..owners.len() {
        let mark = mark(numbered(transactions, owners[at]));
        if !mark.is_empty() {
            write!(out, " {}{mark}", at + 1)?;
        }
    }
    out.push_str(",")
}

/// The live tables that a replay up to a position has.
pub fn known(alloc: Global, out: &mut String, book: &Book, words: &[&str]) -> Result<(), NoMemory> {
    let Some(front) = book.entries().get(..number(words, 0) as usize) else {
        return Ok(());
    };
    let replay = Replay::of(alloc, front)?;
    for table in replay.tables.as_slice() {
        if table.is_live {
            show_known(out, table, &replay.transactions)?;
        }
    }
    Ok(())
}

/// A table by its number, its name and its columns.
fn show_table(out: &mut String, info: &TableInfo) -> Result<(), AllocError> {
    write!(out, "{} {}", info.table.0, info.shape.name)?;
    for column in info.shape.columns.as_slice() {
        write!(out, " {}", column.name)?;
    }
    out.push_str(".")
}

/// The tables at a position.
pub fn tables(
    alloc: Global,
    out: &mut String,
    book: &Book,
    words: &[&str],
) -> Result<(), NoMemory> {
    let catalog = catalog_at(alloc, book, number(words, 0) as usize)?;
    for info in catalog.tables.as_slice() {
        show_table(out, info)?;
    }
    Ok(())
}

/// The write id list of a table at a position.
pub fn list(alloc: Global, out: &mut String, book: &Book, words: &[&str]) -> Result<(), NoMemory> {
    let position = number(words, 1) as usize;
    let list = list_at(alloc, book, position, TableId(number(words, 0)))?;
    Ok(write!(out, "{list:?}")?)
}

/// Whether there is a tree, which is let go of.
fn is_read(read: Result<Stmt, TextFault>) -> bool {
    match read {
        Ok(tree) => {
            discard(tree);
            true
        }
        Err(_) => false,
    }
}

/// Whether a text is a statement, and whether that runs.
pub fn runs(alloc: Global, out: &mut String, words: &[&str]) -> Result<(), NoMemory> {
    let text = Text::of(alloc, piece(words, 0))?;
    let is_statement = is_read(read_text(alloc, &text));
    let runs = is_read(read_statement(alloc, &text));
    Ok(write!(out, "{is_statement} {runs}")?)
}
