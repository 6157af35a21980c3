//! What happens to the transactions of a book.
ghost use Rattle.std.specs.Prelude.{◌≡◌, None};
ghost use Rattle.hv_history.specs.Book.{tree_of_entry};

use crate::taking::{append, take};
use crate::words::{number, piece};
use hv_base::{List, NoMemory, TableId, Text, Touch, TxnId, WriteId};
use hv_book::Book;
use hv_history::{Cause, Entry};
use std::alloc::Global;

/// The entry that a row names: of its transaction, table and write id.
fn entry_of(call: &str, words: &[&str]) -> Entry
    ensures { tree_of_entry result ≡ None }
{
    let txn = TxnId(number(words, 0));
    let table = TableId(number(words, 1));
    match call {
        "starts" => Entry::Start { txn, statement: 0 },
        "makes" => Entry::Create { txn, table },
        "drops" => Entry::Drop { txn, table },
        "gives" => Entry::Given {
            txn,
            table,
            write: WriteId(number(words, 2)),
        },
        "fails" => Entry::Abort {
            txn,
            cause: Cause::Memory,
        },
        "refuses" => Entry::Abort {
            txn,
            cause: Cause::Refused {
                number: piece(words, 1).parse::<u32>().unwrap_or(0),
            },
        },
        _ => Entry::Boot { run: 0 },
    }
}

pub fn happens(book: &mut Book, call: &str, words: &[&str]) -> Result<(), NoMemory> {
    append(book, entry_of(call, words), None)
}

/// A commit, of nothing or of so many rows that were inserted into a table.
pub fn commits(alloc: Global, book: &mut Book, words: &[&str]) -> Result<(), NoMemory> {
    let mut touches = Vec::new(alloc);
    if words.len() == 3 {
        touches.push(Touch {
            table: TableId(number(words, 1)),
            partition: Text::of(alloc, "")?,
            inserted: number(words, 2),
            deleted: 0,
        })?;
    }
    let txn = TxnId(number(words, 0));
    let wrote = List::from_vec(touches);
    append(book, Entry::Commit { txn, wrote }, None)
}

/// Opens a transaction for a text, or shows the text's fault.
pub fn takes(
    alloc: Global,
    out: &mut String,
    book: &mut Book,
    words: &[&str],
) -> Result<(), NoMemory> {
    let number = number(words, 0);
    let session = Text::of(alloc, "main")?;
    let text = Text::of(alloc, piece(words, 1))?;
    match take(alloc, book, TxnId(number), session, number, text) {
        Ok(()) => Ok(()),
        Err(fault) => Ok(write!(out, "{fault}")?),
    }
}
