ghost use Rattle.std.specs.Prelude.{◌≡◌, ◌↔◌, IsTrue};
ghost use Rattle.std.specs.Option.{option_copied, option_map};
ghost use Rattle.hv_book.specs.hv_history.specs.State.{state_of, numbered};
ghost use Rattle.hv_book.specs.hv_history.specs.Legal.{DropFits, Of, is_named_there};
ghost use Rattle.hv_book.specs.Briefs.{brief_table};
ghost use Rattle.hv_meta.specs.States.{is_live_note, drops_table};

use crate::facts::is_running;
use hv_ast::Stmt;
use hv_base::{TableId, Text, TxnId};
use hv_book::hv_history::numbered;
use hv_book::{Book, TableNote};

/// What is kept of the table of this number.
fn table_note(book: &Book, table: u64) -> Option<TableNote>
    ensures note { result ≡ option_map brief_table (numbered (state_of book.now.entries).tables table) }
{
    numbered(book.tables(), table).copied()
}

fn is_live_note(note: Option<TableNote>) -> bool
    ensures { result ≡ is_live_note note }
{
    match note {
        Some(note) => note.is_live,
        None => false,
    }
}

/// Whether the table of this number is live and has this name.
fn is_named(book: &Book, table: u64, name: &Text) -> bool
    ensures named { result ≡ is_named_there name.now (numbered (state_of book.now.entries).tables table) }
{
    let live = is_live_note(table_note(book, table));
    let same = book.has_name(table, name);
    live && same
}

/// Whether the text drops this table.
fn drops_table(book: &Book, table: u64, tree: Option<&Stmt>) -> bool
    ensures { result ≡ drops_table (state_of book.now.entries).tables table (option_copied tree.entry) }
{
    match tree {
        Some(Stmt::DropTable(drop)) => is_named(book, table, &drop.table),
        _ => false,
    }
}

/// Whether a Drop of this table fits the book.
pub fn drop_fits(book: &Book, txn: TxnId, table: TableId) -> bool
    ensures fits { IsTrue result ↔ Of (state_of book.now.entries) txn.0
        (DropFits (state_of book.now.entries) table.0) }
{
    let running = is_running(book, txn);
    let named = drops_table(book, table.0, book.opening_tree(txn.0));
    running && named
}
