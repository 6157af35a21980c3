ghost use Rattle.std.specs.Prelude.{◌≡◌, ◌↔◌, IsTrue};
ghost use Rattle.std.specs.List.{list_all, list_any};
ghost use Rattle.hv_book.specs.hv_history.specs.State.{state_of};
ghost use Rattle.hv_book.specs.hv_history.specs.Legal.{CreateFits, Of, is_named};
ghost use Rattle.hv_meta.specs.States.{is_flat_definition};

use crate::facts::is_running;
use hv_ast::{ColumnDefinition, Stmt, TypeName};
use hv_base::{TableId, Text, TxnId};
use hv_book::Book;

/// Whether a live table has this name.
pub fn has_named(book: &Book, name: &Text) -> bool
    ensures named { result ≡ list_any (is_named name.now) (state_of book.now.entries).tables }
{
    book.has_named(name)
}

fn is_flat(column: &ColumnDefinition) -> bool
    ensures { result ≡ is_flat_definition column.now }
{
    match column.kind {
        TypeName::Array(_) => false,
        TypeName::Scalar(_) => true,
    }
}

/// Whether none of these columns is an ARRAY.
fn are_flat(columns: &[ColumnDefinition]) -> bool
    ensures flat { result ≡ list_all is_flat_definition columns.now }
{
    for column in columns {
        if !is_flat(column) {
            return false;
        }
    }
    true
}

/// Whether a Create of this table fits the book.
pub fn create_fits(book: &Book, txn: TxnId, table: TableId) -> bool
    ensures fits { IsTrue result ↔ Of (state_of book.now.entries) txn.0
        (CreateFits (state_of book.now.entries) table.0) }
{
    let Some(tree) = book.opening_tree(txn.0) else {
        return false;
    };
    let Stmt::CreateTable(create) = tree else {
        return false;
    };
    if !are_flat(create.partitions.as_slice()) {
        return false;
    }
    let named = has_named(book, &create.table);
    let next = table.0 == book.tables().len() as u64 + 1;
    is_running(book, txn) && !named && next
}
