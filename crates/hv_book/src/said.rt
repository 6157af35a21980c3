//! What is kept of a text's tree.

ghost use Rattle.std.specs.Prelude.{◌≡◌};
ghost use Rattle.std.specs.Option.{option_map};
ghost use Rattle.hv_book.specs.Said.{said, said_insert, said_rows};

use hv_ast::{Insert, Rows, Stmt};
use hv_base::List;
use std::alloc::Global;

fn let_go<T: Drop>(_value: T) {}

fn light_rows(alloc: Global, rows: Rows) -> Rows
    ensures { result ≡ said_rows rows }
{
    match rows {
        Rows::Values(values) => {
            let_go(values);
            Rows::Values(List::empty(alloc))
        }
        Rows::Query(query) => Rows::Query(query),
    }
}

fn light_insert(alloc: Global, insert: Insert) -> Insert
    ensures { result ≡ said_insert insert }
{
    let Insert {
        overwrite,
        table,
        partition,
        columns,
        rows,
    } = insert;
    let rows = light_rows(alloc, rows);
    Insert {
        overwrite,
        table,
        partition,
        columns,
        rows,
    }
}

fn light(alloc: Global, tree: Stmt) -> Stmt
    ensures { result ≡ said tree }
{
    match tree {
        Stmt::Insert(insert) => Stmt::Insert(light_insert(alloc, insert)),
        other => other,
    }
}

/// What is kept of a tree, where there is one. The rows that an INSERT writes out are let go.
pub fn kept(alloc: Global, tree: Option<Stmt>) -> Option<Stmt>
    ensures { result ≡ option_map said tree }
{
    match tree {
        Some(tree) => Some(light(alloc, tree)),
        None => None,
    }
}
