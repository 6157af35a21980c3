//! What the entries of a book do to its tables.
ghost use Rattle.std.specs.Prelude.{◌≡◌, ◌++◌, ◌∷◌, [], IfOk, OnOk, option_and_then};
ghost use Rattle.std.specs.Option.{option_copied};
ghost use Rattle.std.specs.List.{flat_map};
ghost use Rattle.hv_history.specs.declared.state.Statement.{Statement};
ghost use Rattle.hv_history.specs.State.{changed, written_to, tables_behind, commits, made_by, made_shape, created_shape, no_shape, opening_tree};
ghost use Rattle.tests_books.specs.Replay.{kept};

use crate::meanings::{tree_of, writes_of};
use hv_ast::{Stmt, discard};
use hv_base::{Duplicate, List, NoMemory, TableId, Text};
use hv_history::{Entry, Statement, Table, Transaction, Written, place_of};
use hv_logic::{Shape, TableInfo, shape_of};
use std::alloc::Global;
use std::mem;

/// Appends to a list.
pub fn append<T: Drop>(alloc: Global, list: &mut List<T>, item: T) -> Result<(), NoMemory>
    ensures { OnOk result (list.new ≡ list.old ++ item ∷ []) }
{
    let mut items = mem::replace(list, List::empty(alloc)).into_vec();
    items.push(item)?;
    *list = List::from_vec(items);
    Ok(())
}

fn keep_one(alloc: Global, entry: &Entry, table: &mut Table) -> Result<(), NoMemory>
    ensures { OnOk result (table.new ≡ kept entry.now table.old) }
{
    match entry {
        Entry::Given { txn, .. } => append(alloc, &mut table.owners, txn.0),
        Entry::Forgot { write, .. } => append(alloc, &mut table.forgotten, write.0),
        Entry::Drop { .. } => {
            table.is_live = false;
            Ok(())
        }
        _ => Ok(()),
    }
}

/// What an entry does to the table of that number: who has its next write id, that it is dropped, or which write has no
/// directory any more.
pub fn keep(
    alloc: Global,
    entry: &Entry,
    tables: &mut Vec<Table>,
    table: u64,
) -> Result<(), NoMemory>
    ensures { OnOk result (tables.new.items ≡ changed (kept entry.now) tables.old.items table) }
{
    let Some(at) = place_of(tables, table) else {
        return Ok(());
    };
    let table = &mut tables[at];
    keep_one(alloc, entry, table)?;
    Ok(())
}

fn write(
    alloc: Global,
    tables: &mut Vec<Table>,
    table: u64,
    written: Written,
) -> Result<(), NoMemory>
    ensures { OnOk result (tables.new.items ≡ changed (written_to written) tables.old.items table) }
{
    let Some(at) = place_of(tables, table) else {
        return Ok(());
    };
    let table = &mut tables[at];
    append(alloc, &mut table.writes, written)?;
    Ok(())
}

fn write_all(
    alloc: Global,
    tables: &mut Vec<Table>,
    writes: &[(u64, Written)],
) -> Result<(), NoMemory>
    ensures { OnOk result (tables.new.items ≡ tables_behind writes.now tables.old.items) }
{
    for (table, written) in writes {
        write(alloc, tables, *table, written.duplicate(alloc)?)?;
    }
    Ok(())
}

fn write_more(
    alloc: Global,
    tables: &mut Vec<Table>,
    statements: &[Statement],
) -> Result<(), NoMemory>
    ensures { OnOk result (tables.new.items
        ≡ tables_behind (flat_map (λ (statement : Statement). statement.wrote) statements.now) tables.old.items) }
{
    for statement in statements {
        write_all(alloc, tables, statement.wrote.as_slice())?;
    }
    Ok(())
}

/// Adds to their tables what the commit of this transaction writes.
pub fn commit(
    alloc: Global,
    tables: &mut Vec<Table>,
    transaction: Option<&Transaction>,
) -> Result<(), NoMemory>
    ensures { OnOk result (tables.new.items
        ≡ tables_behind (commits (option_copied transaction.entry)) tables.old.items) }
{
    let Some(transaction) = transaction else {
        return Ok(());
    };
    let Some((first, more)) = transaction.statements.as_slice().split_first() else {
        return Ok(());
    };
    let writes = writes_of(alloc, &first.meaning, transaction.given.as_slice())?;
    write_all(alloc, tables, &writes)?;
    write_more(alloc, tables, more)
}

fn no_shape(alloc: Global) -> Result<Shape, NoMemory>
    ensures { IfOk result (λ shape. shape ≡ no_shape) }
{
    Ok(Shape {
        name: Text::of(alloc, "")?,
        columns: List::empty(alloc),
        parts: List::empty(alloc),
        bucketed: List::empty(alloc),
        buckets: 0,
    })
}

fn created_shape(alloc: Global, tree: &Stmt) -> Result<Shape, NoMemory>
    ensures { IfOk result (λ shape. shape ≡ created_shape (Some tree.now)) }
{
    match tree {
        Stmt::CreateTable(create) => shape_of(alloc, create),
        _ => no_shape(alloc),
    }
}

fn opening_tree(alloc: Global, transaction: Option<&Transaction>) -> Result<Option<Stmt>, NoMemory>
    ensures { IfOk result (λ tree. tree ≡ option_and_then opening_tree (option_copied transaction.entry)) }
{
    let Some(transaction) = transaction else {
        return Ok(None);
    };
    match transaction.statements.as_slice().first() {
        Some(statement) => tree_of(alloc, &statement.text),
        None => Ok(None),
    }
}

// The shape of the table that the text of this transaction makes, empty where it is no CREATE TABLE.
fn made_shape(alloc: Global, transaction: Option<&Transaction>) -> Result<Shape, NoMemory>
    ensures { IfOk result (λ shape. shape ≡ made_shape (option_copied transaction.entry)) }
{
    match opening_tree(alloc, transaction)? {
        Some(tree) => {
            let shape = created_shape(alloc, &tree);
            discard(tree);
            shape
        }
        None => no_shape(alloc),
    }
}

/// Makes the table of that number, as the text of this transaction says.
pub fn create(
    alloc: Global,
    tables: &mut Vec<Table>,
    transaction: Option<&Transaction>,
    table: u64,
) -> Result<(), NoMemory>
    ensures { OnOk result (tables.new.items
        ≡ tables.old.items ++ made_by table (option_copied transaction.entry) ∷ []) }
{
    let shape = made_shape(alloc, transaction)?;
    let table = TableId(table);
    tables.push(Table {
        info: TableInfo { table, shape },
        is_live: true,
        owners: List::empty(alloc),
        writes: List::empty(alloc),
        forgotten: List::empty(alloc),
    })?;
    Ok(())
}
