ghost use Rattle.std.specs.Prelude.{◌≡◌, [], ◌∷◌, ◌++◌, OnOk, IfOk};
ghost use Rattle.hv_logic.specs.Names.{source_names, query_names, rows_names, show_names, names_in, names_in_maybe, shared, exclusive};

use hv_ast::{From, Query, Rows, Show, Source, Stmt};
use hv_base::{Duplicate, NoMemory, Text};
use hv_locks::Lock;
use std::alloc::Global;

/// Puts a table's name behind those that are there.
fn put_name(
    alloc: Global,
    name: &Text,
    exclusive: bool,
    names: &mut Vec<Lock>,
) -> Result<(), NoMemory>
    ensures { OnOk result (names.new.items
        ≡ names.old.items ++ record { name = name.now; exclusive = exclusive } ∷ []) }
{
    let name = name.duplicate(alloc)?;
    names.push(Lock { name, exclusive })?;
    Ok(())
}

fn put_shared(alloc: Global, name: &Text, names: &mut Vec<Lock>) -> Result<(), NoMemory>
    ensures { OnOk result (names.new.items ≡ names.old.items ++ shared name.now ∷ []) }
{
    put_name(alloc, name, false, names)
}

fn put_exclusive(alloc: Global, name: &Text, names: &mut Vec<Lock>) -> Result<(), NoMemory>
    ensures { OnOk result (names.new.items ≡ names.old.items ++ exclusive name.now ∷ []) }
{
    put_name(alloc, name, true, names)
}

/// Puts the names of a source behind those that are there.
#[cycle(naming)]
#[tactic(auto, using(crate::proofs::Layers::layers))]
fn put_source(alloc: Global, source: &Source, names: &mut Vec<Lock>) -> Result<(), NoMemory>
    ensures { OnOk result (names.new.items ≡ names.old.items ++ source_names source.now) }
{
    match source {
        Source::Table(name, _) => put_shared(alloc, name, names),
        Source::Query(query, _) => {
            let inner = query.get();
            put_maybe(alloc, &inner.select.from, names)?;
            for union in inner.unions.as_slice() {
                put_maybe(alloc, &union.select.from, names)?;
            }
            Ok(())
        }
    }
}

#[cycle(naming)]
fn put_maybe(alloc: Global, from: &Option<From>, names: &mut Vec<Lock>) -> Result<(), NoMemory>
    ensures { OnOk result (names.new.items ≡ names.old.items ++ names_in_maybe source_names from.now) }
{
    match from {
        None => Ok(()),
        Some(from) => {
            put_source(alloc, &from.source, names)?;
            for join in from.joins.as_slice() {
                put_source(alloc, &join.source, names)?;
            }
            Ok(())
        }
    }
}

/// Puts the names of a query behind those that are there. It isn't of the cycle, since a query as a
/// whole is no deeper than its first select.
fn put_query(alloc: Global, query: &Query, names: &mut Vec<Lock>) -> Result<(), NoMemory>
    ensures { OnOk result (names.new.items ≡ names.old.items ++ query_names query.now) }
{
    put_maybe(alloc, &query.select.from, names)?;
    for union in query.unions.as_slice() {
        put_maybe(alloc, &union.select.from, names)?;
    }
    Ok(())
}

fn put_rows(alloc: Global, rows: &Rows, names: &mut Vec<Lock>) -> Result<(), NoMemory>
    ensures { OnOk result (names.new.items ≡ names.old.items ++ rows_names rows.now) }
{
    match rows {
        Rows::Values(_) => Ok(()),
        Rows::Query(query) => put_query(alloc, query, names),
    }
}

fn put_show(alloc: Global, show: &Show, names: &mut Vec<Lock>) -> Result<(), NoMemory>
    ensures { OnOk result (names.new.items ≡ names.old.items ++ show_names show.now) }
{
    match show {
        Show::Partitions(table) => put_shared(alloc, table, names),
        Show::Tables | Show::Transactions | Show::Locks | Show::Compactions => Ok(()),
    }
}

/// Puts the names of a statement behind those that are there.
fn put_names(alloc: Global, tree: &Stmt, names: &mut Vec<Lock>) -> Result<(), NoMemory>
    ensures { OnOk result (names.new.items ≡ names.old.items ++ names_in tree.now) }
{
    match tree {
        Stmt::Query(query) => put_query(alloc, query, names),
        Stmt::Insert(insert) => {
            put_shared(alloc, &insert.table, names)?;
            put_rows(alloc, &insert.rows, names)
        }
        Stmt::Update(update) => put_shared(alloc, &update.table, names),
        Stmt::Delete(delete) => put_shared(alloc, &delete.table, names),
        Stmt::Merge(merge) => {
            put_shared(alloc, &merge.table, names)?;
            put_source(alloc, &merge.source, names)
        }
        Stmt::CreateTable(create) => put_exclusive(alloc, &create.table, names),
        Stmt::DropTable(drop) => put_exclusive(alloc, &drop.table, names),
        Stmt::AddColumns(add) => put_exclusive(alloc, &add.table, names),
        Stmt::Truncate(truncate) => put_shared(alloc, &truncate.table, names),
        Stmt::Show(show) => put_show(alloc, show, names),
        Stmt::Describe(table) => put_shared(alloc, table, names),
        Stmt::Compact(compact) => put_shared(alloc, &compact.table, names),
        Stmt::AbortTransactions(_) | Stmt::Set(_) | Stmt::Transaction(_) => Ok(()),
        Stmt::Explain(query) => put_query(alloc, query, names),
        Stmt::CreateView(create) => {
            put_exclusive(alloc, &create.view, names)?;
            put_query(alloc, &create.query, names)
        }
        Stmt::RebuildView(view) | Stmt::DropView(view) => put_exclusive(alloc, view, names),
    }
}

/// The tables that a statement names, each with its lock, from left to right.
pub fn names_in(alloc: Global, tree: &Stmt) -> Result<Vec<Lock>, NoMemory>
    ensures names { IfOk result (λ names. names.items ≡ names_in tree.now) }
{
    let mut names = Vec::new(alloc);
    put_names(alloc, tree, &mut names)?;
    Ok(names)
}
