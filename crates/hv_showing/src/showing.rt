//! The table of each form of SHOW.

ghost use Rattle.std.specs.Prelude.{◌≡◌, ◌≤◌, IfOk, codes, length, map, option_map, take};
ghost use Rattle.hv_fits.specs.Texts.{TextsRun};
ghost use Rattle.hv_history.specs.State.{state_of, nothing_yet};
ghost use Rattle.hv_history.specs.Legal.{AllFit, profile};
ghost use Rattle.hv_history.specs.Standing.{first_open};
ghost use Rattle.hv_history.specs.Shown.{each_from, job_names, job_rows, lock_names, lock_rows, number_named, one_name, partition_rows, show_listed, shows, table_rows, transaction_names, transaction_rows};
ghost use Rattle.hv_showing.specs.Fronts.{IsFrontOf, tables_then, transactions_then, info_row, info_number};
ghost use Rattle.hv_showing.specs.Jobs.{jobs_then};

use crate::fronts::{Front, front_at};
use crate::jobs::{job_names, jobs_at};
use crate::locks::{lock_names, locks_then};
use crate::marks::marks_at;
use crate::partitions::inserted_rows;
use crate::rows::{in_order, one_name, text_row};
use crate::transactions::{transaction_names, transactions_at};
use hv_ast::Show;
use hv_base::{List, NoMemory, Text};
use hv_book::Book;
use hv_earlier::{catalog_at, find_at};
use hv_history::Shown;
use hv_logic::TableInfo;
use hv_value::Row;
use std::alloc::Global;

/// A table of these columns, its rows in row order, each once.
pub fn shown(names: List<Text>, rows: Vec<Row>) -> Result<Option<Shown>, NoMemory>
    ensures { IfOk result (λ shown. shown ≡ shows names rows.items) }
{
    let rows = in_order(rows)?;
    Ok(Some(Shown {
        names,
        rows: List::from_vec(rows),
    }))
}

fn info_rows(alloc: Global, infos: &[TableInfo]) -> Result<Vec<Row>, NoMemory>
    ensures { IfOk result (λ rows. rows.items ≡ map info_row infos.now) }
{
    let mut rows = Vec::new(alloc);
    for info in infos {
        rows.push(text_row(alloc, &info.shape.name)?)?;
    }
    Ok(rows)
}

/// The names of the tables that were live.
fn table_rows(alloc: Global, book: &Book, front: Front) -> Result<Vec<Row>, NoMemory>
    ensures { IfOk result (λ rows. rows.items ≡ table_rows (tables_then book.now.entries front.position)) }
{
    let catalog = catalog_at(alloc, book, front.position as usize)?;
    info_rows(alloc, catalog.tables.as_slice())
}

fn show_tables(alloc: Global, book: &Book, front: Front) -> Result<Option<Shown>, NoMemory>
    ensures { IfOk result (λ shown. shown
        ≡ shows (one_name (codes "tab_name")) (table_rows (tables_then book.now.entries front.position))) }
{
    let names = one_name(alloc, "tab_name")?;
    let rows = table_rows(alloc, book, front)?;
    let listed = shown(names, rows)?;
    Ok(listed)
}

fn info_number(info: Option<TableInfo>) -> Option<u64>
    ensures { result ≡ option_map info_number info }
{
    match info {
        Some(info) => Some(info.table.0),
        None => None,
    }
}

/// The number of the table that was live under a name.
fn number_named(
    alloc: Global,
    book: &Book,
    front: Front,
    name: &Text,
) -> Result<Option<u64>, NoMemory>
    ensures { IfOk result (λ number. number
        ≡ number_named name.now (tables_then book.now.entries front.position)) }
{
    let found = find_at(alloc, book, front.position as usize, name)?;
    Ok(info_number(found))
}

/// The partitions in which rows of this table had been inserted.
fn partition_rows(
    alloc: Global,
    book: &Book,
    front: Front,
    table: Option<u64>,
) -> Result<Vec<Row>, NoMemory>
    requires front { IsFrontOf book.now.entries front }
    ensures { IfOk result (λ rows. rows.items
        ≡ partition_rows table (transactions_then book.now.entries front.position)) }
{
    match table {
        Some(table) => inserted_rows(alloc, book, front, table),
        None => Ok(Vec::new(alloc)),
    }
}

fn show_partitions(
    alloc: Global,
    book: &Book,
    front: Front,
    name: &Text,
) -> Result<Option<Shown>, NoMemory>
    requires front { IsFrontOf book.now.entries front }
    ensures { IfOk result (λ shown. shown ≡ shows (one_name (codes "partition"))
        (partition_rows (number_named name.now (tables_then book.now.entries front.position))
        (transactions_then book.now.entries front.position))) }
{
    let table = number_named(alloc, book, front, name)?;
    let names = one_name(alloc, "partition")?;
    let rows = partition_rows(alloc, book, front, table)?;
    let listed = shown(names, rows)?;
    Ok(listed)
}

/// The transactions that were open, and the aborted ones that still had a write id.
fn transaction_rows(alloc: Global, book: &Book, front: Front) -> Result<Vec<Row>, NoMemory>
    requires front { IsFrontOf book.now.entries front }
    requires place { front.position ≤ length book.now.entries }
    requires fit { AllFit profile nothing_yet book.now.entries }
    ensures { IfOk result (λ rows. rows.items ≡ each_from
        (transaction_rows (tables_then book.now.entries front.position)) 1
        (transactions_then book.now.entries front.position)) }
{
    let marks = marks_at(alloc, book, front.position as usize)?;
    transactions_at(alloc, book, front, &marks)
}

fn show_transactions(alloc: Global, book: &Book, front: Front) -> Result<Option<Shown>, NoMemory>
    requires front { IsFrontOf book.now.entries front }
    requires place { front.position ≤ length book.now.entries }
    requires fit { AllFit profile nothing_yet book.now.entries }
    ensures { IfOk result (λ shown. shown ≡ shows transaction_names (each_from
        (transaction_rows (tables_then book.now.entries front.position)) 1
        (transactions_then book.now.entries front.position))) }
{
    let names = transaction_names(alloc)?;
    let rows = transaction_rows(alloc, book, front)?;
    let listed = shown(names, rows)?;
    Ok(listed)
}

fn show_locks(alloc: Global, book: &Book, front: Front) -> Result<Option<Shown>, NoMemory>
    requires front { IsFrontOf book.now.entries front }
    requires texts { TextsRun (state_of (take front.position book.now.entries)) }
    ensures { IfOk result (λ shown. shown ≡ shows lock_names
        (each_from lock_rows 1 (transactions_then book.now.entries front.position))) }
{
    let names = lock_names(alloc)?;
    let rows = locks_then(alloc, book, front)?;
    let listed = shown(names, rows)?;
    Ok(listed)
}

fn show_compactions(alloc: Global, book: &Book, front: Front) -> Result<Option<Shown>, NoMemory>
    requires front { IsFrontOf book.now.entries front }
    requires place { front.position ≤ length book.now.entries }
    ensures { IfOk result (λ shown. shown ≡ shows job_names (job_rows (tables_then book.now.entries front.position)
        (first_open 1 (transactions_then book.now.entries front.position)) 1
        (jobs_then book.now.entries front.position))) }
{
    let names = job_names(alloc)?;
    let rows = jobs_at(alloc, book, front)?;
    let listed = shown(names, rows)?;
    Ok(listed)
}

#[tactic(auto, unfolding(hv_history::specs::Shown::show_listed))]
fn show_before(
    alloc: Global,
    book: &Book,
    front: Front,
    what: &Show,
) -> Result<Option<Shown>, NoMemory>
    requires front { IsFrontOf book.now.entries front }
    requires place { front.position ≤ length book.now.entries }
    requires fit { AllFit profile nothing_yet book.now.entries }
    requires texts { TextsRun (state_of (take front.position book.now.entries)) }
    ensures { IfOk result (λ shown. shown
        ≡ show_listed (state_of (take front.position book.now.entries)) what.now) }
{
    match what {
        Show::Tables => show_tables(alloc, book, front),
        Show::Partitions(name) => show_partitions(alloc, book, front, name),
        Show::Transactions => show_transactions(alloc, book, front),
        Show::Locks => show_locks(alloc, book, front),
        Show::Compactions => show_compactions(alloc, book, front),
    }
}

/// What a SHOW lists of a book as the entries before a place leave it. It walks the tables, the transactions that were
/// opened before the place and, for SHOW TRANSACTIONS and SHOW COMPACTIONS, the entries before it, each once, and sorts
/// what it lists.
///
/// # Errors
/// `NoMemory` where memory lacked.
pub fn show_at(
    alloc: Global,
    book: &Book,
    position: usize,
    what: &Show,
) -> Result<Option<Shown>, NoMemory>
    requires place { position ≤ length book.now.entries }
    requires fit { AllFit profile nothing_yet book.now.entries }
    ensures shown { IfOk result (λ shown. shown
        ≡ show_listed (state_of (take position book.now.entries)) what.now) }
{
    let front = front_at(book, position);
    show_before(alloc, book, front, what)
}
