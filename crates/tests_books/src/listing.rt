//! What SHOW lists of the transactions and the tables that a replay has.
ghost use Rattle.std.specs.Prelude.{◌≡◌, ◌++◌, ◌∷◌, [], ◌&&◌, ◌==◌, IfOk, OnOk, None, Some, codes};
ghost use Rattle.std.specs.List.{flat_map, list_any};
ghost use Rattle.hv_grammar.specs.Texts.{tree_of};
ghost use Rattle.hv_logic.specs.declared.meaning.Meaning.TheVariants.{Listing};
ghost use Rattle.hv_history.specs.declared.state.Statement.{Statement};
ghost use Rattle.hv_history.specs.State.{numbered};
ghost use Rattle.hv_history.specs.Legal.{is_open, is_started, locks_of_tree, is_named};
ghost use Rattle.hv_history.specs.Shown.{each_from, filled, inserted_by, inserted_of, is_kept, is_kept_in, is_plain, job_names, listed_for, lock_names, lock_rows, name_rows, number_named, one_name, partition_rows, show_listed, shows, stood_rows, table_rows, transaction_names, transaction_row, transaction_rows};
ghost use Rattle.tests_books.specs.Replay.{state_now};

use crate::meanings::tree_of;
use hv_ast::{Show, Stmt, discard};
use hv_base::{Boxed, NoMemory, Text};
use hv_history::{Ending, Shown, Statement, Table, Transaction, numbered};
use hv_locks::Lock;
use hv_logic::Meaning;
use hv_names::names_in;
use hv_showing::{
    job_names, lock_names, one_name, put_locks, put_touches, shown, text_row, transaction_names,
    transaction_row,
};
use hv_value::Row;
use std::alloc::Global;

fn put_name(alloc: Global, table: &Table, rows: &mut Vec<Row>) -> Result<(), NoMemory>
    ensures { OnOk result (rows.new.items ≡ rows.old.items ++ name_rows table.now) }
{
    if table.is_live {
        rows.push(text_row(alloc, &table.info.shape.name)?)?;
    }
    Ok(())
}

// The names of the live tables.
fn table_rows(alloc: Global, tables: &[Table]) -> Result<Vec<Row>, NoMemory>
    ensures { IfOk result (λ rows. rows.items ≡ table_rows tables.now) }
{
    let mut rows = Vec::new(alloc);
    for table in tables {
        put_name(alloc, table, &mut rows)?;
    }
    Ok(rows)
}

fn is_named(name: &Text, table: &Table) -> bool
    ensures { result ≡ is_named name.now table.now }
{
    table.is_live && table.info.shape.name == *name
}

// The number of the live table of a name.
fn number_named(tables: &[Table], name: &Text) -> Option<u64>
    ensures { result ≡ number_named name.now tables.now }
{
    for table in tables {
        if is_named(name, table) {
            return Some(table.info.table.0);
        }
    }
    None
}

// Appends the partitions of a table in which a transaction inserted rows.
fn put_inserted(
    alloc: Global,
    table: u64,
    transaction: &Transaction,
    rows: &mut Vec<Row>,
) -> Result<(), NoMemory>
    ensures { OnOk result (rows.new.items ≡ rows.old.items ++ inserted_by table transaction.now.ending) }
{
    match &transaction.ending {
        Some(Ending::Committed(_, wrote)) => {
            put_touches(alloc, table, wrote.as_slice(), rows)?;
            Ok(())
        }
        Some(Ending::Aborted(..)) => Ok(()),
        Some(Ending::Made(..)) => Ok(()),
        Some(Ending::Dropped(..)) => Ok(()),
        None => Ok(()),
    }
}

fn inserted_rows(
    alloc: Global,
    table: u64,
    transactions: &[Transaction],
) -> Result<Vec<Row>, NoMemory>
    ensures { IfOk result (λ rows. rows.items ≡ each_from (inserted_of table) 1 transactions.now) }
{
    let mut rows = Vec::new(alloc);
    for at in 0..transactions.len() {
        put_inserted(alloc, table, &transactions[at], &mut rows)?;
    }
    Ok(rows)
}

// The partitions in which rows of the table of this number were inserted.
fn partition_rows(
    alloc: Global,
    table: Option<u64>,
    transactions: &[Transaction],
) -> Result<Vec<Row>, NoMemory>
    ensures { IfOk result (λ rows. rows.items ≡ partition_rows table transactions.now) }
{
    match table {
        Some(table) => inserted_rows(alloc, table, transactions),
        None => Ok(Vec::new(alloc)),
    }
}

fn is_among(writes: &[u64], write: u64) -> bool
    ensures { result ≡ list_any (λ other. other == write) writes.now }
{
    writes.iter().any(|other| *other == write)
}

// Whether a table is live, and this write id of it isn't forgotten.
fn keeps(table: &Table, write: u64) -> bool
    ensures { result ≡ is_kept_in write (Some table.now) }
{
    table.is_live && !is_among(table.forgotten.as_slice(), write)
}

// The same of the table of that number, where there is one.
fn is_kept(tables: &[Table], table: u64, write: u64) -> bool
    ensures { result ≡ is_kept_in write (numbered tables.now table) }
{
    match numbered(tables, table) {
        Some(table) => keeps(table, write),
        None => false,
    }
}

// Whether one of these write ids is kept.
fn has_kept(tables: &[Table], given: &[(u64, u64)]) -> bool
    ensures { result ≡ list_any (is_kept tables.now) given.now }
{
    for (table, write) in given {
        if is_kept(tables, *table, *write) {
            return true;
        }
    }
    false
}

fn put_row(
    alloc: Global,
    number: u64,
    state: &str,
    session: &Text,
    rows: &mut Vec<Row>,
) -> Result<(), NoMemory>
    ensures { OnOk result (rows.new.items
        ≡ rows.old.items ++ transaction_row number state.now session.now ∷ []) }
{
    rows.push(transaction_row(alloc, number, state, session)?)?;
    Ok(())
}

// Appends the row of a transaction, where it is shown: an aborted one where a write id of it is kept.
fn put_stood(
    alloc: Global,
    number: u64,
    kept: bool,
    transaction: &Transaction,
    rows: &mut Vec<Row>,
) -> Result<(), NoMemory>
    ensures { OnOk result (rows.new.items
        ≡ rows.old.items ++ stood_rows number transaction.now.session kept transaction.now.ending) }
{
    match &transaction.ending {
        None => {
            put_row(alloc, number, "open", &transaction.session, rows)?;
            Ok(())
        }
        Some(Ending::Aborted(..)) => {
            if kept {
                put_row(alloc, number, "aborted", &transaction.session, rows)?;
            }
            Ok(())
        }
        Some(Ending::Committed(..)) => Ok(()),
        Some(Ending::Made(..)) => Ok(()),
        Some(Ending::Dropped(..)) => Ok(()),
    }
}

fn put_transaction(
    alloc: Global,
    number: u64,
    tables: &[Table],
    transaction: &Transaction,
    rows: &mut Vec<Row>,
) -> Result<(), NoMemory>
    ensures { OnOk result (rows.new.items
        ≡ rows.old.items ++ transaction_rows tables.now number transaction.now) }
{
    let kept = has_kept(tables, transaction.given.as_slice());
    put_stood(alloc, number, kept, transaction, rows)?;
    Ok(())
}

// The open transactions, and the aborted ones that have a write id that is kept.
fn transaction_rows(
    alloc: Global,
    tables: &[Table],
    transactions: &[Transaction],
) -> Result<Vec<Row>, NoMemory>
    ensures { IfOk result (λ rows. rows.items
        ≡ each_from (transaction_rows tables.now) 1 transactions.now) }
{
    let mut rows = Vec::new(alloc);
    for at in 0..transactions.len() {
        put_transaction(alloc, at as u64 + 1, tables, &transactions[at], &mut rows)?;
    }
    Ok(rows)
}

// Appends the locks that the statement of a text asks for.
fn put_text_locks(alloc: Global, text: &Text, locks: &mut Vec<Lock>) -> Result<(), NoMemory>
    ensures { OnOk result (locks.new.items ≡ locks.old.items ++ locks_of_tree (tree_of text.now)) }
{
    if let Some(tree) = tree_of(alloc, text)? {
        let named = names_in(alloc, &tree);
        discard(tree);
        let mut more = named?;
        locks.append(&mut more)?;
    }
    Ok(())
}

// The locks that these statements ask for.
fn locks_of(alloc: Global, statements: &[Statement]) -> Result<Vec<Lock>, NoMemory>
    ensures { IfOk result (λ locks. locks.items
        ≡ flat_map (λ (statement : Statement). locks_of_tree (tree_of statement.text)) statements.now) }
{
    let mut locks = Vec::new(alloc);
    for statement in statements {
        put_text_locks(alloc, &statement.text, &mut locks)?;
    }
    Ok(locks)
}

fn is_running(transaction: &Transaction) -> bool
    ensures { result ≡ (is_open transaction.now && is_started transaction.now) }
{
    transaction.ending.is_none() && transaction.snapshot.is_some()
}

// Appends the locks of a transaction, where it is open and started.
fn put_running(
    alloc: Global,
    number: u64,
    transaction: &Transaction,
    rows: &mut Vec<Row>,
) -> Result<(), NoMemory>
    ensures { OnOk result (rows.new.items ≡ rows.old.items ++ lock_rows number transaction.now) }
{
    if is_running(transaction) {
        let locks = locks_of(alloc, transaction.statements.as_slice())?;
        put_locks(alloc, number, locks.as_slice(), rows)?;
    }
    Ok(())
}

// The locks of the transactions that are open and started.
fn lock_rows(alloc: Global, transactions: &[Transaction]) -> Result<Vec<Row>, NoMemory>
    ensures { IfOk result (λ rows. rows.items ≡ each_from lock_rows 1 transactions.now) }
{
    let mut rows = Vec::new(alloc);
    for at in 0..transactions.len() {
        put_running(alloc, at as u64 + 1, &transactions[at], &mut rows)?;
    }
    Ok(rows)
}

fn show_tables(alloc: Global, tables: &[Table]) -> Result<Option<Shown>, NoMemory>
    ensures { IfOk result (λ shown. shown
        ≡ shows (one_name (codes "tab_name")) (table_rows tables.now)) }
{
    let names = one_name(alloc, "tab_name")?;
    let rows = table_rows(alloc, tables)?;
    let listed = shown(names, rows)?;
    Ok(listed)
}

fn show_partitions(
    alloc: Global,
    transactions: &[Transaction],
    tables: &[Table],
    name: &Text,
) -> Result<Option<Shown>, NoMemory>
    ensures { IfOk result (λ shown. shown ≡ shows (one_name (codes "partition"))
        (partition_rows (number_named name.now tables.now) transactions.now)) }
{
    let names = one_name(alloc, "partition")?;
    let table = number_named(tables, name);
    let rows = partition_rows(alloc, table, transactions)?;
    let listed = shown(names, rows)?;
    Ok(listed)
}

fn show_transactions(
    alloc: Global,
    transactions: &[Transaction],
    tables: &[Table],
) -> Result<Option<Shown>, NoMemory>
    ensures { IfOk result (λ shown. shown
        ≡ shows transaction_names (each_from (transaction_rows tables.now) 1 transactions.now)) }
{
    let names = transaction_names(alloc)?;
    let rows = transaction_rows(alloc, tables, transactions)?;
    let listed = shown(names, rows)?;
    Ok(listed)
}

fn show_locks(alloc: Global, transactions: &[Transaction]) -> Result<Option<Shown>, NoMemory>
    ensures { IfOk result (λ shown. shown ≡ shows lock_names (each_from lock_rows 1 transactions.now)) }
{
    let names = lock_names(alloc)?;
    let rows = lock_rows(alloc, transactions)?;
    let listed = shown(names, rows)?;
    Ok(listed)
}

// A replay has no jobs.
fn show_compactions(alloc: Global) -> Result<Option<Shown>, NoMemory>
    ensures { IfOk result (λ shown. shown ≡ shows job_names []) }
{
    let names = job_names(alloc)?;
    let listed = shown(names, Vec::new(alloc))?;
    Ok(listed)
}

#[tactic(auto, unfolding(hv_history::specs::Shown::show_listed))]
fn listing(
    alloc: Global,
    transactions: &[Transaction],
    tables: &[Table],
    what: &Show,
) -> Result<Option<Shown>, NoMemory>
    ensures { IfOk result (λ shown. shown ≡ show_listed (state_now transactions.now tables.now) what.now) }
{
    match what {
        Show::Tables => show_tables(alloc, tables),
        Show::Partitions(name) => show_partitions(alloc, transactions, tables, name),
        Show::Transactions => show_transactions(alloc, transactions, tables),
        Show::Locks => show_locks(alloc, transactions),
        Show::Compactions => show_compactions(alloc),
    }
}

/// What a statement lists of these transactions and tables, where it is a SHOW.
pub fn listed_for(
    alloc: Global,
    transactions: &[Transaction],
    tables: &[Table],
    tree: &Stmt,
) -> Result<Option<Shown>, NoMemory>
    ensures { IfOk result (λ shown. shown ≡ listed_for (state_now transactions.now tables.now) tree.now) }
{
    match tree {
        Stmt::Show(what) => listing(alloc, transactions, tables, what),
        _ => Ok(None),
    }
}

fn is_plain(meaning: &Meaning) -> bool
    ensures { result ≡ is_plain meaning.now }
{
    match meaning {
        Meaning::Plain => true,
        _ => false,
    }
}

fn in_place(shown: Shown) -> Meaning
    ensures { result ≡ Listing shown.names shown.rows }
{
    Meaning::Listing(shown.names, shown.rows)
}

// A listing in place of nothing, and any other meaning as it is.
fn listed_over(shown: Shown, meaning: Meaning) -> Meaning
    ensures { Some result ≡ filled (Some shown) (Some meaning) }
{
    if is_plain(&meaning) {
        in_place(shown)
    } else {
        meaning
    }
}

/// What a statement comes to over its tables, with what it lists.
pub fn filled(shown: Option<Shown>, meaning: Meaning) -> Meaning
    ensures { Some result ≡ filled shown (Some meaning) }
{
    match shown {
        Some(shown) => listed_over(shown, meaning),
        None => meaning,
    }
}

/// The same of a statement that comes to nothing over its tables.
pub fn nothing(shown: Option<Shown>) -> Option<Boxed<Meaning>>
    ensures { result ≡ filled shown None }
{
    match shown {
        Some(_) => None,
        None => None,
    }
}
