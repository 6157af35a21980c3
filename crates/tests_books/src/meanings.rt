//! What a statement comes to over the transactions and the tables that a replay has.
ghost use Rattle.std.specs.Prelude.{◌≡◌, ◌++◌, IfOk, OnOk, Some, filter, not};
ghost use Rattle.std.specs.List.{list_any};
ghost use Rattle.std.specs.Ordering.{is_eq};
ghost use Rattle.hv_grammar.specs.Texts.{tree_of};
ghost use Rattle.hv_logic.specs.Rows.{found_cmp};
ghost use Rattle.hv_logic.specs.declared.effect.Found.{Found};
ghost use Rattle.hv_meaning.specs.Meaning.{named_by, its_tables, meaning_of};
ghost use Rattle.hv_history.specs.Shown.{filled};
ghost use Rattle.hv_history.specs.State.{is_deleted, content_of, meaning_in, means, seen_tables, writes_of};
ghost use Rattle.tests_books.specs.Replay.{state_now};

use crate::listing::{filled, listed_for, nothing};
use hv_ast::{Stmt, discard};
use hv_base::{Boxed, Duplicate, List, NoMemory, Text};
use hv_effect::{Touching, meaning_in};
use hv_history::{Shown, Table, Transaction, Written, given_in, written_by};
use hv_logic::{Found, Meaning, Seen, compare_found, named, sort_found};
use hv_names::names_in;
use hv_reading::{TextFault, read_text};
use std::alloc::Global;

/// The tree of a text, None where it is no statement.
pub fn tree_of(alloc: Global, text: &Text) -> Result<Option<Stmt>, NoMemory>
    ensures { IfOk result (λ tree. tree ≡ tree_of text.now) }
{
    match read_text(alloc, text) {
        Ok(tree) => Ok(Some(tree)),
        Err(fault) => match fault {
            TextFault::NoMemory => Err(NoMemory),
            _ => Ok(None),
        },
    }
}

// Whether one of the rows has the partition and the identifier of this one.
fn is_among(rows: &[Found], found: &Found) -> bool
    ensures { result ≡ list_any (λ (other : Found). is_eq (found_cmp other found.now)) rows.now }
{
    rows.iter().any(|other| compare_found(other, found).is_eq())
}

fn is_deleted(writes: &[Written], found: &Found) -> bool
    ensures { result ≡ is_deleted writes.now found.now }
{
    for written in writes {
        if is_among(written.deletes.as_slice(), found) {
            return true;
        }
    }
    false
}

// Appends those of the rows that no write deleted.
fn put_standing(
    alloc: Global,
    writes: &[Written],
    rows: &[Found],
    standing: &mut Vec<Found>,
) -> Result<(), NoMemory>
    ensures { OnOk result (standing.new.items
        ≡ standing.old.items ++ filter (λ found. not (is_deleted writes.now found)) rows.now) }
{
    for found in rows {
        if !is_deleted(writes, found) {
            standing.push(found.duplicate(alloc)?)?;
        }
    }
    Ok(())
}

// The rows that stand in a table with these writes, by partition and identifier.
#[tactic(auto, unfolding(hv_history::specs::State::content_of))]
fn content_of(alloc: Global, writes: &[Written]) -> Result<List<Found>, NoMemory>
    ensures { IfOk result (λ rows. rows ≡ content_of writes.now) }
{
    let mut standing = Vec::new(alloc);
    for written in writes {
        put_standing(alloc, writes, written.inserts.as_slice(), &mut standing)?;
    }
    let sorted = sort_found(alloc, standing)?;
    Ok(List::from_vec(sorted))
}

// The live tables with their rows.
fn seen_tables(alloc: Global, tables: &[Table]) -> Result<Vec<Seen>, NoMemory>
    ensures { IfOk result (λ seen. seen.items ≡ seen_tables tables.now) }
{
    let mut seen = Vec::new(alloc);
    for table in tables {
        if table.is_live {
            let rows = content_of(alloc, table.writes.as_slice())?;
            let info = table.info.duplicate(alloc)?;
            seen.push(Seen { info, rows })?;
        }
    }
    Ok(seen)
}

fn copy_of(alloc: Global, seen: &Seen) -> Result<Seen, NoMemory>
    ensures { IfOk result (λ copy. copy ≡ seen.now) }
{
    let rows = seen.rows.duplicate(alloc)?;
    let info = seen.info.duplicate(alloc)?;
    Ok(Seen { info, rows })
}

// The tables that a statement names, in the order in which it names them.
fn its_tables(alloc: Global, tree: &Stmt, seen: &[Seen]) -> Result<Vec<Seen>, NoMemory>
    ensures { IfOk result (λ tables. tables.items ≡ its_tables tree.now seen.now) }
{
    let locks = names_in(alloc, tree)?;
    let mut tables = Vec::new(alloc);
    for lock in &locks {
        if let Some(table) = named(&lock.name, seen) {
            tables.push(copy_of(alloc, table)?)?;
        }
    }
    Ok(tables)
}

fn meaning_of(
    alloc: Global,
    tables: &[Table],
    tree: &Stmt,
) -> Result<Option<Boxed<Meaning>>, NoMemory>
    ensures { IfOk result (λ meaning. meaning ≡ meaning_of (seen_tables tables.now) tree.now) }
{
    let named = {
        let seen = seen_tables(alloc, tables)?;
        its_tables(alloc, tree, &seen)?
    };
    match meaning_in(alloc, tree, named)? {
        Some(found) => {
            let Touching { meaning, .. } = found;
            Ok(Some(Boxed::new(alloc, meaning)?))
        }
        None => Ok(None),
    }
}

fn filled_over(
    alloc: Global,
    shown: Option<Shown>,
    over: Option<Boxed<Meaning>>,
) -> Result<Option<Boxed<Meaning>>, NoMemory>
    ensures { IfOk result (λ meaning. meaning ≡ filled shown over) }
{
    match over {
        Some(meaning) => {
            let all = filled(shown, meaning.into_inner());
            Ok(Some(Boxed::new(alloc, all)?))
        }
        None => Ok(nothing(shown)),
    }
}

fn means(
    alloc: Global,
    transactions: &[Transaction],
    tables: &[Table],
    tree: &Stmt,
) -> Result<Option<Boxed<Meaning>>, NoMemory>
    ensures { IfOk result (λ meaning. meaning ≡ means (state_now transactions.now tables.now) (Some tree.now)) }
{
    let over = meaning_of(alloc, tables, tree)?;
    let shown = listed_for(alloc, transactions, tables, tree)?;
    let meaning = filled_over(alloc, shown, over)?;
    Ok(meaning)
}

/// What the statement of this text comes to over these transactions and tables.
#[tactic(auto, unfolding(hv_history::specs::State::meaning_in))]
pub fn meaning_now(
    alloc: Global,
    transactions: &[Transaction],
    tables: &[Table],
    text: &Text,
) -> Result<Option<Boxed<Meaning>>, NoMemory>
    ensures { IfOk result (λ meaning. meaning ≡ meaning_in (state_now transactions.now tables.now) text.now) }
{
    match tree_of(alloc, text)? {
        Some(tree) => {
            let meaning = means(alloc, transactions, tables, &tree);
            discard(tree);
            meaning
        }
        None => Ok(None),
    }
}

/// What the statement of this meaning that opened a transaction writes under these write ids, behind the number of its
/// table.
pub fn writes_of(
    alloc: Global,
    meaning: &Option<Boxed<Meaning>>,
    given: &[(u64, u64)],
) -> Result<Vec<(u64, Written)>, NoMemory>
    ensures { IfOk result (λ writes. writes.items ≡ writes_of meaning.now 0 given.now) }
{
    let mut writes = Vec::new(alloc);
    let Some(meaning) = meaning else {
        return Ok(writes);
    };
    if let Meaning::Change(info, effect) = meaning.get() {
        if let Some(write) = given_in(info.table.0, given) {
            let effect = effect.duplicate(alloc)?;
            let written = written_by(alloc, &info.shape, write, 0, effect)?;
            writes.push((info.table.0, written))?;
        }
    }
    Ok(writes)
}
