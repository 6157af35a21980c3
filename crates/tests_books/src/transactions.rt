//! What the entries of a book do to its transactions.
ghost use Rattle.std.specs.Prelude.{◌≡◌, ◌++◌, ◌∷◌, [], OnOk, IfOk, slice_get};
ghost use Rattle.hv_history.specs.State.{changed, changed_at, while_open, ended, committed, wrote_as, opened, first_of, started, statement_of};
ghost use Rattle.tests_books.specs.Replay.{state_at, state_now, comes_to, comes_at, said_of, begun, moved};

use crate::meanings::{meaning_now, writes_of};
use crate::tables::append;
use hv_base::{Boxed, Duplicate, List, NoMemory, Text, Touch};
use hv_history::{Cause, Ending, Entry, Snapshot, Statement, Table, Transaction, open_place_of};
use hv_logic::Meaning;
use std::alloc::Global;
use std::mem;

/// Adds a transaction that has just been opened.
pub fn open(
    alloc: Global,
    transactions: &mut Vec<Transaction>,
    session: &Text,
    number: u64,
    text: &Text,
) -> Result<(), NoMemory>
    ensures { OnOk result (transactions.new.items
        ≡ transactions.old.items ++ opened session.now number text.now ∷ []) }
{
    let session = session.duplicate(alloc)?;
    let text = text.duplicate(alloc)?;
    let statement = Statement {
        number,
        text,
        meaning: None,
        wrote: List::empty(alloc),
    };
    transactions.push(Transaction {
        session,
        statements: List::from_vec(vec![in alloc; statement]?),
        snapshot: None,
        given: List::empty(alloc),
        ending: None,
    })?;
    Ok(())
}

// What the statement of that number of a transaction comes to over these transactions and tables.
fn coming(
    alloc: Global,
    transactions: &[Transaction],
    tables: &[Table],
    number: u32,
    transaction: &Transaction,
) -> Result<Option<Boxed<Meaning>>, NoMemory>
    ensures { IfOk result (λ meaning. meaning
        ≡ comes_to (state_now transactions.now tables.now) (statement_of transaction.now number)) }
{
    match transaction.statements.as_slice().get(number as usize) {
        Some(statement) => {
            let meaning = meaning_now(alloc, transactions, tables, &statement.text)?;
            Ok(meaning)
        }
        None => Ok(None),
    }
}

// The same of the transaction at this place.
fn coming_at(
    alloc: Global,
    transactions: &[Transaction],
    tables: &[Table],
    number: u32,
    at: usize,
) -> Result<Option<Boxed<Meaning>>, NoMemory>
    ensures { IfOk result (λ meaning. meaning
        ≡ comes_at (state_now transactions.now tables.now) number (slice_get transactions.now at)) }
{
    match transactions.get(at) {
        Some(transaction) => {
            let meaning = coming(alloc, transactions, tables, number, transaction)?;
            Ok(meaning)
        }
        None => Ok(None),
    }
}

fn mean_one(meaning: Option<Boxed<Meaning>>, statement: &mut Statement)
    ensures { statement.new ≡ said_of meaning statement.old }
{
    if statement.meaning.is_none() {
        statement.meaning = meaning;
    }
}

// The statement of that number means this from now on, if it means nothing yet.
fn mean(number: u32, meaning: Option<Boxed<Meaning>>, statements: &mut Vec<Statement>)
    ensures { statements.new.items ≡ changed_at (said_of meaning) statements.old.items number }
{
    let at = number as usize;
    if at < statements.len() {
        let statement = &mut statements[at];
        mean_one(meaning, statement);
    }
}

fn copied_tables(alloc: Global, tables: &[Table]) -> Result<List<Table>, NoMemory>
    ensures { IfOk result (λ copies. copies ≡ tables.now) }
{
    let mut copies = Vec::new(alloc);
    for table in tables {
        copies.push(table.duplicate(alloc)?)?;
    }
    Ok(List::from_vec(copies))
}

// Where it has none, the transaction gets its snapshot.
fn see(
    alloc: Global,
    place: u64,
    opened: u64,
    tables: &[Table],
    snapshot: Option<Snapshot>,
) -> Result<Option<Snapshot>, NoMemory>
    ensures { IfOk result (λ seen. seen
        ≡ first_of snapshot (record { place = place; tables = tables.now; opened = opened })) }
{
    match snapshot {
        Some(before) => Ok(Some(before)),
        None => {
            let tables = copied_tables(alloc, tables)?;
            Ok(Some(Snapshot {
                place,
                tables,
                opened,
            }))
        }
    }
}

fn begin(
    alloc: Global,
    place: u64,
    opened: u64,
    tables: &[Table],
    number: u32,
    meaning: Option<Boxed<Meaning>>,
    transaction: &mut Transaction,
) -> Result<(), NoMemory>
    ensures { OnOk result (transaction.new
        ≡ begun place opened tables.now number meaning transaction.old) }
{
    let mut statements = mem::replace(&mut transaction.statements, List::empty(alloc)).into_vec();
    mean(number, meaning, &mut statements);
    transaction.statements = List::from_vec(statements);
    let before = mem::replace(&mut transaction.snapshot, None);
    transaction.snapshot = see(alloc, place, opened, tables, before)?;
    Ok(())
}

// The statement that opened a transaction has written what it means.
fn write_first(
    alloc: Global,
    given: &[(u64, u64)],
    statements: &mut Vec<Statement>,
) -> Result<(), NoMemory>
    ensures { OnOk result (statements.new.items
        ≡ changed_at (wrote_as given.now 0) statements.old.items 0) }
{
    if statements.is_empty() {
        return Ok(());
    }
    let writes = writes_of(alloc, &statements[0].meaning, given)?;
    let first = &mut statements[0];
    first.wrote = List::from_vec(writes);
    Ok(())
}

fn end(transaction: &mut Transaction, ending: Ending)
    ensures { transaction.new ≡ ended ending transaction.old }
{
    transaction.ending = Some(ending);
}

fn commit(
    alloc: Global,
    place: u64,
    wrote: &List<Touch>,
    transaction: &mut Transaction,
) -> Result<(), NoMemory>
    ensures { OnOk result (transaction.new ≡ committed place wrote.now transaction.old) }
{
    let mut statements = mem::replace(&mut transaction.statements, List::empty(alloc)).into_vec();
    write_first(alloc, transaction.given.as_slice(), &mut statements)?;
    transaction.statements = List::from_vec(statements);
    end(
        transaction,
        Ending::Committed(place, wrote.duplicate(alloc)?),
    );
    Ok(())
}

fn abort(
    alloc: Global,
    place: u64,
    cause: &Cause,
    transaction: &mut Transaction,
) -> Result<(), NoMemory>
    ensures { OnOk result (transaction.new ≡ ended (Ending.Aborted place cause.now) transaction.old) }
{
    end(transaction, Ending::Aborted(place, cause.duplicate(alloc)?));
    Ok(())
}

fn move_one(
    alloc: Global,
    place: u64,
    entry: &Entry,
    transaction: &mut Transaction,
) -> Result<(), NoMemory>
    ensures { OnOk result (transaction.new ≡ moved place entry.now transaction.old) }
{
    match entry {
        Entry::Given { table, write, .. } => {
            append(alloc, &mut transaction.given, (table.0, write.0))
        }
        Entry::Commit { wrote, .. } => commit(alloc, place, wrote, transaction),
        Entry::Abort { cause, .. } => abort(alloc, place, cause, transaction),
        Entry::Create { table, .. } => {
            end(transaction, Ending::Made(place, table.0));
            Ok(())
        }
        Entry::Drop { table, .. } => {
            end(transaction, Ending::Dropped(place, table.0));
            Ok(())
        }
        _ => Ok(()),
    }
}

/// What a Start at this place does to the transaction of that number, while it is open.
pub fn start(
    alloc: Global,
    place: u64,
    tables: &[Table],
    number: u32,
    transactions: &mut Vec<Transaction>,
    txn: u64,
) -> Result<(), NoMemory>
    ensures { OnOk result (transactions.new.items
        ≡ changed (while_open (started (state_at place transactions.old.items tables.now) number)) transactions.old.items txn) }
{
    let Some(at) = open_place_of(transactions, txn) else {
        return Ok(());
    };
    let meaning = coming_at(alloc, transactions, tables, number, at)?;
    let opened = transactions.len() as u64;
    let transaction = &mut transactions[at];
    begin(alloc, place, opened, tables, number, meaning, transaction)?;
    Ok(())
}

/// What an entry at this place that is no Start does to the transaction of that number, while it is open.
pub fn go(
    alloc: Global,
    place: u64,
    entry: &Entry,
    transactions: &mut Vec<Transaction>,
    txn: u64,
) -> Result<(), NoMemory>
    ensures { OnOk result (transactions.new.items
        ≡ changed (while_open (moved place entry.now)) transactions.old.items txn) }
{
    let Some(at) = open_place_of(transactions, txn) else {
        return Ok(());
    };
    let transaction = &mut transactions[at];
    move_one(alloc, place, entry, transaction)?;
    Ok(())
}
