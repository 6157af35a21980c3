//! A book replayed from its first entry.
ghost use Rattle.std.specs.Prelude.{◌≡◌, ◌++◌, ◌∷◌, [], IfOk, OnOk};
ghost use Rattle.hv_history.specs.State.{acted};
ghost use Rattle.tests_books.specs.Replay.{AsksNothing, state_at};
ghost use Rattle.tests_books.specs.Following.{Follows};

use crate::{tables, transactions};
use hv_base::NoMemory;
use hv_history::{Entry, Table, Transaction, numbered};
use std::alloc::Global;

// What an entry at this place does to the transactions and to the tables. A book that asks for a compaction isn't
// replayed.
#[tactic(auto, unfolding(hv_history::specs::State::acted))]
fn act(
    alloc: Global,
    place: u64,
    transactions: &mut Vec<Transaction>,
    tables: &mut Vec<Table>,
    entry: &Entry,
) -> Result<(), NoMemory>
    ensures transactions { OnOk result (transactions.new.items
        ≡ (acted (state_at place transactions.old.items tables.old.items) entry.now).transactions) }
    ensures tables { OnOk result (tables.new.items
        ≡ (acted (state_at place transactions.old.items tables.old.items) entry.now).tables) }
    ensures asked { OnOk result (AsksNothing entry.now) }
{
    match entry {
        Entry::Opened {
            session,
            number,
            text,
            ..
        } => transactions::open(alloc, transactions, session, *number, text),
        Entry::Start { txn, statement } => {
            transactions::start(alloc, place, tables, *statement, transactions, txn.0)
        }
        Entry::Given { txn, table, .. } => {
            tables::keep(alloc, entry, tables, table.0)?;
            transactions::go(alloc, place, entry, transactions, txn.0)
        }
        Entry::Commit { txn, .. } => {
            tables::commit(alloc, tables, numbered(transactions, txn.0))?;
            transactions::go(alloc, place, entry, transactions, txn.0)
        }
        Entry::Abort { txn, .. } => transactions::go(alloc, place, entry, transactions, txn.0),
        Entry::Create { txn, table } => {
            tables::create(alloc, tables, numbered(transactions, txn.0), table.0)?;
            transactions::go(alloc, place, entry, transactions, txn.0)
        }
        Entry::Drop { txn, table } => {
            tables::keep(alloc, entry, tables, table.0)?;
            transactions::go(alloc, place, entry, transactions, txn.0)
        }
        Entry::Forgot { table, .. } => tables::keep(alloc, entry, tables, table.0),
        Entry::Asked { .. } => Err(NoMemory),
        _ => Ok(()),
    }
}

/// The transactions and the tables that entries leave, each by number from 1.
#[derive(Drop)]
pub struct Replay {
    pub transactions: Vec<Transaction>,
    pub tables: Vec<Table>,
}

impl Replay {
    /// Replays a book, or its first entries: what was known at that position.
    pub fn of(alloc: Global, entries: &[Entry]) -> Result<Replay, NoMemory>
        ensures { IfOk result (Follows entries.now) }
    {
        let mut replay = Replay {
            transactions: Vec::new(alloc),
            tables: Vec::new(alloc),
        };
        for at in 0..entries.len() {
            act(
                alloc,
                at as u64,
                &mut replay.transactions,
                &mut replay.tables,
                &entries[at],
            )?;
        }
        Ok(replay)
    }
}
