use crate::entry::Cause;
use hv_base::{Boxed, Duplicate, List, NoMemory, Text, Touch};
use hv_meaning::hv_typing::hv_logic::{Found, Meaning, TableInfo};
use std::alloc::Global;

/// What one statement wrote under a write id of a table. `statement` is its number in its transaction: a
/// delta is named by both.
#[derive(Drop)]
pub struct Written {
    pub write: u64,
    pub statement: u32,
    pub inserts: List<Found>,
    pub deletes: List<Found>,
}

/// A table since its Create. The write id w is that of the transaction at place w - 1 of `owners`.
/// Its writes are in the order of their commits.
#[derive(Drop)]
pub struct Table {
    pub info: TableInfo,
    pub is_live: bool,
    pub owners: List<u64>,
    pub writes: List<Written>,
    /// The write ids of which no directory stands any more.
    pub forgotten: List<u64>,
}

/// What a transaction sees: the tables as they stood at this place of the book. So many transactions were opened before it.
#[derive(Drop)]
pub struct Snapshot {
    pub place: u64,
    pub tables: List<Table>,
    pub opened: u64,
}

/// How a transaction ended, and at which place of the book.
#[derive(Drop)]
pub enum Ending {
    Committed(u64, List<Touch>),
    Aborted(u64, Cause),
    /// A table of this number was made.
    Made(u64, u64),
    /// The table of this number was dropped.
    Dropped(u64, u64),
}

/// A statement of a transaction: its number in its session, its text, what it came to at its Start, and
/// what it wrote, each behind the number of its table. It means nothing before its Start.
#[derive(Drop)]
pub struct Statement {
    pub number: u64,
    pub text: Text,
    pub meaning: Option<Boxed<Meaning>>,
    pub wrote: List<(u64, Written)>,
}

/// A transaction, which keeps its record when it has ended. The statement that opened it is the first.
/// `given` has its write ids, each behind the number of its table.
#[derive(Drop)]
pub struct Transaction {
    pub session: Text,
    pub statements: List<Statement>,
    pub snapshot: Option<Snapshot>,
    pub given: List<(u64, u64)>,
    pub ending: Option<Ending>,
}

impl Duplicate for Written {
    fn duplicate(&self, alloc: Global) -> Result<Written, NoMemory> {
        Ok(Written {
            write: self.write,
            statement: self.statement,
            inserts: self.inserts.duplicate(alloc)?,
            deletes: self.deletes.duplicate(alloc)?,
        })
    }
}

impl Duplicate for Table {
    fn duplicate(&self, alloc: Global) -> Result<Table, NoMemory> {
        let owners = Vec::from_slice(alloc, self.owners.as_slice())?;
        let forgotten = Vec::from_slice(alloc, self.forgotten.as_slice())?;
        Ok(Table {
            info: self.info.duplicate(alloc)?,
            is_live: self.is_live,
            owners: List::from_vec(owners),
            writes: self.writes.duplicate(alloc)?,
            forgotten: List::from_vec(forgotten),
        })
    }
}
