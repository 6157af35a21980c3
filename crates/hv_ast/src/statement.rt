use crate::change::{Delete, Insert, Merge, Truncate, Update};
use crate::query::Query;
use crate::table::{AddColumns, Compact, CreateTable, CreateView, DropTable};
use hv_base::{List, Text};

/// What SHOW lists.
#[derive(Drop)]
pub enum Show {
    Tables,
    /// Those of the named table.
    Partitions(Text),
    Transactions,
    Locks,
    Compactions,
}

#[derive(Clone, Copy)]
pub enum Transaction {
    /// START TRANSACTION
    Start,
    Commit,
    Rollback,
}

/// `SET key = value`
#[derive(Drop)]
pub struct Setting {
    pub key: Text,
    pub value: Text,
}

/// A statement as it is written. The name of a table stands without its `DEFAULT.`, since there
/// is one database.
#[derive(Drop)]
pub enum Stmt {
    Query(Query),
    Insert(Insert),
    Update(Update),
    Delete(Delete),
    Merge(Merge),
    CreateTable(CreateTable),
    DropTable(DropTable),
    AddColumns(AddColumns),
    Truncate(Truncate),
    Show(Show),
    /// DESCRIBE of a table.
    Describe(Text),
    Compact(Compact),
    /// ABORT TRANSACTIONS with their numbers, of which there is one at least.
    AbortTransactions(List<u64>),
    /// EXPLAIN FORMATTED
    Explain(Query),
    Set(Setting),
    Transaction(Transaction),
    CreateView(CreateView),
    /// `ALTER MATERIALIZED VIEW view REBUILD`
    RebuildView(Text),
    /// `DROP MATERIALIZED VIEW view`
    DropView(Text),
}
