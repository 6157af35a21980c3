ghost use Rattle.std.specs.Prelude.{◌≡◌, IfOk};

use crate::duplicate::Duplicate;
use crate::failure::NoMemory;
use crate::text::Text;
use std::alloc::Global;
use std::cmp::Ordering;

/// A transaction, numbered from 1 over the warehouse.
#[derive(Clone, Copy, Debug, PartialEq, Eq, PartialOrd, Ord)]
pub struct TxnId(pub u64);

impl Duplicate for TxnId {
    fn duplicate(&self, _alloc: Global) -> Result<TxnId, NoMemory> {
        Ok(*self)
    }
}

/// A write to one table, numbered from 1 in that table.
#[derive(Clone, Copy, Debug, PartialEq, Eq, PartialOrd, Ord)]
pub struct WriteId(pub u64);

impl Duplicate for WriteId {
    fn duplicate(&self, _alloc: Global) -> Result<WriteId, NoMemory> {
        Ok(*self)
    }
}

/// A table, numbered from 1 over the warehouse.
#[derive(Clone, Copy, Debug, PartialEq, Eq, PartialOrd, Ord)]
pub struct TableId(pub u64);

impl Duplicate for TableId {
    fn duplicate(&self, _alloc: Global) -> Result<TableId, NoMemory> {
        Ok(*self)
    }
}

/// A compaction job, numbered from 1 over the warehouse.
#[derive(Clone, Copy, Debug, PartialEq, Eq)]
pub struct JobId(pub u64);

impl Duplicate for JobId {
    fn duplicate(&self, _alloc: Global) -> Result<JobId, NoMemory> {
        Ok(*self)
    }
}

/// The identifier of a row within its partition: the write that inserted it, the statement of that
/// transaction, the bucket, and its number among the rows that the statement put there.
#[derive(Clone, Copy, Debug, PartialEq, Eq)]
pub struct RowId {
    pub write: WriteId,
    pub statement: u32,
    pub bucket: u32,
    pub row: u64,
}

impl PartialOrd for RowId {
    ghost use Rattle.std.specs.Ordering.{as_partial_cmp};
    ghost use Rattle.hv_base.specs.Identifiers.{row_id_cmp, row_id_laws};

    ghost partial_cmp = { as_partial_cmp row_id_cmp };

    ghost laws = { row_id_laws };

    fn partial_cmp(&self, other: &RowId) -> Option<Ordering> {
        Some(self.cmp(other))
    }
}

impl Duplicate for RowId {
    fn duplicate(&self, _alloc: Global) -> Result<RowId, NoMemory> {
        Ok(*self)
    }
}

/// By write id, then by statement, bucket and row number.
impl Ord for RowId {
    ghost use Rattle.std.specs.Prelude.{refl};
    ghost use Rattle.hv_base.specs.Identifiers.{row_id_cmp, row_id_total, row_id_ties};

    ghost cmp = { row_id_cmp };

    ghost total = { row_id_total };

    ghost matches_partial_cmp = { λ left right. refl };

    ghost matches_eq = { row_id_ties };

    #[tactic(auto, unfolding(crate::specs::Identifiers::row_id_cmp))]
    fn cmp(&self, other: &RowId) -> Ordering {
        self.write
            .cmp(&other.write)
            .then(self.statement.cmp(&other.statement))
            .then(self.bucket.cmp(&other.bucket))
            .then(self.row.cmp(&other.row))
    }
}

/// How many rows a transaction inserted and deleted in one partition of one table. The text of an
/// unpartitioned table is empty.
#[derive(Debug, Drop)]
pub struct Touch {
    pub table: TableId,
    pub partition: Text,
    pub inserted: u64,
    pub deleted: u64,
}

impl Duplicate for Touch {
    fn duplicate(&self, alloc: Global) -> Result<Touch, NoMemory> {
        Ok(Touch {
            table: self.table,
            partition: self.partition.duplicate(alloc)?,
            inserted: self.inserted,
            deleted: self.deleted,
        })
    }
}

/// How much a warehouse may hold.
#[derive(Clone, Copy)]
pub struct Limits {
    /// The most entries of a journal.
    pub entries: u64,
}

impl Limits {
    /// The limits of this project's profile.
    pub fn profile() -> Limits
        ensures { result.entries ≡ 131_072 }
    {
        Limits { entries: 131_072 }
    }
}
