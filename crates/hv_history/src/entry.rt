ghost use Rattle.std.specs.Prelude.{◌≡◌, IfOk};

use hv_base::{Duplicate, JobId, List, NoMemory, RowId, TableId, Text, Touch, TxnId, WriteId};
use std::alloc::Global;

/// What the journal keeps of the warehouse's history, one entry an event. The list of all entries, the
/// book, is the warehouse's memory: everything else is worked out from it.
#[derive(Debug, Drop)]
pub enum Entry {
    /// An opening of the store, counted from 0.
    Boot {
        run: u64,
    },
    /// A session's statement was taken up as a transaction.
    Opened {
        txn: TxnId,
        session: Text,
        number: u64,
        text: Text,
    },
    /// The snapshot of a transaction: what committed before this entry is what it sees.
    Start {
        txn: TxnId,
        statement: u32,
    },
    /// The transaction was given a write id in a table.
    Given {
        txn: TxnId,
        table: TableId,
        write: WriteId,
    },
    /// The transaction committed, with its rows counted by table and partition, rising.
    Commit {
        txn: TxnId,
        wrote: List<Touch>,
    },
    Abort {
        txn: TxnId,
        cause: Cause,
    },
    /// A CREATE TABLE committed, and made this table.
    Create {
        txn: TxnId,
        table: TableId,
    },
    /// A DROP TABLE committed.
    Drop {
        txn: TxnId,
        table: TableId,
    },
    /// A compaction was asked for, by a transaction or, where `by` is 0, by the initiator.
    Asked {
        job: JobId,
        table: TableId,
        partition: Text,
        kind: JobKind,
        by: u64,
    },
    /// A compactor took the job up, and merges write ids up to the watermark.
    Picked {
        job: JobId,
        watermark: WriteId,
    },
    /// The job's directories stand. Transactions from `mark` on don't need the ones it covers.
    Published {
        job: JobId,
        low: WriteId,
        high: WriteId,
        mark: TxnId,
    },
    /// The job had nothing to merge.
    Empty {
        job: JobId,
    },
    /// Every directory that the job covers was removed.
    Cleaned {
        job: JobId,
    },
    Failed {
        job: JobId,
        cause: JobCause,
    },
    /// No directory of this aborted write id stands any more.
    Forgot {
        table: TableId,
        write: WriteId,
    },
    /// A session's statement was taken up inside its transaction, as the one of this number in it.
    Next {
        txn: TxnId,
        statement: u32,
        number: u64,
        text: Text,
    },
    /// That statement is done, with its rows counted by table and partition, rising.
    Did {
        txn: TxnId,
        statement: u32,
        wrote: List<Touch>,
    },
    /// An ALTER TABLE committed, and columns were added to this table.
    Alter {
        txn: TxnId,
        table: TableId,
    },
}

/// The two compactions of Hive: a minor one merges deltas, a major one makes a base.
#[derive(Clone, Copy, Debug)]
pub enum JobKind {
    Minor,
    Major,
}

/// A place within a file, for damage that was found there.
#[derive(Debug, Drop)]
pub struct FilePlace {
    pub table: TableId,
    pub partition: Text,
    pub dir: Text,
    pub bucket: u32,
    /// The offset in bytes.
    pub at: u64,
}

/// Why a transaction ended without its writes.
#[derive(Debug, Drop)]
pub enum Cause {
    /// The statement was refused; `number` is that of the refusal.
    Refused {
        number: u32,
    },
    /// A commit since the snapshot deleted rows in a partition in which this one deletes too.
    Conflict {
        with: TxnId,
        table: TableId,
        partition: Text,
    },
    /// An ABORT TRANSACTIONS named it.
    Request {
        by: TxnId,
    },
    /// The journal has no room for the next entry.
    Full,
    /// A MERGE met one target row with two source rows.
    Twice {
        partition: Text,
        row: RowId,
    },
    /// Another open transaction holds a lock that conflicts.
    Blocked {
        holder: TxnId,
    },
    /// A read of the store failed; `count` is its count of faults then.
    ReadFault {
        count: u64,
    },
    /// A write of the store failed; `count` is its count of faults then.
    WriteFault {
        count: u64,
    },
    Damaged {
        place: FilePlace,
    },
    /// An inserted row is too large.
    RowLimit,
    /// A partition's text is too long, or too many partitions are touched.
    PartitionLimit,
    /// Memory could not be had.
    Memory,
    /// The run that held it stopped.
    Lost,
    /// A ROLLBACK ended it, or the end of its session.
    Rollback,
}

/// Why a compaction job ended without its directories.
#[derive(Debug, Drop)]
pub enum JobCause {
    ReadFault { count: u64 },
    WriteFault { count: u64 },
    Damaged { place: FilePlace },
    /// Its table was dropped.
    Gone,
    Memory,
    Lost,
}

impl Duplicate for FilePlace {
    fn duplicate(&self, alloc: Global) -> Result<FilePlace, NoMemory> {
        Ok(FilePlace {
            table: self.table,
            partition: self.partition.duplicate(alloc)?,
            dir: self.dir.duplicate(alloc)?,
            bucket: self.bucket,
            at: self.at,
        })
    }
}

impl Duplicate for Cause {
    fn duplicate(&self, alloc: Global) -> Result<Cause, NoMemory> {
        match self {
            Cause::Refused { number } => Ok(Cause::Refused { number: *number }),
            Cause::Conflict {
                with,
                table,
                partition,
            } => Ok(Cause::Conflict {
                with: *with,
                table: *table,
                partition: partition.duplicate(alloc)?,
            }),
            Cause::Request { by } => Ok(Cause::Request { by: *by }),
            Cause::Full => Ok(Cause::Full),
            Cause::Twice { partition, row } => Ok(Cause::Twice {
                partition: partition.duplicate(alloc)?,
                row: *row,
            }),
            Cause::Blocked { holder } => Ok(Cause::Blocked { holder: *holder }),
            Cause::ReadFault { count } => Ok(Cause::ReadFault { count: *count }),
            Cause::WriteFault { count } => Ok(Cause::WriteFault { count: *count }),
            Cause::Damaged { place } => Ok(Cause::Damaged {
                place: place.duplicate(alloc)?,
            }),
            Cause::RowLimit => Ok(Cause::RowLimit),
            Cause::PartitionLimit => Ok(Cause::PartitionLimit),
            Cause::Memory => Ok(Cause::Memory),
            Cause::Lost => Ok(Cause::Lost),
            Cause::Rollback => Ok(Cause::Rollback),
        }
    }
}

impl Duplicate for JobCause {
    fn duplicate(&self, alloc: Global) -> Result<JobCause, NoMemory> {
        match self {
            JobCause::ReadFault { count } => Ok(JobCause::ReadFault { count: *count }),
            JobCause::WriteFault { count } => Ok(JobCause::WriteFault { count: *count }),
            JobCause::Damaged { place } => Ok(JobCause::Damaged {
                place: place.duplicate(alloc)?,
            }),
            JobCause::Gone => Ok(JobCause::Gone),
            JobCause::Memory => Ok(JobCause::Memory),
            JobCause::Lost => Ok(JobCause::Lost),
        }
    }
}

impl Duplicate for Entry {
    fn duplicate(&self, alloc: Global) -> Result<Entry, NoMemory> {
        match self {
            Entry::Boot { run } => Ok(Entry::Boot { run: *run }),
            Entry::Opened {
                txn,
                session,
                number,
                text,
            } => Ok(Entry::Opened {
                txn: *txn,
                session: session.duplicate(alloc)?,
                number: *number,
                text: text.duplicate(alloc)?,
            }),
            Entry::Start { txn, statement } => Ok(Entry::Start {
                txn: *txn,
                statement: *statement,
            }),
            Entry::Given { txn, table, write } => Ok(Entry::Given {
                txn: *txn,
                table: *table,
                write: *write,
            }),
            Entry::Commit { txn, wrote } => Ok(Entry::Commit {
                txn: *txn,
                wrote: wrote.duplicate(alloc)?,
            }),
            Entry::Abort { txn, cause } => Ok(Entry::Abort {
                txn: *txn,
                cause: cause.duplicate(alloc)?,
            }),
            Entry::Create { txn, table } => Ok(Entry::Create {
                txn: *txn,
                table: *table,
            }),
            Entry::Drop { txn, table } => Ok(Entry::Drop {
                txn: *txn,
                table: *table,
            }),
            Entry::Asked {
                job,
                table,
                partition,
                kind,
                by,
            } => Ok(Entry::Asked {
                job: *job,
                table: *table,
                partition: partition.duplicate(alloc)?,
                kind: *kind,
                by: *by,
            }),
            Entry::Picked { job, watermark } => Ok(Entry::Picked {
                job: *job,
                watermark: *watermark,
            }),
            Entry::Published {
                job,
                low,
                high,
                mark,
            } => Ok(Entry::Published {
                job: *job,
                low: *low,
                high: *high,
                mark: *mark,
            }),
            Entry::Empty { job } => Ok(Entry::Empty { job: *job }),
            Entry::Cleaned { job } => Ok(Entry::Cleaned { job: *job }),
            Entry::Failed { job, cause } => Ok(Entry::Failed {
                job: *job,
                cause: cause.duplicate(alloc)?,
            }),
            Entry::Forgot { table, write } => Ok(Entry::Forgot {
                table: *table,
                write: *write,
            }),
            Entry::Next {
                txn,
                statement,
                number,
                text,
            } => Ok(Entry::Next {
                txn: *txn,
                statement: *statement,
                number: *number,
                text: text.duplicate(alloc)?,
            }),
            Entry::Did {
                txn,
                statement,
                wrote,
            } => Ok(Entry::Did {
                txn: *txn,
                statement: *statement,
                wrote: wrote.duplicate(alloc)?,
            }),
            Entry::Alter { txn, table } => Ok(Entry::Alter {
                txn: *txn,
                table: *table,
            }),
        }
    }
}
