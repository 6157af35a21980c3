ghost use Rattle.std.specs.Prelude.{◌<◌, ◌^◌, length};
ghost use Rattle.hv_bytes.specs.Writing.{HasRoom, Appends};
ghost use Rattle.hv_history.specs.Spelling.{entry_spelling, HasSpelling};

use crate::writing::causes::{put_cause, put_job_cause};
use crate::writing::fields::{put_kind, put_touches};
use hv_base::{JobId, List, TableId, Text, Touch, TxnId, WriteId};
use hv_bytes::{put_byte, put_text, put_u32, put_u64};
use hv_history::{Cause, Entry, JobCause, JobKind};

#[tactic(auto, using(crate::proofs::Room::room))]
fn put_boot(out: &mut Vec<u8>, run: u64)
    requires room { HasRoom out.old (entry_spelling (Entry.Boot run)) }
    ensures appended { Appends out.old out.new (entry_spelling (Entry.Boot run)) }
    ensures has { HasSpelling (Entry.Boot run) }
{
    put_byte(out, 1);
    put_u64(out, run);
}

#[tactic(auto, using(crate::proofs::Room::room))]
fn put_opened(out: &mut Vec<u8>, txn: TxnId, session: &Text, number: u64, text: &Text)
    requires room { HasRoom out.old
        (entry_spelling (Entry.Opened txn session.now number text.now)) }
    requires short { length
        (entry_spelling (Entry.Opened txn session.now number text.now)) < 2 ^ 32 }
    ensures appended { Appends out.old out.new
        (entry_spelling (Entry.Opened txn session.now number text.now)) }
    ensures has { HasSpelling (Entry.Opened txn session.now number text.now) }
{
    put_byte(out, 2);
    put_u64(out, txn.0);
    put_text(out, session);
    put_u64(out, number);
    put_text(out, text);
}

#[tactic(auto, using(crate::proofs::Room::room))]
fn put_start(out: &mut Vec<u8>, txn: TxnId, statement: u32)
    requires room { HasRoom out.old (entry_spelling (Entry.Start txn statement)) }
    ensures appended { Appends out.old out.new (entry_spelling (Entry.Start txn statement)) }
    ensures has { HasSpelling (Entry.Start txn statement) }
{
    put_byte(out, 3);
    put_u64(out, txn.0);
    put_u32(out, statement);
}

#[tactic(auto, using(crate::proofs::Room::room))]
fn put_given(out: &mut Vec<u8>, txn: TxnId, table: TableId, write: WriteId)
    requires room { HasRoom out.old (entry_spelling (Entry.Given txn table write)) }
    ensures appended { Appends out.old out.new (entry_spelling (Entry.Given txn table write)) }
    ensures has { HasSpelling (Entry.Given txn table write) }
{
    put_byte(out, 4);
    put_u64(out, txn.0);
    put_u64(out, table.0);
    put_u64(out, write.0);
}

#[tactic(auto, using(crate::proofs::Room::room))]
fn put_commit(out: &mut Vec<u8>, txn: TxnId, wrote: &List<Touch>)
    requires room { HasRoom out.old (entry_spelling (Entry.Commit txn wrote.now)) }
    requires short { length (entry_spelling (Entry.Commit txn wrote.now)) < 2 ^ 32 }
    ensures appended { Appends out.old out.new (entry_spelling (Entry.Commit txn wrote.now)) }
    ensures has { HasSpelling (Entry.Commit txn wrote.now) }
{
    put_byte(out, 5);
    put_u64(out, txn.0);
    put_touches(out, wrote);
}

#[tactic(auto, using(crate::proofs::Room::room))]
fn put_abort(out: &mut Vec<u8>, txn: TxnId, cause: &Cause)
    requires room { HasRoom out.old (entry_spelling (Entry.Abort txn cause.now)) }
    requires short { length (entry_spelling (Entry.Abort txn cause.now)) < 2 ^ 32 }
    ensures appended { Appends out.old out.new (entry_spelling (Entry.Abort txn cause.now)) }
    ensures has { HasSpelling (Entry.Abort txn cause.now) }
{
    put_byte(out, 6);
    put_u64(out, txn.0);
    put_cause(out, cause);
}

#[tactic(auto, using(crate::proofs::Room::room))]
fn put_create(out: &mut Vec<u8>, txn: TxnId, table: TableId)
    requires room { HasRoom out.old (entry_spelling (Entry.Create txn table)) }
    ensures appended { Appends out.old out.new (entry_spelling (Entry.Create txn table)) }
    ensures has { HasSpelling (Entry.Create txn table) }
{
    put_byte(out, 7);
    put_u64(out, txn.0);
    put_u64(out, table.0);
}

#[tactic(auto, using(crate::proofs::Room::room))]
fn put_drop(out: &mut Vec<u8>, txn: TxnId, table: TableId)
    requires room { HasRoom out.old (entry_spelling (Entry.Drop txn table)) }
    ensures appended { Appends out.old out.new (entry_spelling (Entry.Drop txn table)) }
    ensures has { HasSpelling (Entry.Drop txn table) }
{
    put_byte(out, 8);
    put_u64(out, txn.0);
    put_u64(out, table.0);
}

#[tactic(auto, using(crate::proofs::Room::room))]
fn put_asked(
    out: &mut Vec<u8>,
    job: JobId,
    table: TableId,
    partition: &Text,
    kind: JobKind,
    by: u64,
)
    requires room { HasRoom out.old
        (entry_spelling (Entry.Asked job table partition.now kind by)) }
    requires short { length
        (entry_spelling (Entry.Asked job table partition.now kind by)) < 2 ^ 32 }
    ensures appended { Appends out.old out.new
        (entry_spelling (Entry.Asked job table partition.now kind by)) }
    ensures has { HasSpelling (Entry.Asked job table partition.now kind by) }
{
    put_byte(out, 9);
    put_u64(out, job.0);
    put_u64(out, table.0);
    put_text(out, partition);
    put_kind(out, kind);
    put_u64(out, by);
}

#[tactic(auto, using(crate::proofs::Room::room))]
fn put_picked(out: &mut Vec<u8>, job: JobId, watermark: WriteId)
    requires room { HasRoom out.old (entry_spelling (Entry.Picked job watermark)) }
    ensures appended { Appends out.old out.new (entry_spelling (Entry.Picked job watermark)) }
    ensures has { HasSpelling (Entry.Picked job watermark) }
{
    put_byte(out, 10);
    put_u64(out, job.0);
    put_u64(out, watermark.0);
}

#[tactic(auto, using(crate::proofs::Room::room))]
fn put_published(out: &mut Vec<u8>, job: JobId, low: WriteId, high: WriteId, mark: TxnId)
    requires room { HasRoom out.old (entry_spelling (Entry.Published job low high mark)) }
    ensures appended { Appends out.old out.new
        (entry_spelling (Entry.Published job low high mark)) }
    ensures has { HasSpelling (Entry.Published job low high mark) }
{
    put_byte(out, 11);
    put_u64(out, job.0);
    put_u64(out, low.0);
    put_u64(out, high.0);
    put_u64(out, mark.0);
}

#[tactic(auto, using(crate::proofs::Room::room))]
fn put_empty(out: &mut Vec<u8>, job: JobId)
    requires room { HasRoom out.old (entry_spelling (Entry.Empty job)) }
    ensures appended { Appends out.old out.new (entry_spelling (Entry.Empty job)) }
    ensures has { HasSpelling (Entry.Empty job) }
{
    put_byte(out, 12);
    put_u64(out, job.0);
}

#[tactic(auto, using(crate::proofs::Room::room))]
fn put_cleaned(out: &mut Vec<u8>, job: JobId)
    requires room { HasRoom out.old (entry_spelling (Entry.Cleaned job)) }
    ensures appended { Appends out.old out.new (entry_spelling (Entry.Cleaned job)) }
    ensures has { HasSpelling (Entry.Cleaned job) }
{
    put_byte(out, 13);
    put_u64(out, job.0);
}

#[tactic(auto, using(crate::proofs::Room::room))]
fn put_failed(out: &mut Vec<u8>, job: JobId, cause: &JobCause)
    requires room { HasRoom out.old (entry_spelling (Entry.Failed job cause.now)) }
    requires short { length (entry_spelling (Entry.Failed job cause.now)) < 2 ^ 32 }
    ensures appended { Appends out.old out.new (entry_spelling (Entry.Failed job cause.now)) }
    ensures has { HasSpelling (Entry.Failed job cause.now) }
{
    put_byte(out, 14);
    put_u64(out, job.0);
    put_job_cause(out, cause);
}

#[tactic(auto, using(crate::proofs::Room::room))]
fn put_forgot(out: &mut Vec<u8>, table: TableId, write: WriteId)
    requires room { HasRoom out.old (entry_spelling (Entry.Forgot table write)) }
    ensures appended { Appends out.old out.new (entry_spelling (Entry.Forgot table write)) }
    ensures has { HasSpelling (Entry.Forgot table write) }
{
    put_byte(out, 15);
    put_u64(out, table.0);
    put_u64(out, write.0);
}

#[tactic(auto, using(crate::proofs::Room::room))]
fn put_next(out: &mut Vec<u8>, txn: TxnId, statement: u32, number: u64, text: &Text)
    requires room { HasRoom out.old (entry_spelling (Entry.Next txn statement number text.now)) }
    requires short { length (entry_spelling (Entry.Next txn statement number text.now)) < 2 ^ 32 }
    ensures appended { Appends out.old out.new
        (entry_spelling (Entry.Next txn statement number text.now)) }
    ensures has { HasSpelling (Entry.Next txn statement number text.now) }
{
    put_byte(out, 16);
    put_u64(out, txn.0);
    put_u32(out, statement);
    put_u64(out, number);
    put_text(out, text);
}

#[tactic(auto, using(crate::proofs::Room::room))]
fn put_did(out: &mut Vec<u8>, txn: TxnId, statement: u32, wrote: &List<Touch>)
    requires room { HasRoom out.old (entry_spelling (Entry.Did txn statement wrote.now)) }
    requires short { length (entry_spelling (Entry.Did txn statement wrote.now)) < 2 ^ 32 }
    ensures appended { Appends out.old out.new
        (entry_spelling (Entry.Did txn statement wrote.now)) }
    ensures has { HasSpelling (Entry.Did txn statement wrote.now) }
{
    put_byte(out, 17);
    put_u64(out, txn.0);
    put_u32(out, statement);
    put_touches(out, wrote);
}

#[tactic(auto, using(crate::proofs::Room::room))]
fn put_alter(out: &mut Vec<u8>, txn: TxnId, table: TableId)
    requires room { HasRoom out.old (entry_spelling (Entry.Alter txn table)) }
    ensures appended { Appends out.old out.new (entry_spelling (Entry.Alter txn table)) }
    ensures has { HasSpelling (Entry.Alter txn table) }
{
    put_byte(out, 18);
    put_u64(out, txn.0);
    put_u64(out, table.0);
}

pub fn put_entry(out: &mut Vec<u8>, entry: &Entry)
    requires room { HasRoom out.old (entry_spelling entry.now) }
    requires short { length (entry_spelling entry.now) < 2 ^ 32 }
    ensures appended { Appends out.old out.new (entry_spelling entry.now) }
    ensures has { HasSpelling entry.now }
{
    match entry {
        Entry::Boot { run } => put_boot(out, *run),
        Entry::Opened {
            txn,
            session,
            number,
            text,
        } => put_opened(out, *txn, session, *number, text),
        Entry::Start { txn, statement } => put_start(out, *txn, *statement),
        Entry::Given { txn, table, write } => put_given(out, *txn, *table, *write),
        Entry::Commit { txn, wrote } => put_commit(out, *txn, wrote),
        Entry::Abort { txn, cause } => put_abort(out, *txn, cause),
        Entry::Create { txn, table } => put_create(out, *txn, *table),
        Entry::Drop { txn, table } => put_drop(out, *txn, *table),
        Entry::Asked {
            job,
            table,
            partition,
            kind,
            by,
        } => put_asked(out, *job, *table, partition, *kind, *by),
        Entry::Picked { job, watermark } => put_picked(out, *job, *watermark),
        Entry::Published {
            job,
            low,
            high,
            mark,
        } => put_published(out, *job, *low, *high, *mark),
        Entry::Empty { job } => put_empty(out, *job),
        Entry::Cleaned { job } => put_cleaned(out, *job),
        Entry::Failed { job, cause } => put_failed(out, *job, cause),
        Entry::Forgot { table, write } => put_forgot(out, *table, *write),
        Entry::Next {
            txn,
            statement,
            number,
            text,
        } => put_next(out, *txn, *statement, *number, text),
        Entry::Did {
            txn,
            statement,
            wrote,
        } => put_did(out, *txn, *statement, wrote),
        Entry::Alter { txn, table } => put_alter(out, *txn, *table),
    }
}
