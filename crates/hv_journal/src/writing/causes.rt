ghost use Rattle.std.specs.Prelude.{◌<◌, ◌^◌, length};
ghost use Rattle.hv_bytes.specs.Writing.{HasRoom, Appends};
ghost use Rattle.hv_history.specs.Spelling.{cause_spelling, job_cause_spelling, CauseHasSpelling, JobCauseHasSpelling};

use crate::writing::fields::{put_place, put_row};
use hv_base::{RowId, TableId, Text, TxnId};
use hv_bytes::{put_byte, put_text, put_u32, put_u64};
use hv_history::{Cause, FilePlace, JobCause};

#[tactic(auto, using(crate::proofs::Room::room))]
fn put_refused(out: &mut Vec<u8>, number: u32)
    requires room { HasRoom out.old (cause_spelling (Cause.Refused number)) }
    ensures appended { Appends out.old out.new (cause_spelling (Cause.Refused number)) }
    ensures has { CauseHasSpelling (Cause.Refused number) }
{
    put_byte(out, 1);
    put_u32(out, number);
}

#[tactic(auto, using(crate::proofs::Room::room))]
fn put_conflict(out: &mut Vec<u8>, with: TxnId, table: TableId, partition: &Text)
    requires room { HasRoom out.old (cause_spelling (Cause.Conflict with table partition.now)) }
    requires short { length (cause_spelling (Cause.Conflict with table partition.now)) < 2 ^ 32 }
    ensures appended { Appends out.old out.new
        (cause_spelling (Cause.Conflict with table partition.now)) }
    ensures has { CauseHasSpelling (Cause.Conflict with table partition.now) }
{
    put_byte(out, 2);
    put_u64(out, with.0);
    put_u64(out, table.0);
    put_text(out, partition);
}

#[tactic(auto, using(crate::proofs::Room::room))]
fn put_request(out: &mut Vec<u8>, by: TxnId)
    requires room { HasRoom out.old (cause_spelling (Cause.Request by)) }
    ensures appended { Appends out.old out.new (cause_spelling (Cause.Request by)) }
    ensures has { CauseHasSpelling (Cause.Request by) }
{
    put_byte(out, 3);
    put_u64(out, by.0);
}

#[tactic(auto, using(crate::proofs::Room::room))]
fn put_twice(out: &mut Vec<u8>, partition: &Text, row: RowId)
    requires room { HasRoom out.old (cause_spelling (Cause.Twice partition.now row)) }
    requires short { length (cause_spelling (Cause.Twice partition.now row)) < 2 ^ 32 }
    ensures appended { Appends out.old out.new (cause_spelling (Cause.Twice partition.now row)) }
    ensures has { CauseHasSpelling (Cause.Twice partition.now row) }
{
    put_byte(out, 5);
    put_text(out, partition);
    put_row(out, row);
}

#[tactic(auto, using(crate::proofs::Room::room))]
fn put_blocked(out: &mut Vec<u8>, holder: TxnId)
    requires room { HasRoom out.old (cause_spelling (Cause.Blocked holder)) }
    ensures appended { Appends out.old out.new (cause_spelling (Cause.Blocked holder)) }
    ensures has { CauseHasSpelling (Cause.Blocked holder) }
{
    put_byte(out, 6);
    put_u64(out, holder.0);
}

#[tactic(auto, using(crate::proofs::Room::room))]
fn put_read_fault(out: &mut Vec<u8>, count: u64)
    requires room { HasRoom out.old (cause_spelling (Cause.ReadFault count)) }
    ensures appended { Appends out.old out.new (cause_spelling (Cause.ReadFault count)) }
    ensures has { CauseHasSpelling (Cause.ReadFault count) }
{
    put_byte(out, 7);
    put_u64(out, count);
}

#[tactic(auto, using(crate::proofs::Room::room))]
fn put_write_fault(out: &mut Vec<u8>, count: u64)
    requires room { HasRoom out.old (cause_spelling (Cause.WriteFault count)) }
    ensures appended { Appends out.old out.new (cause_spelling (Cause.WriteFault count)) }
    ensures has { CauseHasSpelling (Cause.WriteFault count) }
{
    put_byte(out, 8);
    put_u64(out, count);
}

#[tactic(auto, using(crate::proofs::Room::room))]
fn put_damaged(out: &mut Vec<u8>, place: &FilePlace)
    requires room { HasRoom out.old (cause_spelling (Cause.Damaged place.now)) }
    requires short { length (cause_spelling (Cause.Damaged place.now)) < 2 ^ 32 }
    ensures appended { Appends out.old out.new (cause_spelling (Cause.Damaged place.now)) }
    ensures has { CauseHasSpelling (Cause.Damaged place.now) }
{
    put_byte(out, 9);
    put_place(out, place);
}

pub fn put_cause(out: &mut Vec<u8>, cause: &Cause)
    requires room { HasRoom out.old (cause_spelling cause.now) }
    requires short { length (cause_spelling cause.now) < 2 ^ 32 }
    ensures appended { Appends out.old out.new (cause_spelling cause.now) }
    ensures has { CauseHasSpelling cause.now }
{
    match cause {
        Cause::Refused { number } => put_refused(out, *number),
        Cause::Conflict {
            with,
            table,
            partition,
        } => put_conflict(out, *with, *table, partition),
        Cause::Request { by } => put_request(out, *by),
        Cause::Full => put_byte(out, 4),
        Cause::Twice { partition, row } => put_twice(out, partition, *row),
        Cause::Blocked { holder } => put_blocked(out, *holder),
        Cause::ReadFault { count } => put_read_fault(out, *count),
        Cause::WriteFault { count } => put_write_fault(out, *count),
        Cause::Damaged { place } => put_damaged(out, place),
        Cause::RowLimit => put_byte(out, 10),
        Cause::PartitionLimit => put_byte(out, 11),
        Cause::Memory => put_byte(out, 12),
        Cause::Lost => put_byte(out, 13),
        Cause::Rollback => put_byte(out, 15),
    }
}

#[tactic(auto, using(crate::proofs::Room::room))]
fn put_job_read_fault(out: &mut Vec<u8>, count: u64)
    requires room { HasRoom out.old (job_cause_spelling (JobCause.ReadFault count)) }
    ensures appended { Appends out.old out.new (job_cause_spelling (JobCause.ReadFault count)) }
    ensures has { JobCauseHasSpelling (JobCause.ReadFault count) }
{
    put_byte(out, 7);
    put_u64(out, count);
}

#[tactic(auto, using(crate::proofs::Room::room))]
fn put_job_write_fault(out: &mut Vec<u8>, count: u64)
    requires room { HasRoom out.old (job_cause_spelling (JobCause.WriteFault count)) }
    ensures appended { Appends out.old out.new (job_cause_spelling (JobCause.WriteFault count)) }
    ensures has { JobCauseHasSpelling (JobCause.WriteFault count) }
{
    put_byte(out, 8);
    put_u64(out, count);
}

#[tactic(auto, using(crate::proofs::Room::room))]
fn put_job_damaged(out: &mut Vec<u8>, place: &FilePlace)
    requires room { HasRoom out.old (job_cause_spelling (JobCause.Damaged place.now)) }
    requires short { length (job_cause_spelling (JobCause.Damaged place.now)) < 2 ^ 32 }
    ensures appended { Appends out.old out.new (job_cause_spelling (JobCause.Damaged place.now)) }
    ensures has { JobCauseHasSpelling (JobCause.Damaged place.now) }
{
    put_byte(out, 9);
    put_place(out, place);
}

pub fn put_job_cause(out: &mut Vec<u8>, cause: &JobCause)
    requires room { HasRoom out.old (job_cause_spelling cause.now) }
    requires short { length (job_cause_spelling cause.now) < 2 ^ 32 }
    ensures appended { Appends out.old out.new (job_cause_spelling cause.now) }
    ensures has { JobCauseHasSpelling cause.now }
{
    match cause {
        JobCause::ReadFault { count } => put_job_read_fault(out, *count),
        JobCause::WriteFault { count } => put_job_write_fault(out, *count),
        JobCause::Damaged { place } => put_job_damaged(out, place),
        JobCause::Memory => put_byte(out, 12),
        JobCause::Lost => put_byte(out, 13),
        JobCause::Gone => put_byte(out, 14),
    }
}
