ghost use Rattle.std.specs.Prelude.{◌≡◌, ◌∷◌, ◌++◌, IfOk};
ghost use Rattle.hv_bytes.specs.Reading.{Gives};
ghost use Rattle.hv_history.specs.Spelling.{cause_spelling, job_cause_spelling, CauseHasSpelling, JobCauseHasSpelling};
ghost use Rattle.hv_journal.specs.Reading.{refused_at, conflict_at, request_at, twice_at, blocked_at, read_fault_at, write_fault_at, damaged_at, cause_fields_at, cause_at, job_read_fault_at, job_write_fault_at, job_damaged_at, job_cause_fields_at, job_cause_at};

use crate::reading::fields::{place_of, row_of};
use hv_base::{TableId, TxnId};
use hv_bytes::{FieldFault, read_text, read_u32, read_u64};
use hv_history::{Cause, JobCause};
use std::alloc::Global;

#[tactic(auto, unfolding(crate::specs::Reading::refused_at))]
fn refused_of(bytes: &[u8]) -> Result<(Cause, &[u8]), FieldFault>
    ensures exact { Gives (λ x. (x.0, x.1.now)) result (refused_at bytes.now) }
    ensures found { IfOk result
        (λ x. CauseHasSpelling x.0 × (1 ∷ bytes.now ≡ cause_spelling x.0 ++ x.1.now)) }
{
    let (number, rest) = read_u32(bytes)?;
    Ok((Cause::Refused { number }, rest))
}

#[tactic(auto, unfolding(crate::specs::Reading::conflict_at))]
fn conflict_of(alloc: Global, bytes: &[u8]) -> Result<(Cause, &[u8]), FieldFault>
    ensures exact { Gives (λ x. (x.0, x.1.now)) result (conflict_at bytes.now) }
    ensures found { IfOk result
        (λ x. CauseHasSpelling x.0 × (2 ∷ bytes.now ≡ cause_spelling x.0 ++ x.1.now)) }
{
    let (with, rest) = read_u64(bytes)?;
    let (table, rest) = read_u64(rest)?;
    let (partition, rest) = read_text(alloc, rest)?;
    Ok((
        Cause::Conflict {
            with: TxnId(with),
            table: TableId(table),
            partition,
        },
        rest,
    ))
}

#[tactic(auto, unfolding(crate::specs::Reading::request_at))]
fn request_of(bytes: &[u8]) -> Result<(Cause, &[u8]), FieldFault>
    ensures exact { Gives (λ x. (x.0, x.1.now)) result (request_at bytes.now) }
    ensures found { IfOk result
        (λ x. CauseHasSpelling x.0 × (3 ∷ bytes.now ≡ cause_spelling x.0 ++ x.1.now)) }
{
    let (by, rest) = read_u64(bytes)?;
    Ok((Cause::Request { by: TxnId(by) }, rest))
}

#[tactic(auto, unfolding(crate::specs::Reading::twice_at))]
fn twice_of(alloc: Global, bytes: &[u8]) -> Result<(Cause, &[u8]), FieldFault>
    ensures exact { Gives (λ x. (x.0, x.1.now)) result (twice_at bytes.now) }
    ensures found { IfOk result
        (λ x. CauseHasSpelling x.0 × (5 ∷ bytes.now ≡ cause_spelling x.0 ++ x.1.now)) }
{
    let (partition, rest) = read_text(alloc, bytes)?;
    let (row, rest) = row_of(rest)?;
    Ok((Cause::Twice { partition, row }, rest))
}

#[tactic(auto, unfolding(crate::specs::Reading::blocked_at))]
fn blocked_of(bytes: &[u8]) -> Result<(Cause, &[u8]), FieldFault>
    ensures exact { Gives (λ x. (x.0, x.1.now)) result (blocked_at bytes.now) }
    ensures found { IfOk result
        (λ x. CauseHasSpelling x.0 × (6 ∷ bytes.now ≡ cause_spelling x.0 ++ x.1.now)) }
{
    let (holder, rest) = read_u64(bytes)?;
    Ok((
        Cause::Blocked {
            holder: TxnId(holder),
        },
        rest,
    ))
}

#[tactic(auto, unfolding(crate::specs::Reading::read_fault_at))]
fn read_fault_of(bytes: &[u8]) -> Result<(Cause, &[u8]), FieldFault>
    ensures exact { Gives (λ x. (x.0, x.1.now)) result (read_fault_at bytes.now) }
    ensures found { IfOk result
        (λ x. CauseHasSpelling x.0 × (7 ∷ bytes.now ≡ cause_spelling x.0 ++ x.1.now)) }
{
    let (count, rest) = read_u64(bytes)?;
    Ok((Cause::ReadFault { count }, rest))
}

#[tactic(auto, unfolding(crate::specs::Reading::write_fault_at))]
fn write_fault_of(bytes: &[u8]) -> Result<(Cause, &[u8]), FieldFault>
    ensures exact { Gives (λ x. (x.0, x.1.now)) result (write_fault_at bytes.now) }
    ensures found { IfOk result
        (λ x. CauseHasSpelling x.0 × (8 ∷ bytes.now ≡ cause_spelling x.0 ++ x.1.now)) }
{
    let (count, rest) = read_u64(bytes)?;
    Ok((Cause::WriteFault { count }, rest))
}

#[tactic(auto, unfolding(crate::specs::Reading::damaged_at))]
fn damaged_of(alloc: Global, bytes: &[u8]) -> Result<(Cause, &[u8]), FieldFault>
    ensures exact { Gives (λ x. (x.0, x.1.now)) result (damaged_at bytes.now) }
    ensures found { IfOk result
        (λ x. CauseHasSpelling x.0 × (9 ∷ bytes.now ≡ cause_spelling x.0 ++ x.1.now)) }
{
    let (place, rest) = place_of(alloc, bytes)?;
    Ok((Cause::Damaged { place }, rest))
}

/// The fields behind a cause's tag.
fn cause_fields_of(alloc: Global, tag: u8, rest: &[u8]) -> Result<(Cause, &[u8]), FieldFault>
    ensures exact { Gives (λ x. (x.0, x.1.now)) result (cause_fields_at tag rest.now) }
    ensures found { IfOk result
        (λ x. CauseHasSpelling x.0 × (tag ∷ rest.now ≡ cause_spelling x.0 ++ x.1.now)) }
{
    match tag {
        1 => refused_of(rest),
        2 => conflict_of(alloc, rest),
        3 => request_of(rest),
        4 => Ok((Cause::Full, rest)),
        5 => twice_of(alloc, rest),
        6 => blocked_of(rest),
        7 => read_fault_of(rest),
        8 => write_fault_of(rest),
        9 => damaged_of(alloc, rest),
        10 => Ok((Cause::RowLimit, rest)),
        11 => Ok((Cause::PartitionLimit, rest)),
        12 => Ok((Cause::Memory, rest)),
        13 => Ok((Cause::Lost, rest)),
        15 => Ok((Cause::Rollback, rest)),
        _ => Err(FieldFault::Damaged),
    }
}

#[tactic(auto, unfolding(crate::specs::Reading::cause_at))]
pub fn cause_of(alloc: Global, bytes: &[u8]) -> Result<(Cause, &[u8]), FieldFault>
    ensures exact { Gives (λ x. (x.0, x.1.now)) result (cause_at bytes.now) }
    ensures found { IfOk result
        (λ x. CauseHasSpelling x.0 × (bytes.now ≡ cause_spelling x.0 ++ x.1.now)) }
{
    match bytes {
        [] => Err(FieldFault::Damaged),
        [tag, rest @ ..] => cause_fields_of(alloc, *tag, rest),
    }
}

#[tactic(auto, unfolding(crate::specs::Reading::job_read_fault_at))]
fn job_read_fault_of(bytes: &[u8]) -> Result<(JobCause, &[u8]), FieldFault>
    ensures exact { Gives (λ x. (x.0, x.1.now)) result (job_read_fault_at bytes.now) }
    ensures found { IfOk result
        (λ x. JobCauseHasSpelling x.0 × (7 ∷ bytes.now ≡ job_cause_spelling x.0 ++ x.1.now)) }
{
    let (count, rest) = read_u64(bytes)?;
    Ok((JobCause::ReadFault { count }, rest))
}

#[tactic(auto, unfolding(crate::specs::Reading::job_write_fault_at))]
fn job_write_fault_of(bytes: &[u8]) -> Result<(JobCause, &[u8]), FieldFault>
    ensures exact { Gives (λ x. (x.0, x.1.now)) result (job_write_fault_at bytes.now) }
    ensures found { IfOk result
        (λ x. JobCauseHasSpelling x.0 × (8 ∷ bytes.now ≡ job_cause_spelling x.0 ++ x.1.now)) }
{
    let (count, rest) = read_u64(bytes)?;
    Ok((JobCause::WriteFault { count }, rest))
}

#[tactic(auto, unfolding(crate::specs::Reading::job_damaged_at))]
fn job_damaged_of(alloc: Global, bytes: &[u8]) -> Result<(JobCause, &[u8]), FieldFault>
    ensures exact { Gives (λ x. (x.0, x.1.now)) result (job_damaged_at bytes.now) }
    ensures found { IfOk result
        (λ x. JobCauseHasSpelling x.0 × (9 ∷ bytes.now ≡ job_cause_spelling x.0 ++ x.1.now)) }
{
    let (place, rest) = place_of(alloc, bytes)?;
    Ok((JobCause::Damaged { place }, rest))
}

/// The fields behind the tag of a job's cause.
fn job_cause_fields_of(alloc: Global, tag: u8, rest: &[u8]) -> Result<(JobCause, &[u8]), FieldFault>
    ensures exact { Gives (λ x. (x.0, x.1.now)) result (job_cause_fields_at tag rest.now) }
    ensures found { IfOk result
        (λ x. JobCauseHasSpelling x.0 × (tag ∷ rest.now ≡ job_cause_spelling x.0 ++ x.1.now)) }
{
    match tag {
        7 => job_read_fault_of(rest),
        8 => job_write_fault_of(rest),
        9 => job_damaged_of(alloc, rest),
        12 => Ok((JobCause::Memory, rest)),
        13 => Ok((JobCause::Lost, rest)),
        14 => Ok((JobCause::Gone, rest)),
        _ => Err(FieldFault::Damaged),
    }
}

#[tactic(auto, unfolding(crate::specs::Reading::job_cause_at))]
pub fn job_cause_of(alloc: Global, bytes: &[u8]) -> Result<(JobCause, &[u8]), FieldFault>
    ensures exact { Gives (λ x. (x.0, x.1.now)) result (job_cause_at bytes.now) }
    ensures found { IfOk result
        (λ x. JobCauseHasSpelling x.0 × (bytes.now ≡ job_cause_spelling x.0 ++ x.1.now)) }
{
    match bytes {
        [] => Err(FieldFault::Damaged),
        [tag, rest @ ..] => job_cause_fields_of(alloc, *tag, rest),
    }
}
