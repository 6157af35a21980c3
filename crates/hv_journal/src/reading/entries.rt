ghost use Rattle.std.specs.Prelude.{◌≡◌, ◌∷◌, ◌++◌, IfOk};
ghost use Rattle.hv_bytes.specs.Reading.{Gives};
ghost use Rattle.hv_history.specs.Spelling.{entry_spelling, HasSpelling};
ghost use Rattle.hv_journal.specs.Reading.{boot_at, opened_at, start_at, given_at, commit_at, abort_at, create_at, drop_at, asked_at, picked_at, published_at, empty_at, cleaned_at, failed_at, forgot_at, next_at, did_at, alter_at, fields_at, entry_at};

use crate::reading::causes::{cause_of, job_cause_of};
use crate::reading::fields::{kind_of, touches_of};
use hv_base::{JobId, TableId, TxnId, WriteId};
use hv_bytes::{FieldFault, read_text, read_u32, read_u64};
use hv_history::Entry;
use std::alloc::Global;

#[tactic(auto, unfolding(crate::specs::Reading::boot_at))]
fn boot_of(bytes: &[u8]) -> Result<(Entry, &[u8]), FieldFault>
    ensures exact { Gives (λ x. (x.0, x.1.now)) result (boot_at bytes.now) }
    ensures found { IfOk result
        (λ x. HasSpelling x.0 × (1 ∷ bytes.now ≡ entry_spelling x.0 ++ x.1.now)) }
{
    let (run, rest) = read_u64(bytes)?;
    Ok((Entry::Boot { run }, rest))
}

#[tactic(auto, unfolding(crate::specs::Reading::opened_at))]
fn opened_of(alloc: Global, bytes: &[u8]) -> Result<(Entry, &[u8]), FieldFault>
    ensures exact { Gives (λ x. (x.0, x.1.now)) result (opened_at bytes.now) }
    ensures found { IfOk result
        (λ x. HasSpelling x.0 × (2 ∷ bytes.now ≡ entry_spelling x.0 ++ x.1.now)) }
{
    let (txn, rest) = read_u64(bytes)?;
    let (session, rest) = read_text(alloc, rest)?;
    let (number, rest) = read_u64(rest)?;
    let (text, rest) = read_text(alloc, rest)?;
    Ok((
        Entry::Opened {
            txn: TxnId(txn),
            session,
            number,
            text,
        },
        rest,
    ))
}

#[tactic(auto, unfolding(crate::specs::Reading::start_at))]
fn start_of(bytes: &[u8]) -> Result<(Entry, &[u8]), FieldFault>
    ensures exact { Gives (λ x. (x.0, x.1.now)) result (start_at bytes.now) }
    ensures found { IfOk result
        (λ x. HasSpelling x.0 × (3 ∷ bytes.now ≡ entry_spelling x.0 ++ x.1.now)) }
{
    let (txn, rest) = read_u64(bytes)?;
    let (statement, rest) = read_u32(rest)?;
    Ok((
        Entry::Start {
            txn: TxnId(txn),
            statement,
        },
        rest,
    ))
}

#[tactic(auto, unfolding(crate::specs::Reading::given_at))]
fn given_of(bytes: &[u8]) -> Result<(Entry, &[u8]), FieldFault>
    ensures exact { Gives (λ x. (x.0, x.1.now)) result (given_at bytes.now) }
    ensures found { IfOk result
        (λ x. HasSpelling x.0 × (4 ∷ bytes.now ≡ entry_spelling x.0 ++ x.1.now)) }
{
    let (txn, rest) = read_u64(bytes)?;
    let (table, rest) = read_u64(rest)?;
    let (write, rest) = read_u64(rest)?;
    Ok((
        Entry::Given {
            txn: TxnId(txn),
            table: TableId(table),
            write: WriteId(write),
        },
        rest,
    ))
}

#[tactic(auto, unfolding(crate::specs::Reading::commit_at))]
fn commit_of(alloc: Global, bytes: &[u8]) -> Result<(Entry, &[u8]), FieldFault>
    ensures exact { Gives (λ x. (x.0, x.1.now)) result (commit_at bytes.now) }
    ensures found { IfOk result
        (λ x. HasSpelling x.0 × (5 ∷ bytes.now ≡ entry_spelling x.0 ++ x.1.now)) }
{
    let (txn, rest) = read_u64(bytes)?;
    let (wrote, rest) = touches_of(alloc, rest)?;
    Ok((
        Entry::Commit {
            txn: TxnId(txn),
            wrote,
        },
        rest,
    ))
}

#[tactic(auto, unfolding(crate::specs::Reading::abort_at))]
fn abort_of(alloc: Global, bytes: &[u8]) -> Result<(Entry, &[u8]), FieldFault>
    ensures exact { Gives (λ x. (x.0, x.1.now)) result (abort_at bytes.now) }
    ensures found { IfOk result
        (λ x. HasSpelling x.0 × (6 ∷ bytes.now ≡ entry_spelling x.0 ++ x.1.now)) }
{
    let (txn, rest) = read_u64(bytes)?;
    let (cause, rest) = cause_of(alloc, rest)?;
    Ok((
        Entry::Abort {
            txn: TxnId(txn),
            cause,
        },
        rest,
    ))
}

#[tactic(auto, unfolding(crate::specs::Reading::create_at))]
fn create_of(bytes: &[u8]) -> Result<(Entry, &[u8]), FieldFault>
    ensures exact { Gives (λ x. (x.0, x.1.now)) result (create_at bytes.now) }
    ensures found { IfOk result
        (λ x. HasSpelling x.0 × (7 ∷ bytes.now ≡ entry_spelling x.0 ++ x.1.now)) }
{
    let (txn, rest) = read_u64(bytes)?;
    let (table, rest) = read_u64(rest)?;
    Ok((
        Entry::Create {
            txn: TxnId(txn),
            table: TableId(table),
        },
        rest,
    ))
}

#[tactic(auto, unfolding(crate::specs::Reading::drop_at))]
fn drop_of(bytes: &[u8]) -> Result<(Entry, &[u8]), FieldFault>
    ensures exact { Gives (λ x. (x.0, x.1.now)) result (drop_at bytes.now) }
    ensures found { IfOk result
        (λ x. HasSpelling x.0 × (8 ∷ bytes.now ≡ entry_spelling x.0 ++ x.1.now)) }
{
    let (txn, rest) = read_u64(bytes)?;
    let (table, rest) = read_u64(rest)?;
    Ok((
        Entry::Drop {
            txn: TxnId(txn),
            table: TableId(table),
        },
        rest,
    ))
}

#[tactic(auto, unfolding(crate::specs::Reading::asked_at))]
fn asked_of(alloc: Global, bytes: &[u8]) -> Result<(Entry, &[u8]), FieldFault>
    ensures exact { Gives (λ x. (x.0, x.1.now)) result (asked_at bytes.now) }
    ensures found { IfOk result
        (λ x. HasSpelling x.0 × (9 ∷ bytes.now ≡ entry_spelling x.0 ++ x.1.now)) }
{
    let (job, rest) = read_u64(bytes)?;
    let (table, rest) = read_u64(rest)?;
    let (partition, rest) = read_text(alloc, rest)?;
    let (kind, rest) = kind_of(rest)?;
    let (by, rest) = read_u64(rest)?;
    Ok((
        Entry::Asked {
            job: JobId(job),
            table: TableId(table),
            partition,
            kind,
            by,
        },
        rest,
    ))
}

#[tactic(auto, unfolding(crate::specs::Reading::picked_at))]
fn picked_of(bytes: &[u8]) -> Result<(Entry, &[u8]), FieldFault>
    ensures exact { Gives (λ x. (x.0, x.1.now)) result (picked_at bytes.now) }
    ensures found { IfOk result
        (λ x. HasSpelling x.0 × (10 ∷ bytes.now ≡ entry_spelling x.0 ++ x.1.now)) }
{
    let (job, rest) = read_u64(bytes)?;
    let (watermark, rest) = read_u64(rest)?;
    Ok((
        Entry::Picked {
            job: JobId(job),
            watermark: WriteId(watermark),
        },
        rest,
    ))
}

#[tactic(auto, unfolding(crate::specs::Reading::published_at))]
fn published_of(bytes: &[u8]) -> Result<(Entry, &[u8]), FieldFault>
    ensures exact { Gives (λ x. (x.0, x.1.now)) result (published_at bytes.now) }
    ensures found { IfOk result
        (λ x. HasSpelling x.0 × (11 ∷ bytes.now ≡ entry_spelling x.0 ++ x.1.now)) }
{
    let (job, rest) = read_u64(bytes)?;
    let (low, rest) = read_u64(rest)?;
    let (high, rest) = read_u64(rest)?;
    let (mark, rest) = read_u64(rest)?;
    Ok((
        Entry::Published {
            job: JobId(job),
            low: WriteId(low),
            high: WriteId(high),
            mark: TxnId(mark),
        },
        rest,
    ))
}

#[tactic(auto, unfolding(crate::specs::Reading::empty_at))]
fn empty_of(bytes: &[u8]) -> Result<(Entry, &[u8]), FieldFault>
    ensures exact { Gives (λ x. (x.0, x.1.now)) result (empty_at bytes.now) }
    ensures found { IfOk result
        (λ x. HasSpelling x.0 × (12 ∷ bytes.now ≡ entry_spelling x.0 ++ x.1.now)) }
{
    let (job, rest) = read_u64(bytes)?;
    Ok((Entry::Empty { job: JobId(job) }, rest))
}

#[tactic(auto, unfolding(crate::specs::Reading::cleaned_at))]
fn cleaned_of(bytes: &[u8]) -> Result<(Entry, &[u8]), FieldFault>
    ensures exact { Gives (λ x. (x.0, x.1.now)) result (cleaned_at bytes.now) }
    ensures found { IfOk result
        (λ x. HasSpelling x.0 × (13 ∷ bytes.now ≡ entry_spelling x.0 ++ x.1.now)) }
{
    let (job, rest) = read_u64(bytes)?;
    Ok((Entry::Cleaned { job: JobId(job) }, rest))
}

#[tactic(auto, unfolding(crate::specs::Reading::failed_at))]
fn failed_of(alloc: Global, bytes: &[u8]) -> Result<(Entry, &[u8]), FieldFault>
    ensures exact { Gives (λ x. (x.0, x.1.now)) result (failed_at bytes.now) }
    ensures found { IfOk result
        (λ x. HasSpelling x.0 × (14 ∷ bytes.now ≡ entry_spelling x.0 ++ x.1.now)) }
{
    let (job, rest) = read_u64(bytes)?;
    let (cause, rest) = job_cause_of(alloc, rest)?;
    Ok((
        Entry::Failed {
            job: JobId(job),
            cause,
        },
        rest,
    ))
}

#[tactic(auto, unfolding(crate::specs::Reading::forgot_at))]
fn forgot_of(bytes: &[u8]) -> Result<(Entry, &[u8]), FieldFault>
    ensures exact { Gives (λ x. (x.0, x.1.now)) result (forgot_at bytes.now) }
    ensures found { IfOk result
        (λ x. HasSpelling x.0 × (15 ∷ bytes.now ≡ entry_spelling x.0 ++ x.1.now)) }
{
    let (table, rest) = read_u64(bytes)?;
    let (write, rest) = read_u64(rest)?;
    Ok((
        Entry::Forgot {
            table: TableId(table),
            write: WriteId(write),
        },
        rest,
    ))
}

#[tactic(auto, unfolding(crate::specs::Reading::next_at))]
fn next_of(alloc: Global, bytes: &[u8]) -> Result<(Entry, &[u8]), FieldFault>
    ensures exact { Gives (λ x. (x.0, x.1.now)) result (next_at bytes.now) }
    ensures found { IfOk result
        (λ x. HasSpelling x.0 × (16 ∷ bytes.now ≡ entry_spelling x.0 ++ x.1.now)) }
{
    let (txn, rest) = read_u64(bytes)?;
    let (statement, rest) = read_u32(rest)?;
    let (number, rest) = read_u64(rest)?;
    let (text, rest) = read_text(alloc, rest)?;
    Ok((
        Entry::Next {
            txn: TxnId(txn),
            statement,
            number,
            text,
        },
        rest,
    ))
}

#[tactic(auto, unfolding(crate::specs::Reading::did_at))]
fn did_of(alloc: Global, bytes: &[u8]) -> Result<(Entry, &[u8]), FieldFault>
    ensures exact { Gives (λ x. (x.0, x.1.now)) result (did_at bytes.now) }
    ensures found { IfOk result
        (λ x. HasSpelling x.0 × (17 ∷ bytes.now ≡ entry_spelling x.0 ++ x.1.now)) }
{
    let (txn, rest) = read_u64(bytes)?;
    let (statement, rest) = read_u32(rest)?;
    let (wrote, rest) = touches_of(alloc, rest)?;
    Ok((
        Entry::Did {
            txn: TxnId(txn),
            statement,
            wrote,
        },
        rest,
    ))
}

#[tactic(auto, unfolding(crate::specs::Reading::alter_at))]
fn alter_of(bytes: &[u8]) -> Result<(Entry, &[u8]), FieldFault>
    ensures exact { Gives (λ x. (x.0, x.1.now)) result (alter_at bytes.now) }
    ensures found { IfOk result
        (λ x. HasSpelling x.0 × (18 ∷ bytes.now ≡ entry_spelling x.0 ++ x.1.now)) }
{
    let (txn, rest) = read_u64(bytes)?;
    let (table, rest) = read_u64(rest)?;
    Ok((
        Entry::Alter {
            txn: TxnId(txn),
            table: TableId(table),
        },
        rest,
    ))
}

/// The fields behind an entry's tag.
fn fields_of(alloc: Global, tag: u8, rest: &[u8]) -> Result<(Entry, &[u8]), FieldFault>
    ensures exact { Gives (λ x. (x.0, x.1.now)) result (fields_at tag rest.now) }
    ensures found { IfOk result
        (λ x. HasSpelling x.0 × (tag ∷ rest.now ≡ entry_spelling x.0 ++ x.1.now)) }
{
    match tag {
        1 => boot_of(rest),
        2 => opened_of(alloc, rest),
        3 => start_of(rest),
        4 => given_of(rest),
        5 => commit_of(alloc, rest),
        6 => abort_of(alloc, rest),
        7 => create_of(rest),
        8 => drop_of(rest),
        9 => asked_of(alloc, rest),
        10 => picked_of(rest),
        11 => published_of(rest),
        12 => empty_of(rest),
        13 => cleaned_of(rest),
        14 => failed_of(alloc, rest),
        15 => forgot_of(rest),
        16 => next_of(alloc, rest),
        17 => did_of(alloc, rest),
        18 => alter_of(rest),
        _ => Err(FieldFault::Damaged),
    }
}

#[tactic(auto, unfolding(crate::specs::Reading::entry_at))]
pub fn entry_of(alloc: Global, bytes: &[u8]) -> Result<(Entry, &[u8]), FieldFault>
    ensures exact { Gives (λ x. (x.0, x.1.now)) result (entry_at bytes.now) }
    ensures found { IfOk result
        (λ x. HasSpelling x.0 × (bytes.now ≡ entry_spelling x.0 ++ x.1.now)) }
{
    match bytes {
        [] => Err(FieldFault::Damaged),
        [tag, rest @ ..] => fields_of(alloc, *tag, rest),
    }
}
