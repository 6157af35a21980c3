ghost use Rattle.std.specs.Prelude.{◌≡◌, ◌<◌, ◌^◌, ◌++◌, ◌⊎◌, [], Bool, List, ℕ, None, length, IfOk, IfErr, MatchResult};
ghost use Rattle.hv_rowfile.specs.declared.record.Rec.{Rec};
ghost use Rattle.hv_rowfile.specs.Layout.{head_spelling, file_spelling, rec_spelling, Leads, IsFile, IsNext, IsDamagedAt};
ghost use Rattle.hv_rowfile.specs.Faults.{IsHeadFault, IsNextFault, IsBodyFault, IsFaultIn};

use crate::fault::FileFault;
use crate::reading::fields::read_truth;
use crate::reading::records::read_next;
use crate::record::Rec;
use hv_base::RowId;
use hv_bytes::{FieldFault, read_u32, read_u64};
use std::alloc::Global;

/// The fewest bytes that spell a record: an insert of a row of no values.
const SHORTEST: usize = 26;

/// The file's kind, bucket and number of records, and the bytes behind the head.
fn read_head(bytes: &[u8]) -> Result<(bool, u32, u64, &[u8]), FileFault>
    ensures found { IfOk result (λ x. (x.1 < 2 ^ 32) × (x.2 < 2 ^ 64)
        × (bytes.now ≡ head_spelling x.0 x.1 x.2 ++ x.3.now)) }
    ensures bad { IfErr result (IsHeadFault bytes.now) }
{
    let Some(rest) = bytes.strip_prefix(b"HVR1") else {
        return Err(FileFault::Damaged { at: 0 });
    };
    let Ok((deletes, rest)) = read_truth(rest) else {
        return Err(FileFault::Damaged { at: 4 });
    };
    let Ok((bucket, rest)) = read_u32(rest) else {
        return Err(FileFault::Damaged { at: 5 });
    };
    let Ok((count, rest)) = read_u64(rest) else {
        return Err(FileFault::Damaged { at: 9 });
    };
    Ok((deletes, bucket, count, rest))
}

/// The next record, or the damage at the offset `at`.
fn next_record(
    alloc: Global,
    deletes: bool,
    bucket: u32,
    before: Option<RowId>,
    rest: &[u8],
    at: u64,
) -> Result<(Rec, &[u8]), FileFault>
    ensures found { IfOk result (λ x. IsNext deletes bucket before x.0
        × (rest.now ≡ rec_spelling x.0 ++ x.1.now)) }
    ensures bad { IfErr result (IsNextFault deletes bucket before rest.now at) }
{
    match read_next(alloc, deletes, bucket, before, rest) {
        Ok(found) => Ok(found),
        Err(FieldFault::Damaged) => Err(FileFault::Damaged { at }),
        Err(FieldFault::NoMemory) => Err(FileFault::NoMemory),
    }
}

/// So many records, which the bytes behind the head are.
fn read_records(
    alloc: Global,
    deletes: bool,
    bucket: u32,
    count: u64,
    body: &[u8],
) -> Result<Vec<Rec>, FileFault>
    ensures found { IfOk result (λ recs. (length recs.items ≡ count)
        × Leads deletes bucket None recs.items body.now []) }
    ensures bad { IfErr result (IsBodyFault deletes bucket count body.now) }
{
    let mut recs = Vec::with_capacity(alloc, (body.len() / SHORTEST).min(count as usize))?;
    let mut before = None;
    let mut rest = body;
    for _ in 0..count {
        let at = 17 + (body.len() - rest.len()) as u64;
        let (rec, after) = next_record(alloc, deletes, bucket, before, rest, at)?;
        before = Some(rec.id());
        recs.push(rec)?;
        rest = after;
    }
    if !rest.is_empty() {
        return Err(FileFault::Damaged {
            at: 17 + (body.len() - rest.len()) as u64,
        });
    }
    Ok(recs)
}

fn read_file(alloc: Global, bytes: &[u8]) -> Result<(bool, u32, Vec<Rec>), FileFault>
    ensures found { IfOk result (λ x. IsFile x.0 x.1 x.2.items
        × (bytes.now ≡ file_spelling x.0 x.1 x.2.items)) }
    ensures bad { IfErr result (IsFaultIn bytes.now) }
{
    let (deletes, bucket, count, body) = read_head(bytes)?;
    let recs = read_records(alloc, deletes, bucket, count, body)?;
    Ok((deletes, bucket, recs))
}

/// Reads a file: whether it holds deletes, its bucket, and its records. Memory is taken for the records
/// that are read, and for no more of them than the bytes have room for, whatever count the head names.
pub fn decode(alloc: Global, bytes: &[u8]) -> Result<(bool, u32, Vec<Rec>), FileFault>
    // What is read is spelled so, each byte of it.
    ensures found { IfOk result (λ x. IsFile x.0 x.1 x.2.items
        × (bytes.now ≡ file_spelling x.0 x.1 x.2.items)) }
    // What is spelled so is read, unless memory runs out.
    ensures only { (deletes : Bool) (bucket : ℕ) (recs : List Rec) → IsFile deletes bucket recs
        → bytes.now ≡ file_spelling deletes bucket recs
        → MatchResult result (λ x. (x.0 ≡ deletes) × (x.1 ≡ bucket) × (x.2.items ≡ recs))
        (λ fault. fault ≡ FileFault.NoMemory) }
    // Damage is told at the first place that is wrong, and at no other.
    ensures bad { IfErr result (IsFaultIn bytes.now) }
    ensures named { (at : ℕ) → IsDamagedAt bytes.now at → MatchResult result (λ _. ⊥)
        (λ fault. (fault ≡ FileFault.Damaged at) ⊎ (fault ≡ FileFault.NoMemory)) }
{
    read_file(alloc, bytes)
}
