ghost use Rattle.std.specs.Prelude.{◌≡◌, ◌∷◌, ◌++◌, ◌≤◌, Option, List, ℕ, true, false, length, IfOk, IsErrOf};
ghost use Rattle.std.specs.List.{AllByRecursion};
ghost use Rattle.hv_rowfile.specs.Layout.{row_spelling, key_spelling, rec_spelling, ValueFits, RowIsTaken, KeyIsTaken, KeyFits, RecIsTaken, RecFits, IsNext, HasNoNext, ValueIsTaken};
ghost use Rattle.hv_bytes.specs.Spelling.{four_bytes};
ghost use Rattle.hv_bytes.specs.Reading.{Gives};
ghost use Rattle.hv_rowfile.specs.Reading.{row_of, key_at, row_at, insert_at, delete_at, rec_at, follows, next_at};

use crate::forms::Values;
use crate::record::Rec;
use hv_base::{List, RowId, WriteId};
use hv_bytes::{FieldFault, read_items, read_u16, read_u32, read_u64};
use hv_value::{Row, Value};
use std::alloc::Global;

/// All of the bytes as one row.
#[tactic(auto, unfolding(crate::specs::Reading::row_of))]
fn whole_row(alloc: Global, bytes: &[u8]) -> Result<Row, FieldFault>
    ensures exact { Gives (λ row. row) result (row_of bytes.now) }
    ensures found { IfOk result (λ row. AllByRecursion ValueIsTaken row.values
        × AllByRecursion ValueFits row.values × (bytes.now ≡ row_spelling row)
        × (length row.values ≤ 65535)) }
{
    let (count, rest) = read_u16(bytes)?;
    let (values, rest) = read_items::<Value, Values>(alloc, count as u32, rest)?;
    if !rest.is_empty() {
        return Err(FieldFault::Damaged);
    }
    Ok(Row {
        values: List::from_vec(values),
    })
}

/// The identifier of a row of this bucket.
#[tactic(auto, unfolding(crate::specs::Reading::key_at, crate::specs::Layout::key_spelling))]
fn read_key(bucket: u32, bytes: &[u8]) -> Result<(RowId, &[u8]), FieldFault>
    ensures exact { Gives (λ x. (x.0, x.1.now)) result (key_at bucket bytes.now) }
    ensures found { IfOk result (λ x. KeyIsTaken bucket x.0 × KeyFits x.0
        × (bytes.now ≡ key_spelling x.0 ++ x.1.now)) }
{
    let (write, rest) = read_u64(bytes)?;
    let (statement, rest) = read_u32(rest)?;
    let (row, rest) = read_u64(rest)?;
    if write == 0 {
        return Err(FieldFault::Damaged);
    }
    let id = RowId {
        write: WriteId(write),
        statement,
        bucket,
        row,
    };
    Ok((id, rest))
}

/// A length and so many bytes, which spell a row.
#[tactic(auto, unfolding(crate::specs::Reading::row_at))]
fn read_row(alloc: Global, bytes: &[u8]) -> Result<(Row, &[u8]), FieldFault>
    ensures exact { Gives (λ x. (x.0, x.1.now)) result (row_at bytes.now) }
    ensures found { IfOk result (λ x. RowIsTaken x.0 × AllByRecursion ValueFits x.0.values
        × (bytes.now ≡ (four_bytes (length (row_spelling x.0)) ++ row_spelling x.0) ++ x.1.now)) }
{
    let (len, rest) = read_u32(bytes)?;
    if len > 65_538 {
        return Err(FieldFault::Damaged);
    }
    let len = len as usize;
    if rest.len() < len {
        return Err(FieldFault::Damaged);
    }
    let (body, rest) = rest.split_at(len);
    let row = whole_row(alloc, body)?;
    Ok((row, rest))
}

#[tactic(auto, unfolding(crate::specs::Reading::insert_at, crate::specs::Layout::rec_spelling))]
fn read_insert(alloc: Global, bucket: u32, bytes: &[u8]) -> Result<(Rec, &[u8]), FieldFault>
    ensures exact { Gives (λ x. (x.0, x.1.now)) result (insert_at bucket bytes.now) }
    ensures found { IfOk result (λ x. RecIsTaken false bucket x.0 × RecFits x.0
        × (bytes.now ≡ rec_spelling x.0 ++ x.1.now)) }
{
    let (id, rest) = read_key(bucket, bytes)?;
    let (row, rest) = read_row(alloc, rest)?;
    Ok((Rec::Insert { id, row }, rest))
}

#[tactic(auto, unfolding(crate::specs::Reading::delete_at, crate::specs::Layout::rec_spelling))]
fn read_delete(bucket: u32, bytes: &[u8]) -> Result<(Rec, &[u8]), FieldFault>
    ensures exact { Gives (λ x. (x.0, x.1.now)) result (delete_at bucket bytes.now) }
    ensures found { IfOk result (λ x. RecIsTaken true bucket x.0 × RecFits x.0
        × (bytes.now ≡ rec_spelling x.0 ++ x.1.now)) }
{
    let (id, rest) = read_key(bucket, bytes)?;
    let (by, rest) = read_u64(rest)?;
    if by == 0 {
        return Err(FieldFault::Damaged);
    }
    let deleted = Rec::Delete {
        id,
        by: WriteId(by),
    };
    Ok((deleted, rest))
}

#[tactic(auto, unfolding(crate::specs::Reading::rec_at))]
fn read_rec(
    alloc: Global,
    deletes: bool,
    bucket: u32,
    bytes: &[u8],
) -> Result<(Rec, &[u8]), FieldFault>
    ensures exact { Gives (λ x. (x.0, x.1.now)) result (rec_at deletes bucket bytes.now) }
    ensures found { IfOk result (λ x. RecIsTaken deletes bucket x.0 × RecFits x.0
        × (bytes.now ≡ rec_spelling x.0 ++ x.1.now)) }
{
    if deletes {
        read_delete(bucket, bytes)
    } else {
        read_insert(alloc, bucket, bytes)
    }
}

fn follows(before: Option<RowId>, rec: &Rec) -> bool
    ensures { result ≡ follows before rec.now }
{
    match before {
        None => true,
        Some(before) => before < rec.id(),
    }
}

#[tactic(auto, unfolding(crate::specs::Reading::next_at))]
fn next_of(
    alloc: Global,
    deletes: bool,
    bucket: u32,
    before: Option<RowId>,
    bytes: &[u8],
) -> Result<(Rec, &[u8]), FieldFault>
    ensures exact { Gives (λ x. (x.0, x.1.now)) result (next_at deletes bucket before bytes.now) }
    ensures found { IfOk result (λ x. IsNext deletes bucket before x.0
        × (bytes.now ≡ rec_spelling x.0 ++ x.1.now)) }
{
    let (rec, rest) = read_rec(alloc, deletes, bucket, bytes)?;
    if !follows(before, &rec) {
        return Err(FieldFault::Damaged);
    }
    Ok((rec, rest))
}

/// The record that the bytes begin with, where one may stand behind `before`, and the bytes behind it.
pub fn read_next(
    alloc: Global,
    deletes: bool,
    bucket: u32,
    before: Option<RowId>,
    bytes: &[u8],
) -> Result<(Rec, &[u8]), FieldFault>
    ensures found { IfOk result (λ x. IsNext deletes bucket before x.0
        × (bytes.now ≡ rec_spelling x.0 ++ x.1.now)) }
    ensures damaged { IsErrOf result FieldFault.Damaged
        → HasNoNext deletes bucket before bytes.now }
{
    next_of(alloc, deletes, bucket, before, bytes)
}
