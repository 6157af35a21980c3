ghost use Rattle.std.specs.Prelude.{◌≡◌, ◌++◌, IfOk};
ghost use Rattle.hv_bytes.specs.Reading.{Gives};
ghost use Rattle.hv_history.specs.Spelling.{touch_spelling, touches_spelling, row_spelling, place_spelling, kind_spelling, TouchHasSpelling, TouchesHaveSpelling, RowHasSpelling, PlaceHasSpelling};
ghost use Rattle.hv_journal.specs.Reading.{touch_at, touches_at, row_at, place_at, kind_at};

use crate::lists::Touches;
use hv_base::{List, RowId, TableId, Touch, WriteId};
use hv_bytes::{FieldFault, read_items, read_text, read_u32, read_u64};
use hv_history::{FilePlace, JobKind};
use std::alloc::Global;

#[tactic(auto, unfolding(crate::specs::Reading::touch_at, hv_history::specs::Spelling::touch_spelling))]
pub fn read_touch(alloc: Global, bytes: &[u8]) -> Result<(Touch, &[u8]), FieldFault>
    ensures exact { Gives (λ x. (x.0, x.1.now)) result (touch_at bytes.now) }
    ensures found { IfOk result
        (λ x. TouchHasSpelling x.0 × (bytes.now ≡ touch_spelling x.0 ++ x.1.now)) }
{
    let (table, rest) = read_u64(bytes)?;
    let (partition, rest) = read_text(alloc, rest)?;
    let (inserted, rest) = read_u64(rest)?;
    let (deleted, rest) = read_u64(rest)?;
    let touch = Touch {
        table: TableId(table),
        partition,
        inserted,
        deleted,
    };
    Ok((touch, rest))
}

#[tactic(auto, unfolding(crate::specs::Reading::touches_at, hv_history::specs::Spelling::touches_spelling))]
pub fn touches_of(alloc: Global, bytes: &[u8]) -> Result<(List<Touch>, &[u8]), FieldFault>
    ensures exact { Gives (λ x. (x.0, x.1.now)) result (touches_at bytes.now) }
    ensures found { IfOk result
        (λ x. TouchesHaveSpelling x.0 × (bytes.now ≡ touches_spelling x.0 ++ x.1.now)) }
{
    let (count, rest) = read_u32(bytes)?;
    let (touches, rest) = read_items::<Touch, Touches>(alloc, count, rest)?;
    Ok((List::from_vec(touches), rest))
}

#[tactic(auto, unfolding(crate::specs::Reading::row_at, hv_history::specs::Spelling::row_spelling))]
pub fn row_of(bytes: &[u8]) -> Result<(RowId, &[u8]), FieldFault>
    ensures exact { Gives (λ x. (x.0, x.1.now)) result (row_at bytes.now) }
    ensures found { IfOk result
        (λ x. RowHasSpelling x.0 × (bytes.now ≡ row_spelling x.0 ++ x.1.now)) }
{
    let (write, rest) = read_u64(bytes)?;
    let (statement, rest) = read_u32(rest)?;
    let (bucket, rest) = read_u32(rest)?;
    let (row, rest) = read_u64(rest)?;
    let row = RowId {
        write: WriteId(write),
        statement,
        bucket,
        row,
    };
    Ok((row, rest))
}

#[tactic(auto, unfolding(crate::specs::Reading::place_at, hv_history::specs::Spelling::place_spelling))]
pub fn place_of(alloc: Global, bytes: &[u8]) -> Result<(FilePlace, &[u8]), FieldFault>
    ensures exact { Gives (λ x. (x.0, x.1.now)) result (place_at bytes.now) }
    ensures found { IfOk result
        (λ x. PlaceHasSpelling x.0 × (bytes.now ≡ place_spelling x.0 ++ x.1.now)) }
{
    let (table, rest) = read_u64(bytes)?;
    let (partition, rest) = read_text(alloc, rest)?;
    let (dir, rest) = read_text(alloc, rest)?;
    let (bucket, rest) = read_u32(rest)?;
    let (at, rest) = read_u64(rest)?;
    let place = FilePlace {
        table: TableId(table),
        partition,
        dir,
        bucket,
        at,
    };
    Ok((place, rest))
}

#[tactic(auto, unfolding(crate::specs::Reading::kind_at))]
pub fn kind_of(bytes: &[u8]) -> Result<(JobKind, &[u8]), FieldFault>
    ensures exact { Gives (λ x. (x.0, x.1.now)) result (kind_at bytes.now) }
    ensures found { IfOk result (λ x. bytes.now ≡ kind_spelling x.0 ++ x.1.now) }
{
    match bytes {
        [1, rest @ ..] => Ok((JobKind::Minor, rest)),
        [2, rest @ ..] => Ok((JobKind::Major, rest)),
        _ => Err(FieldFault::Damaged),
    }
}
