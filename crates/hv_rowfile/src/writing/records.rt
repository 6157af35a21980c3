ghost use Rattle.std.specs.Prelude.{◌≡◌, ◌+◌, ◌≤◌, ◌++◌, length, IfSome};
ghost use Rattle.std.specs.List.{flat_map, AllByRecursion};
ghost use Rattle.hv_bytes.specs.Spelling.{four_bytes};
ghost use Rattle.hv_bytes.specs.Writing.{HasRoom, Appends};
ghost use Rattle.hv_rowfile.specs.Layout.{row_spelling, key_spelling, rec_spelling, RowIsTaken, RecIsTaken, KeyFits, RecFits, ValueFits};

use crate::forms::Values;
use crate::record::Rec;
use hv_base::{RowId, WriteId};
use hv_bytes::{items_length, put_items, put_u16, put_u32, put_u64};
use hv_value::{Row, Value};

/// How many bytes spell the row, its length not counted.
#[tactic(auto, using(crate::proofs::RowLemmas::lengths))]
fn row_length(row: &Row) -> usize
    requires { RowIsTaken row.now }
    ensures { result ≡ length (row_spelling row.now) }
{
    2 + items_length::<Value, Values>(row.values.as_slice())
}

/// How many bytes spell the record, 65,562 at most.
#[tactic(auto, using(crate::proofs::RowLemmas::lengths))]
fn rec_length(deletes: bool, bucket: u32, rec: &Rec) -> usize
    requires { RecIsTaken deletes bucket rec.now }
    ensures { result ≡ length (rec_spelling rec.now) }
{
    match rec {
        Rec::Insert { row, .. } => 24 + row_length(row),
        Rec::Delete { .. } => 28,
    }
}

/// How many bytes spell the records, where `usize` can say it.
pub fn recs_length(deletes: bool, bucket: u32, recs: &[Rec]) -> Option<usize>
    requires { AllByRecursion (RecIsTaken deletes bucket) recs.now }
    ensures { IfSome result (λ n. n ≡ length (flat_map rec_spelling recs.now)) }
{
    let mut total = 0_usize;
    for rec in recs {
        total = total.checked_add(rec_length(deletes, bucket, rec))?;
    }
    Some(total)
}

#[tactic(auto, using(crate::proofs::RowLemmas::lengths), unfolding(crate::specs::Layout::key_spelling))]
fn put_key(out: &mut Vec<u8>, id: RowId)
    requires { HasRoom out.old (key_spelling id) }
    ensures appended { Appends out.old out.new (key_spelling id) }
    ensures fits { KeyFits id }
{
    put_u64(out, id.write.0);
    put_u32(out, id.statement);
    put_u64(out, id.row);
}

#[tactic(auto, using(crate::proofs::RowLemmas::lengths), unfolding(crate::specs::Layout::row_spelling))]
fn put_row(out: &mut Vec<u8>, row: &Row)
    requires room { HasRoom out.old (four_bytes (length (row_spelling row.now)) ++ row_spelling row.now) }
    requires taken { RowIsTaken row.now }
    ensures appended { Appends out.old out.new
        (four_bytes (length (row_spelling row.now)) ++ row_spelling row.now) }
    ensures fits { AllByRecursion ValueFits row.now.values }
{
    let values = row.values.as_slice();
    put_u32(out, row_length(row) as u32);
    put_u16(out, values.len() as u16);
    put_items::<Value, Values>(out, values);
}

#[tactic(auto, using(crate::proofs::RowLemmas::lengths), unfolding(crate::specs::Layout::rec_spelling))]
fn put_insert(out: &mut Vec<u8>, id: RowId, row: &Row)
    requires room { HasRoom out.old (rec_spelling (Rec.Insert id row.now)) }
    requires taken { RowIsTaken row.now }
    ensures appended { Appends out.old out.new (rec_spelling (Rec.Insert id row.now)) }
    ensures fits { RecFits (Rec.Insert id row.now) }
{
    put_key(out, id);
    put_row(out, row);
}

#[tactic(auto, using(crate::proofs::RowLemmas::lengths), unfolding(crate::specs::Layout::rec_spelling))]
fn put_delete(out: &mut Vec<u8>, id: RowId, by: WriteId)
    requires { HasRoom out.old (rec_spelling (Rec.Delete id by)) }
    ensures appended { Appends out.old out.new (rec_spelling (Rec.Delete id by)) }
    ensures fits { RecFits (Rec.Delete id by) }
{
    put_key(out, id);
    put_u64(out, by.0);
}

fn put_rec(out: &mut Vec<u8>, deletes: bool, bucket: u32, rec: &Rec)
    requires room { HasRoom out.old (rec_spelling rec.now) }
    requires taken { RecIsTaken deletes bucket rec.now }
    ensures appended { Appends out.old out.new (rec_spelling rec.now) }
    ensures fits { RecFits rec.now }
{
    match rec {
        Rec::Insert { id, row } => put_insert(out, *id, row),
        Rec::Delete { id, by } => put_delete(out, *id, *by),
    }
}

pub fn put_recs(out: &mut Vec<u8>, deletes: bool, bucket: u32, recs: &[Rec])
    requires room { HasRoom out.old (flat_map rec_spelling recs.now) }
    requires taken { AllByRecursion (RecIsTaken deletes bucket) recs.now }
    ensures appended { Appends out.old out.new (flat_map rec_spelling recs.now) }
    ensures fits { AllByRecursion RecFits recs.now }
{
    for rec in recs {
        put_rec(out, deletes, bucket, rec);
    }
}
