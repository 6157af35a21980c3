ghost use Rattle.std.specs.Prelude.{◌≡◌, Some, length, IfOk};
ghost use Rattle.std.specs.List.{prefix_len};
ghost use Rattle.hv_rowfile.specs.Layout.{CanWrite, IsFile, file_spelling};
ghost use Rattle.hv_table_rows.specs.Amiss.{writer_of, is_within, is_kind, own_count, first_other, first_amiss};

use hv_base::NoMemory;
use hv_choosing::Span;
use hv_rowfile::{Rec, encode};
use std::alloc::Global;

/// The offsets of the kind and of the bucket in a file's head.
const KIND: u64 = 4;

const BUCKET: u64 = 5;

/// The write id that a record says: that under which its row was inserted, or deleted.
fn writer_of(rec: &Rec) -> u64
    ensures { result ≡ writer_of rec.now }
{
    match rec {
        Rec::Insert { id, .. } => id.write.0,
        Rec::Delete { by, .. } => by.0,
    }
}

fn is_within(span: Span, rec: &Rec) -> bool
    ensures { result ≡ is_within span rec.now }
{
    let writer = writer_of(rec);
    span.low <= writer && writer <= span.high
}

/// How many records at the front are of these write ids.
fn own_count(span: Span, recs: &[Rec]) -> usize
    ensures { result ≡ own_count span recs.now }
{
    recs.iter().take_while(|rec| is_within(span, rec)).count()
}

fn is_kind(deletes: bool, kind: bool) -> bool
    ensures { result ≡ is_kind deletes kind }
{
    if deletes { kind } else { !kind }
}

/// The offset behind these records of a file.
fn offset_behind(alloc: Global, deletes: bool, bucket: u32, recs: &[Rec]) -> Result<u64, NoMemory>
    requires { CanWrite deletes bucket recs.now }
    ensures { IfOk result (λ at. at ≡ length (file_spelling deletes bucket recs.now)) }
{
    let bytes = encode(alloc, deletes, bucket, recs)?;
    Ok(bytes.len() as u64)
}

/// The offset of a file's first record of another write id than these. None where all are of them.
fn first_other(
    alloc: Global,
    deletes: bool,
    bucket: u32,
    span: Span,
    recs: &[Rec],
) -> Result<Option<u64>, NoMemory>
    requires { CanWrite deletes bucket recs.now }
    ensures { IfOk result (λ at. at ≡ first_other deletes bucket span recs.now) }
{
    let own = own_count(span, recs);
    if own < recs.len() {
        Ok(Some(offset_behind(alloc, deletes, bucket, &recs[..own])?))
    } else {
        Ok(None)
    }
}

#[tactic(auto, unfolding(crate::specs::Amiss::first_amiss))]
/// The first offset at which the file of a kind and bucket with these records isn't one of the kind, the bucket and
/// the write ids that are meant. None where it is one.
pub fn first_amiss(
    alloc: Global,
    deletes: bool,
    bucket: u32,
    span: Span,
    kind: bool,
    other: u32,
    recs: &[Rec],
) -> Result<Option<u64>, NoMemory>
    requires { IsFile kind other recs.now }
    ensures { IfOk result (λ at. at ≡ first_amiss deletes bucket span kind other recs.now) }
{
    if !is_kind(deletes, kind) {
        return Ok(Some(KIND));
    }
    if other != bucket {
        return Ok(Some(BUCKET));
    }
    first_other(alloc, kind, other, span, recs)
}
