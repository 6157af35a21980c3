ghost use Rattle.std.specs.Prelude.{◌≡◌, ◌<◌, ◌^◌, length, IfOk};
ghost use Rattle.hv_bytes.specs.Writing.{HasRoom, Appends};
ghost use Rattle.hv_rowfile.specs.Layout.{head_spelling, file_spelling, CanWrite, IsFile};

use crate::record::Rec;
use crate::writing::records::{put_recs, recs_length};
use hv_base::NoMemory;
use hv_bytes::{put_byte, put_bytes, put_u32, put_u64};
use std::alloc::Global;

/// How many bytes the head has.
const HEAD: usize = 17;

#[tactic(auto, using(crate::proofs::RowLemmas::lengths), unfolding(crate::specs::Layout::head_spelling))]
fn put_head(out: &mut Vec<u8>, deletes: bool, bucket: u32, count: u64)
    requires { HasRoom out.old (head_spelling deletes bucket count) }
    ensures appended { Appends out.old out.new (head_spelling deletes bucket count) }
    ensures bucket_fits { bucket < 2 ^ 32 }
    ensures count_fits { count < 2 ^ 64 }
{
    put_bytes(out, b"HVR1");
    put_byte(out, u8::from(deletes));
    put_u32(out, bucket);
    put_u64(out, count);
}

/// The one spelling of these records as a file of this kind and bucket. Its length is worked out first, so
/// that it takes memory once.
#[tactic(auto, using(crate::proofs::RowLemmas::lengths), unfolding(crate::specs::Layout::file_spelling))]
pub fn encode(alloc: Global, deletes: bool, bucket: u32, recs: &[Rec]) -> Result<Vec<u8>, NoMemory>
    requires { CanWrite deletes bucket recs.now }
    ensures spelled { IfOk result (λ bytes. bytes.items ≡ file_spelling deletes bucket recs.now) }
    // So `decode` reads it again.
    ensures file { IfOk result (λ _. IsFile deletes bucket recs.now) }
{
    let Some(body) = recs_length(deletes, bucket, recs) else {
        return Err(NoMemory);
    };
    let mut out = Vec::with_capacity(alloc, body.saturating_add(HEAD))?;
    put_head(&mut out, deletes, bucket, recs.len() as u64);
    put_recs(&mut out, deletes, bucket, recs);
    Ok(out)
}
