ghost use Rattle.std.specs.Prelude.{◌≡◌, ◌≢◌, ◌++◌, List, ℕ, IfOk, IsErrOf, MatchResult};
ghost use Rattle.hv_bytes.specs.Reading.{Gives};
ghost use Rattle.hv_history.specs.declared.entry.Entry.{Entry};
ghost use Rattle.hv_history.specs.Spelling.{entry_spelling, HasSpelling};
ghost use Rattle.hv_history.specs.Journal.{record_of, HasRecord};
ghost use Rattle.hv_journal.specs.Reading.{whole_of, record_at};

use crate::reading::entries::entry_of;
use hv_bytes::{FieldFault, read_u32};
use hv_history::Entry;
use std::alloc::Global;

#[tactic(auto, unfolding(crate::specs::Reading::whole_of))]
fn whole(alloc: Global, body: &[u8]) -> Result<Entry, FieldFault>
    ensures exact { Gives (λ e. e) result (whole_of body.now) }
    ensures found { IfOk result (λ e. HasSpelling e × (body.now ≡ entry_spelling e)) }
{
    let (entry, rest) = entry_of(alloc, body)?;
    if !rest.is_empty() {
        return Err(FieldFault::Damaged);
    }
    Ok(entry)
}

/// The entry that these bytes spell, all of the bytes. Damaged comes exactly where they spell none.
pub fn decode_entry(alloc: Global, body: &[u8]) -> Result<Entry, FieldFault>
    // What is read is spelled so.
    ensures found { IfOk result (λ e. HasSpelling e × (body.now ≡ entry_spelling e)) }
    // What is spelled so is read, unless memory runs out.
    ensures only { (e : Entry) → HasSpelling e → body.now ≡ entry_spelling e
        → MatchResult result (λ d. d ≡ e) (λ fault. fault ≡ FieldFault.NoMemory) }
    ensures damaged { IsErrOf result FieldFault.Damaged → (e : Entry) → HasSpelling e
        → body.now ≢ entry_spelling e }
{
    whole(alloc, body)
}

#[tactic(auto, unfolding(crate::specs::Reading::record_at))]
fn record_front(alloc: Global, bytes: &[u8]) -> Result<(Entry, &[u8]), FieldFault>
    ensures exact { Gives (λ x. (x.0, x.1.now)) result (record_at bytes.now) }
    ensures found { IfOk result (λ x. HasRecord x.0 × (bytes.now ≡ record_of x.0 ++ x.1.now)) }
{
    let (len, rest) = read_u32(bytes)?;
    let len = len as usize;
    if rest.len() < len {
        return Err(FieldFault::Damaged);
    }
    let (body, rest) = rest.split_at(len);
    let entry = whole(alloc, body)?;
    Ok((entry, rest))
}

/// The entry of the record that the bytes begin with, and the bytes behind it.
pub fn read_record(alloc: Global, bytes: &[u8]) -> Result<(Entry, &[u8]), FieldFault>
    ensures found { IfOk result (λ x. HasRecord x.0 × (bytes.now ≡ record_of x.0 ++ x.1.now)) }
    ensures damaged { IsErrOf result FieldFault.Damaged → (e : Entry) (rest : List ℕ) → HasRecord e
        → bytes.now ≢ record_of e ++ rest }
{
    record_front(alloc, bytes)
}
