ghost use Rattle.std.specs.Prelude.{◌≡◌, ◌≤◌, ◌⊎◌, List, ℕ, length, IfOk, IfErr, IfSome, IfNone, MatchResult};
ghost use Rattle.hv_history.specs.declared.entry.Entry.{Entry};
ghost use Rattle.hv_history.specs.Journal.{IsJournal, Reads, IsBadAt, place_of};
ghost use Rattle.hv_journal.specs.Gates.{IsClosed, Opens, IsFaultOf, IsFaultIn};

use crate::fault::JournalFault;
use crate::reading::records::read_record;
use hv_bytes::FieldFault;
use hv_history::Entry;
use std::alloc::Global;

/// What stands at a gate, the first of these bytes: None behind a closed one; the entry of the record, and
/// the bytes behind it, for an open one. A gate that is bad is called by its place `at`.
pub fn next_record(
    alloc: Global,
    rest: &[u8],
    at: u64,
) -> Result<Option<(Entry, &[u8])>, JournalFault>
    ensures closed { IfOk result (λ found. IfNone found (IsClosed rest.now)) }
    ensures open { IfOk result (λ found. IfSome found (λ x. Opens rest.now x.0 x.1.now)) }
    ensures bad { IfErr result (IsFaultOf rest.now at) }
{
    match rest {
        [] => Err(JournalFault::BadJournal { at }),
        [0, ..] => Ok(None),
        [_, after @ ..] => match read_record(alloc, after) {
            Ok(found) => Ok(Some(found)),
            Err(FieldFault::Damaged) => Err(JournalFault::BadJournal { at }),
            Err(FieldFault::NoMemory) => Err(JournalFault::NoMemory),
        },
    }
}

/// The entries behind the open gates up to the first closed one, and its place.
fn scan(alloc: Global, bytes: &[u8]) -> Result<(Vec<Entry>, u64), JournalFault>
    requires { 2 ≤ length bytes.now }
    ensures found { IfOk result
        (λ x. Reads x.0.items bytes.now × (x.1 ≡ place_of x.0.items)) }
    ensures bad { IfErr result (IsFaultIn bytes.now) }
{
    let mut book = Vec::new(alloc);
    let mut rest = bytes;
    let mut at = 0;
    while let Some((entry, behind)) = next_record(alloc, rest, at)? {
        book.push(entry)?;
        at += (rest.len() - behind.len()) as u64;
        rest = behind;
    }
    Ok((book, at))
}

/// Reads a journal's bytes: the book, and the place of its closed gate. A journal of no byte or of one is
/// the empty book, with the place 0.
pub fn read_records(alloc: Global, bytes: &[u8]) -> Result<(Vec<Entry>, u64), JournalFault>
    // What is read is the journal's book.
    ensures found { IfOk result
        (λ x. IsJournal x.0.items bytes.now × (x.1 ≡ place_of x.0.items)) }
    // The journal's book is read, unless memory runs out.
    ensures only { (book : List Entry) → IsJournal book bytes.now
        → MatchResult result (λ x. x.0.items ≡ book) (λ fault. fault ≡ JournalFault.NoMemory) }
    // At a bad gate the journal is bad, and at no other place, unless memory runs out.
    ensures bad { IfErr result (IsFaultIn bytes.now) }
    ensures named { (at : ℕ) → IsBadAt bytes.now at → MatchResult result (λ _. ⊥)
        (λ fault. (fault ≡ JournalFault.BadJournal at) ⊎ (fault ≡ JournalFault.NoMemory)) }
{
    if bytes.len() < 2 {
        return Ok((Vec::new(alloc), 0));
    }
    scan(alloc, bytes)
}
