ghost use Rattle.std.specs.Prelude.{◌≡◌, ◌≤◌, ◌<◌, ◌^◌, length, vec_capacity};
ghost use Rattle.hv_history.specs.Spelling.{entry_spelling};
ghost use Rattle.hv_history.specs.Journal.{record_of};

use crate::words::{number, piece, spelled};
use hv_base::NoMemory;
use hv_history::Entry;
use hv_journal::{
    JournalFault, append, decode_entry, encode_entry, open_empty, read_records, record_length,
};
use hv_shelf::{Fail, MemoryShelf, Op};
use std::alloc::Global;

// Whether an entry is written to these bytes behind their length.
fn is_written(alloc: Global, entry: &Entry, body: &[u8]) -> Result<bool, NoMemory>
    requires { length (entry_spelling entry.now) < 2 ^ 32 }
{
    let mut record = Vec::with_capacity(alloc, record_length(entry))?;
    encode_entry(&mut record, entry);
    let length = u32::try_from(body.len()).unwrap_or(0).to_be_bytes();
    Ok(record.starts_with(&length) && record.get(4..) == Some(body))
}

fn say_entry(alloc: Global, out: &mut String, entry: &Entry, body: &[u8]) -> Result<(), NoMemory>
    requires { length (entry_spelling entry.now) < 2 ^ 32 }
{
    let again = is_written(alloc, entry, body)?;
    Ok(write!(out, "{again} {entry:?}")?)
}

fn say_decoded(alloc: Global, out: &mut String, body: &[u8]) -> Result<(), NoMemory> {
    if 1000 < body.len() {
        return Ok(());
    }
    match decode_entry(alloc, body) {
        Ok(entry) => say_entry(alloc, out, &entry, body),
        Err(fault) => Ok(write!(out, "{fault:?}")?),
    }
}

/// The entry that the bytes spell, and whether it is written to them again.
pub fn entry(alloc: Global, out: &mut String, words: &[&str]) -> Result<(), NoMemory> {
    let body = spelled(alloc, piece(words, 0))?;
    say_decoded(alloc, out, &body)
}

/// The entries of a journal and the place of its closed gate, or where it is bad.
pub fn records(alloc: Global, out: &mut String, words: &[&str]) -> Result<(), NoMemory> {
    let bytes = spelled(alloc, piece(words, 0))?;
    let done = match read_records(alloc, &bytes) {
        Ok((book, place)) => write!(out, "{book:?} {place}"),
        Err(JournalFault::BadJournal { at }) => write!(out, "bad {at}"),
        Err(fault) => write!(out, "{fault}"),
    };
    Ok(done?)
}

#[tactic(auto, using(hv_journal::proofs::Room::room), unfolding(hv_history::specs::Journal::record_of))]
fn opening(run: u64) -> Entry
    ensures can { length (entry_spelling result) < 2 ^ 32 }
    ensures long { length (record_of result) ≡ 13 }
{
    Entry::Boot { run }
}

// Whether an append of a Boot, or of two at once, is acknowledged, and where the closed gate is said to stand.
fn append_openings(shelf: &mut MemoryShelf, two: bool, buffer: &mut Vec<u8>) -> (bool, u64)
    requires empty { length shelf.old.store.journal ≡ 1 }
    requires room { 64 ≤ vec_capacity buffer.old }
{
    let mut place = 0;
    let boot = opening(0);
    let done = if two {
        append(shelf, &mut place, &boot, &[opening(7)], buffer).is_ok()
    } else {
        append(shelf, &mut place, &boot, &[], buffer).is_ok()
    };
    (done, place)
}

fn say_appended(
    alloc: Global,
    out: &mut String,
    shelf: &mut MemoryShelf,
    two: bool,
) -> Result<(), NoMemory>
    requires empty { length shelf.old.store.journal ≤ 1 }
{
    if open_empty(shelf).is_err() || shelf.journal().len() != 1 {
        return Ok(());
    }
    let mut buffer = Vec::with_capacity(alloc, 64)?;
    let (done, place) = append_openings(shelf, two, &mut buffer);
    Ok(write!(out, "{done} {place} {:?}", shelf.journal())?)
}

/// Appends a Boot, or two at once, to an empty journal whose write or sync of that number fails. Shows whether it was
/// acknowledged, where the closed gate is said to stand, and the journal.
pub fn appended(alloc: Global, out: &mut String, words: &[&str]) -> Result<(), NoMemory> {
    let op = if piece(words, 0) == "write" {
        Op::JournalWrite
    } else {
        Op::JournalSync
    };
    let nth = number(words, 1);
    let mut shelf = MemoryShelf::new(alloc, vec![in alloc; Fail { op, nth }]?)?;
    say_appended(alloc, out, &mut shelf, piece(words, 2) == "two")
}
