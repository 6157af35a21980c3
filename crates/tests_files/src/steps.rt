//! Calls of either store, as `CALL;ARGUMENT;ARGUMENT..`.
use crate::words::{number, piece};
use hv_base::{NoMemory, TableId, Text};
use hv_shelf::{DirAt, Place, Shelf};
use std::alloc::Global;
use std::str;

fn say_word(out: &mut String, word: &str) -> Result<(), NoMemory> {
    Ok(out.push_str(word)?)
}

/// Says whether something is so.
pub fn say(out: &mut String, so: bool) -> Result<(), NoMemory> {
    say_word(out, if so { "true " } else { "false " })
}

/// Says what was read.
fn say_bytes(out: &mut String, bytes: &[u8]) -> Result<(), NoMemory> {
    Ok(write!(out, "[{}] ", str::from_utf8(bytes).unwrap_or("bytes"))?)
}

/// Writes where the journal reaches.
fn writes(shelf: &mut impl Shelf, at: u64, text: &str) -> bool {
    match shelf.journal_len() {
        Ok(length) => at <= length && shelf.journal_write(at, text.as_bytes()).is_ok(),
        Err(_) => false,
    }
}

/// The number of the journal's bytes.
fn journal_length<D: Shelf>(out: &mut String, shelf: &mut D) -> Result<(), NoMemory> {
    match shelf.journal_len() {
        Ok(length) => Ok(write!(out, "{length} ")?),
        Err(_) => say_word(out, "failed "),
    }
}

/// What a read of four bytes gives from a place on.
fn read<D: Shelf>(out: &mut String, shelf: &mut D, at: u64) -> Result<(), NoMemory> {
    let mut bytes = [0; 4];
    match shelf.journal_read(at, &mut bytes) {
        Ok(count) => say_bytes(out, bytes.get(..count).unwrap_or(&[])),
        Err(_) => say_word(out, "failed "),
    }
}

/// How many calls have failed, and how many for good.
fn counts<D: Shelf>(out: &mut String, shelf: &mut D) -> Result<(), NoMemory> {
    Ok(write!(out, "{} {} ", shelf.fault_count(), shelf.hard_count())?)
}

/// The places of a table's files.
fn list<D: Shelf>(alloc: Global, out: &mut String, shelf: &mut D) -> Result<(), NoMemory> {
    let Ok(places) = shelf.list(alloc, TableId(1)) else {
        return say_word(out, "failed ");
    };
    for place in &places {
        let Place {
            partition,
            dir,
            bucket,
            ..
        } = place;
        write!(out, "{partition};{dir};{bucket} ")?;
    }
    say_word(out, "are all ")
}

/// The directory `PARTITION;DIRECTORY`.
fn dir_of(alloc: Global, call: &str) -> Result<DirAt, NoMemory> {
    let partition = Text::of(alloc, piece(call, 1))?;
    let dir = Text::of(alloc, piece(call, 2))?;
    Ok(DirAt {
        table: TableId(1),
        partition,
        dir,
    })
}

/// The file `PARTITION;DIRECTORY;BUCKET`.
fn place_of(alloc: Global, call: &str) -> Result<Place, NoMemory> {
    let bucket = piece(call, 3).parse::<u32>().unwrap_or(0);
    let DirAt {
        table,
        partition,
        dir,
    } = dir_of(alloc, call)?;
    Ok(Place {
        table,
        partition,
        dir,
        bucket,
    })
}

/// The bytes of a file.
fn get<D: Shelf>(
    alloc: Global,
    out: &mut String,
    shelf: &mut D,
    call: &str,
) -> Result<(), NoMemory> {
    let place = place_of(alloc, call)?;
    match shelf.get(alloc, &place) {
        Ok(Some(bytes)) => say_bytes(out, &bytes),
        Ok(None) => say_word(out, "none "),
        Err(_) => say_word(out, "failed "),
    }
}

/// Whether a text, the word behind the file, is put there.
fn puts<D: Shelf>(alloc: Global, shelf: &mut D, call: &str) -> Result<bool, NoMemory> {
    let place = place_of(alloc, call)?;
    Ok(shelf.put(&place, piece(call, 4).as_bytes()).is_ok())
}

/// Whether a directory gets the name that is the word behind it.
fn renames<D: Shelf>(alloc: Global, shelf: &mut D, call: &str) -> Result<bool, NoMemory> {
    let to = Text::of(alloc, piece(call, 3))?;
    let dir = dir_of(alloc, call)?;
    Ok(shelf.rename(&dir, &to).is_ok())
}

fn removes<D: Shelf>(alloc: Global, shelf: &mut D, call: &str) -> Result<bool, NoMemory> {
    let dir = dir_of(alloc, call)?;
    Ok(shelf.remove(&dir).is_ok())
}

/// Whether a call that changes something is done.
pub fn is_done<D: Shelf>(alloc: Global, shelf: &mut D, call: &str) -> Result<bool, NoMemory> {
    match piece(call, 0) {
        "put" => puts(alloc, shelf, call),
        "rename" => renames(alloc, shelf, call),
        "remove" => removes(alloc, shelf, call),
        "sync" => Ok(shelf.journal_sync().is_ok()),
        _ => Ok(writes(shelf, number(call, 1), piece(call, 2))),
    }
}

/// Says what a call answers.
pub fn step<D: Shelf>(
    alloc: Global,
    out: &mut String,
    shelf: &mut D,
    call: &str,
) -> Result<(), NoMemory> {
    match piece(call, 0) {
        "get" => get(alloc, out, shelf, call),
        "list" => list(alloc, out, shelf),
        "length" => journal_length(out, shelf),
        "read" => read(out, shelf, number(call, 1)),
        "counts" => counts(out, shelf),
        _ => {
            let done = is_done(alloc, shelf, call)?;
            say(out, done)
        }
    }
}
