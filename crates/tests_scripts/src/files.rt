//! What the lines of a part say that changes the files of a store or asks for what it holds. Their words are counted
//! from 0; a place is four of them: a table's number, a partition's text, or `-` where the table has no partitions, a
//! directory and a bucket.

ghost use Rattle.std.specs.Prelude.{◌<◌};

use hv_base::{NoMemory, TableId, Text};
use hv_shelf::{MemoryShelf, Place, Shelf, ShelfFault};
use std::alloc::Global;

/// The word at that place, or nothing.
pub(crate) fn word<'a>(words: &[&'a str], at: usize) -> &'a str {
    match words.get(at) {
        Some(word) => *word,
        None => "",
    }
}

fn number(words: &[&str], at: usize) -> usize {
    word(words, at).parse::<usize>().unwrap_or(0)
}

/// The place that four words name, from this one on.
pub(crate) fn place_at(alloc: Global, words: &[&str], at: usize) -> Result<Place, NoMemory>
    requires near { at < 8 }
{
    let partition = word(words, at + 1);
    Ok(Place {
        table: TableId(number(words, at) as u64),
        partition: Text::of(alloc, if partition == "-" { "" } else { partition })?,
        dir: Text::of(alloc, word(words, at + 2))?,
        bucket: word(words, at + 3).parse::<u32>().unwrap_or(0),
    })
}

/// Changes a file's bytes as `copy PLACE PLACE`, `cut PLACE LENGTH` or `set PLACE OFFSET BYTE` says: `copy` leaves them
/// alone. Whether the line can be done.
fn edited(bytes: &mut Vec<u8>, words: &[&str]) -> bool {
    let at = number(words, 5);
    match word(words, 0) {
        "copy" => true,
        "cut" if at <= bytes.len() => {
            bytes.truncate(at);
            true
        }
        "set" if at < bytes.len() => {
            bytes[at] = word(words, 6).parse::<u8>().unwrap_or(0);
            true
        }
        _ => false,
    }
}

/// Where the words begin that name the place in which a changed file is put.
fn put_at(words: &[&str]) -> usize
    ensures near { result < 8 }
{
    if word(words, 0) == "copy" { 5 } else { 1 }
}

/// Puts a file that is changed as a line says, `copy` in the place of another one. Whether that could be done.
pub(crate) fn change(
    alloc: Global,
    store: &mut MemoryShelf,
    words: &[&str],
) -> Result<bool, ShelfFault> {
    let Some(mut bytes) = file_at(alloc, store, words)? else {
        return Ok(false);
    };
    if !edited(&mut bytes, words) {
        return Ok(false);
    }
    let to = place_at(alloc, words, put_at(words))?;
    store.put(&to, &bytes)?;
    Ok(true)
}

/// The bytes of the file in the place that a line names first.
pub(crate) fn file_at(
    alloc: Global,
    store: &MemoryShelf,
    words: &[&str],
) -> Result<Option<Vec<u8>>, NoMemory> {
    let place = place_at(alloc, words, 1)?;
    match store.files().get(&place) {
        Some(file) => Ok(Some(Vec::from_slice(alloc, file.as_slice())?)),
        None => Ok(None),
    }
}

/// A store of this journal and of all files but the one at `place`: a store itself takes away only whole directories.
/// Its calls are counted anew, and none of them fails.
fn store_without(
    alloc: Global,
    store: &MemoryShelf,
    place: &Place,
) -> Result<MemoryShelf, ShelfFault> {
    let mut left = MemoryShelf::new(alloc, Vec::new(alloc))?;
    left.journal_write(0, store.journal())?;
    for (other, bytes) in store.files().iter() {
        if other != place {
            left.put(other, bytes.as_slice())?;
        }
    }
    Ok(left)
}

/// Takes away a file, as `take PLACE` says. Whether it stood there.
pub(crate) fn take(
    alloc: Global,
    store: &mut MemoryShelf,
    words: &[&str],
) -> Result<bool, ShelfFault> {
    let place = place_at(alloc, words, 1)?;
    if !store.files().contains_key(&place) {
        return Ok(false);
    }
    *store = store_without(alloc, store, &place)?;
    Ok(true)
}

/// Appends a file's place and length.
fn push_file(
    alloc: Global,
    text: &mut String,
    place: &Place,
    length: usize,
) -> Result<(), NoMemory> {
    let gap = if place.partition.is_empty() { "-" } else { "" };
    let line = format!(in alloc;
        "\n  {} {gap}{} {} {}: {length} bytes",
        place.table.0, place.partition, place.dir, place.bucket
    )?;
    Ok(text.push_str(line.as_str())?)
}

/// Appends the files that stand, those of one table as `files TABLE` says, or as `files` says all.
pub(crate) fn push_files(
    alloc: Global,
    text: &mut String,
    store: &MemoryShelf,
    words: &[&str],
) -> Result<(), NoMemory> {
    let table = TableId(number(words, 1) as u64);
    for (place, bytes) in store.files().iter() {
        if words.len() == 1 || place.table == table {
            push_file(alloc, text, place, bytes.as_slice().len())?;
        }
    }
    Ok(())
}
