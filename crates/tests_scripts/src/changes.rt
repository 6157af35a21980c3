//! The lines of a part that changes the files of a store or asks for what it holds, with what is answered:
//!
//! | line | what it does |
//! |---|---|
//! | `copy PLACE PLACE` | the bytes of one file are put in the place of another |
//! | `cut PLACE LENGTH` | a file is cut to its first bytes |
//! | `set PLACE OFFSET BYTE` | one byte of a file becomes another one |
//! | `take PLACE` | a file is taken away |
//! | `files TABLE`, `files` | the files of a table, or all, with their lengths |
//! | `bytes PLACE`, `journal` | the bytes of a file, or of the journal |
//!
//! A line that names a file or a byte that isn't there is answered with `refused`.

use crate::files::{change, file_at, push_files, take, word};
use hv_base::NoMemory;
use hv_shelf::{MemoryShelf, ShelfFault};
use std::alloc::Global;

/// Appends bytes, each as a space and two digits.
fn push_bytes(alloc: Global, text: &mut String, bytes: &[u8]) -> Result<(), NoMemory> {
    for byte in bytes {
        let digits = format!(in alloc; " {byte:02x}")?;
        text.push_str(digits.as_str())?;
    }
    Ok(())
}

/// Appends the bytes of the file in the place that a line names.
fn push_file_bytes(
    alloc: Global,
    text: &mut String,
    store: &MemoryShelf,
    words: &[&str],
) -> Result<(), NoMemory> {
    match file_at(alloc, store, words)? {
        Some(bytes) => push_bytes(alloc, text, &bytes),
        None => Ok(text.push_str(" refused")?),
    }
}

/// Does what a line says that changes a file. Whether that could be done.
fn changed(alloc: Global, store: &mut MemoryShelf, words: &[&str]) -> Result<bool, ShelfFault> {
    if word(words, 0) == "take" {
        return take(alloc, store, words);
    }
    change(alloc, store, words)
}

/// Appends what the store holds, as `files`, `bytes` or `journal` asks. Whether it is such a line.
fn shown(
    alloc: Global,
    text: &mut String,
    store: &MemoryShelf,
    words: &[&str],
) -> Result<bool, NoMemory> {
    let pushed = match word(words, 0) {
        "files" => push_files(alloc, text, store, words),
        "bytes" => push_file_bytes(alloc, text, store, words),
        "journal" => push_bytes(alloc, text, store.journal()),
        _ => return Ok(false),
    };
    pushed?;
    Ok(true)
}

/// Does what a line says, and appends it with what is answered: `LINE: done`, `LINE: refused`, or `LINE:` and what is shown.
fn answer(
    alloc: Global,
    store: &mut MemoryShelf,
    line: &str,
    text: &mut String,
) -> Result<(), ShelfFault> {
    let words: Vec<&str> = line.split(' ').collect(alloc)?;
    text.push_str(line)?;
    text.push_str(":")?;
    if !shown(alloc, text, store, &words)? {
        let done = changed(alloc, store, &words)?;
        text.push_str(if done { " done" } else { " refused" })?;
    }
    Ok(text.push_str("\n")?)
}

/// Does what each of these lines says, and gives the store back. Empty lines are passed over.
pub(crate) fn change_all(
    alloc: Global,
    store: MemoryShelf,
    lines: &str,
    text: &mut String,
) -> Result<MemoryShelf, ShelfFault> {
    let mut store = store;
    for line in lines.lines() {
        if !line.is_empty() {
            answer(alloc, &mut store, line, text)?;
        }
    }
    Ok(store)
}
