//! Words that are read, and words and lines that are printed.

use std::alloc::Global;
use std::io;

/// What stands before the first of these marks, and what behind it.
pub(crate) fn cut<'a>(line: &'a str, mark: char) -> (&'a str, &'a str) {
    match line.split_once(mark) {
        Some(parts) => parts,
        None => (line, ""),
    }
}

pub(crate) fn number(word: &str) -> u64 {
    word.parse::<u64>().unwrap_or(0)
}

/// A word more.
pub(crate) fn add(said: &mut String, word: &str) -> io::Result<()> {
    said.push_str(word)?;
    Ok(())
}

/// A line more.
pub(crate) fn say(said: &mut String, line: &str) -> io::Result<()> {
    said.push_str(line)?;
    said.push_str("\n")?;
    Ok(())
}

/// A word and a number more.
pub(crate) fn add_number(
    alloc: Global,
    said: &mut String,
    word: &str,
    number: u64,
) -> io::Result<()> {
    let text = format!(in alloc; "{word}{number}")?;
    add(said, text.as_str())
}

/// A line more, of a word and a number.
pub(crate) fn say_number(
    alloc: Global,
    said: &mut String,
    word: &str,
    number: u64,
) -> io::Result<()> {
    add_number(alloc, said, word, number)?;
    add(said, "\n")
}
