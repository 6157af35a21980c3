//! Asks the libraries of texts, scripts, statements and values each row of the input, and prints the rows that they answer otherwise.
//! A row is
//!     LIBRARY CALL ARGUMENT|ARGUMENT.. → ANSWER
//! where ␀, ␉, ␊ and ␍ stand for the character 0, a tab, a line feed and a carriage return. A line that begins with # says what
//! follows.
#![tactic(auto)]

mod cells;
mod dates;
mod inserts;
mod language;
mod routes;
mod scripts;
mod texts;
mod values;
mod words;

use crate::words::plain;
use hv_base::NoMemory;
use std::alloc::Global;
use std::io;
use std::io::{BufRead, BufReader};

fn call(
    alloc: Global,
    out: &mut String,
    library: &str,
    call: &str,
    words: &[&str],
) -> Result<(), NoMemory> {
    match library {
        "text" => texts::answer(alloc, out, call, words),
        "script" => scripts::answer(alloc, out, call, words),
        "value" => values::answer(alloc, out, call, words),
        "dates" => dates::answer(alloc, out, words),
        "route" => routes::answer(alloc, out, call, words),
        "language" => language::answer(alloc, out, call, words),
        "inserts" => inserts::answer(alloc, out, words),
        _ => Ok(()),
    }
}

fn answer(alloc: Global, out: &mut String, row: &str) -> Result<(), NoMemory> {
    let (library, rest) = row.split_once(' ').unwrap_or((row, ""));
    let (name, rest) = rest.split_once(' ').unwrap_or((rest, ""));
    let words: Vec<&str> = rest.split('|').collect(alloc)?;
    call(alloc, out, library, name, &words)
}

fn main(rt: HostRuntime) -> io::Result<()> {
    let alloc = rt.alloc();
    let mut right = 0u64;
    for line in BufReader::new(alloc, rt.reader())?.lines(alloc) {
        let line = line?;
        if line.starts_with("#") {
            continue;
        }
        let row = plain(alloc, line.as_str())?;
        let (asked, wanted) = row.as_str().split_once(" → ").unwrap_or(("", "an answer"));
        let mut out = String::new(alloc);
        if answer(alloc, &mut out, asked).is_ok() && out.as_str() == wanted {
            right = right.wrapping_add(1);
        } else {
            println!(rt; "not so: {line}: {out}")?;
        }
    }
    println!(rt; "{right} rows are so")
}
