//! Asks the journal, the recovery and the counts each row of the input, and prints the rows that they answer otherwise. A
//! row is
//!     CALL ARGUMENT|ARGUMENT.. → ANSWER
//! A line that begins with # says what follows.
#![tactic(auto)]

mod counts;
mod journals;
mod recovery;
mod words;

use hv_base::NoMemory;
use std::alloc::Global;
use std::io;

fn call(alloc: Global, out: &mut String, name: &str, words: &[&str]) -> Result<(), NoMemory> {
    match name {
        "entry" => journals::entry(alloc, out, words),
        "records" => journals::records(alloc, out, words),
        "append" => journals::appended(alloc, out, words),
        "recover" => recovery::recover(alloc, out, words),
        "boots" => recovery::boots(alloc, out, words),
        "count" => counts::count(alloc, out, words),
        _ => Ok(()),
    }
}

fn answer(alloc: Global, out: &mut String, row: &str) -> Result<(), NoMemory> {
    let (name, rest) = row.split_once(' ').unwrap_or((row, ""));
    let words: Vec<&str> = rest.split('|').collect(alloc)?;
    call(alloc, out, name, &words)
}

/// Whether a row is answered as it is to be; one that isn't is printed.
fn is_so(rt: &HostRuntime, row: &str) -> io::Result<bool> {
    let (asked, wanted) = row.split_once(" → ").unwrap_or(("", "an answer"));
    let mut out = String::new(rt.alloc());
    let so = answer(rt.alloc(), &mut out, asked).is_ok() && out.as_str() == wanted;
    if !so {
        println!(rt; "not so: {row}: {out}")?;
    }
    Ok(so)
}

fn main(rt: HostRuntime) -> io::Result<()> {
    let text = io::read_to_string(rt.alloc(), rt.reader())?;
    let mut right = 0u64;
    for row in text.lines() {
        if !row.starts_with("#") && is_so(&rt, row)? {
            right = right.wrapping_add(1);
        }
    }
    println!(rt; "{right} rows are so")
}
