//! The store in memory and the store over a folder, by rows of calls: the program prints the rows that are answered
//! otherwise. A row is
//!     KIND WORD|CALL;ARGUMENT;ARGUMENT..|CALL.. → ANSWER ANSWER..
//! with as KIND `folder`, and the store at the path WORD is opened for the row; or `memory`, and the store is a new one
//! that fails at the call WORD; or `kept`, and it is one over such a store that keeps what it has listed; or `none`, where
//! no store is open; or `events`, and the calls are made over files in memory while something happens before each call of
//! the system in turn; or `opens`, and what stands in memory is opened. A line that begins with # says what follows.
//!
//! The WORD of `events` is `FROM>TO,FROM>TO;BEFORE;AFTER;FILES`: what gets which name (where nothing does, the run is killed),
//! where what isn't to be touched stands before it and after it, and what stands in the folder `wh` at first, as
//! `/ /journal=ours` has a folder and a file.
#![tactic(auto)]

mod events;
mod folders;
mod memory_files;
mod rows;
mod steps;
mod words;

use std::io;

/// Whether a row is answered as it is to be; one that isn't is printed.
fn is_so(rt: &HostRuntime, row: &str) -> io::Result<bool> {
    let (asked, wanted) = row.split_once(" → ").unwrap_or(("", "an answer"));
    let mut out = String::new(rt.alloc());
    let so = rows::answer(rt, &mut out, asked).is_ok() && out.as_str().trim() == wanted;
    if !so {
        println!(rt; "not so: {row}: {out}")?;
    }
    Ok(so)
}

fn main(rt: HostRuntime) -> io::Result<()> {
    let text = io::read_to_string(rt.alloc(), rt.reader())?;
    let mut right = 0u64;
    for row in text.lines() {
        if !row.starts_with("#") && is_so(&rt, row)? {
            right = right.wrapping_add(1);
        }
    }
    println!(rt; "{right} rows are so")
}
