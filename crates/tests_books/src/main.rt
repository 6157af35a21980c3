//! Worked books: texts and what became of them, row by row, and what is printed and known then. The program prints the
//! rows that are answered otherwise. A row is
//!     CALL ARGUMENT|ARGUMENT.. → ANSWER
//! where ␉ and ␊ stand for a tab and a line feed, and a row that only adds to the book has no answer. A line that begins
//! with # says what follows, over a book without entries.
#![tactic(auto)]

mod answers;
mod asking;
mod happening;
mod listing;
mod meanings;
mod replay;
mod tables;
mod taking;
mod transactions;
mod words;

use crate::words::plain;
use hv_base::NoMemory;
use hv_book::Book;
use std::alloc::Global;
use std::io;
use std::io::{BufRead, BufReader};
use std::mem::ManuallyDrop;

fn call(
    alloc: Global,
    out: &mut String,
    book: &mut Book,
    call: &str,
    words: &[&str],
) -> Result<(), NoMemory> {
    match call {
        "takes" => happening::takes(alloc, out, book, words),
        "commits" => happening::commits(alloc, book, words),
        "prints" => asking::prints(alloc, out, book, words),
        "known" => asking::known(alloc, out, book, words),
        "tables" => asking::tables(alloc, out, book, words),
        "list" => asking::list(alloc, out, book, words),
        "runs" => asking::runs(alloc, out, words),
        _ => happening::happens(book, call, words),
    }
}

fn answer(alloc: Global, out: &mut String, book: &mut Book, row: &str) -> Result<(), NoMemory> {
    let (name, rest) = row.split_once(' ').unwrap_or((row, ""));
    let words: Vec<&str> = rest.split('|').collect(alloc)?;
    call(alloc, out, book, name, &words)
}

/// Whether the row is so, else what is said of it is shown.
fn is_so(alloc: Global, out: &mut String, book: &mut Book, line: &str) -> Result<bool, NoMemory> {
    let row = plain(alloc, line)?;
    let (asked, wanted) = row.as_str().split_once(" → ").unwrap_or((row.as_str(), ""));
    answer(alloc, out, book, asked)?;
    Ok(out.as_str() == wanted)
}

fn main(rt: HostRuntime) -> io::Result<()> {
    let alloc = rt.alloc();
    let mut right = 0u64;
    // No book is let go of: that would prove the drop of each type in one.
    let mut book = ManuallyDrop::new(Book::new(alloc));
    for line in BufReader::new(alloc, rt.reader())?.lines(alloc) {
        let line = line?;
        if line.starts_with("#") {
            book = ManuallyDrop::new(Book::new(alloc));
            continue;
        }
        let mut out = String::new(alloc);
        if is_so(alloc, &mut out, &mut book, line.as_str()).unwrap_or(false) {
            right = right.wrapping_add(1);
        } else {
            println!(rt; "not so: {line}: {out}")?;
        }
    }
    println!(rt; "{right} rows are so")
}
