//! Runs statements that stand a line each over tables in memory, and prints what each comes to. What is to
//! be printed was worked out by hand.
#![tactic(auto)]

mod show;
mod tables;

use hv_ast::Stmt;
use hv_base::{Boxed, NoMemory, Text};
use hv_effect::meaning_in;
use hv_reading::read_text;
use std::alloc::Global;
use std::io;
use std::io::{BufRead, BufReader};
use tables::Tables;

fn tree(alloc: Global, line: &str) -> Result<Option<Boxed<Stmt>>, NoMemory> {
    let text = Text::of(alloc, line)?;
    match read_text(alloc, &text) {
        Err(_) => Ok(None),
        Ok(stmt) => Ok(Some(Boxed::new(alloc, stmt)?)),
    }
}

/// What a line comes to, added to `out`.
fn answer(
    alloc: Global,
    line: &str,
    tables: &mut Tables,
    out: &mut Vec<u8>,
) -> Result<(), NoMemory> {
    let Some(stmt) = tree(alloc, line)? else {
        return Ok(out.extend_from_slice(b"no statement")?);
    };
    let named = tables.named_in(alloc, stmt.get())?;
    match meaning_in(alloc, stmt.get(), named)? {
        None => Ok(out.extend_from_slice(b"no meaning")?),
        Some(found) => tables.take(alloc, found.meaning, out),
    }
}

fn main(rt: HostRuntime) -> io::Result<()> {
    let alloc = rt.alloc();
    let mut tables = Tables::new(alloc);
    for line in BufReader::new(alloc, rt.reader())?.lines(alloc) {
        let line = line?;
        let mut out = Vec::new(alloc);
        if answer(alloc, line.as_str(), &mut tables, &mut out).is_err() {
            return println!(rt; "no memory");
        }
        match str::from_utf8(&out) {
            Ok(text) => println!(rt; "{text}")?,
            Err(_) => println!(rt; "no text")?,
        }
    }
    Ok(())
}
