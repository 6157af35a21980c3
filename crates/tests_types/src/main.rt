//! Runs statements that stand a line each: what analysis answers, and where it answers a typed statement
//! what that comes to over the rows that stand in the tables so far. What is to be printed was worked out
//! by hand. Each query is also run by one worker and by several, over rows that are made for its tables.
#![tactic(auto)]

mod plan;
mod show;
mod tables;
mod workers;

use hv_analysis::analyse;
use hv_ast::Stmt;
use hv_base::{Boxed, NoMemory, Text};
use hv_reading::read_text;
use hv_typing::{Logic, TypeFault};
use std::alloc::Global;
use std::io;
use std::io::{BufRead, BufReader};
use std::thread::Threads;
use tables::Tables;

fn tree(alloc: Global, line: &str) -> Result<Option<Boxed<Stmt>>, NoMemory> {
    let text = Text::of(alloc, line)?;
    match read_text(alloc, &text) {
        Err(_) => Ok(None),
        Ok(stmt) => Ok(Some(Boxed::new(alloc, stmt)?)),
    }
}

fn analysed(alloc: Global, stmt: &Stmt, tables: &Tables) -> Result<Boxed<Logic>, TypeFault> {
    Ok(Boxed::new(alloc, analyse(alloc, tables.infos(), stmt)?)?)
}

/// What a line comes to, added to `out`.
fn answer<R: Threads + Sync>(
    rt: &R,
    alloc: Global,
    line: &str,
    tables: &mut Tables,
    out: &mut Vec<u8>,
) -> Result<(), NoMemory> {
    let Some(stmt) = tree(alloc, line)? else {
        return Ok(out.extend_from_slice(b"no statement")?);
    };
    match analysed(alloc, stmt.get(), tables) {
        Err(TypeFault::NoMemory) => Err(NoMemory),
        Err(TypeFault::Refused(refusal)) => show::refusal(alloc, refusal, out),
        Ok(logic) => tables.run(rt, alloc, logic, out),
    }
}

fn main(rt: HostRuntime) -> io::Result<()> {
    let alloc = rt.alloc();
    let mut tables = Tables::new(alloc);
    for line in BufReader::new(alloc, rt.reader())?.lines(alloc) {
        let line = line?;
        let mut out = Vec::new(alloc);
        if answer(&rt, alloc, line.as_str(), &mut tables, &mut out).is_err() {
            return println!(rt; "no memory");
        }
        match str::from_utf8(&out) {
            Ok(text) => println!(rt; "{text}")?,
            Err(_) => println!(rt; "no text")?,
        }
    }
    println!(rt;
        "by 1, 3 and 8 workers: the same rows of {} queries",
        tables.same()
    )
}
