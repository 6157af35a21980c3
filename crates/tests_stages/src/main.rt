//! Runs rows, one a line: statements that make tables and put rows into them; and of a query the line of its stages,
//! what it is with its conditions moved, and which partitions it needs. What is to be printed was worked out by hand.
#![tactic(auto)]

mod keep;
mod plan;
mod tables;

use hv_base::{Boxed, NoMemory};
use hv_rewrite::push_down;
use hv_stage::{explain, plan_stages};
use hv_typing::TypedQuery;
use std::alloc::Global;
use std::io;
use std::io::{BufRead, BufReader};
use tables::Tables;

type Out = Result<(), NoMemory>;

/// The line of EXPLAIN.
fn explained(alloc: Global, query: &TypedQuery, out: &mut Vec<u8>) -> Out {
    let stages = plan_stages(alloc, query)?;
    let line = explain(alloc, &stages)?;
    Ok(out.extend_from_slice(line.bytes())?)
}

/// The query with its conditions moved.
fn pushed(alloc: Global, query: Boxed<TypedQuery>, out: &mut Vec<u8>) -> Out {
    let made = Boxed::new(alloc, push_down(alloc, query.into_inner())?)?;
    plan::plan(made.get(), alloc, out)
}

fn asked(alloc: Global, word: &str, text: &str, tables: &Tables, out: &mut Vec<u8>) -> Out {
    let Some(query) = tables.query(alloc, text)? else {
        return Ok(out.extend_from_slice(b"no query")?);
    };
    if word == "explain" {
        explained(alloc, query.get(), out)
    } else {
        pushed(alloc, query, out)
    }
}

/// What a line comes to, added to `out`.
fn answer(alloc: Global, line: &str, tables: &mut Tables, out: &mut Vec<u8>) -> Out {
    let (word, rest) = line.split_once(' ').unwrap_or((line, ""));
    match word {
        "explain" => asked(alloc, word, rest, tables, out),
        "push" => asked(alloc, word, rest, tables, out),
        "keep" => {
            let (name, text) = rest.split_once(' ').unwrap_or((rest, ""));
            keep::kept(alloc, name, text, tables, out)
        }
        _ => tables.run(alloc, line, out),
    }
}

fn main(rt: HostRuntime) -> io::Result<()> {
    let alloc = rt.alloc();
    let mut tables = Tables::new(alloc);
    for line in BufReader::new(alloc, rt.reader())?.lines(alloc) {
        let line = line?;
        let mut out = Vec::new(alloc);
        if answer(alloc, line.as_str(), &mut tables, &mut out).is_err() {
            return println!(rt; "no memory");
        }
        match str::from_utf8(&out) {
            Ok(text) => println!(rt; "{text}")?,
            Err(_) => println!(rt; "no text")?,
        }
    }
    Ok(())
}
