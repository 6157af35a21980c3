use crate::events::{events, opens};
use crate::folders::{is_so, open};
use crate::steps::{say, step};
use crate::words::{number, piece};
use hv_base::NoMemory;
use hv_kept::KeptShelf;
use hv_shelf::{Fail, MemoryShelf, Op, Shelf};
use std::alloc::Global;
use std::fs::File;
use std::rt::Files;

/// Calls of a store, or of the folder where the program runs.
fn all_steps<R: Files<File = File> + AllocGlobal + Copy, D: Shelf>(
    rt: &R,
    out: &mut String,
    shelf: &mut D,
    calls: &str,
) -> Result<(), NoMemory> {
    for call in calls.split('|') {
        let said = match is_so(rt, call) {
            Some(so) => say(out, so),
            None => step(rt.alloc(), out, shelf, call),
        };
        said?;
    }
    Ok(())
}

/// The calls of a store.
static CALLS: [(&str, Op); 9] = [
    ("length", Op::JournalLen),
    ("read", Op::JournalRead),
    ("write", Op::JournalWrite),
    ("sync", Op::JournalSync),
    ("list", Op::List),
    ("get", Op::Get),
    ("put", Op::Put),
    ("rename", Op::Rename),
    ("remove", Op::Remove),
];

/// The kind of call of that name.
fn op_of(name: &str) -> Op {
    for (called, op) in &CALLS {
        if *called == name {
            return *op;
        }
    }
    Op::Remove
}

/// A store in memory that fails at the call of a kind and number, as `CALL;NUMBER`.
fn memory_of(alloc: Global, failing: &str) -> Result<MemoryShelf, NoMemory> {
    let fail = Fail {
        op: op_of(piece(failing, 0)),
        nth: number(failing, 1),
    };
    MemoryShelf::new(alloc, vec![in alloc; fail]?)
}

/// With such a store, which is asked nothing where the calls are those of the folder.
fn in_memory<R: Files<File = File> + AllocGlobal + Copy>(
    rt: &R,
    out: &mut String,
    failing: &str,
    calls: &str,
) -> Result<(), NoMemory> {
    let mut shelf = memory_of(rt.alloc(), failing)?;
    all_steps(rt, out, &mut shelf, calls)
}

/// With a store over such a one that keeps what it has listed.
fn in_kept<R: Files<File = File> + AllocGlobal + Copy>(
    rt: &R,
    out: &mut String,
    failing: &str,
    calls: &str,
) -> Result<(), NoMemory> {
    let memory = memory_of(rt.alloc(), failing)?;
    let mut shelf = KeptShelf::over(rt.alloc(), memory);
    all_steps(rt, out, &mut shelf, calls)
}

fn in_folder<R: Files<File = File> + AllocGlobal + Copy>(
    rt: &R,
    out: &mut String,
    folder: &str,
    calls: &str,
) -> Result<(), NoMemory> {
    match open(rt, folder) {
        Ok(mut shelf) => all_steps(rt, out, &mut shelf, calls),
        Err(_) => Ok(()),
    }
}

pub fn answer<R: Files<File = File> + AllocGlobal + Copy>(
    rt: &R,
    out: &mut String,
    row: &str,
) -> Result<(), NoMemory> {
    let (kind, rest) = row.split_once(' ').unwrap_or((row, ""));
    let (word, calls) = rest.split_once('|').unwrap_or((rest, ""));
    match kind {
        "folder" => in_folder(rt, out, word, calls),
        "events" => events(rt.alloc(), out, word, calls),
        "opens" => opens(rt.alloc(), out, word),
        "kept" => in_kept(rt, out, word, calls),
        _ => in_memory(rt, out, word, calls),
    }
}
