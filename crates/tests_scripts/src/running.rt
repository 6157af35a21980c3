//! Scripts over stores, with what they print, their status, and the store's count of faults where that isn't 0.

use crate::settings::{THEN, numbers, script_bytes, setting, words};
use hv_base::{MemorySink, MemorySource, NoGate, NoMemory};
use hv_program::hive;
use hv_shelf::{Fail, MemoryShelf, Op, Shelf, ShelfFault};
use std::alloc::Global;
use std::sync::Wait;
use std::thread::Threads;

/// More than the calls of one kind that the scripts make of which each is to fail.
const MOST: u64 = 100;

/// What a script is run with.
#[derive(Drop)]
struct Streams {
    words: Vec<String>,
    source: MemorySource,
    sink: MemorySink,
    /// Whether the number of printed bytes is shown in their place.
    shows_size: bool,
}

/// What a script is run with as these settings say.
fn prepared(alloc: Global, settings: &str, script: &str) -> Result<Streams, NoMemory> {
    let words = words(alloc, settings)?;
    let reads = numbers(alloc, settings, "read")?;
    let writes = numbers(alloc, settings, "write")?;
    let source = MemorySource::new(script_bytes(alloc, script)?, reads);
    let sink = MemorySink::new(writes);
    Ok(Streams {
        words,
        source,
        sink,
        shows_size: setting(settings, "size").is_some(),
    })
}

/// Appends a line `status NUMBER`, or `status NUMBER, faults NUMBER`.
fn push_status(alloc: Global, text: &mut String, status: u8, faults: u64) -> Result<(), NoMemory> {
    let line = if faults == 0 {
        format!(in alloc; "status {status}\n")?
    } else {
        format!(in alloc; "status {status}, faults {faults}\n")?
    };
    Ok(text.push_str(line.as_str())?)
}

/// Appends what a script printed, or a line `NUMBER bytes` in its place, and its status.
fn push_ended(
    alloc: Global,
    text: &mut String,
    with: &Streams,
    status: u8,
    faults: u64,
) -> Result<(), NoMemory> {
    let printed = with.sink.written();
    if with.shows_size {
        let line = format!(in alloc; "{} bytes\n", printed.len())?;
        text.push_str(line.as_str())?;
    } else {
        text.push_str(str::from_utf8(printed).unwrap_or("no text\n"))?;
    }
    push_status(alloc, text, status, faults)
}

/// Runs one script over a store, and gives the store back.
fn run<R: Threads + Wait + Sync>(
    rt: &R,
    alloc: Global,
    store: MemoryShelf,
    with: &mut Streams,
    text: &mut String,
) -> Result<MemoryShelf, NoMemory> {
    let words = &with.words;
    let source = &mut with.source;
    let ended = hive(rt, alloc, words, source, &mut with.sink, store, &NoGate);
    let faults = ended.shelf.fault_count();
    push_ended(alloc, text, with, ended.status, faults)?;
    Ok(ended.shelf)
}

/// Runs scripts, each over the store that the one before it left, and gives the last one's back.
pub(crate) fn run_all<R: Threads + Wait + Sync>(
    rt: &R,
    alloc: Global,
    store: MemoryShelf,
    settings: &str,
    scripts: &str,
    text: &mut String,
) -> Result<MemoryShelf, ShelfFault> {
    let mut store = store;
    for script in scripts.split(THEN) {
        let mut with = prepared(alloc, settings, script)?;
        store = run(rt, alloc, store, &mut with, text)?;
    }
    Ok(store)
}

/// Runs scripts over a new store of which one call fails: the store's count of faults.
fn run_failing<R: Threads + Wait + Sync>(
    rt: &R,
    alloc: Global,
    fail: Fail,
    settings: &str,
    scripts: &str,
    text: &mut String,
) -> Result<u64, ShelfFault> {
    let store = MemoryShelf::new(alloc, Vec::from_slice(alloc, &[fail])?)?;
    let left = run_all(rt, alloc, store, settings, scripts, text)?;
    Ok(left.fault_count())
}

/// Appends what was printed where a call failed, where it isn't the same as before.
fn push_other(
    alloc: Global,
    text: &mut String,
    nth: u64,
    before: &mut String,
    now: String,
) -> Result<(), NoMemory> {
    if now == *before {
        return Ok(());
    }
    let line = format!(in alloc; "from {nth}:\n{now}")?;
    *before = now;
    Ok(text.push_str(line.as_str())?)
}

/// Runs scripts over new stores of which one call fails, the first, the second and so on up to the first that isn't
/// made. Where they print other than before it, the call's number and what they print is appended.
pub(crate) fn run_each<R: Threads + Wait + Sync>(
    rt: &R,
    alloc: Global,
    op: Op,
    settings: &str,
    scripts: &str,
    text: &mut String,
) -> Result<(), ShelfFault> {
    let mut before = String::new(alloc);
    for nth in 0..MOST {
        let mut now = String::new(alloc);
        let faults = run_failing(rt, alloc, Fail { op, nth }, settings, scripts, &mut now)?;
        push_other(alloc, text, nth, &mut before, now)?;
        if faults == 0 {
            break;
        }
    }
    Ok(())
}
