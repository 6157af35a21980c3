//! What is done of one part.

use crate::changes::change_all;
use crate::parts::{Kind, Part};
use crate::running::{run_all, run_each};
use crate::settings::{each_call, fails, setting};
use hv_shelf::{MemoryShelf, ShelfFault};
use std::alloc::Global;
use std::sync::Wait;
use std::thread::Threads;

/// The scripts of a part: those of the part that it names, or its own lines.
fn scripts_of<'a>(parts: &'a [Part], part: &'a Part) -> &'a str {
    let own = part.lines.as_str();
    let Some(title) = setting(own, "script ") else {
        return own;
    };
    for other in parts {
        if matches!(other.kind, Kind::Script) && other.title.as_str() == title {
            return other.lines.as_str();
        }
    }
    own
}

/// Runs scripts over a new store as these settings say, and gives back the one that is left.
fn run_new<R: Threads + Wait + Sync>(
    rt: &R,
    alloc: Global,
    settings: &str,
    scripts: &str,
    text: &mut String,
) -> Result<MemoryShelf, ShelfFault> {
    if let Some(op) = each_call(settings) {
        run_each(rt, alloc, op, settings, scripts, text)?;
        return Ok(MemoryShelf::new(alloc, Vec::new(alloc))?);
    }
    let store = MemoryShelf::new(alloc, fails(alloc, settings)?)?;
    run_all(rt, alloc, store, settings, scripts, text)
}

/// Does one part over the store that was left, appends what is to be printed, and gives back the store that is left.
pub(crate) fn play<R: Threads + Wait + Sync>(
    rt: &R,
    alloc: Global,
    store: MemoryShelf,
    parts: &[Part],
    part: &Part,
    text: &mut String,
) -> Result<MemoryShelf, ShelfFault> {
    let lines = part.lines.as_str();
    match part.kind {
        Kind::New => run_new(rt, alloc, lines, scripts_of(parts, part), text),
        Kind::Again => run_all(rt, alloc, store, lines, scripts_of(parts, part), text),
        Kind::Change => change_all(alloc, store, lines, text),
        Kind::Script => Ok(store),
    }
}
