use crate::words::{number, piece, spelled};
use hv_base::{Limits, NoMemory};
use hv_recovery::{OpenFault, read_journal};
use hv_shelf::{MemoryShelf, Shelf};
use std::alloc::Global;

fn say_whole(out: &mut String, place: u64, entries: usize) -> Result<(), NoMemory> {
    Ok(write!(out, "{place} {entries}")?)
}

fn say_fault(out: &mut String, fault: OpenFault) -> Result<(), NoMemory> {
    match fault {
        OpenFault::BadJournal { at } => Ok(write!(out, "bad {at}")?),
        _ => Ok(()),
    }
}

fn say_read<D: Shelf>(alloc: Global, out: &mut String, shelf: &mut D) -> Result<(), NoMemory> {
    match read_journal(alloc, shelf, &Limits::profile()) {
        Ok((book, place)) => say_whole(out, place, book.entries().len()),
        Err(fault) => say_fault(out, fault),
    }
}

/// What is answered of a store whose journal has these bytes: the place of its closed gate and the number of its entries,
/// or where it is bad.
fn answered(alloc: Global, out: &mut String, bytes: &[u8]) -> Result<(), NoMemory> {
    let mut shelf = MemoryShelf::new(alloc, Vec::new(alloc))?;
    if shelf.journal_write(0, bytes).is_err() {
        return Ok(());
    }
    say_read(alloc, out, &mut shelf)
}

pub fn recover(alloc: Global, out: &mut String, words: &[&str]) -> Result<(), NoMemory> {
    let bytes = spelled(alloc, piece(words, 0))?;
    answered(alloc, out, &bytes)
}

/// The same of a journal of so many openings, numbered from 0.
pub fn boots(alloc: Global, out: &mut String, words: &[&str]) -> Result<(), NoMemory> {
    let mut bytes = Vec::new(alloc);
    for run in 0..number(words, 0) {
        bytes.extend_from_slice(&[1, 0, 0, 0, 9, 1])?;
        bytes.extend_from_slice(&run.to_be_bytes())?;
    }
    bytes.push(0)?;
    answered(alloc, out, &bytes)
}
