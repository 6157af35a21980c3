//! Calls of a house over a store in memory, interleaved as the input says; and statements of sessions over such a house, alone and among
//! others who do whole statements of other sessions between two acts. What is to be printed was worked out by hand.
//!
//! A line `==== calls TITLE` or `==== statements TITLE` begins a case over an empty store. The lines behind it, up to the next such line,
//! are what is done in it.
#![tactic(auto)]

mod acting;
mod asking;
mod calls;
mod changes;
mod compacting;
mod desk;
mod ending;
mod house;
mod others;
mod playing;
mod seeing;
mod sessions;
mod showing;
mod stores;
mod words;

use crate::words::{cut, say};
use hv_shelf::MemoryShelf;
use std::alloc::Global;
use std::io;
use std::io::ErrorKind;

/// How a case begins.
const MARK: &str = "==== ";

/// Plays one case: its title, of which the first word says what its lines are, and its lines.
fn play_case(alloc: Global, case: &str, said: &mut String) -> io::Result<()> {
    let (title, lines) = cut(case, '\n');
    said.push_str(MARK)?;
    say(said, title)?;
    if title.starts_with("calls ") {
        return playing::play(alloc, lines, said);
    }
    match MemoryShelf::new(alloc, Vec::new(alloc)) {
        Ok(store) => sessions::play(alloc, store, lines, said),
        Err(_) => Err(ErrorKind::OutOfMemory.into()),
    }
}

fn main(rt: HostRuntime) -> io::Result<()> {
    let alloc = rt.alloc();
    let text = io::read_to_string(alloc, rt.reader())?;
    let mut said = String::new(alloc);
    for case in text.split(MARK) {
        if !case.is_empty() {
            play_case(alloc, case, &mut said)?;
        }
    }
    print!(rt; "{said}")
}
