//! Readers, compactions, passes of a cleaner and a DROP TABLE over one house, interleaved act by act as the input says.
//! What is to be printed was worked out by hand.
//!
//! A line `==== TITLE` begins a case over an empty store. The lines behind it, up to the next such line, are what is
//! done in it.
#![tactic(auto)]

mod acting;
mod desk;
mod house;
mod others;
mod plans;
mod sessions;
mod stores;
mod words;
mod working;

use crate::words::{cut, say};
use hv_shelf::MemoryShelf;
use std::alloc::Global;
use std::io;
use std::io::ErrorKind;

/// How a case begins.
const MARK: &str = "==== ";

/// Plays one case: its title, and its lines.
fn play_case(alloc: Global, case: &str, said: &mut String) -> io::Result<()> {
    let (title, lines) = cut(case, '\n');
    said.push_str(MARK)?;
    say(said, title)?;
    let Ok(plan) = plans::fails(alloc, lines) else {
        return Err(ErrorKind::OutOfMemory.into());
    };
    match MemoryShelf::new(alloc, plan) {
        Ok(store) => sessions::play(alloc, store, lines, said),
        Err(_) => Err(ErrorKind::OutOfMemory.into()),
    }
}

/// Plays one case, and says where the house closed in it, which ends it.
fn play_or_say(alloc: Global, case: &str, said: &mut String) -> io::Result<()> {
    match play_case(alloc, case, said) {
        Ok(()) => Ok(()),
        Err(why) if why.kind() == ErrorKind::Other => say(said, "closed"),
        Err(why) => Err(why),
    }
}

fn main(rt: HostRuntime) -> io::Result<()> {
    let alloc = rt.alloc();
    let text = io::read_to_string(alloc, rt.reader())?;
    let mut said = String::new(alloc);
    for case in text.split(MARK) {
        if !case.is_empty() {
            play_or_say(alloc, case, &mut said)?;
        }
    }
    print!(rt; "{said}")
}
