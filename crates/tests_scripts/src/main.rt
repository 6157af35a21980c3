//! Runs scripts over stores in memory and prints what each prints, and its status. What is to be printed was worked
//! out by hand, or by another engine where README says so. `parts` and `settings` say what the input's lines mean.
#![tactic(auto)]

mod changes;
mod files;
mod parts;
mod playing;
mod running;
mod settings;

use crate::parts::{Part, take_line};
use crate::playing::play;
use hv_shelf::MemoryShelf;
use std::io;
use std::io::{BufRead, BufReader, ErrorKind};

fn main(rt: HostRuntime) -> io::Result<()> {
    let alloc = rt.alloc();
    let mut parts: Vec<Part> = Vec::new(alloc);
    for line in BufReader::new(alloc, rt.reader())?.lines(alloc) {
        let line = line?;
        take_line(alloc, &mut parts, line.as_str())?;
    }
    let Ok(mut store) = MemoryShelf::new(alloc, Vec::new(alloc)) else {
        return Err(ErrorKind::OutOfMemory.into());
    };
    for part in &parts {
        let mut text = String::new(alloc);
        let Ok(left) = play(&rt, alloc, store, &parts, part, &mut text) else {
            return Err(ErrorKind::Other.into());
        };
        store = left;
        let title = &part.title;
        print!(rt; "==== {title}\n{text}")?;
    }
    Ok(())
}
