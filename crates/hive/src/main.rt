//! The program: the first word names the folder of the store, and the others are the command.
#![tactic(auto)]

mod advice;
mod keeping;
mod owners;
mod reasons;
mod refusal;
mod script_fault;
mod watching;

use crate::advice::{advise, announce, blame_words};
use crate::keeping::Keeping;
use crate::reasons::tell_refusals;
use crate::refusal::{Refusal, refuse};
use crate::script_fault::tell_script_fault;
use crate::watching::{Reply, Watching};
use hv_base::NoGate;
use hv_files::{FileFault, FileShelf};
use hv_kept::KeptShelf;
use hv_program::hive;
use hv_streams::{Standard, StdSink, StdSource};
use std::alloc::Global;
use std::env;
use std::io::{ErrorKind, IsTerminal};
use std::process::ExitCode;
use std::rt::Env;

/// The folder and the words of the command. A first word that is empty or begins with `-` is no folder.
fn words_of<R: AllocGlobal + Env + Eprint>(rt: &R) -> Result<(String, Vec<String>), Refusal> {
    let mut words = match env::args(rt) {
        Ok(words) => words,
        Err(error) if error.kind() == ErrorKind::OutOfMemory => return Err(Refusal::NoMemory),
        Err(_) => return Err(Refusal::BadWords),
    };
    let _program = words.next();
    let folder = match words.next() {
        Some(folder) if !folder.is_empty() && !folder.starts_with('-') => folder,
        Some(word) if word.as_str() == "--version" => return Err(Refusal::Version),
        Some(word) if word.as_str() != "--help" => {
            let _ = eprintln!(rt; "hive: '{word}' is no folder");
            return Err(Refusal::BadWords);
        }
        _ => return Err(Refusal::BadWords),
    };
    match words.collect(rt.alloc()) {
        Ok(words) => Ok((folder, words)),
        Err(_) => Err(Refusal::NoMemory),
    }
}

/// The refusal of a store that can't be opened.
fn refusal_of(fault: FileFault) -> Refusal {
    match fault {
        FileFault::Device(cause) => Refusal::Store(cause),
        FileFault::NoMemory => Refusal::NoMemory,
    }
}

/// Says of the script why statements, or all of it, were refused.
fn tell<R: Eprint>(
    rt: &R,
    alloc: Global,
    status: u8,
    script: Option<&[u8]>,
    replies: Option<&[Reply]>,
) {
    let told = match (script, replies, status) {
        (Some(script), _, 8) => tell_script_fault(rt, alloc, script),
        (Some(script), Some(replies), _) => tell_refusals(rt, alloc, script, replies),
        _ => Ok(()),
    };
    if told.is_err() {
        let _ = eprintln!(rt; "hive: there is no memory for the reasons of refusals");
    }
}

fn main(rt: HostRuntime) -> ExitCode {
    let _standard = Standard::hold(&rt);
    let alloc = rt.alloc();
    let mut source = Keeping::new(alloc, StdSource::new(rt.stdin()));
    let mut sink = Watching::new(alloc, StdSink::new(rt.stdout()));
    let (folder, words) = match words_of(&rt) {
        Ok(words) => words,
        Err(refusal) => return ExitCode::from(refuse(&rt, &mut sink, "", refusal)),
    };
    let shelf = match FileShelf::at(alloc, rt, folder.as_str()) {
        Ok(shelf) => KeptShelf::over(alloc, shelf),
        Err(fault) => {
            let refusal = refusal_of(fault);
            return ExitCode::from(refuse(&rt, &mut sink, folder.as_str(), refusal));
        }
    };
    announce(&rt, words.as_slice(), rt.stdin().is_terminal());
    let ended = hive(
        &rt,
        alloc,
        words.as_slice(),
        &mut source,
        &mut sink,
        shelf,
        &NoGate,
    );
    if ended.status == 2 {
        blame_words(&rt, words.as_slice());
    }
    if ended.shelf.inner().is_made() {
        let _ = eprintln!(rt; "hive: a new store was made in the folder {folder}");
    }
    tell(&rt, alloc, ended.status, source.script(), sink.replies());
    advise(
        &rt,
        folder.as_str(),
        ended.status,
        ended.shelf.inner().last_cause(),
    );
    ExitCode::from(ended.status)
}
