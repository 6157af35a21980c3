use crate::words::{number, piece};
use hv_base::{List, NoMemory};
use hv_script::{
    Action, Cut, ScriptFault, Session, cut_script, read_actions, read_run, read_served, read_words,
};
use std::alloc::{AllocError, Global};
use std::str;

/// The items with a bar behind each, and the line of the first bytes that are refused.
fn cut(alloc: Global, out: &mut String, script: &[u8]) -> Result<(), NoMemory> {
    let Cut { items, fault } = cut_script(alloc, script)?;
    for item in items.as_slice() {
        write!(
            out,
            "{}|",
            str::from_utf8(item.bytes.as_slice()).unwrap_or("bytes")
        )?;
    }
    Ok(write!(out, "{fault:?}")?)
}

/// What is asked to be done. A session is shown with its place.
fn show(out: &mut String, action: &Action) -> Result<(), AllocError> {
    match action {
        Action::Announce(session) => {
            let Session { name, place } = session;
            write!(out, "session {name}/{place}|")
        }
        Action::Release(session) => {
            let Session { name, place } = session;
            write!(out, "go {name}/{place}|")
        }
        Action::Compact => write!(out, "compact|"),
        Action::Clean => write!(out, "clean|"),
        Action::Barrier => write!(out, "barrier|"),
        Action::Run(run) => {
            let Session { name, place } = &run.session;
            write!(
                out,
                "{} {name}/{place} {:?} {}|",
                run.number, run.hold, run.text
            )
        }
    }
}

/// What a script asks to be done, with a bar behind each, or the line where it is refused.
fn acts(out: &mut String, found: Result<List<Action>, ScriptFault>) -> Result<(), NoMemory> {
    match found {
        Ok(actions) => {
            for action in actions.as_slice() {
                show(out, action)?;
            }
            Ok(())
        }
        Err(ScriptFault::Refused { line }) => Ok(write!(out, "line {line}")?),
        Err(ScriptFault::NoMemory) => Err(NoMemory),
    }
}

/// The line where what a script asks is refused.
fn line(alloc: Global, script: &[u8]) -> Result<Option<u64>, NoMemory> {
    match read_actions(alloc, script) {
        Ok(_) => Ok(None),
        Err(ScriptFault::Refused { line }) => Ok(Some(line)),
        Err(ScriptFault::NoMemory) => Err(NoMemory),
    }
}

/// Bytes that aren't UTF-8.
static CUT: [&[u8]; 8] = [
    b"\xff",
    b"a;\n'\xc3'",
    b"\n\n-- \x80",
    b"\n\xe2\x82\nx",
    b"x\n\xc3",
    b"\n\xc0\xaf",
    b"\xed\xa0\x80\n!go a",
    b"!go a\n\xff",
];

/// The item that such bytes stand in is read all the same.
static READ: [&[u8]; 7] = [
    b"\xff",
    b"a;\n!x\n\xff",
    b"-- \xff\n!x",
    b"\n!session \xff",
    b"!hold start\n'\xff';\n!go main",
    b"!hold start\n'\n\xff';\n!go main",
    b"!hold start\n'\xff';",
];

fn broken(alloc: Global, out: &mut String) -> Result<(), NoMemory> {
    for script in &CUT {
        write!(out, "{:?} ", cut_script(alloc, script)?.fault)?;
    }
    for script in &READ {
        write!(out, "{:?} ", line(alloc, script)?)?;
    }
    Ok(())
}

/// A front, so many bytes of one kind, and an end: where it is cut off or refused.
fn long(alloc: Global, out: &mut String, words: &[&str], cut: bool) -> Result<(), NoMemory> {
    let mut script = piece(words, 0).as_bytes().to_vec(alloc)?;
    for _ in 0..number(words, 2) {
        script.extend_from_slice(piece(words, 1).as_bytes())?;
    }
    script.extend_from_slice(piece(words, 3).as_bytes())?;
    let found = if cut {
        cut_script(alloc, &script)?.fault
    } else {
        line(alloc, &script)?
    };
    Ok(write!(out, "{found:?}")?)
}

/// The command of these words, which stand with spaces between them, and whether it runs today.
fn words_of(alloc: Global, out: &mut String, line: &str) -> Result<(), NoMemory> {
    let mut words = Vec::new(alloc);
    for word in line.split(' ') {
        if !word.is_empty() {
            words.push(String::from_str(alloc, word)?)?;
        }
    }
    let runs = read_run(&words).is_some();
    Ok(write!(out, "{:?} {runs}", read_words(&words))?)
}

pub fn answer(alloc: Global, out: &mut String, call: &str, words: &[&str]) -> Result<(), NoMemory> {
    let script = piece(words, 0).as_bytes();
    match call {
        "cut" => cut(alloc, out, script),
        "acts" => acts(out, read_actions(alloc, script)),
        "served" => acts(out, read_served(alloc, script)),
        "broken" => broken(alloc, out),
        "long_cut" => long(alloc, out, words, true),
        "long" => long(alloc, out, words, false),
        "words" => words_of(alloc, out, piece(words, 0)),
        _ => Ok(()),
    }
}
