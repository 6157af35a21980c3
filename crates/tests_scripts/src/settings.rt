//! The lines of a part that begin with `== `. They are no lines of a script, and say how it is run:
//!
//! | line | what it says |
//! |---|---|
//! | `== CALL NUMBER ..` | these calls of the store fail, counted from 0; `CALL` is a name of `CALLS` |
//! | `== each CALL` | the scripts are run over a new store for each of these calls, which fails |
//! | `== read NUMBER ..`, `== write NUMBER ..` | these reads of the source and writes of the sink fail |
//! | `== words WORD ..` | the words of the command line, in place of `run` |
//! | `== script TITLE` | the scripts are those of the part with this title |
//! | `== size` | the number of printed bytes is shown in their place |
//! | `== then` | the next line begins another script, over the store that was left |
//! | `== bytes COUNT BYTE` | here the script goes on with so many of this byte |

use hv_base::NoMemory;
use hv_shelf::{Fail, Op};
use std::alloc::Global;

/// The line between two scripts of a part.
pub(crate) const THEN: &str = "== then\n";

/// The calls of a store.
static CALLS: [(&str, Op); 9] = [
    ("journal_len", Op::JournalLen),
    ("journal_read", Op::JournalRead),
    ("journal_write", Op::JournalWrite),
    ("journal_sync", Op::JournalSync),
    ("list", Op::List),
    ("get", Op::Get),
    ("put", Op::Put),
    ("rename", Op::Rename),
    ("remove", Op::Remove),
];

/// What stands behind the name of a setting, in the first such line.
pub(crate) fn setting<'a>(lines: &'a str, name: &str) -> Option<&'a str> {
    for line in lines.lines() {
        if let Some(said) = line.strip_prefix("== ") {
            if let Some(rest) = said.strip_prefix(name) {
                return Some(rest);
            }
        }
    }
    None
}

/// The call whose failures are tried one by one.
pub(crate) fn each_call(lines: &str) -> Option<Op> {
    let called = setting(lines, "each ")?;
    for (name, op) in &CALLS {
        if *name == called {
            return Some(*op);
        }
    }
    None
}

/// The numbers behind the name of a setting.
pub(crate) fn numbers(alloc: Global, lines: &str, name: &str) -> Result<Vec<u64>, NoMemory> {
    let mut found = Vec::new(alloc);
    for word in setting(lines, name).unwrap_or("").split(' ') {
        if let Ok(number) = word.parse::<u64>() {
            found.push(number)?;
        }
    }
    Ok(found)
}

/// The calls of the store that fail.
pub(crate) fn fails(alloc: Global, lines: &str) -> Result<Vec<Fail>, NoMemory> {
    let mut plan = Vec::new(alloc);
    for (name, op) in &CALLS {
        for nth in numbers(alloc, lines, name)? {
            plan.push(Fail { op: *op, nth })?;
        }
    }
    Ok(plan)
}

/// The words of the command line.
pub(crate) fn words(alloc: Global, lines: &str) -> Result<Vec<String>, NoMemory> {
    let mut found = Vec::new(alloc);
    for word in setting(lines, "words").unwrap_or("run").split(' ') {
        if !word.is_empty() {
            found.push(String::from_str(alloc, word)?)?;
        }
    }
    Ok(found)
}

/// Goes on with so many of a byte.
fn push_bytes(script: &mut Vec<u8>, said: &str) -> Result<(), NoMemory> {
    let (count, byte) = said.split_once(' ').unwrap_or((said, ""));
    let length = script
        .len()
        .saturating_add(count.parse::<usize>().unwrap_or(0));
    Ok(script.resize(length, byte.parse::<u8>().unwrap_or(0))?)
}

/// A script's bytes. A line break stands between its lines and not behind the last, so an empty line ends a script
/// with one.
pub(crate) fn script_bytes(alloc: Global, lines: &str) -> Result<Vec<u8>, NoMemory> {
    let mut script = Vec::new(alloc);
    let mut is_first = true;
    for line in lines.lines() {
        if let Some(said) = line.strip_prefix("== bytes ") {
            push_bytes(&mut script, said)?;
        } else if !line.starts_with("== ") {
            if !is_first {
                script.push(b'\n')?;
            }
            script.extend_from_slice(line.as_bytes())?;
            is_first = false;
        }
    }
    Ok(script)
}
