//! The parts of the input. A line `==== KIND TITLE` begins one, and the lines behind it, up to the next such line, are
//! its own; lines before the first are passed over.

use std::alloc::Global;
use std::io;

/// What the lines of a part are.
#[derive(Clone, Copy)]
pub(crate) enum Kind {
    /// Scripts over a store that holds nothing.
    New,
    /// Scripts over the store that was left.
    Again,
    /// Changes of its files, and questions about it.
    Change,
    /// Scripts that other parts name by the title. Nothing is run.
    Script,
}

#[derive(Drop)]
pub(crate) struct Part {
    pub(crate) kind: Kind,
    pub(crate) title: String,
    /// Its lines, each with its line break.
    pub(crate) lines: String,
}

/// How a line begins that begins a part.
static KINDS: [(&str, Kind); 4] = [
    ("==== new ", Kind::New),
    ("==== again ", Kind::Again),
    ("==== change ", Kind::Change),
    ("==== script ", Kind::Script),
];

/// What a line begins, and its title, where it begins a part.
fn begun(line: &str) -> Option<(Kind, &str)> {
    for (mark, kind) in &KINDS {
        if let Some(title) = line.strip_prefix(*mark) {
            return Some((*kind, title));
        }
    }
    None
}

fn empty_part(alloc: Global, kind: Kind, title: &str) -> io::Result<Part> {
    Ok(Part {
        kind,
        title: String::from_str(alloc, title)?,
        lines: String::new(alloc),
    })
}

fn push_line(part: &mut Part, line: &str) -> io::Result<()> {
    part.lines.push_str(line)?;
    Ok(part.lines.push_str("\n")?)
}

/// Takes the next line of the input: it begins a part, or is one more of the last.
pub(crate) fn take_line(alloc: Global, parts: &mut Vec<Part>, line: &str) -> io::Result<()> {
    if let Some((kind, title)) = begun(line) {
        return Ok(parts.push(empty_part(alloc, kind, title)?)?);
    }
    match parts.last_mut() {
        Some(part) => push_line(part, line),
        None => Ok(()),
    }
}
