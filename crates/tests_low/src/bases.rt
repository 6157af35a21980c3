use crate::trees;
use crate::words::{numbers, piece};
use hv_base::{
    Gate, Limits, List, MemorySink, MemorySource, NoGate, NoMemory, Point, Refusal, RowId, Source,
    Stage, Text, WriteId, read_all, write_all,
};
use std::alloc::{AllocError, Global};

fn texts(alloc: Global, out: &mut String, words: &[&str]) -> Result<(), NoMemory> {
    let text = Text::of(alloc, piece(words, 0))?;
    let other = Text::of(alloc, piece(words, 1))?;
    Ok(write!(out, "<{text}> {} {:?}", text.len(), text.cmp(&other))?)
}

/// The text of bytes, if there is one.
fn utf8(alloc: Global, out: &mut String, bytes: &[u8]) -> Result<(), NoMemory> {
    let text = Text::from_utf8(bytes.to_vec(alloc)?);
    Ok(write!(out, "{text:?} ")?)
}

fn lists(alloc: Global, out: &mut String, words: &[&str]) -> Result<(), NoMemory> {
    let list = List::from_vec(numbers(alloc, piece(words, 0))?);
    let other = List::from_vec(numbers(alloc, piece(words, 1))?);
    Ok(write!(out, "{:?} {}", list.cmp(&other), list < other)?)
}

fn row_id(words: &[&str], at: usize) -> RowId {
    let mut parts = piece(words, at)
        .split(' ')
        .map(|word| word.parse::<u32>().unwrap_or(0));
    RowId {
        write: WriteId(u64::from(parts.next().unwrap_or(0))),
        statement: parts.next().unwrap_or(0),
        bucket: parts.next().unwrap_or(0),
        row: u64::from(parts.next().unwrap_or(0)),
    }
}

fn refusal(out: &mut String, words: &[&str]) -> Result<(), AllocError> {
    match Refusal::of_number(piece(words, 0).parse::<u32>().unwrap_or(0)) {
        Some(refusal) => write!(out, "{} {}", refusal.number(), refusal.name()),
        None => write!(out, "none"),
    }
}

/// A point that went through the gate.
fn gate(out: &mut String) -> Result<(), AllocError> {
    let point = Point {
        session: 0,
        number: 1,
        stage: Stage::Commit,
    };
    NoGate.at(point);
    write!(out, "{point:?}")
}

/// Seventy thousand bytes: the first two reads give 65,536 and 4,464, and the third finds the end.
fn source(alloc: Global, fail: &str) -> Result<MemorySource, AllocError> {
    let mut bytes = Vec::new(alloc);
    for place in 0..70_000u32 {
        bytes.push((place % 251) as u8)?;
    }
    Ok(MemorySource::new(bytes, numbers(alloc, fail)?))
}

fn read(alloc: Global, out: &mut String, words: &[&str]) -> Result<(), NoMemory> {
    let limit = piece(words, 0).parse::<usize>().unwrap_or(0);
    let mut source = source(alloc, piece(words, 1))?;
    let got = read_all(alloc, &mut source, limit).map(|bytes| bytes.len());
    Ok(write!(out, "{got:?}")?)
}

/// What is read behind a failure.
fn behind(alloc: Global, out: &mut String) -> Result<(), NoMemory> {
    let mut source = source(alloc, "1")?;
    let got = read_all(alloc, &mut source, 70_000).map(|bytes| bytes.len());
    let mut next = [0; 2];
    let two = source.read(&mut next);
    let none = source.read(&mut []);
    let rest = read_all(alloc, &mut source, 70_000).map(|bytes| bytes.len());
    let end = source.read(&mut [0; 2]);
    Ok(write!(out, "{got:?} {two:?} {next:?} {none:?} {rest:?} {end:?}")?)
}

/// Reads of a byte each, and the last byte.
fn steps(alloc: Global, out: &mut String, words: &[&str]) -> Result<(), NoMemory> {
    let fail = numbers(alloc, piece(words, 0))?;
    let mut source = MemorySource::new([7, 8, 9].to_vec(alloc)?, fail);
    let mut byte = [0];
    for _ in 0..6 {
        write!(out, "{:?} ", source.read(&mut byte))?;
    }
    Ok(write!(out, "{byte:?}")?)
}

fn write(alloc: Global, out: &mut String, words: &[&str]) -> Result<(), NoMemory> {
    let mut sink = MemorySink::new(numbers(alloc, piece(words, 0))?);
    let mut got = Ok(());
    for text in ["OK\n", "a\n", "1\n"] {
        if got.is_ok() {
            got = write_all(&mut sink, text.as_bytes());
        }
    }
    Ok(write!(out, "{got:?} {:?}", sink.written())?)
}

pub fn answer(alloc: Global, out: &mut String, call: &str, words: &[&str]) -> Result<(), NoMemory> {
    match call {
        "tree" => trees::copy(alloc, out),
        "text" => texts(alloc, out, words),
        "utf8" => utf8(alloc, out, &[0xc3, 0xa9]),
        "cut_utf8" => utf8(alloc, out, &[0xc3]),
        "list" => lists(alloc, out, words),
        "read" => read(alloc, out, words),
        "behind" => behind(alloc, out),
        "steps" => steps(alloc, out, words),
        "write" => write(alloc, out, words),
        _ => Ok(match call {
            "refusal" => refusal(out, words),
            "gate" => gate(out),
            "row_id" => write!(out, "{:?}", row_id(words, 0).cmp(&row_id(words, 1))),
            "limits" => write!(out, "{}", Limits::profile().entries),
            _ => Ok(()),
        }?),
    }
}
