use crate::words::{number, piece};
use hv_base::{NoMemory, Source, read_all, write_all};
use hv_streams::{StdSink, StdSource};
use std::alloc::Global;
use std::io;
use std::io::{ErrorKind, Read, Write};

/// Gives one byte a read and takes up to two bytes a write, but at one call answers so.
#[derive(Drop)]
struct Halting<'a> {
    left: &'a [u8],
    taken: Vec<u8>,
    nth: u64,
    answer: Option<ErrorKind>,
    calls: u64,
}

fn halted<'a>(alloc: Global, left: &'a [u8], words: &[&str]) -> Halting<'a> {
    let answer = match piece(words, 1) {
        "broken" => Some(ErrorKind::BrokenPipe),
        "interrupted" => Some(ErrorKind::Interrupted),
        _ => None,
    };
    Halting {
        left,
        taken: Vec::new(alloc),
        nth: number(words, 0),
        answer,
        calls: 0,
    }
}

impl Halting<'_> {
    /// Whether this call answers an error, or 0, in place of its work.
    fn halts(&mut self) -> bool {
        let halts = self.calls == self.nth;
        self.calls = self.calls.saturating_add(1);
        halts
    }
}

impl Read for Halting<'_> {
    fn read(&mut self, out: &mut [u8]) -> io::Result<usize> {
        if self.halts() {
            return match self.answer {
                Some(kind) => Err(io::Error::from(kind)),
                None => Ok(0),
            };
        }
        let count = out.len().min(self.left.len()).min(1);
        let (front, rest) = self.left.split_at(count);
        out[..count].copy_from_slice(front);
        self.left = rest;
        Ok(count)
    }
}

impl Write for Halting<'_> {
    fn write(&mut self, bytes: &[u8]) -> io::Result<usize> {
        if self.halts() {
            return match self.answer {
                Some(kind) => Err(io::Error::from(kind)),
                None => Ok(0),
            };
        }
        let count = bytes.len().min(2);
        self.taken.extend_from_slice(&bytes[..count])?;
        Ok(count)
    }

    fn flush(&mut self) -> io::Result<()> {
        Ok(())
    }
}

fn sink(alloc: Global, out: &mut String, words: &[&str]) -> Result<(), NoMemory> {
    let mut writer = halted(alloc, b"", words);
    let got = write_all(&mut StdSink::new(&mut writer), b"abcde");
    Ok(write!(out, "{got:?} {:?}", writer.taken)?)
}

fn source(alloc: Global, out: &mut String, words: &[&str]) -> Result<(), NoMemory> {
    let mut reader = halted(alloc, b"abc", words);
    let got = read_all(alloc, &mut StdSource::new(&mut reader), 10);
    Ok(write!(out, "{got:?} {}", reader.calls)?)
}

/// Reads of a byte each, and the last byte.
fn steps(alloc: Global, out: &mut String, words: &[&str]) -> Result<(), NoMemory> {
    let mut source = StdSource::new(halted(alloc, b"ab", words));
    let mut byte = [0];
    for _ in 0..4 {
        write!(out, "{:?} ", source.read(&mut byte))?;
    }
    Ok(write!(out, "{byte:?}")?)
}

pub fn answer(alloc: Global, out: &mut String, call: &str, words: &[&str]) -> Result<(), NoMemory> {
    match call {
        "sink" => sink(alloc, out, words),
        "source" => source(alloc, out, words),
        "steps" => steps(alloc, out, words),
        _ => Ok(()),
    }
}
