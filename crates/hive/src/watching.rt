use hv_base::{Failed, NoMemory, Sink};
use std::alloc::Global;
use std::{mem, str};

/// What a statement or a directive printed.
#[derive(Drop)]
pub enum Reply {
    /// A refusal: the number and the name, with what it names.
    Refused(String),
    /// The line of a session.
    Session,
    Other,
}

/// What was noted of the replies.
#[derive(Drop)]
struct Notes {
    alloc: Global,
    /// The reply of which bytes are left, and how many.
    begun: Reply,
    left: usize,
    replies: Vec<Reply>,
    /// Memory was found for all of them.
    whole: bool,
}

/// A sink that notes the replies which go by. Each is handed to it whole, or what is left of it.
#[derive(Drop)]
pub struct Watching<O> {
    sink: O,
    notes: Notes,
}

/// The first line of a text.
fn first_line(bytes: &[u8]) -> &[u8] {
    match bytes.iter().position(|byte| *byte == b'\n') {
        Some(end) => bytes.get(..end).unwrap_or(bytes),
        None => bytes,
    }
}

/// Whether a reply is the line of a session.
fn is_session_line(bytes: &[u8]) -> bool {
    bytes.starts_with(b"-- session ") && bytes.iter().filter(|byte| **byte == b'\n').count() == 1
}

/// What a reply of these bytes is. A refusal alone begins with `FAILED`: names of columns, with which the
/// reply of a query begins, are in small letters.
fn read_reply(alloc: Global, bytes: &[u8]) -> Result<Reply, NoMemory> {
    if let Some(rest) = bytes.strip_prefix(b"FAILED ") {
        let line = str::from_utf8(first_line(rest)).unwrap_or("");
        Ok(Reply::Refused(String::from_str(alloc, line)?))
    } else if is_session_line(bytes) {
        Ok(Reply::Session)
    } else {
        Ok(Reply::Other)
    }
}

impl Notes {
    /// The reply begins of which these are all bytes.
    fn begin(&mut self, bytes: &[u8]) {
        match read_reply(self.alloc, bytes) {
            Ok(reply) => self.begun = reply,
            Err(NoMemory) => self.whole = false,
        }
    }

    /// The reply that was begun is written whole.
    fn end(&mut self) {
        let reply = mem::replace(&mut self.begun, Reply::Other);
        self.whole &= self.replies.push(reply).is_ok();
    }

    /// So many of these bytes were written.
    fn note(&mut self, bytes: &[u8], count: usize) {
        if self.left == 0 {
            self.begin(bytes);
        }
        self.left = bytes.len().saturating_sub(count);
        if self.left == 0 {
            self.end();
        }
    }
}

impl<O> Watching<O> {
    pub fn new(alloc: Global, sink: O) -> Watching<O> {
        Watching {
            sink,
            notes: Notes {
                alloc,
                begun: Reply::Other,
                left: 0,
                replies: Vec::new(alloc),
                whole: true,
            },
        }
    }

    /// The replies that were written whole, None where memory was missing for them.
    pub fn replies(&self) -> Option<&[Reply]> {
        if self.notes.whole {
            Some(self.notes.replies.as_slice())
        } else {
            None
        }
    }
}

impl<O: Sink> Sink for Watching<O> {
    ghost written = { λ s. O.written s.sink };

    ghost faults = { λ s. O.faults s.sink };

    fn write(&mut self, bytes: &[u8]) -> Result<usize, Failed> {
        let count = self.sink.write(bytes)?;
        self.notes.note(bytes, count);
        Ok(count)
    }
}
