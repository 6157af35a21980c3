ghost use Rattle.std.specs.Prelude.{◌≡◌, ◌-◌, Some, None, length, IfOk, if◌then◌else◌};
ghost use Rattle.std.specs.List.{suffix_len};
ghost use Rattle.hv_script.specs.Kinds.{directive_of, hold_of, is_name, is_name_byte, kind_of, trails, word_kind};

use crate::is_directive;
use hv_base::{NoMemory, Stage, Text};
use std::alloc::Global;

/// The most characters of a session's name.
pub const MAX_NAME: usize = 32;

/// What an item of a script is.
#[derive(Drop)]
pub enum Kind {
    Statement,
    /// The statements behind it belong to this session.
    Session(Text),
    /// The next statement is held before this stage.
    Hold(Stage),
    /// The held statement of this session is finished.
    Go(Text),
    /// Compactions that are due are asked for, and then one is done.
    Compact,
    /// What is no longer needed goes.
    Clean,
    /// A phase ends.
    Barrier,
    /// A directive that isn't known.
    Unknown,
}

fn is_trail(byte: u8) -> bool
    ensures value { result ≡ trails byte }
{
    matches!(byte, b' ' | b'\t' | b'\r')
}

/// How many bytes of a directive count.
fn trimmed_len(bytes: &[u8]) -> usize
    ensures value { result ≡ length bytes.now - suffix_len trails bytes.now }
{
    let mut kept = bytes.len();
    while kept > 0 && is_trail(bytes[kept - 1]) {
        kept -= 1;
    }
    kept
}

fn is_letter(byte: u8) -> bool
    ensures value { result ≡ is_name_byte byte }
{
    matches!(byte, b'a'..=b'z' | b'A'..=b'Z' | b'0'..=b'9' | b'_')
}

fn names_session(name: &[u8]) -> bool
    ensures value { result ≡ is_name name.now }
{
    if name.is_empty() || name.len() > MAX_NAME {
        return false;
    }
    for byte in name {
        if !is_letter(*byte) {
            return false;
        }
    }
    true
}

/// The name that these bytes are, None where they are none.
fn name_of(alloc: Global, name: &[u8]) -> Result<Option<Text>, NoMemory>
    ensures value { IfOk result (λ found. found ≡ (if is_name name.now then Some name.now else None)) }
{
    if names_session(name) {
        Ok(Some(Text::from_bytes(Vec::from_slice(alloc, name)?)))
    } else {
        Ok(None)
    }
}

fn hold_before(stage: &[u8]) -> Kind
    ensures value { result ≡ hold_of stage.now }
{
    if stage == b"start".as_slice() {
        Kind::Hold(Stage::Start)
    } else if stage == b"read".as_slice() {
        Kind::Hold(Stage::Read)
    } else if stage == b"commit".as_slice() {
        Kind::Hold(Stage::Commit)
    } else {
        Kind::Unknown
    }
}

fn word_kind(word: &[u8]) -> Kind
    ensures value { result ≡ word_kind word.now }
{
    if word == b"!compact".as_slice() {
        Kind::Compact
    } else if word == b"!clean".as_slice() {
        Kind::Clean
    } else if word == b"!barrier".as_slice() {
        Kind::Barrier
    } else {
        Kind::Unknown
    }
}

/// The directive of a line from which nothing is left to be dropped.
fn read_directive(alloc: Global, line: &[u8]) -> Result<Kind, NoMemory>
    ensures value { IfOk result (λ kind. kind ≡ directive_of line.now) }
{
    if let Some(name) = line.strip_prefix(b"!session ") {
        return Ok(match name_of(alloc, name)? {
            Some(name) => Kind::Session(name),
            None => Kind::Unknown,
        });
    }
    if let Some(stage) = line.strip_prefix(b"!hold ") {
        return Ok(hold_before(stage));
    }
    if let Some(name) = line.strip_prefix(b"!go ") {
        return Ok(match name_of(alloc, name)? {
            Some(name) => Kind::Go(name),
            None => Kind::Unknown,
        });
    }
    Ok(word_kind(line))
}

/// What the item of these bytes is.
pub fn read_kind(alloc: Global, bytes: &[u8]) -> Result<Kind, NoMemory>
    ensures value { IfOk result (λ kind. kind ≡ kind_of bytes.now) }
{
    if is_directive(bytes) {
        read_directive(alloc, &bytes[..trimmed_len(bytes)])
    } else {
        Ok(Kind::Statement)
    }
}
