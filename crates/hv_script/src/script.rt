ghost use Rattle.std.specs.Prelude.{◌≡◌, ◌<◌, ◌≤◌, ◌^◌, None, length, IfOk};
ghost use Rattle.hv_script.specs.Script.{HaveUtf8, begins_directive, broken_line, bytes_line, earlier, front, limit_line, line_at};
ghost use Rattle.hv_script.specs.Items.{first_of, items_of};

use crate::items::Item;
use crate::reader::items;
use hv_base::{List, NoMemory};
use std::alloc::Global;
use std::str;
use thiserror::Error;

/// The most bytes of a script.
pub const MAX_SCRIPT: usize = 16_777_216;
/// The most statements of a script.
pub const MAX_STATEMENTS: usize = 10_000;
/// The most bytes of a statement's text.
pub const MAX_TEXT: usize = 32_768;

#[derive(Debug, Drop, Error)]
pub enum ScriptFault {
    /// The least line where a fault stands, from 1.
    #[error("script refused at line {line}")]
    Refused { line: u64 },
    #[error("out of memory")]
    NoMemory,
}

impl From<NoMemory> for ScriptFault {
    ghost use Rattle.hv_script.specs.declared.script.ScriptFault.TheVariants.{NoMemory as OutOfMemory};

    ghost from_gives = { λ _ fault. fault ≡ OutOfMemory };

    fn from(_refused: NoMemory) -> ScriptFault {
        ScriptFault::NoMemory
    }
}

/// The line on which the byte at a place stands, from 1.
fn line_at(script: &[u8], place: usize) -> u64
    requires place { place ≤ length script.now }
    requires short { place < 2 ^ 63 }
    ensures value { result ≡ line_at place script.now }
{
    let feeds = script[..place]
        .iter()
        .filter(|byte| **byte == b'\n')
        .count();
    1 + feeds as u64
}

/// The line of the first byte that isn't UTF-8.
fn first_broken(bytes: &[u8]) -> Option<u64>
    requires short { length bytes.now < 2 ^ 63 }
    ensures value { result ≡ broken_line bytes.now }
{
    match str::from_utf8(bytes) {
        Ok(_) => None,
        Err(fault) => Some(line_at(bytes, fault.valid_up_to())),
    }
}

/// The line of the first byte that is too much.
fn first_beyond(script: &[u8]) -> Option<u64>
    ensures value { result ≡ limit_line script.now }
{
    if script.len() > MAX_SCRIPT {
        Some(line_at(script, MAX_SCRIPT))
    } else {
        None
    }
}

/// Whether the item of these bytes is a directive.
pub fn is_directive(bytes: &[u8]) -> bool
    ensures value { result ≡ begins_directive (first_of bytes.now) }
{
    match bytes {
        [] => false,
        [first, ..] => *first == b'!',
    }
}

/// The lesser of two lines, where there are two.
pub fn earlier_of(line: Option<u64>, other: Option<u64>) -> Option<u64>
    ensures value { result ≡ earlier line other }
{
    match (line, other) {
        (None, other) => other,
        (Some(line), None) => Some(line),
        (Some(line), Some(other)) => Some(line.min(other)),
    }
}

/// What of a script is read.
fn readable(script: &[u8]) -> &[u8]
    ensures value { result.now ≡ front script.now }
    ensures short { length result.now < 2 ^ 63 }
{
    if script.len() > MAX_SCRIPT {
        &script[..MAX_SCRIPT]
    } else {
        script
    }
}

/// The items of what of a script is read, and where its bytes are refused.
#[derive(Drop)]
pub struct Cut {
    /// The items before the limit, in order.
    pub items: List<Item>,
    /// The first line, from 1, with a byte that isn't UTF-8 or that is too much.
    pub fault: Option<u64>,
}

/// Cuts a script into its items.
pub fn cut_script(alloc: Global, script: &[u8]) -> Result<Cut, NoMemory>
    ensures items { IfOk result (λ cut. cut.items ≡ items_of (front script.now)) }
    ensures fault { IfOk result (λ cut. cut.fault ≡ bytes_line script.now) }
    ensures utf8 { IfOk result (λ cut. cut.fault ≡ None → HaveUtf8 cut.items) }
{
    let before = readable(script);
    let items = items(alloc, before)?;
    Ok(Cut {
        items: List::from_vec(items),
        fault: earlier_of(first_broken(before), first_beyond(script)),
    })
}
