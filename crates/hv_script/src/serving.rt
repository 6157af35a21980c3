//! Scripts whose sessions are served beside each other: what they ask to be done, and where they are refused.
ghost use Rattle.std.specs.Prelude.{◌≡◌, IfOk};
ghost use Rattle.hv_script.specs.Actions.{IsReading, actions_of, is_untaken, least, served_refused_at, untaken_line, untaken_lines};

use crate::actions::Action;
use crate::kinds::{Kind, read_kind};
use crate::reading::read_items;
use crate::{Cut, Item, ScriptFault, cut_script, earlier_of};
use hv_base::{List, NoMemory};
use std::alloc::Global;

fn is_untaken(kind: &Kind) -> bool
    ensures value { result ≡ is_untaken kind.now }
{
    match kind {
        Kind::Statement => false,
        Kind::Session(_) => false,
        Kind::Hold(_) => true,
        Kind::Go(_) => true,
        Kind::Compact => true,
        Kind::Clean => true,
        Kind::Barrier => false,
        Kind::Unknown => false,
    }
}

/// The line of an item that isn't taken.
fn untaken_line(item: &Item, kind: &Kind) -> Option<u64>
    ensures value { result ≡ untaken_line item.now kind.now }
{
    if is_untaken(kind) {
        Some(item.line)
    } else {
        None
    }
}

/// The first line of an item that isn't taken.
fn first_untaken(alloc: Global, items: &[Item]) -> Result<Option<u64>, NoMemory>
    ensures value { IfOk result (λ line. line ≡ least (untaken_lines items.now)) }
{
    let mut line = None;
    for item in items {
        let kind = read_kind(alloc, item.bytes.as_slice())?;
        line = earlier_of(line, untaken_line(item, &kind));
    }
    Ok(line)
}

/// What the script of these bytes asks to be done where its sessions are served beside each other, in order.
///
/// # Errors
/// As `read_actions`; and `Refused` too where a line holds a statement or releases one, or asks for a compaction or for
/// cleaning.
pub fn read_served(alloc: Global, script: &[u8]) -> Result<List<Action>, ScriptFault>
    ensures read { IsReading (served_refused_at script.now) (actions_of script.now) result }
{
    let Cut { items, fault } = cut_script(alloc, script)?;
    let untaken = first_untaken(alloc, items.as_slice())?;
    let asked = read_items(alloc, items.as_slice())?;
    match earlier_of(earlier_of(fault, asked.fault), untaken) {
        Some(line) => Err(ScriptFault::Refused { line }),
        None => Ok(List::from_vec(asked.actions)),
    }
}
