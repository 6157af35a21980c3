ghost use Rattle.std.specs.Prelude.{◌≡◌, ◌++◌, IfOk, OnOk};
ghost use Rattle.std.specs.Option.{option_to_list};
ghost use Rattle.hv_script.specs.Script.{HaveUtf8};
ghost use Rattle.hv_script.specs.Actions.{IsReading, actions_from, actions_of, least, refused_at};
ghost use Rattle.hv_script.specs.ActionReading.{Took};
ghost use Rattle.hv_script.specs.Standing.{fault_lines, first_standing};

use crate::actions::Action;
use crate::kinds::read_kind;
use crate::standing::Sessions;
use crate::{Cut, Item, ScriptFault, cut_script, earlier_of};
use hv_base::{List, NoMemory};
use std::alloc::Global;

/// What the items so far ask to be done, and the first line of a fault among them.
#[derive(Drop)]
pub struct Reader {
    sessions: Sessions,
    actions: Vec<Action>,
    fault: Option<u64>,
}

fn push_some(actions: &mut Vec<Action>, action: Option<Action>) -> Result<(), NoMemory>
    ensures pushed { OnOk result (actions.new.items ≡ actions.old.items ++ option_to_list action) }
{
    if let Some(action) = action {
        actions.push(action)?;
    }
    Ok(())
}

impl Reader {
    /// Takes the next item.
    fn take(&mut self, alloc: Global, item: &Item) -> Result<(), NoMemory>
        ensures taken { OnOk result (Took self.old self.new item.now) }
    {
        let kind = read_kind(alloc, item.bytes.as_slice())?;
        if self.sessions.refuses(item, &kind) {
            self.fault = earlier_of(self.fault, Some(item.line));
            return Ok(());
        }
        let action = self.sessions.action(alloc, item, &kind)?;
        push_some(&mut self.actions, action)?;
        self.sessions.pass(alloc, item, kind)?;
        Ok(())
    }
}

/// What the items of a script ask to be done, and the first line of their faults.
#[derive(Drop)]
pub struct Asked {
    pub actions: Vec<Action>,
    pub fault: Option<u64>,
}

/// Reads the items of a script.
pub fn read_items(alloc: Global, items: &[Item]) -> Result<Asked, NoMemory>
    ensures fault { IfOk result (λ asked. asked.fault ≡ least (fault_lines first_standing items.now)) }
    ensures actions { IfOk result (λ asked. HaveUtf8 items.now → asked.actions.items ≡ actions_from first_standing items.now) }
{
    let mut reader = Reader {
        sessions: Sessions::new(alloc)?,
        actions: Vec::new(alloc),
        fault: None,
    };
    for item in items {
        reader.take(alloc, item)?;
    }
    let Reader {
        sessions,
        actions,
        fault,
    } = reader;
    Ok(Asked {
        actions,
        fault: earlier_of(fault, sessions.first_unreleased()),
    })
}

/// What the script of these bytes asks to be done, in order.
///
/// # Errors
/// `Refused` with the least line over all its faults: a byte that isn't UTF-8; the byte after 16 MiB;
/// a directive that isn't known; statement 10,001; session 17; a text above 32,768 bytes; a statement
/// of a held session; a directive between a hold and its statement; the release of a session that
/// isn't held; a hold that isn't released in the end. Behind a fault reading goes on as if the faulty
/// item weren't there.
pub fn read_actions(alloc: Global, script: &[u8]) -> Result<List<Action>, ScriptFault>
    ensures read { IsReading (refused_at script.now) (actions_of script.now) result }
{
    let Cut { items, fault } = cut_script(alloc, script)?;
    let asked = read_items(alloc, items.as_slice())?;
    match earlier_of(fault, asked.fault) {
        Some(line) => Err(ScriptFault::Refused { line }),
        None => Ok(List::from_vec(asked.actions)),
    }
}
