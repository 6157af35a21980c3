//! The names of columns.

ghost use Rattle.std.specs.Prelude.{IfOk};
ghost use Rattle.hv_grammar.specs.StatementGrammar as statement;
ghost use Rattle.hv_values_text.specs.Parts.{IsPart, flat, flat_query};
ghost use Rattle.hv_values_text.specs.Passing.{Passes};
ghost use Rattle.hv_values_text.specs.Ways as ways;

use crate::cursor::Cursor;
use crate::fault::Unread;
use crate::rows::begun;
use hv_base::{List, Text};
use std::alloc::Global;

/// `name {, name}`
#[tactic(auto, unfolding(crate::specs::Ways::names, crate::specs::Ways::separated))]
fn names(alloc: Global, cursor: &mut Cursor<'_>) -> Result<List<Text>, Unread>
    ensures part { IfOk result (λ found. IsPart 0 statement.names found cursor.old cursor.new) }
    ensures known { Passes (ways.names cursor.old) result cursor.new }
{
    let mut found = begun(alloc, 1, cursor.name(alloc)?)?;
    for _turn in 0..cursor.left() {
        if !cursor.sees(b',') {
            break;
        }
        cursor.pass();
        found.push(cursor.name(alloc)?)?;
    }
    Ok(List::from_vec(found))
}

/// `[( name {, name} )]`
#[tactic(auto, unfolding(crate::specs::Ways::column_names))]
pub fn column_names(alloc: Global, cursor: &mut Cursor<'_>) -> Result<List<Text>, Unread>
    ensures part { IfOk result
        (λ found. IsPart 1 (statement.column_names flat flat_query) found cursor.old cursor.new) }
    ensures known { Passes (ways.column_names cursor.old) result cursor.new }
{
    if !cursor.sees(b'(') {
        return Ok(List::empty(alloc));
    }
    cursor.pass();
    let found = names(alloc, cursor)?;
    cursor.expect(b')')?;
    Ok(found)
}
