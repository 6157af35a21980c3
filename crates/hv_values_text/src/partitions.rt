//! The PARTITION clause.

ghost use Rattle.std.specs.Prelude.{IfOk};
ghost use Rattle.hv_grammar.specs.declared.kind.Kind.TheVariants as kind;
ghost use Rattle.hv_grammar.specs.Rules.{perhaps, separated};
ghost use Rattle.hv_grammar.specs.StatementGrammar as statement;
ghost use Rattle.hv_values_text.specs.Parts.{IsPart, flat, flat_query};
ghost use Rattle.hv_values_text.specs.Passing.{Passes};
ghost use Rattle.hv_values_text.specs.Ways as ways;

use crate::cursor::Cursor;
use crate::fault::Unread;
use crate::literals::literal;
use crate::rows::begun;
use hv_ast::{Expr, PartitionItem};
use hv_base::List;
use std::alloc::Global;

/// `[= literal]`
#[tactic(auto, unfolding(crate::specs::Ways::item_value))]
fn value(alloc: Global, cursor: &mut Cursor<'_>) -> Result<Option<Expr>, Unread>
    ensures part { IfOk result
        (λ found. IsPart 0 (perhaps kind.Equal flat) found cursor.old cursor.new) }
    ensures known { Passes (ways.item_value cursor.old) result cursor.new }
{
    if !cursor.sees(b'=') {
        return Ok(None);
    }
    cursor.expect_single(b'=')?;
    Ok(Some(literal(alloc, cursor)?))
}

/// `name [= literal]`
#[tactic(auto, unfolding(crate::specs::Ways::item))]
fn item(alloc: Global, cursor: &mut Cursor<'_>) -> Result<PartitionItem, Unread>
    ensures part { IfOk result
        (λ found. IsPart 0 (statement.partition_item flat flat_query) found
        cursor.old cursor.new) }
    ensures known { Passes (ways.item cursor.old) result cursor.new }
{
    let name = cursor.name(alloc)?;
    let value = value(alloc, cursor)?;
    Ok(PartitionItem { name, value })
}

/// `name [= literal] {, name [= literal]}`
#[tactic(auto, unfolding(crate::specs::Ways::items, crate::specs::Ways::separated))]
fn items(alloc: Global, cursor: &mut Cursor<'_>) -> Result<List<PartitionItem>, Unread>
    ensures part { IfOk result
        (λ found. IsPart 0 (separated kind.Comma (statement.partition_item flat flat_query)) found
        cursor.old cursor.new) }
    ensures known { Passes (ways.items cursor.old) result cursor.new }
{
    let mut found = begun(alloc, 1, item(alloc, cursor)?)?;
    for _turn in 0..cursor.left() {
        if !cursor.sees(b',') {
            break;
        }
        cursor.pass();
        found.push(item(alloc, cursor)?)?;
    }
    Ok(List::from_vec(found))
}

/// `[PARTITION ( name [= literal] {, name [= literal]} )]`
#[tactic(auto, unfolding(crate::specs::Ways::partition))]
pub fn partition(alloc: Global, cursor: &mut Cursor<'_>) -> Result<List<PartitionItem>, Unread>
    ensures part { IfOk result
        (λ found. IsPart 1 (statement.partition flat flat_query) found cursor.old cursor.new) }
    ensures known { Passes (ways.partition cursor.old) result cursor.new }
{
    if !cursor.sees_word(b"partition") {
        return Ok(List::empty(alloc));
    }
    cursor.pass_word();
    cursor.expect(b'(')?;
    let found = items(alloc, cursor)?;
    cursor.expect(b')')?;
    Ok(found)
}
