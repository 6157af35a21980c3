//! Rows of written out values.

ghost use Rattle.std.specs.Prelude.{◌≡◌, ◌∷◌, [], IfOk};
ghost use Rattle.hv_grammar.specs.declared.kind.Kind.TheVariants as kind;
ghost use Rattle.hv_grammar.specs.Rules.{separated};
ghost use Rattle.hv_grammar.specs.Grammar as grammar;
ghost use Rattle.hv_grammar.specs.StatementGrammar as statement;
ghost use Rattle.hv_values_text.specs.Parts.{IsPart, flat, flat_query};
ghost use Rattle.hv_values_text.specs.Passing.{Passes};
ghost use Rattle.hv_values_text.specs.Ways as ways;

use crate::cursor::Cursor;
use crate::fault::Unread;
use crate::literals::literal;
use hv_ast::Expr;
use hv_base::{List, NoMemory};
use std::alloc::Global;

/// A list of this item, with room for so many.
pub fn begun<T: Drop>(alloc: Global, room: usize, first: T) -> Result<Vec<T>, NoMemory>
    ensures { IfOk result (λ found. found.items ≡ first ∷ []) }
{
    let mut found = Vec::with_capacity(alloc, room)?;
    found.push(first)?;
    Ok(found)
}

/// `literal {, literal}`, of which so many are expected.
#[tactic(auto, unfolding(crate::specs::Ways::values, crate::specs::Ways::separated))]
fn values(alloc: Global, cursor: &mut Cursor<'_>, width: usize) -> Result<List<Expr>, Unread>
    ensures part { IfOk result (λ found. IsPart 0 (grammar.list flat) found cursor.old cursor.new) }
    ensures known { Passes (ways.values cursor.old) result cursor.new }
{
    let mut found = begun(alloc, width, literal(alloc, cursor)?)?;
    for _turn in 0..cursor.left() {
        if !cursor.sees(b',') {
            break;
        }
        cursor.pass();
        found.push(literal(alloc, cursor)?)?;
    }
    Ok(List::from_vec(found))
}

/// `( literal {, literal} )`
#[tactic(auto, unfolding(crate::specs::Ways::row))]
fn row(alloc: Global, cursor: &mut Cursor<'_>, width: usize) -> Result<List<Expr>, Unread>
    ensures part { IfOk result
        (λ found. IsPart 1 (statement.row flat flat_query) found cursor.old cursor.new) }
    ensures known { Passes (ways.row cursor.old) result cursor.new }
{
    cursor.expect(b'(')?;
    let found = values(alloc, cursor, width)?;
    cursor.expect(b')')?;
    Ok(found)
}

/// `row {, row}`. Each row is given as much room as the first took.
#[tactic(auto, unfolding(crate::specs::Ways::rows, crate::specs::Ways::separated))]
pub fn row_list(alloc: Global, cursor: &mut Cursor<'_>) -> Result<List<List<Expr>>, Unread>
    ensures part { IfOk result
        (λ found. IsPart 1 (separated kind.Comma (statement.row flat flat_query)) found
        cursor.old cursor.new) }
    ensures known { Passes (ways.rows cursor.old) result cursor.new }
{
    let first = row(alloc, cursor, 1)?;
    let width = first.len();
    let mut found = begun(alloc, 1, first)?;
    for _turn in 0..cursor.left() {
        if !cursor.sees(b',') {
            break;
        }
        cursor.pass();
        found.push(row(alloc, cursor, width)?)?;
    }
    Ok(List::from_vec(found))
}
