//! The same texts, of whose rows no tree is made: a value takes no memory.

ghost use Rattle.std.specs.Prelude.{◌≡◌, IfOk, OnOk, codes, true};
ghost use Rattle.hv_grammar.specs.declared.kind.Kind.TheVariants as kind;
ghost use Rattle.hv_grammar.specs.Rules.{separated};
ghost use Rattle.hv_grammar.specs.Grammar as grammar;
ghost use Rattle.hv_grammar.specs.StatementGrammar as statement;
ghost use Rattle.hv_values_text.specs.Bare.{HasPart, HasInsert, SpellsWithout};
ghost use Rattle.hv_values_text.specs.Fronts as fronts;
ghost use Rattle.hv_values_text.specs.Parts.{flat, flat_query};
ghost use Rattle.hv_values_text.specs.Passing.{Passes, Knows};
ghost use Rattle.hv_values_text.specs.Ways as ways;

use crate::columns::column_names;
use crate::cursor::Cursor;
use crate::fault::Unread;
use crate::fronts::let_go;
use crate::insert::into;
use crate::literals::literal;
use crate::partitions::partition;
use hv_ast::{Insert, Rows, Stmt, discard};
use hv_base::{List, Text};
use hv_lex::is_quote;
use std::alloc::Global;

fn number_over(cursor: &mut Cursor<'_>) -> Result<(), Unread>
    ensures part { OnOk result (HasPart 0 flat cursor.old cursor.new) }
    ensures known { Passes (ways.number cursor.old) result cursor.new }
{
    let found = cursor.number()?;
    let_go(found);
    Ok(())
}

fn quoted_over(alloc: Global, cursor: &mut Cursor<'_>) -> Result<(), Unread>
    ensures part { OnOk result (HasPart 0 flat cursor.old cursor.new) }
    ensures known { Passes (ways.quoted cursor.old) result cursor.new }
{
    cursor.skim_quoted(alloc)?;
    Ok(())
}

/// What is seldom written: its tree is made, and let go.
fn other_over(alloc: Global, cursor: &mut Cursor<'_>) -> Result<(), Unread>
    ensures part { OnOk result (HasPart 0 flat cursor.old cursor.new) }
    ensures known { Passes (ways.literal cursor.old) result cursor.new }
{
    let found = literal(alloc, cursor)?;
    let_go(found);
    Ok(())
}

/// A number with `-` or without, a text in quotes, a DATE, TRUE, FALSE or NULL.
#[tactic(auto, unfolding(crate::specs::Ways::literal))]
fn literal_over(alloc: Global, cursor: &mut Cursor<'_>) -> Result<(), Unread>
    ensures part { OnOk result (HasPart 0 flat cursor.old cursor.new) }
    ensures known { Passes (ways.literal cursor.old) result cursor.new }
{
    let first = cursor.next();
    if first.is_ascii_digit() {
        number_over(cursor)
    } else if is_quote(first) {
        quoted_over(alloc, cursor)
    } else {
        other_over(alloc, cursor)
    }
}

/// `literal {, literal}`
#[tactic(auto, unfolding(crate::specs::Ways::values, crate::specs::Ways::separated))]
fn values_over(alloc: Global, cursor: &mut Cursor<'_>) -> Result<(), Unread>
    ensures part { OnOk result (HasPart 0 (grammar.list flat) cursor.old cursor.new) }
    ensures known { Passes (ways.values cursor.old) result cursor.new }
{
    literal_over(alloc, cursor)?;
    for _turn in 0..cursor.left() {
        if !cursor.sees(b',') {
            break;
        }
        cursor.pass();
        literal_over(alloc, cursor)?;
    }
    Ok(())
}

/// `( literal {, literal} )`
#[tactic(auto, unfolding(crate::specs::Ways::row))]
fn row_over(alloc: Global, cursor: &mut Cursor<'_>) -> Result<(), Unread>
    ensures part { OnOk result (HasPart 1 (statement.row flat flat_query) cursor.old cursor.new) }
    ensures known { Passes (ways.row cursor.old) result cursor.new }
{
    cursor.expect(b'(')?;
    values_over(alloc, cursor)?;
    cursor.expect(b')')?;
    Ok(())
}

/// `row {, row}`
#[tactic(auto, unfolding(crate::specs::Ways::rows, crate::specs::Ways::separated))]
fn rows_over(alloc: Global, cursor: &mut Cursor<'_>) -> Result<(), Unread>
    ensures part { OnOk result
        (HasPart 1 (separated kind.Comma (statement.row flat flat_query)) cursor.old cursor.new) }
    ensures known { Passes (ways.rows cursor.old) result cursor.new }
{
    row_over(alloc, cursor)?;
    for _turn in 0..cursor.left() {
        if !cursor.sees(b',') {
            break;
        }
        cursor.pass();
        row_over(alloc, cursor)?;
    }
    Ok(())
}

/// `INSERT INTO [TABLE] name [PARTITION ( .. )] [( name {, name} )] VALUES row {, row}`, without the rows.
#[tactic(auto, unfolding(crate::specs::Ways::insertion))]
fn insertion_over(alloc: Global, cursor: &mut Cursor<'_>) -> Result<Stmt, Unread>
    ensures part { IfOk result (λ tree. HasInsert tree cursor.old cursor.new) }
    ensures word { OnOk result (fronts.sees_word (codes "insert") cursor.old ≡ true) }
    ensures known { Passes (ways.insertion cursor.old) result cursor.new }
{
    cursor.expect_word(b"insert")?;
    into(cursor)?;
    let table = cursor.name(alloc)?;
    let partition = partition(alloc, cursor)?;
    let columns = column_names(alloc, cursor)?;
    cursor.expect_word(b"values")?;
    rows_over(alloc, cursor)?;
    Ok(Stmt::Insert(Insert {
        overwrite: false,
        table,
        partition,
        columns,
        rows: Rows::Values(List::empty(alloc)),
    }))
}

#[tactic(auto, unfolding(crate::specs::Ways::is_insert_of_values))]
fn whole_over(alloc: Global, text: &[u8]) -> Result<Stmt, Unread>
    ensures tree { IfOk result (SpellsWithout text.now) }
    ensures known { Knows (ways.is_insert_of_values text.now) result }
{
    let mut cursor = Cursor::new(text);
    let tree = insertion_over(alloc, &mut cursor)?;
    if !cursor.is_done() {
        discard(tree);
        return Err(Unread::Unknown);
    }
    Ok(tree)
}

/// The tree of a text that `read_values` knows, without its rows: each value is tested, and none is made.
pub fn skim_values(alloc: Global, text: &Text) -> Result<Stmt, Unread>
    ensures tree { IfOk result (SpellsWithout text.now) }
    ensures known { Knows (ways.is_insert_of_values text.now) result }
{
    whole_over(alloc, text.bytes())
}
