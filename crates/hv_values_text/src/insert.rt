//! INSERT INTO with rows of written out values.

ghost use Rattle.std.specs.Prelude.{◌≡◌, IfOk, OnOk, codes, false, true};
ghost use Rattle.hv_grammar.specs.StatementGrammar as statement;
ghost use Rattle.hv_grammar.specs.Texts as texts;
ghost use Rattle.hv_values_text.specs.Fronts as fronts;
ghost use Rattle.hv_values_text.specs.Parts.{IsPart, flat, flat_query};
ghost use Rattle.hv_values_text.specs.Passing.{Passes, Knows};
ghost use Rattle.hv_values_text.specs.Ways as ways;

use crate::columns::column_names;
use crate::cursor::Cursor;
use crate::fault::Unread;
use crate::partitions::partition;
use crate::rows::row_list;
use hv_ast::{Insert, Rows, Stmt, discard};
use hv_base::Text;
use std::alloc::Global;

/// `INTO [TABLE]`
#[tactic(auto, unfolding(crate::specs::Ways::into))]
pub fn into(cursor: &mut Cursor<'_>) -> Result<(), Unread>
    ensures part { OnOk result
        (IsPart 1 (statement.overwrite flat flat_query) false cursor.old cursor.new) }
    ensures known { Passes (ways.into cursor.old) result cursor.new }
{
    cursor.expect_word(b"into")?;
    if !cursor.sees_word(b"table") {
        return Ok(());
    }
    cursor.pass_word();
    Ok(())
}

/// `INSERT INTO [TABLE] name [PARTITION ( .. )] [( name {, name} )] VALUES row {, row}`
#[tactic(auto, unfolding(crate::specs::Ways::insertion))]
fn insertion(alloc: Global, cursor: &mut Cursor<'_>) -> Result<Stmt, Unread>
    ensures part { IfOk result
        (λ tree. IsPart 1 (statement.statement_over flat flat_query) tree cursor.old cursor.new) }
    ensures word { OnOk result (fronts.sees_word (codes "insert") cursor.old ≡ true) }
    ensures known { Passes (ways.insertion cursor.old) result cursor.new }
{
    cursor.expect_word(b"insert")?;
    into(cursor)?;
    let table = cursor.name(alloc)?;
    let partition = partition(alloc, cursor)?;
    let columns = column_names(alloc, cursor)?;
    cursor.expect_word(b"values")?;
    let rows = row_list(alloc, cursor)?;
    Ok(Stmt::Insert(Insert {
        overwrite: false,
        table,
        partition,
        columns,
        rows: Rows::Values(rows),
    }))
}

#[tactic(auto, unfolding(crate::specs::Ways::is_insert_of_values))]
fn whole(alloc: Global, text: &[u8]) -> Result<Stmt, Unread>
    ensures tree { IfOk result (λ tree. texts.Spells text.now tree) }
    ensures known { Knows (ways.is_insert_of_values text.now) result }
{
    let mut cursor = Cursor::new(text);
    let tree = insertion(alloc, &mut cursor)?;
    if !cursor.is_done() {
        discard(tree);
        return Err(Unread::Unknown);
    }
    Ok(tree)
}

/// The tree of a text `INSERT INTO [TABLE] name [PARTITION ( name [= literal] {, ..} )]
/// [( name {, name} )] VALUES ( literal {, literal} ) {, ( .. )}`, whose names are no keywords and
/// whose literals are numbers without a mark, with `-` or without, texts in quotes, DATE and such a
/// text, TRUE, FALSE and NULL. Any other text is `Unknown`, and no such text is: so is one with a
/// comment, a name in backquotes or `DEFAULT.`, and one with a fault.
pub fn read_values(alloc: Global, text: &Text) -> Result<Stmt, Unread>
    ensures tree { IfOk result (λ tree. texts.Spells text.now tree) }
    ensures known { Knows (ways.is_insert_of_values text.now) result }
{
    whole(alloc, text.bytes())
}
