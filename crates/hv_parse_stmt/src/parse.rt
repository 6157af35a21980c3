//! The statement that tokens are.

ghost use Rattle.std.specs.Prelude.{IfOk};
ghost use Rattle.hv_ast.specs.declared.statement.Stmt.{Stmt};
ghost use Rattle.hv_grammar.specs.Nesting.{too_deep, most_levels};
ghost use Rattle.hv_grammar.specs.StatementGrammar.{IsStatement};
ghost use Rattle.hv_grammar.specs.StatementReading as reading;
ghost use Rattle.hv_parse_expr.specs.Reads.{Reads};
ghost use Rattle.hv_parse_stmt.specs.Told.{Tells, Finds, TellsNesting};

use crate::asked::{abort, describe, show};
use crate::changes::{compact, delete, explain, insert, merge, queried, truncate, update};
use crate::tables::{create, drop_table};
use hv_ast::{Stmt, Token, discard};
use hv_grammar::Kind;
use hv_parse_expr::{ParseFault, ReadFault, Tokens, too_deep};
use std::alloc::Global;

/// A statement, by its first word.
#[tactic(auto, unfolding(hv_grammar::specs::StatementReading::statement, hv_grammar::specs::StatementReading::statement_over))]
fn statement(alloc: Global, tokens: &mut Tokens<'_>) -> Result<Stmt, ReadFault>
    ensures { Reads (reading.statement tokens.old) result tokens.new }
{
    let kind = tokens.peek();
    if let Kind::Select = kind {
        return queried(alloc, tokens);
    }
    tokens.pass();
    match kind {
        Kind::Insert => insert(alloc, tokens),
        Kind::Update => update(alloc, tokens),
        Kind::Delete => delete(alloc, tokens),
        Kind::Merge => merge(alloc, tokens),
        Kind::Create => create(alloc, tokens),
        Kind::Drop => drop_table(alloc, tokens),
        Kind::Truncate => truncate(alloc, tokens),
        Kind::Show => show(alloc, tokens),
        Kind::Describe => describe(alloc, tokens),
        Kind::Alter => compact(alloc, tokens),
        Kind::Abort => abort(alloc, tokens),
        Kind::Explain => explain(alloc, tokens),
        _ => Err(ReadFault::Syntax),
    }
}

#[tactic(auto, unfolding(hv_grammar::specs::StatementReading::statement_of))]
fn read_stmt(tokens: &[Token], alloc: Global) -> Result<Stmt, ParseFault>
    ensures { Tells (reading.statement_of tokens.now) result }
{
    if let Some(at) = too_deep(tokens) {
        return Err(ParseFault::Nesting { at });
    }
    let mut left = Tokens::new(tokens);
    let found = statement(alloc, &mut left)?;
    if left.left() > 0 {
        discard(found);
        return Err(ParseFault::Syntax);
    }
    Ok(found)
}

/// The statement that these tokens are, all of them, without a semicolon. `Nesting` comes where they
/// open more than 64 levels of brackets and CASE, at the one that does; `Syntax` where they don't
/// and are no statement. SET texts have no tokens: see `parse_set`.
pub fn parse_stmt(tokens: &[Token], alloc: Global) -> Result<Stmt, ParseFault>
    ensures read { Tells (reading.statement_of tokens.now) result }
    ensures found { IfOk result (λ tree. IsStatement tokens.now tree) }
    ensures only { (tree : Stmt) → IsStatement tokens.now tree → Finds result tree }
    ensures nesting { TellsNesting (too_deep most_levels tokens.now) result }
{
    read_stmt(tokens, alloc)
}
