//! The expression at a place.

ghost use Rattle.std.specs.Prelude.{ℕ, IfOk, drop};
ghost use Rattle.hv_ast.specs.declared.expr.Expr.{Expr};
ghost use Rattle.hv_grammar.specs.Grammar.{IsExpression};
ghost use Rattle.hv_grammar.specs.Nesting.{too_deep, most_levels};
ghost use Rattle.hv_grammar.specs.Reading as reading;
ghost use Rattle.hv_parse_expr.specs.Exact.{Finds, TellsNesting};
ghost use Rattle.hv_parse_expr.specs.Reads.{Reads, Tells};

use crate::fault::{ParseFault, ReadFault};
use crate::grammar::any_expr;
use crate::nesting::too_deep;
use crate::operators::{binds, discard};
use crate::tokens::Tokens;
use hv_ast::{Expr, Token};
use std::alloc::Global;

/// An expression whose next token can't continue one.
#[tactic(auto, unfolding(hv_grammar::specs::Reading::whole))]
fn whole(alloc: Global, tokens: &mut Tokens<'_>) -> Result<Expr, ReadFault>
    ensures { Reads (reading.whole tokens.old) result tokens.new }
{
    let found = any_expr(alloc, tokens)?;
    if binds(tokens.peek()) > 0 {
        discard(found);
        return Err(ReadFault::Syntax);
    }
    Ok(found)
}

#[tactic(auto, unfolding(hv_grammar::specs::Reading::expression_at))]
fn read_expr(tokens: &[Token], from: usize, alloc: Global) -> Result<(Expr, usize), ParseFault>
    ensures { Tells (reading.expression_at tokens.now from) result }
{
    let rest = tokens.get(from..).unwrap_or_default();
    if let Some(at) = too_deep(rest) {
        return Err(ParseFault::Nesting { at });
    }
    let mut left = Tokens::new(rest);
    let found = whole(alloc, &mut left)?;
    Ok((found, tokens.len().saturating_sub(left.left())))
}

/// The expression that begins at `from` and whose next token can't continue an expression, with
/// the place of that token. `Nesting` comes where the tokens from `from` on open more than 64
/// levels, at the one that does; `Syntax` where they don't and there is no such expression.
pub fn parse_expr(tokens: &[Token], from: usize, alloc: Global) -> Result<(Expr, usize), ParseFault>
    ensures read { Tells (reading.expression_at tokens.now from) result }
    ensures found { IfOk result (λ p. IsExpression tokens.now from p.1 p.0) }
    ensures only { (to : ℕ) (tree : Expr)
        → IsExpression tokens.now from to tree → Finds result to tree }
    ensures nesting { TellsNesting (too_deep most_levels (drop from tokens.now)) result }
{
    read_expr(tokens, from, alloc)
}
