//! The rules that hold expressions take the reader of those as a parameter, so that each is proved
//! by itself.

ghost use Rattle.hv_grammar.specs.Reading as reading;
ghost use Rattle.hv_parse_expr.specs.Nests.{Nests};
ghost use Rattle.hv_parse_expr.specs.Reads.{Reads};
ghost use Rattle.hv_parse_expr.specs.UpTo.{up_to};

use crate::fault::ReadFault;
use crate::nesting::MOST_LEVELS;
use crate::tokens::Tokens;
use hv_ast::Expr;
use hv_base::{Boxed, List};
use hv_grammar::Kind;
use std::alloc::Global;

/// The rules that hold expressions, over a function that reads what stands between brackets.
#[derive(Clone, Copy)]
pub struct Grammar<F> {
    /// What trees are made of.
    pub alloc: Global,
    /// How deep an expression between brackets may nest.
    pub depth: usize,
    /// Reads an expression that nests less deep than a number: `expr` of this module.
    pub expr: F,
}

impl<F: Fn(Global, &mut Tokens<'_>, usize) -> Result<Expr, ReadFault>> Grammar<F> {
    /// An expression between brackets.
    pub fn expr(&self, tokens: &mut Tokens<'_>) -> Result<Expr, ReadFault>
        requires { Nests self.now.depth (F.pre self.now.expr) (F.post self.now.expr) }
        ensures { Reads (reading.expr self.now.depth tokens.old) result tokens.new }
    {
        (self.expr)(self.alloc, tokens, self.depth)
    }

    /// An expression between brackets in a box, up to a token of this kind, which is passed.
    #[tactic(auto, unfolding(crate::specs::UpTo::up_to))]
    pub fn expr_up_to(&self, tokens: &mut Tokens<'_>, kind: Kind) -> Result<Boxed<Expr>, ReadFault>
        requires { Nests self.now.depth (F.pre self.now.expr) (F.post self.now.expr) }
        ensures { Reads (up_to kind (reading.expr self.now.depth) tokens.old) result tokens.new }
    {
        let value = Boxed::new(self.alloc, self.expr(tokens)?)?;
        tokens.expect(kind)?;
        Ok(value)
    }
}

/// An expression that nests less deep than `depth`.
pub fn expr(alloc: Global, tokens: &mut Tokens<'_>, depth: usize) -> Result<Expr, ReadFault>
    ensures { Reads (reading.expr depth tokens.old) result tokens.new }
{
    if depth == 0 {
        return Err(ReadFault::Syntax);
    }
    Grammar {
        alloc,
        depth: depth - 1,
        expr,
    }
    .disjunction(tokens)
}

/// An expression, however deep a text may nest.
pub fn any_expr(alloc: Global, tokens: &mut Tokens<'_>) -> Result<Expr, ReadFault>
    ensures { Reads (reading.any_expr tokens.old) result tokens.new }
{
    expr(alloc, tokens, MOST_LEVELS + 1)
}

/// An expression in a box, however deep a text may nest, up to a token of this kind, which is passed.
pub fn any_expr_up_to(
    alloc: Global,
    tokens: &mut Tokens<'_>,
    kind: Kind,
) -> Result<Boxed<Expr>, ReadFault>
    ensures { Reads (up_to kind reading.any_expr tokens.old) result tokens.new }
{
    Grammar {
        alloc,
        depth: MOST_LEVELS + 1,
        expr,
    }
    .expr_up_to(tokens, kind)
}

/// `expr {, expr}`
pub fn expr_list(alloc: Global, tokens: &mut Tokens<'_>) -> Result<List<Expr>, ReadFault>
    ensures { Reads (reading.list reading.any_expr tokens.old) result tokens.new }
{
    Grammar {
        alloc,
        depth: MOST_LEVELS + 1,
        expr,
    }
    .list(tokens)
}
