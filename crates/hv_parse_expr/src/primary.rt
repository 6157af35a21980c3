//! What an expression is made of: literals, names, calls, brackets, CASE and CAST.

ghost use Rattle.hv_grammar.specs.Reading as reading;
ghost use Rattle.hv_parse_expr.specs.Nests.{Nests};
ghost use Rattle.hv_parse_expr.specs.Reads.{Reads};

use crate::fault::ReadFault;
use crate::grammar::Grammar;
use crate::names::{column, date, is_name};
use crate::results::pushed;
use crate::tokens::Tokens;
use crate::types::type_name;
use hv_ast::{Expr, Literal, When};
use hv_base::{Boxed, List, Text};
use hv_grammar::{Kind, same_kind};
use std::alloc::Global;

impl<F: Fn(Global, &mut Tokens<'_>, usize) -> Result<Expr, ReadFault>> Grammar<F> {
    /// `expr {, expr}`
    #[tactic(auto, unfolding(hv_grammar::specs::Reading::list, hv_grammar::specs::Readers::separated))]
    pub fn list(&self, tokens: &mut Tokens<'_>) -> Result<List<Expr>, ReadFault>
        requires { Nests self.now.depth (F.pre self.now.expr) (F.post self.now.expr) }
        ensures { Reads (reading.list (reading.expr self.now.depth) tokens.old) result tokens.new }
    {
        let mut found = pushed(Vec::new(self.alloc), self.expr(tokens))?;
        for _turn in 0..tokens.left() {
            if !tokens.eat(Kind::Comma) {
                break;
            }
            found = pushed(found, self.expr(tokens))?;
        }
        Ok(List::from_vec(found))
    }

    /// Behind `(`: `expr )`
    #[tactic(auto, using(crate::proofs::UpTo::bracketed_is))]
    fn bracketed(&self, tokens: &mut Tokens<'_>) -> Result<Expr, ReadFault>
        requires { Nests self.now.depth (F.pre self.now.expr) (F.post self.now.expr) }
        ensures { Reads (reading.bracketed (reading.expr self.now.depth) tokens.old)
            result tokens.new }
    {
        let inner = self.expr_up_to(tokens, Kind::Close)?;
        Ok(inner.into_inner())
    }

    /// Behind `( [DISTINCT]`: `[expr {, expr}] )`
    #[tactic(auto, unfolding(hv_grammar::specs::Reading::arguments))]
    fn arguments(&self, tokens: &mut Tokens<'_>) -> Result<List<Expr>, ReadFault>
        requires { Nests self.now.depth (F.pre self.now.expr) (F.post self.now.expr) }
        ensures { Reads (reading.arguments (reading.expr self.now.depth) tokens.old)
            result tokens.new }
    {
        if tokens.eat(Kind::Close) {
            return Ok(List::empty(self.alloc));
        }
        let found = self.list(tokens)?;
        tokens.expect(Kind::Close)?;
        Ok(found)
    }

    /// Behind `fname (`: `[DISTINCT] [expr {, expr}] )`
    #[tactic(auto, unfolding(hv_grammar::specs::Reading::call))]
    fn call(&self, tokens: &mut Tokens<'_>, function: Text) -> Result<Expr, ReadFault>
        requires { Nests self.now.depth (F.pre self.now.expr) (F.post self.now.expr) }
        ensures { Reads (reading.call (reading.expr self.now.depth) function tokens.old)
            result tokens.new }
    {
        let distinct = tokens.eat(Kind::Distinct);
        let arguments = self.arguments(tokens)?;
        Ok(Expr::Call {
            function,
            distinct,
            arguments,
        })
    }

    /// Behind `COUNT (`: `* )`, or arguments.
    #[tactic(auto, unfolding(hv_grammar::specs::Reading::count))]
    fn count(&self, tokens: &mut Tokens<'_>, function: Text) -> Result<Expr, ReadFault>
        requires { Nests self.now.depth (F.pre self.now.expr) (F.post self.now.expr) }
        ensures { Reads (reading.count (reading.expr self.now.depth) function tokens.old)
            result tokens.new }
    {
        if !tokens.eat(Kind::Star) {
            return self.call(tokens, function);
        }
        tokens.expect(Kind::Close)?;
        Ok(Expr::CountRows)
    }

    /// A column, or a function's call.
    #[tactic(auto, unfolding(hv_grammar::specs::Reading::named))]
    fn named(&self, tokens: &mut Tokens<'_>) -> Result<Expr, ReadFault>
        requires { Nests self.now.depth (F.pre self.now.expr) (F.post self.now.expr) }
        ensures { Reads (reading.named (reading.expr self.now.depth) tokens.old) result tokens.new }
    {
        let kind = tokens.peek();
        let first = tokens.word(self.alloc)?;
        if !tokens.eat(Kind::Open) {
            return column(self.alloc, tokens, first);
        }
        if same_kind(kind, Kind::Count) {
            self.count(tokens, first)
        } else {
            self.call(tokens, first)
        }
    }

    /// IF or ARRAY as a function.
    #[tactic(auto, unfolding(hv_grammar::specs::Reading::keyword_call))]
    fn keyword_call(&self, tokens: &mut Tokens<'_>) -> Result<Expr, ReadFault>
        requires { Nests self.now.depth (F.pre self.now.expr) (F.post self.now.expr) }
        ensures { Reads (reading.keyword_call (reading.expr self.now.depth) tokens.old)
            result tokens.new }
    {
        let function = tokens.word(self.alloc)?;
        tokens.expect(Kind::Open)?;
        self.call(tokens, function)
    }

    /// Behind WHEN: `expr THEN expr`
    #[tactic(auto, using(crate::proofs::UpTo::when_is))]
    fn when(&self, tokens: &mut Tokens<'_>) -> Result<When, ReadFault>
        requires { Nests self.now.depth (F.pre self.now.expr) (F.post self.now.expr) }
        ensures { Reads (reading.when (reading.expr self.now.depth) tokens.old) result tokens.new }
    {
        let condition = self.expr_up_to(tokens, Kind::Then)?;
        let value = self.expr(tokens)?;
        Ok(When {
            condition: condition.into_inner(),
            value,
        })
    }

    /// Behind WHEN: `expr THEN expr {WHEN expr THEN expr}`
    #[tactic(auto, unfolding(hv_grammar::specs::Reading::whens, hv_grammar::specs::Readers::separated))]
    fn whens(&self, tokens: &mut Tokens<'_>) -> Result<List<When>, ReadFault>
        requires { Nests self.now.depth (F.pre self.now.expr) (F.post self.now.expr) }
        ensures { Reads (reading.whens (reading.expr self.now.depth) tokens.old) result tokens.new }
    {
        let mut found = pushed(Vec::new(self.alloc), self.when(tokens))?;
        for _turn in 0..tokens.left() {
            if !tokens.eat(Kind::When) {
                break;
            }
            found = pushed(found, self.when(tokens))?;
        }
        Ok(List::from_vec(found))
    }

    /// Behind CASE: `[expr] WHEN`
    #[tactic(auto, using(crate::proofs::UpTo::operand_is))]
    fn operand(&self, tokens: &mut Tokens<'_>) -> Result<Option<Boxed<Expr>>, ReadFault>
        requires { Nests self.now.depth (F.pre self.now.expr) (F.post self.now.expr) }
        ensures { Reads (reading.operand (reading.expr self.now.depth) tokens.old)
            result tokens.new }
    {
        if tokens.eat(Kind::When) {
            return Ok(None);
        }
        Ok(Some(self.expr_up_to(tokens, Kind::When)?))
    }

    /// `[ELSE expr] END`
    #[tactic(auto, using(crate::proofs::UpTo::otherwise_is))]
    fn otherwise(&self, tokens: &mut Tokens<'_>) -> Result<Option<Boxed<Expr>>, ReadFault>
        requires { Nests self.now.depth (F.pre self.now.expr) (F.post self.now.expr) }
        ensures { Reads (reading.otherwise (reading.expr self.now.depth) tokens.old)
            result tokens.new }
    {
        if !tokens.eat(Kind::Else) {
            tokens.expect(Kind::End)?;
            return Ok(None);
        }
        Ok(Some(self.expr_up_to(tokens, Kind::End)?))
    }

    /// Behind CASE: `[expr] WHEN expr THEN expr {WHEN expr THEN expr} [ELSE expr] END`
    #[tactic(auto, unfolding(hv_grammar::specs::Reading::case))]
    fn case(&self, tokens: &mut Tokens<'_>) -> Result<Expr, ReadFault>
        requires { Nests self.now.depth (F.pre self.now.expr) (F.post self.now.expr) }
        ensures { Reads (reading.case (reading.expr self.now.depth) tokens.old) result tokens.new }
    {
        let operand = self.operand(tokens)?;
        let whens = self.whens(tokens)?;
        let otherwise = self.otherwise(tokens)?;
        Ok(Expr::Case {
            operand,
            whens,
            otherwise,
        })
    }

    /// Behind CAST: `( expr AS type )`
    #[tactic(auto, using(crate::proofs::UpTo::cast_is))]
    fn cast(&self, tokens: &mut Tokens<'_>) -> Result<Expr, ReadFault>
        requires { Nests self.now.depth (F.pre self.now.expr) (F.post self.now.expr) }
        ensures { Reads (reading.cast (reading.expr self.now.depth) tokens.old) result tokens.new }
    {
        tokens.expect(Kind::Open)?;
        let value = self.expr_up_to(tokens, Kind::As)?;
        let to = type_name(tokens)?;
        tokens.expect(Kind::Close)?;
        Ok(Expr::Cast(value, to))
    }

    /// What stands without an operator: a literal, a name, a call, brackets, CASE or CAST.
    #[tactic(auto, unfolding(hv_grammar::specs::Reading::primary))]
    pub fn primary(&self, tokens: &mut Tokens<'_>) -> Result<Expr, ReadFault>
        requires { Nests self.now.depth (F.pre self.now.expr) (F.post self.now.expr) }
        ensures { Reads (reading.primary (reading.expr self.now.depth) tokens.old)
            result tokens.new }
    {
        let kind = tokens.peek();
        match kind {
            Kind::Number | Kind::Text => tokens.literal(self.alloc),
            Kind::If | Kind::Array => self.keyword_call(tokens),
            Kind::Date => {
                tokens.pass();
                date(self.alloc, tokens)
            }
            Kind::True => {
                tokens.pass();
                Ok(Expr::Literal(Literal::Bool(true)))
            }
            Kind::False => {
                tokens.pass();
                Ok(Expr::Literal(Literal::Bool(false)))
            }
            Kind::Null => {
                tokens.pass();
                Ok(Expr::Literal(Literal::Null))
            }
            Kind::Open => {
                tokens.pass();
                self.bracketed(tokens)
            }
            Kind::Case => {
                tokens.pass();
                self.case(tokens)
            }
            Kind::Cast => {
                tokens.pass();
                self.cast(tokens)
            }
            _ if is_name(kind) => self.named(tokens),
            _ => Err(ReadFault::Syntax),
        }
    }
}
