//! Operators, from the tightest to the loosest. An operand is boxed before what follows it is read, so
//! that leaving early drops a box and not each form of an expression.

ghost use Rattle.hv_grammar.specs.Reading as reading;
ghost use Rattle.hv_parse_expr.specs.Nests.{Nests};
ghost use Rattle.hv_parse_expr.specs.Reads.{Reads};

use crate::fault::ReadFault;
use crate::grammar::Grammar;
use crate::operators::{additive, comparison, multiplicative, sign, unary};
use crate::results::pushed;
use crate::tokens::Tokens;
use hv_ast::{Binary, Expr, Operation, Unary};
use hv_base::{Boxed, List};
use hv_grammar::Kind;
use std::alloc::Global;

impl<F: Fn(Global, &mut Tokens<'_>, usize) -> Result<Expr, ReadFault>> Grammar<F> {
    /// Behind `[`: `expr ]`
    #[tactic(auto, using(crate::proofs::UpTo::element_is))]
    fn element(&self, tokens: &mut Tokens<'_>, array: Expr) -> Result<Expr, ReadFault>
        requires { Nests self.now.depth (F.pre self.now.expr) (F.post self.now.expr) }
        ensures { Reads (reading.element (reading.expr self.now.depth) array tokens.old)
            result tokens.new }
    {
        let array = Boxed::new(self.alloc, array)?;
        let index = self.expr_up_to(tokens, Kind::CloseIndex)?;
        Ok(Expr::Binary(Binary::Element, array, index))
    }

    /// `prim ["[" expr "]"]`
    #[tactic(auto, unfolding(hv_grammar::specs::Reading::indexed))]
    fn indexed(&self, tokens: &mut Tokens<'_>) -> Result<Expr, ReadFault>
        requires { Nests self.now.depth (F.pre self.now.expr) (F.post self.now.expr) }
        ensures { Reads (reading.indexed (reading.expr self.now.depth) tokens.old)
            result tokens.new }
    {
        let first = self.primary(tokens)?;
        if tokens.eat(Kind::OpenIndex) {
            self.element(tokens, first)
        } else {
            Ok(first)
        }
    }

    /// `[+ | -] post`
    #[tactic(auto, unfolding(hv_grammar::specs::Reading::signed))]
    fn signed(&self, tokens: &mut Tokens<'_>) -> Result<Expr, ReadFault>
        requires { Nests self.now.depth (F.pre self.now.expr) (F.post self.now.expr) }
        ensures { Reads (reading.signed (reading.expr self.now.depth) tokens.old)
            result tokens.new }
    {
        let Some(operator) = sign(tokens.peek()) else {
            return self.indexed(tokens);
        };
        tokens.pass();
        Ok(unary(self.alloc, operator, self.indexed(tokens)?)?)
    }

    /// Behind IS: `[NOT] NULL`
    #[tactic(auto, unfolding(hv_grammar::specs::Reading::null_test))]
    fn null_test(&self, tokens: &mut Tokens<'_>, value: Expr) -> Result<Expr, ReadFault>
        requires { Nests self.now.depth (F.pre self.now.expr) (F.post self.now.expr) }
        ensures { Reads (reading.null_test value tokens.old) result tokens.new }
    {
        let operator = if tokens.eat(Kind::Not) {
            Unary::IsNotNull
        } else {
            Unary::IsNull
        };
        let value = Boxed::new(self.alloc, value)?;
        tokens.expect(Kind::Null)?;
        Ok(Expr::Unary(operator, value))
    }

    /// `unary [IS [NOT] NULL]`
    #[tactic(auto, unfolding(hv_grammar::specs::Reading::suffixed))]
    fn suffixed(&self, tokens: &mut Tokens<'_>) -> Result<Expr, ReadFault>
        requires { Nests self.now.depth (F.pre self.now.expr) (F.post self.now.expr) }
        ensures { Reads (reading.suffixed (reading.expr self.now.depth) tokens.old)
            result tokens.new }
    {
        let value = self.signed(tokens)?;
        if tokens.eat(Kind::Is) {
            self.null_test(tokens, value)
        } else {
            Ok(value)
        }
    }

    /// Behind a first operand: `(* | DIV | %) suffix {(* | DIV | %) suffix}`
    #[tactic(auto, unfolding(hv_grammar::specs::Reading::factors))]
    fn factors(&self, tokens: &mut Tokens<'_>) -> Result<List<Operation>, ReadFault>
        requires { Nests self.now.depth (F.pre self.now.expr) (F.post self.now.expr) }
        ensures { Reads (reading.factors (reading.expr self.now.depth) tokens.old)
            result tokens.new }
    {
        let mut found = Vec::new(self.alloc);
        for _turn in 0..tokens.left() {
            let Some(operator) = multiplicative(tokens.peek()) else {
                break;
            };
            tokens.pass();
            let operand = self.suffixed(tokens)?;
            found.push(Operation { operator, operand })?;
        }
        Ok(List::from_vec(found))
    }

    /// `suffix {(* | DIV | %) suffix}`
    #[tactic(auto, unfolding(hv_grammar::specs::Reading::term))]
    fn term(&self, tokens: &mut Tokens<'_>) -> Result<Expr, ReadFault>
        requires { Nests self.now.depth (F.pre self.now.expr) (F.post self.now.expr) }
        ensures { Reads (reading.term (reading.expr self.now.depth) tokens.old) result tokens.new }
    {
        let first = self.suffixed(tokens)?;
        if multiplicative(tokens.peek()).is_none() {
            return Ok(first);
        }
        let first = Boxed::new(self.alloc, first)?;
        Ok(Expr::Chain(first, self.factors(tokens)?))
    }

    /// Behind a first operand: `(+ | -) term {(+ | -) term}`
    #[tactic(auto, unfolding(hv_grammar::specs::Reading::summands))]
    fn summands(&self, tokens: &mut Tokens<'_>) -> Result<List<Operation>, ReadFault>
        requires { Nests self.now.depth (F.pre self.now.expr) (F.post self.now.expr) }
        ensures { Reads (reading.summands (reading.expr self.now.depth) tokens.old)
            result tokens.new }
    {
        let mut found = Vec::new(self.alloc);
        for _turn in 0..tokens.left() {
            let Some(operator) = additive(tokens.peek()) else {
                break;
            };
            tokens.pass();
            let operand = self.term(tokens)?;
            found.push(Operation { operator, operand })?;
        }
        Ok(List::from_vec(found))
    }

    /// `term {(+ | -) term}`
    #[tactic(auto, unfolding(hv_grammar::specs::Reading::sum))]
    fn sum(&self, tokens: &mut Tokens<'_>) -> Result<Expr, ReadFault>
        requires { Nests self.now.depth (F.pre self.now.expr) (F.post self.now.expr) }
        ensures { Reads (reading.sum (reading.expr self.now.depth) tokens.old) result tokens.new }
    {
        let first = self.term(tokens)?;
        if additive(tokens.peek()).is_none() {
            return Ok(first);
        }
        let first = Boxed::new(self.alloc, first)?;
        Ok(Expr::Chain(first, self.summands(tokens)?))
    }

    /// `sum`, in a box, so that a caller that leaves early drops a box and not each form of an expression.
    fn boxed_sum(&self, tokens: &mut Tokens<'_>) -> Result<Boxed<Expr>, ReadFault>
        requires { Nests self.now.depth (F.pre self.now.expr) (F.post self.now.expr) }
        ensures { Reads (reading.sum (reading.expr self.now.depth) tokens.old) result tokens.new }
    {
        Ok(Boxed::new(self.alloc, self.sum(tokens)?)?)
    }

    /// Behind `[NOT] LIKE`: `sum`
    #[tactic(auto, unfolding(hv_grammar::specs::Reading::like))]
    fn like(
        &self,
        tokens: &mut Tokens<'_>,
        value: Boxed<Expr>,
        negated: bool,
    ) -> Result<Expr, ReadFault>
        requires { Nests self.now.depth (F.pre self.now.expr) (F.post self.now.expr) }
        ensures { Reads (reading.like (reading.expr self.now.depth) value negated tokens.old)
            result tokens.new }
    {
        let operator = if negated {
            Binary::NotLike
        } else {
            Binary::Like
        };
        let pattern = self.boxed_sum(tokens)?;
        Ok(Expr::Binary(operator, value, pattern))
    }

    /// Behind `[NOT] BETWEEN`: `sum AND sum`
    #[tactic(auto, unfolding(hv_grammar::specs::Reading::between))]
    fn between(
        &self,
        tokens: &mut Tokens<'_>,
        value: Boxed<Expr>,
        negated: bool,
    ) -> Result<Expr, ReadFault>
        requires { Nests self.now.depth (F.pre self.now.expr) (F.post self.now.expr) }
        ensures { Reads (reading.between (reading.expr self.now.depth) value negated tokens.old)
            result tokens.new }
    {
        let low = self.boxed_sum(tokens)?;
        tokens.expect(Kind::And)?;
        let high = self.boxed_sum(tokens)?;
        Ok(Expr::Between {
            value,
            negated,
            low,
            high,
        })
    }

    /// Behind `[NOT] IN`: `( expr {, expr} )`
    #[tactic(auto, unfolding(hv_grammar::specs::Reading::among))]
    fn among(
        &self,
        tokens: &mut Tokens<'_>,
        value: Boxed<Expr>,
        negated: bool,
    ) -> Result<Expr, ReadFault>
        requires { Nests self.now.depth (F.pre self.now.expr) (F.post self.now.expr) }
        ensures { Reads (reading.among (reading.expr self.now.depth) value negated tokens.old)
            result tokens.new }
    {
        tokens.expect(Kind::Open)?;
        let among = self.list(tokens)?;
        tokens.expect(Kind::Close)?;
        Ok(Expr::In {
            value,
            negated,
            among,
        })
    }

    /// Behind `[NOT]`: LIKE, BETWEEN or IN.
    #[tactic(auto, unfolding(hv_grammar::specs::Reading::matched))]
    fn matched(
        &self,
        tokens: &mut Tokens<'_>,
        value: Expr,
        negated: bool,
    ) -> Result<Expr, ReadFault>
        requires { Nests self.now.depth (F.pre self.now.expr) (F.post self.now.expr) }
        ensures { Reads (reading.matched (reading.expr self.now.depth) value negated tokens.old)
            result tokens.new }
    {
        let value = Boxed::new(self.alloc, value)?;
        match tokens.peek() {
            Kind::Like => {
                tokens.pass();
                self.like(tokens, value, negated)
            }
            Kind::Between => {
                tokens.pass();
                self.between(tokens, value, negated)
            }
            Kind::In => {
                tokens.pass();
                self.among(tokens, value, negated)
            }
            _ => Err(ReadFault::Syntax),
        }
    }

    /// Behind `cmp`: `sum`
    #[tactic(auto, unfolding(hv_grammar::specs::Reading::compared))]
    fn compared(
        &self,
        tokens: &mut Tokens<'_>,
        value: Expr,
        operator: Binary,
    ) -> Result<Expr, ReadFault>
        requires { Nests self.now.depth (F.pre self.now.expr) (F.post self.now.expr) }
        ensures { Reads (reading.compared (reading.expr self.now.depth) value operator tokens.old)
            result tokens.new }
    {
        let value = Boxed::new(self.alloc, value)?;
        let right = self.boxed_sum(tokens)?;
        Ok(Expr::Binary(operator, value, right))
    }

    /// Behind `sum`: `[cmp sum | [NOT] LIKE sum | [NOT] BETWEEN sum AND sum | [NOT] IN (..)]`
    #[tactic(auto, unfolding(hv_grammar::specs::Reading::tested))]
    fn tested(&self, tokens: &mut Tokens<'_>, value: Expr) -> Result<Expr, ReadFault>
        requires { Nests self.now.depth (F.pre self.now.expr) (F.post self.now.expr) }
        ensures { Reads (reading.tested (reading.expr self.now.depth) value tokens.old)
            result tokens.new }
    {
        let kind = tokens.peek();
        match kind {
            Kind::Not => {
                tokens.pass();
                self.matched(tokens, value, true)
            }
            Kind::Like | Kind::Between | Kind::In => self.matched(tokens, value, false),
            _ => match comparison(kind) {
                Some(operator) => {
                    tokens.pass();
                    self.compared(tokens, value, operator)
                }
                None => Ok(value),
            },
        }
    }

    /// `sum`, compared or matched or not.
    #[tactic(auto, unfolding(hv_grammar::specs::Reading::predicate))]
    fn predicate(&self, tokens: &mut Tokens<'_>) -> Result<Expr, ReadFault>
        requires { Nests self.now.depth (F.pre self.now.expr) (F.post self.now.expr) }
        ensures { Reads (reading.predicate (reading.expr self.now.depth) tokens.old)
            result tokens.new }
    {
        let value = self.sum(tokens)?;
        self.tested(tokens, value)
    }

    /// `[NOT] test`
    #[tactic(auto, unfolding(hv_grammar::specs::Reading::negation))]
    fn negation(&self, tokens: &mut Tokens<'_>) -> Result<Expr, ReadFault>
        requires { Nests self.now.depth (F.pre self.now.expr) (F.post self.now.expr) }
        ensures { Reads (reading.negation (reading.expr self.now.depth) tokens.old)
            result tokens.new }
    {
        if tokens.eat(Kind::Not) {
            Ok(unary(self.alloc, Unary::Not, self.predicate(tokens)?)?)
        } else {
            self.predicate(tokens)
        }
    }

    /// The first operand and those behind each AND.
    #[tactic(auto, unfolding(hv_grammar::specs::Reading::conjuncts))]
    fn conjuncts(&self, tokens: &mut Tokens<'_>, first: Expr) -> Result<List<Expr>, ReadFault>
        requires { Nests self.now.depth (F.pre self.now.expr) (F.post self.now.expr) }
        ensures { Reads (reading.conjuncts (reading.expr self.now.depth) first tokens.old)
            result tokens.new }
    {
        let mut found = Vec::new(self.alloc);
        found.push(first)?;
        for _turn in 0..tokens.left() {
            if !tokens.eat(Kind::And) {
                break;
            }
            found = pushed(found, self.negation(tokens))?;
        }
        Ok(List::from_vec(found))
    }

    /// `not {AND not}`
    #[tactic(auto, unfolding(hv_grammar::specs::Reading::conjunction))]
    fn conjunction(&self, tokens: &mut Tokens<'_>) -> Result<Expr, ReadFault>
        requires { Nests self.now.depth (F.pre self.now.expr) (F.post self.now.expr) }
        ensures { Reads (reading.conjunction (reading.expr self.now.depth) tokens.old)
            result tokens.new }
    {
        let first = self.negation(tokens)?;
        if tokens.sees(Kind::And) {
            Ok(Expr::And(self.conjuncts(tokens, first)?))
        } else {
            Ok(first)
        }
    }

    /// The first operand and those behind each OR.
    #[tactic(auto, unfolding(hv_grammar::specs::Reading::disjuncts))]
    fn disjuncts(&self, tokens: &mut Tokens<'_>, first: Expr) -> Result<List<Expr>, ReadFault>
        requires { Nests self.now.depth (F.pre self.now.expr) (F.post self.now.expr) }
        ensures { Reads (reading.disjuncts (reading.expr self.now.depth) first tokens.old)
            result tokens.new }
    {
        let mut found = Vec::new(self.alloc);
        found.push(first)?;
        for _turn in 0..tokens.left() {
            if !tokens.eat(Kind::Or) {
                break;
            }
            found = pushed(found, self.conjunction(tokens))?;
        }
        Ok(List::from_vec(found))
    }

    /// `and {OR and}`, through all levels.
    #[tactic(auto, unfolding(hv_grammar::specs::Reading::disjunction))]
    fn whole_disjunction(&self, tokens: &mut Tokens<'_>) -> Result<Expr, ReadFault>
        requires { Nests self.now.depth (F.pre self.now.expr) (F.post self.now.expr) }
        ensures { Reads (reading.disjunction (reading.expr self.now.depth) tokens.old)
            result tokens.new }
    {
        let first = self.conjunction(tokens)?;
        if tokens.sees(Kind::Or) {
            Ok(Expr::Or(self.disjuncts(tokens, first)?))
        } else {
            Ok(first)
        }
    }

    /// `and {OR and}`. A literal alone is what each level gives of it, so that it goes through none.
    pub fn disjunction(&self, tokens: &mut Tokens<'_>) -> Result<Expr, ReadFault>
        requires { Nests self.now.depth (F.pre self.now.expr) (F.post self.now.expr) }
        ensures { Reads (reading.disjunction (reading.expr self.now.depth) tokens.old)
            result tokens.new }
    {
        if tokens.sees_lone_literal() {
            return tokens.literal(self.alloc);
        }
        self.whole_disjunction(tokens)
    }
}
