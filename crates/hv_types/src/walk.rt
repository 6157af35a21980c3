ghost use Rattle.std.specs.Prelude.{◌≡◌};
ghost use Rattle.hv_typing.specs.Faults.{Types};
ghost use Rattle.hv_typing.specs.Typing.{between_three, all_typed, links_typed, whens_typed, optional_typed, called, typed, condition_of};

use crate::calls::{aggregated, arguments_over, call_typed};
use crate::cases::case_typed;
use crate::casts::{cast_typed, placed};
use crate::names::function_named;
use crate::nodes::{
    arithmetic_of, binary_of, chain_typed, in_typed, literal_typed, many_typed, one_typed,
    three_typed, two_typed, unary_of,
};
use crate::scope::column_typed;
use hv_ast::{Expr, Operation, When};
use hv_base::{Boxed, List, Text};
use hv_expr::{Branch, Link, Many, Three, TypedExpr};
use hv_logic::named_type;
use hv_typing::{Field, Over, Place, TypeFault};
use std::alloc::Global;

fn between_three(negated: bool) -> Three
    ensures { result ≡ between_three negated }
{
    if negated {
        Three::NotBetween
    } else {
        Three::Between
    }
}

#[cycle(typing)]
#[tactic(auto, using(hv_typing::proofs::Equations::nodes))]
fn typed(
    alloc: Global,
    expr: &Expr,
    scope: &[Field],
    over: Over,
) -> Result<Boxed<TypedExpr>, TypeFault>
    ensures { Types result (typed scope.now expr.now over) }
{
    match expr {
        Expr::Or(exprs) => {
            let exprs = all_typed(alloc, exprs.as_slice(), scope, over)?;
            many_typed(alloc, Many::Or, exprs)
        }
        Expr::And(exprs) => {
            let exprs = all_typed(alloc, exprs.as_slice(), scope, over)?;
            many_typed(alloc, Many::And, exprs)
        }
        Expr::Unary(operator, expr) => {
            let expr = typed(alloc, expr.get(), scope, over)?;
            one_typed(alloc, unary_of(*operator), expr)
        }
        Expr::Binary(operator, left, right) => {
            let left = typed(alloc, left.get(), scope, over)?;
            let right = typed(alloc, right.get(), scope, over)?;
            two_typed(alloc, binary_of(*operator), left, right)
        }
        Expr::Chain(first, operations) => {
            let first = typed(alloc, first.get(), scope, over)?;
            let links = links_typed(alloc, operations.as_slice(), scope, over)?;
            chain_typed(alloc, first, links)
        }
        Expr::Between {
            value,
            negated,
            low,
            high,
        } => {
            let value = typed(alloc, value.get(), scope, over)?;
            let low = typed(alloc, low.get(), scope, over)?;
            let high = typed(alloc, high.get(), scope, over)?;
            three_typed(alloc, between_three(*negated), value, low, high)
        }
        Expr::In {
            value,
            negated,
            among,
        } => {
            let value = typed(alloc, value.get(), scope, over)?;
            let among = all_typed(alloc, among.as_slice(), scope, over)?;
            in_typed(alloc, value, *negated, among)
        }
        Expr::Literal(literal) => literal_typed(alloc, literal),
        Expr::Column(source, name) => { Ok(Boxed::new(alloc, column_typed(source, name, scope)?)?) }
        Expr::Case {
            operand,
            whens,
            otherwise,
        } => {
            let operand = optional_typed(alloc, operand, scope, over)?;
            let branches = whens_typed(alloc, whens.as_slice(), scope, over)?;
            let otherwise = optional_typed(alloc, otherwise, scope, over)?;
            case_typed(alloc, operand, branches, otherwise)
        }
        Expr::Cast(expr, name) => {
            let expr = typed(alloc, expr.get(), scope, over)?;
            cast_typed(alloc, named_type(*name), expr)
        }
        Expr::CountRows => aggregated(alloc, over, TypedExpr::CountRows),
        Expr::Call {
            function,
            distinct,
            arguments,
        } => called(
            alloc,
            function,
            *distinct,
            arguments.as_slice(),
            scope,
            over,
        ),
    }
}

#[cycle(typing)]
#[tactic(auto, unfolding(hv_typing::specs::Typing::called))]
fn called(
    alloc: Global,
    name: &Text,
    distinct: bool,
    arguments: &[Expr],
    scope: &[Field],
    over: Over,
) -> Result<Boxed<TypedExpr>, TypeFault>
    ensures { Types result (called (typed scope.now) name.now distinct arguments.now over) }
{
    let function = function_named(name.as_str());
    let arguments = all_typed(alloc, arguments, scope, arguments_over(function, over))?;
    call_typed(alloc, function, distinct, over, arguments)
}

#[cycle(typing)]
#[tactic(auto, using(hv_typing::proofs::Equations::parts), unfolding(hv_typing::specs::Typing::all_typed))]
fn all_typed(
    alloc: Global,
    exprs: &[Expr],
    scope: &[Field],
    over: Over,
) -> Result<List<TypedExpr>, TypeFault>
    ensures { Types result (all_typed (typed scope.now) exprs.now over) }
{
    let mut made = Vec::with_capacity(alloc, exprs.len())?;
    for expr in exprs {
        made.push(typed(alloc, expr, scope, over)?.into_inner())?;
    }
    Ok(List::from_vec(made))
}

#[cycle(typing)]
#[tactic(auto, using(hv_typing::proofs::Equations::parts), unfolding(hv_typing::specs::Typing::links_typed))]
fn links_typed(
    alloc: Global,
    operations: &[Operation],
    scope: &[Field],
    over: Over,
) -> Result<List<Link>, TypeFault>
    ensures { Types result (links_typed (typed scope.now) operations.now over) }
{
    let mut links = Vec::with_capacity(alloc, operations.len())?;
    for operation in operations {
        let operand = typed(alloc, &operation.operand, scope, over)?;
        links.push(Link {
            operator: arithmetic_of(operation.operator),
            operand: operand.into_inner(),
        })?;
    }
    Ok(List::from_vec(links))
}

#[cycle(typing)]
#[tactic(auto, using(hv_typing::proofs::Equations::parts), unfolding(hv_typing::specs::Typing::whens_typed))]
fn whens_typed(
    alloc: Global,
    whens: &[When],
    scope: &[Field],
    over: Over,
) -> Result<List<Branch>, TypeFault>
    ensures { Types result (whens_typed (typed scope.now) whens.now over) }
{
    let mut branches = Vec::with_capacity(alloc, whens.len())?;
    for when in whens {
        let condition = typed(alloc, &when.condition, scope, over)?;
        let value = typed(alloc, &when.value, scope, over)?;
        branches.push(Branch {
            condition: condition.into_inner(),
            value: value.into_inner(),
        })?;
    }
    Ok(List::from_vec(branches))
}

#[cycle(typing)]
#[tactic(auto, unfolding(hv_typing::specs::Typing::optional_typed))]
fn optional_typed(
    alloc: Global,
    expr: &Option<Boxed<Expr>>,
    scope: &[Field],
    over: Over,
) -> Result<Option<Boxed<TypedExpr>>, TypeFault>
    ensures { Types result (optional_typed (typed scope.now) expr.now over) }
{
    match expr {
        Some(expr) => Ok(Some(typed(alloc, expr.get(), scope, over)?)),
        None => Ok(None),
    }
}

/// The typed expression, or its first fault: inside out from the left, and at one node a name or an
/// unknown function, the number of arguments, types, an aggregate in an expression over a row.
pub fn type_expr(
    alloc: Global,
    expr: &Expr,
    scope: &[Field],
    over: Over,
) -> Result<Boxed<TypedExpr>, TypeFault>
    ensures { Types result (typed scope.now expr.now over) }
{
    typed(alloc, expr, scope, over)
}

/// The typed condition, which is BOOLEAN or NULL, or its first fault.
pub fn condition_of(
    alloc: Global,
    expr: &Expr,
    scope: &[Field],
    over: Over,
) -> Result<Boxed<TypedExpr>, TypeFault>
    ensures { Types result (condition_of scope.now expr.now over) }
{
    let expr = typed(alloc, expr, scope, over)?;
    placed(alloc, Place::Truth, expr)
}
