ghost use Rattle.std.specs.Prelude.{◌≡◌};
ghost use Rattle.hv_typing.specs.Calls.{function_named};
ghost use Rattle.hv_typing.specs.Aggregates.{aggregates, in_some, in_any, in_operations, in_whens, has_aggregate};

use hv_ast::{Expr, Operation, When};
use hv_base::{Boxed, Text};
use hv_types::function_named;
use hv_typing::Function;

fn aggregates(name: &Text) -> bool
    ensures { result ≡ aggregates (function_named name.now) }
{
    match function_named(name.as_str()) {
        Some(Function::Aggregate(_)) => true,
        _ => false,
    }
}

/// Whether an aggregate stands in the expression, as it is written.
#[cycle(aggregates)]
#[tactic(auto, using(crate::proofs::Layers::layers))]
pub fn has_aggregate(expr: &Expr) -> bool
    ensures { result ≡ has_aggregate expr.now }
{
    match expr {
        Expr::Or(exprs) => in_any(exprs.as_slice()),
        Expr::And(exprs) => in_any(exprs.as_slice()),
        Expr::Unary(_, expr) => has_aggregate(expr.get()),
        Expr::Binary(_, left, right) => has_aggregate(left.get()) || has_aggregate(right.get()),
        Expr::Chain(first, operations) => {
            has_aggregate(first.get()) || in_operations(operations.as_slice())
        }
        Expr::Between {
            value,
            low,
            high,
            ..
        } => has_aggregate(value.get()) || has_aggregate(low.get()) || has_aggregate(high.get()),
        Expr::In { value, among, .. } => has_aggregate(value.get()) || in_any(among.as_slice()),
        Expr::Literal(_) => false,
        Expr::Column(_, _) => false,
        Expr::Case {
            operand,
            whens,
            otherwise,
        } => {
            let mut found = in_some(operand);
            found |= in_whens(whens.as_slice());
            found |= in_some(otherwise);
            found
        }
        Expr::Cast(expr, _) => has_aggregate(expr.get()),
        Expr::CountRows => true,
        Expr::Call {
            function,
            arguments,
            ..
        } => aggregates(function) || in_any(arguments.as_slice()),
    }
}

#[cycle(aggregates)]
#[tactic(auto, unfolding(hv_typing::specs::Aggregates::in_some))]
fn in_some(expr: &Option<Boxed<Expr>>) -> bool
    ensures { result ≡ in_some has_aggregate expr.now }
{
    match expr {
        None => false,
        Some(expr) => has_aggregate(expr.get()),
    }
}

#[cycle(aggregates)]
#[tactic(auto, unfolding(hv_typing::specs::Aggregates::in_any))]
fn in_any(exprs: &[Expr]) -> bool
    ensures { result ≡ in_any has_aggregate exprs.now }
{
    for expr in exprs {
        if has_aggregate(expr) {
            return true;
        }
    }
    false
}

#[cycle(aggregates)]
#[tactic(auto, unfolding(hv_typing::specs::Aggregates::in_operations))]
fn in_operations(operations: &[Operation]) -> bool
    ensures { result ≡ in_operations has_aggregate operations.now }
{
    for operation in operations {
        if has_aggregate(&operation.operand) {
            return true;
        }
    }
    false
}

#[cycle(aggregates)]
#[tactic(auto, unfolding(hv_typing::specs::Aggregates::in_whens))]
fn in_whens(whens: &[When]) -> bool
    ensures { result ≡ in_whens has_aggregate whens.now }
{
    for when in whens {
        if has_aggregate(&when.condition) || has_aggregate(&when.value) {
            return true;
        }
    }
    false
}
