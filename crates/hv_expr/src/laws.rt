//! Laws of the value of an expression.

ghost use Rattle.std.specs.Prelude.{◌≡◌, []};
ghost use Rattle.hv_expr.specs.Evaluation.{value_of, value_over};

use crate::tree::TypedExpr;

/// Over no rows an expression is what it is on a row without values.
#[tactic(auto, unfolding(crate::specs::Evaluation::value_of))]
pub fn over_no_rows(expr: &TypedExpr)
    ensures { value_over expr.now [] ≡ value_of expr.now [] }
{}
