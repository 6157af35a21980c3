//! Laws of the value of a typed expression.
#![tactic(auto)]

ghost use Rattle.std.specs.Prelude.{◌≡◌, ◌≢◌, ℕ, Bool, true, false, slice_get};
ghost use Rattle.std.specs.List.Sorted.{IsPermutation};
ghost use Rattle.hv_expr.specs.declared.function.Many.TheVariants as many;
ghost use Rattle.hv_expr.specs.Functions.{many_value};
ghost use Rattle.hv_expr.specs.Evaluation.{value_of, values_of};
ghost use Rattle.hv_law_expr.specs.Places.{looks_at, looks_only, AgreeAt};

use hv_expr::TypedExpr;
use hv_value::Value;

/// An expression that looks at no place has one value on all rows.
#[tactic(auto, using(crate::proofs::PlaceLaws::places))]
pub fn constant_looks_at_no_row(expr: &TypedExpr, one: &[Value], other: &[Value])
    requires { (k : ℕ) → looks_at k expr.now ≡ false }
    ensures { value_of expr.now one.now ≡ value_of expr.now other.now }
{}

/// Where an expression doesn't look at a place, what stands there doesn't matter.
#[tactic(auto, using(crate::proofs::PlaceLaws::places))]
pub fn other_columns_are_free(expr: &TypedExpr, place: usize, one: &[Value], other: &[Value])
    requires away { looks_at place expr.now ≡ false }
    requires same { (k : ℕ) → k ≢ place → slice_get one.now k ≡ slice_get other.now k }
    ensures { value_of expr.now one.now ≡ value_of expr.now other.now }
{}

/// What looks at such places alone is the same on rows that are the same there.
#[tactic(auto, using(crate::proofs::OnlyLaws::deciding))]
pub fn its_places_decide(expr: &TypedExpr, one: &[Value], other: &[Value])
    ensures { (such : ℕ → Bool) → looks_only such expr.now ≡ true → AgreeAt such one.now other.now → value_of expr.now one.now ≡ value_of expr.now other.now }
{}

/// AND doesn't depend on the order of its operands.
#[tactic(auto, using(crate::proofs::OrderLaws::orders))]
pub fn and_in_any_order(left: &[TypedExpr], right: &[TypedExpr], row: &[Value])
    requires { IsPermutation left.now right.now }
    ensures { many_value many.And (values_of left.now row.now) ≡ many_value many.And (values_of right.now row.now) }
{}

/// OR doesn't depend on the order of its operands.
#[tactic(auto, using(crate::proofs::OrderLaws::orders))]
pub fn or_in_any_order(left: &[TypedExpr], right: &[TypedExpr], row: &[Value])
    requires { IsPermutation left.now right.now }
    ensures { many_value many.Or (values_of left.now row.now) ≡ many_value many.Or (values_of right.now row.now) }
{}
