//! Aggregates as folds: a start, a step for each value, and a merge of two parts.

ghost use Rattle.std.specs.Prelude.{◌≡◌, [], ◌∷◌, ◌+ℤ◌, None, IfOk, option_map};
ghost use Rattle.std.specs.Int.{int_wrap, w64};
ghost use Rattle.hv_expr.specs.declared.function.Aggregate.TheVariants as aggregate;
ghost use Rattle.hv_expr.specs.Groups.{plus, once_each, over_values, aggregate_value};
ghost use Rattle.hv_seen.specs.Seen.{seen_value};
ghost use Rattle.hv_eval.specs.Accumulating.{merged, single, Splits};

use crate::ranks::{comes_before, is_comparable};
use hv_base::NoMemory;
use hv_expr::Aggregate;
use hv_seen::{Seen, is_null, null, number, of_big, owned, view};
use hv_value::Value;
use indexmap::IndexSet;
use std::alloc::Global;

/// What is kept of no values.
#[tactic(auto, using(crate::proofs::Accumulators::starts))]
pub fn start<'a>(function: Aggregate) -> Seen<'a>
    ensures { seen_value result ≡ over_values function [] }
{
    match function {
        Aggregate::Count => of_big(Some(0)),
        Aggregate::Sum | Aggregate::Min | Aggregate::Max => null(),
    }
}

#[tactic(auto, using(crate::proofs::Accumulators::counts))]
fn count_one<'a>(value: &Seen) -> Seen<'a>
    ensures { seen_value result ≡ over_values aggregate.Count (seen_value value.now ∷ []) }
{
    if is_null(value) {
        of_big(Some(0))
    } else {
        of_big(Some(1))
    }
}

#[tactic(auto, using(hv_seen::proofs::Layers::wrapping))]
fn wrapped_sum(left: i64, right: i64) -> i64
    ensures { result ≡ int_wrap w64 (left +ℤ right) }
{
    left.wrapping_add(right)
}

#[tactic(auto, using(hv_seen::proofs::Layers::wrapping))]
fn same(number: i64) -> i64
    ensures { result ≡ int_wrap w64 number }
{
    number
}

// The sum of the integers among two, None where there is none.
fn total(left: Option<i64>, right: Option<i64>) -> Option<i64>
    ensures { result ≡ option_map (int_wrap w64) (plus left (plus right None)) }
{
    match (left, right) {
        (None, None) => None,
        (None, Some(number)) => Some(same(number)),
        (Some(number), None) => Some(same(number)),
        (Some(left), Some(right)) => Some(wrapped_sum(left, right)),
    }
}

#[tactic(auto, using(crate::proofs::Accumulators::sums))]
fn sum<'a>(left: &Seen, right: &Seen) -> Seen<'a>
    ensures { seen_value result ≡ over_values aggregate.Sum (seen_value left.now ∷ seen_value right.now ∷ []) }
{
    of_big(total(number(left), number(right)))
}

#[tactic(auto, using(crate::proofs::Accumulators::sums))]
fn sum_one<'a>(value: &Seen) -> Seen<'a>
    ensures { seen_value result ≡ over_values aggregate.Sum (seen_value value.now ∷ []) }
{
    of_big(total(number(value), None))
}

#[tactic(auto, using(crate::proofs::Accumulators::extremes))]
fn least_one<'a>(value: &Seen<'a>) -> Seen<'a>
    ensures { seen_value result ≡ over_values aggregate.Min (seen_value value.now ∷ []) }
{
    if is_comparable(value) { *value } else { null() }
}

#[tactic(auto, using(crate::proofs::Accumulators::extremes))]
fn greatest_one<'a>(value: &Seen<'a>) -> Seen<'a>
    ensures { seen_value result ≡ over_values aggregate.Max (seen_value value.now ∷ []) }
{
    if is_comparable(value) { *value } else { null() }
}

#[tactic(auto, using(crate::proofs::Accumulators::extremes))]
fn least<'a>(left: &Seen<'a>, right: &Seen<'a>) -> Seen<'a>
    ensures { seen_value result ≡ over_values aggregate.Min (seen_value left.now ∷ seen_value right.now ∷ []) }
{
    if !is_comparable(right) {
        return least_one(left);
    }
    if !is_comparable(left) || comes_before(right, left) {
        *right
    } else {
        *left
    }
}

#[tactic(auto, using(crate::proofs::Accumulators::extremes))]
fn greatest<'a>(left: &Seen<'a>, right: &Seen<'a>) -> Seen<'a>
    ensures { seen_value result ≡ over_values aggregate.Max (seen_value left.now ∷ seen_value right.now ∷ []) }
{
    if !is_comparable(left) {
        return greatest_one(right);
    }
    if is_comparable(right) && comes_before(left, right) {
        *right
    } else {
        *left
    }
}

/// What two parts keep, put together.
#[tactic(auto, unfolding(crate::specs::Accumulating::merged))]
pub fn merge<'a>(function: Aggregate, left: &Seen<'a>, right: &Seen<'a>) -> Seen<'a>
    ensures { seen_value result ≡ merged function (seen_value left.now) (seen_value right.now) }
{
    match function {
        Aggregate::Count | Aggregate::Sum => sum(left, right),
        Aggregate::Min => least(left, right),
        Aggregate::Max => greatest(left, right),
    }
}

#[tactic(auto, unfolding(crate::specs::Accumulating::single))]
fn one<'a>(function: Aggregate, value: &Seen<'a>) -> Seen<'a>
    ensures { seen_value result ≡ single function (seen_value value.now) }
{
    match function {
        Aggregate::Count => count_one(value),
        Aggregate::Sum => sum_one(value),
        Aggregate::Min => least_one(value),
        Aggregate::Max => greatest_one(value),
    }
}

/// What is kept with one value more.
pub fn step<'a>(function: Aggregate, kept: &Seen<'a>, value: &Seen<'a>) -> Seen<'a>
    ensures { seen_value result ≡ merged function (seen_value kept.now) (single function (seen_value value.now)) }
{
    merge(function, kept, &one(function, value))
}

/// What a whole keeps is what its parts keep, put together.
pub fn parts_are_the_whole()
    ensures { Splits }
{}

// The fold over values that were made.
fn fold(alloc: Global, function: Aggregate, values: &[Value]) -> Result<Value, NoMemory>
    ensures { IfOk result (λ value. value ≡ over_values function values.now) }
{
    let mut kept = start(function);
    for value in values {
        kept = step(function, &kept, &view(value));
    }
    owned(alloc, &kept)
}

// Each value once, where it first comes.
#[tactic(auto, using(crate::proofs::Once::steps))]
fn once_each(alloc: Global, values: Vec<Value>) -> Result<IndexSet<Value>, NoMemory>
    ensures { IfOk result (λ kept. kept.keys ≡ once_each values.items) }
{
    let mut kept = IndexSet::new(alloc);
    let mut rest = values;
    rest.reverse();
    while let Some(value) = rest.pop() {
        kept.insert(value)?;
    }
    Ok(kept)
}

/// What the aggregate gives of these values.
#[tactic(auto, unfolding(hv_expr::specs::Groups::aggregate_value))]
pub(crate) fn over_all(
    alloc: Global,
    function: Aggregate,
    distinct: bool,
    values: Vec<Value>,
) -> Result<Value, NoMemory>
    ensures { IfOk result (λ value. value ≡ aggregate_value function distinct values.items) }
{
    if distinct {
        let once = once_each(alloc, values)?;
        return fold(alloc, function, once.as_slice());
    }
    fold(alloc, function, values.as_slice())
}
