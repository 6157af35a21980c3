ghost use Rattle.std.specs.Prelude.{◌≡◌, ◌++◌, IfOk};
ghost use Rattle.hv_expr.specs.Evaluation.{values_of};
ghost use Rattle.hv_eval.specs.Frames.{parts_values, frame_values};
ghost use Rattle.hv_partial.specs.Lifts.{maybe_of};
ghost use Rattle.hv_partial.specs.Kept.{holds_if, shown_if, shown_by};

use crate::select::Lifted;
use crate::summed::Summed;
use crate::values::item_values;
use hv_base::{Boxed, List, NoMemory};
use hv_eval::{Frame, Scope, is_true_at};
use hv_expr::TypedExpr;
use hv_value::Value;
use std::alloc::Global;

#[tactic(auto, unfolding(hv_expr::specs::Evaluation::value_of))]
fn holds_on<'a>(
    alloc: Global,
    condition: &'a Option<Boxed<TypedExpr>>,
    row: &Frame<'a>,
) -> Result<bool, NoMemory>
    ensures { IfOk result (λ holds. holds ≡ holds_if (maybe_of condition.now (frame_values row.now))) }
{
    match condition {
        None => Ok(true),
        Some(condition) => is_true_at(alloc, condition.get(), &Scope::alone(*row)),
    }
}

#[tactic(auto, unfolding(hv_expr::specs::Evaluation::value_of))]
fn shown_on<'a>(
    alloc: Global,
    lifted: &'a Lifted,
    row: &Frame<'a>,
) -> Result<Option<List<Value>>, NoMemory>
    ensures { IfOk result (λ shown. shown ≡ shown_if (holds_if (maybe_of lifted.now.having (frame_values row.now))) (values_of lifted.now.items (frame_values row.now))) }
{
    if !holds_on(alloc, &lifted.having, row)? {
        return Ok(None);
    }
    let values = item_values(alloc, lifted.items.as_slice(), &Scope::alone(*row))?;
    Ok(Some(values))
}

// The same on values with a row of one part behind them.
fn shown_before<'a>(
    alloc: Global,
    lifted: &'a Lifted,
    values: &'a [Value],
    last: &'a [Value],
) -> Result<Option<List<Value>>, NoMemory>
    ensures { IfOk result (λ shown. shown ≡ shown_if (holds_if (maybe_of lifted.now.having (values.now ++ last.now))) (values_of lifted.now.items (values.now ++ last.now))) }
{
    let before = [values];
    let row = Frame {
        before: &before,
        last,
    };
    shown_on(alloc, lifted, &row)
}

fn parts_behind<'a>(
    alloc: Global,
    values: &'a [Value],
    parts: &[&'a [Value]],
) -> Result<Vec<&'a [Value]>, NoMemory>
    ensures { IfOk result (λ made. parts_values made.items ≡ values.now ++ parts_values parts.now) }
{
    let mut made = Vec::new(alloc);
    made.push(values)?;
    made.extend_from_slice(parts)?;
    Ok(made)
}

// The same on values with a row of several parts behind them.
fn shown_behind<'a>(
    alloc: Global,
    lifted: &'a Lifted,
    values: &'a [Value],
    first: &Frame<'a>,
) -> Result<Option<List<Value>>, NoMemory>
    ensures { IfOk result (λ shown. shown ≡ shown_if (holds_if (maybe_of lifted.now.having (values.now ++ frame_values first.now))) (values_of lifted.now.items (values.now ++ frame_values first.now))) }
{
    let parts = parts_behind(alloc, values, first.before)?;
    let row = Frame {
        before: parts.as_slice(),
        last: first.last,
    };
    shown_on(alloc, lifted, &row)
}

fn shown_over<'a>(
    alloc: Global,
    lifted: &'a Lifted,
    values: &'a [Value],
    first: &Frame<'a>,
) -> Result<Option<List<Value>>, NoMemory>
    ensures { IfOk result (λ shown. shown ≡ shown_if (holds_if (maybe_of lifted.now.having (values.now ++ frame_values first.now))) (values_of lifted.now.items (values.now ++ frame_values first.now))) }
{
    match first.before {
        [] => shown_before(alloc, lifted, values, first.last),
        _ => shown_behind(alloc, lifted, values, first),
    }
}

/// The items over a group of which its first row and its sums are kept. None where HAVING doesn't hold over it. `values` is
/// room for the sums.
#[tactic(auto, unfolding(crate::specs::Kept::shown_by))]
pub fn shown_of(
    alloc: Global,
    lifted: &Lifted,
    kept: &Summed,
    values: &mut Vec<Value>,
) -> Result<Option<List<Value>>, NoMemory>
    ensures { IfOk result (λ shown. shown ≡ shown_by lifted.now kept.now) }
{
    kept.put_values(alloc, values)?;
    match kept.first_row() {
        None => shown_before(alloc, &*lifted, values.as_slice(), &[]),
        Some(first) => shown_over(alloc, &*lifted, values.as_slice(), &first),
    }
}
