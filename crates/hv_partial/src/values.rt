ghost use Rattle.std.specs.Prelude.{◌≡◌, IfOk};
ghost use Rattle.hv_eval.specs.Frames.{values_at};

use hv_base::{List, NoMemory};
use hv_eval::{Scope, eval_at};
use hv_expr::TypedExpr;
use hv_value::Value;
use std::alloc::Global;

/// What expressions come to there.
pub fn item_values<'a>(
    alloc: Global,
    items: &'a [TypedExpr],
    at: &Scope<'a>,
) -> Result<List<Value>, NoMemory>
    ensures { IfOk result (λ values. values ≡ values_at items.now at.now) }
{
    let mut values = Vec::with_capacity(alloc, items.len())?;
    for item in items {
        values.push(eval_at(alloc, item, at)?)?;
    }
    Ok(List::from_vec(values))
}
