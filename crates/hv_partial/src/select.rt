ghost use Rattle.std.specs.Prelude.{◌≡◌, length, IfOk, IfSome};
ghost use Rattle.hv_partial.specs.Lifts.{IsLifted};

use crate::fault::NotLifted;
use crate::lifting::{all_lifted, maybe_lifted};
use crate::sum::Sum;
use hv_base::{Boxed, List, NoMemory};
use hv_expr::TypedExpr;
use std::alloc::Global;

/// Items and HAVING over a group, lifted behind the sums of the group.
#[derive(Drop)]
pub struct Lifted {
    pub items: List<TypedExpr>,
    pub having: Option<Boxed<TypedExpr>>,
    pub sums: List<Sum>,
}

// Lifts both behind so many sums.
fn lifted_behind(
    alloc: Global,
    items: &[TypedExpr],
    having: &Option<Boxed<TypedExpr>>,
    count: u32,
) -> Result<Lifted, NotLifted>
    ensures { IfOk result (λ made. (count ≡ length made.sums) → IsLifted items.now having.now made) }
{
    let mut sums = Vec::new(alloc);
    let items = all_lifted(alloc, items, count, &mut sums)?;
    let having = maybe_lifted(alloc, having, count, &mut sums)?;
    Ok(Lifted {
        items,
        having,
        sums: List::from_vec(sums),
    })
}

// How many sums they make.
fn sum_count(
    alloc: Global,
    items: &[TypedExpr],
    having: &Option<Boxed<TypedExpr>>,
) -> Result<u32, NotLifted> {
    let made = lifted_behind(alloc, items, having, 0)?;
    match u32::try_from(made.sums.len()) {
        Ok(count) => Ok(count),
        Err(_) => Err(NotLifted::NeedsRows),
    }
}

fn lifted_both(
    alloc: Global,
    items: &[TypedExpr],
    having: &Option<Boxed<TypedExpr>>,
) -> Result<Lifted, NotLifted>
    ensures { IfOk result (λ made. IsLifted items.now having.now made) }
{
    let count = sum_count(alloc, items, having)?;
    let made = lifted_behind(alloc, items, having, count)?;
    if made.sums.len() == count as usize {
        Ok(made)
    } else {
        Err(NotLifted::NeedsRows)
    }
}

/// Items and HAVING behind sums. None where an aggregate needs the rows: one with DISTINCT, one over what has an aggregate
/// itself, and a MIN or MAX of anything but a column.
pub fn lift(
    alloc: Global,
    items: &[TypedExpr],
    having: &Option<Boxed<TypedExpr>>,
) -> Result<Option<Lifted>, NoMemory>
    ensures { IfOk result (λ found. IfSome found (λ made. IsLifted items.now having.now made)) }
{
    match lifted_both(alloc, items, having) {
        Ok(made) => Ok(Some(made)),
        Err(NotLifted::NeedsRows) => Ok(None),
        Err(NotLifted::NoMemory) => Err(NoMemory),
    }
}
