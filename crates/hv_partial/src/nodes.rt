//! Nodes of a lifted expression that have no parts.

ghost use Rattle.std.specs.Prelude.{◌≡◌, ◌++◌, ◌∷◌, [], false, List, length, IfOk};
ghost use Rattle.hv_expr.specs.declared.tree.TypedExpr.TheVariants as tree;
ghost use Rattle.hv_partial.specs.declared.sum.Sum.{Sum as SumOf};
ghost use Rattle.hv_partial.specs.Sums.{kind_over};
ghost use Rattle.hv_partial.specs.Lifts.{LiftsTo};

use crate::fault::NotLifted;
use crate::sum::Sum;
use hv_base::{Boxed, Duplicate};
use hv_expr::{Aggregate, TypedExpr};
use hv_value::SqlType;
use std::alloc::Global;

// A column stands behind the sums.
pub(crate) fn column(
    alloc: Global,
    expr: &TypedExpr,
    count: u32,
) -> Result<Boxed<TypedExpr>, NotLifted>
    ensures { (sums : List SumOf) → IfOk result (λ made. LiftsTo sums sums count expr.now made) }
{
    let TypedExpr::Column(place, kind) = expr else {
        return Err(NotLifted::NeedsRows);
    };
    let Some(behind) = place.checked_add(count) else {
        return Err(NotLifted::NeedsRows);
    };
    let made = Boxed::new(alloc, TypedExpr::Column(behind, *kind))?;
    Ok(made)
}

pub(crate) fn literal(
    alloc: Global,
    expr: &TypedExpr,
    count: u32,
) -> Result<Boxed<TypedExpr>, NotLifted>
    ensures { (sums : List SumOf) → IfOk result (λ made. LiftsTo sums sums count expr.now made) }
{
    let TypedExpr::Literal(value, kind) = expr else {
        return Err(NotLifted::NeedsRows);
    };
    let copy = value.duplicate(alloc)?;
    let made = Boxed::new(alloc, TypedExpr::Literal(copy, *kind))?;
    Ok(made)
}

// One sum more, and the column where it will stand.
pub(crate) fn new_sum(
    alloc: Global,
    sum: Sum,
    kind: SqlType,
    sums: &mut Vec<Sum>,
) -> Result<Boxed<TypedExpr>, NotLifted>
    ensures column { IfOk result (λ made. made ≡ tree.Column (length sums.old.items) kind) }
    ensures sums { IfOk result (λ made. sums.new.items ≡ sums.old.items ++ sum ∷ []) }
{
    let Ok(place) = u32::try_from(sums.len()) else {
        return Err(NotLifted::NeedsRows);
    };
    sums.push(sum)?;
    let made = Boxed::new(alloc, TypedExpr::Column(place, kind))?;
    Ok(made)
}

pub(crate) fn count_rows(
    alloc: Global,
    expr: &TypedExpr,
    count: u32,
    sums: &mut Vec<Sum>,
) -> Result<Boxed<TypedExpr>, NotLifted>
    ensures { IfOk result (λ made. LiftsTo sums.old.items sums.new.items count expr.now made) }
{
    let TypedExpr::CountRows = expr else {
        return Err(NotLifted::NeedsRows);
    };
    let made = new_sum(alloc, Sum::Rows, SqlType::BigInt, sums)?;
    Ok(made)
}

// The type at which an aggregate of such a column is taken.
fn kind_over(function: Aggregate, kind: SqlType) -> SqlType
    ensures { result ≡ kind_over function kind }
{
    match function {
        Aggregate::Count | Aggregate::Sum => SqlType::BigInt,
        Aggregate::Min | Aggregate::Max => kind,
    }
}

// An aggregate of a column.
pub(crate) fn column_sum(
    alloc: Global,
    function: Aggregate,
    of: SqlType,
    place: u32,
    kind: SqlType,
    count: u32,
    sums: &mut Vec<Sum>,
) -> Result<Boxed<TypedExpr>, NotLifted>
    ensures { IfOk result (λ made. LiftsTo sums.old.items sums.new.items count (tree.Aggregate function false of (tree.Column place kind)) made) }
{
    let sum = Sum::Column(function, place, kind);
    let shown = kind_over(function, kind);
    let made = new_sum(alloc, sum, shown, sums)?;
    Ok(made)
}
