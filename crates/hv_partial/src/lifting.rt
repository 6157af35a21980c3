ghost use Rattle.std.specs.Prelude.{◌≡◌, false, IfOk, IfSome};
ghost use Rattle.hv_expr.specs.declared.tree.TypedExpr.TheVariants as tree;
ghost use Rattle.hv_partial.specs.Sums.{aggregate_of};
ghost use Rattle.hv_partial.specs.Lifts.{LiftsTo, AllLift, MaybeLifts, LinksLift, BranchesLift};

use crate::fault::NotLifted;
use crate::nodes::{column, column_sum, count_rows, literal, new_sum};
use crate::sum::{Numeric, Sum};
use hv_base::{Boxed, List};
use hv_expr::{Aggregate, Branch, Link, TypedExpr};
use hv_value::SqlType;
use std::alloc::Global;

/// The expression over a group as one behind the sums, of which there will be so many. Its aggregates are put behind the sums
/// so far.
#[cycle(lifting)]
pub(crate) fn lifted(
    alloc: Global,
    expr: &TypedExpr,
    count: u32,
    sums: &mut Vec<Sum>,
) -> Result<Boxed<TypedExpr>, NotLifted>
    ensures { IfOk result (λ made. LiftsTo sums.old.items sums.new.items count expr.now made) }
{
    match expr {
        TypedExpr::Column(..) => column(alloc, expr, count),
        TypedExpr::Literal(..) => literal(alloc, expr, count),
        TypedExpr::One(..) => one(alloc, expr, count, sums),
        TypedExpr::Two(..) => two(alloc, expr, count, sums),
        TypedExpr::Three(..) => three(alloc, expr, count, sums),
        TypedExpr::Many(..) => many(alloc, expr, count, sums),
        TypedExpr::In { .. } => is_in(alloc, expr, count, sums),
        TypedExpr::Chain(..) => chain(alloc, expr, count, sums),
        TypedExpr::Case { .. } => case_of(alloc, expr, count, sums),
        TypedExpr::CountRows => count_rows(alloc, expr, count, sums),
        TypedExpr::Aggregate { .. } => aggregate(alloc, expr, count, sums),
    }
}

#[cycle(lifting)]
fn one(
    alloc: Global,
    expr: &TypedExpr,
    count: u32,
    sums: &mut Vec<Sum>,
) -> Result<Boxed<TypedExpr>, NotLifted>
    ensures { IfOk result (λ made. LiftsTo sums.old.items sums.new.items count expr.now made) }
{
    let TypedExpr::One(function, kind, operand) = expr else {
        return Err(NotLifted::NeedsRows);
    };
    let x = operand.get();
    let new_x = lifted(alloc, x, count, sums)?;
    let made = Boxed::new(alloc, TypedExpr::One(*function, *kind, new_x))?;
    Ok(made)
}

#[cycle(lifting)]
fn two(
    alloc: Global,
    expr: &TypedExpr,
    count: u32,
    sums: &mut Vec<Sum>,
) -> Result<Boxed<TypedExpr>, NotLifted>
    ensures { IfOk result (λ made. LiftsTo sums.old.items sums.new.items count expr.now made) }
{
    let TypedExpr::Two(function, kind, left, right) = expr else {
        return Err(NotLifted::NeedsRows);
    };
    let x = left.get();
    let y = right.get();
    let new_x = lifted(alloc, x, count, sums)?;
    let new_y = lifted(alloc, y, count, sums)?;
    let made = Boxed::new(alloc, TypedExpr::Two(*function, *kind, new_x, new_y))?;
    Ok(made)
}

#[cycle(lifting)]
fn three(
    alloc: Global,
    expr: &TypedExpr,
    count: u32,
    sums: &mut Vec<Sum>,
) -> Result<Boxed<TypedExpr>, NotLifted>
    ensures { IfOk result (λ made. LiftsTo sums.old.items sums.new.items count expr.now made) }
{
    let TypedExpr::Three(function, kind, first, second, third) = expr else {
        return Err(NotLifted::NeedsRows);
    };
    let x = first.get();
    let y = second.get();
    let z = third.get();
    let new_x = lifted(alloc, x, count, sums)?;
    let new_y = lifted(alloc, y, count, sums)?;
    let new_z = lifted(alloc, z, count, sums)?;
    let made = Boxed::new(
        alloc,
        TypedExpr::Three(*function, *kind, new_x, new_y, new_z),
    )?;
    Ok(made)
}

#[cycle(lifting)]
fn many(
    alloc: Global,
    expr: &TypedExpr,
    count: u32,
    sums: &mut Vec<Sum>,
) -> Result<Boxed<TypedExpr>, NotLifted>
    ensures { IfOk result (λ made. LiftsTo sums.old.items sums.new.items count expr.now made) }
{
    let TypedExpr::Many(function, kind, operands) = expr else {
        return Err(NotLifted::NeedsRows);
    };
    let xs = operands.as_slice();
    let new_xs = all_lifted(alloc, xs, count, sums)?;
    let made = Boxed::new(alloc, TypedExpr::Many(*function, *kind, new_xs))?;
    Ok(made)
}

#[cycle(lifting)]
fn is_in(
    alloc: Global,
    expr: &TypedExpr,
    count: u32,
    sums: &mut Vec<Sum>,
) -> Result<Boxed<TypedExpr>, NotLifted>
    ensures { IfOk result (λ made. LiftsTo sums.old.items sums.new.items count expr.now made) }
{
    let TypedExpr::In {
        value: sought,
        negated,
        among: operands,
    } = expr
    else {
        return Err(NotLifted::NeedsRows);
    };
    let x = sought.get();
    let xs = operands.as_slice();
    let value = lifted(alloc, x, count, sums)?;
    let among = all_lifted(alloc, xs, count, sums)?;
    let made = Boxed::new(
        alloc,
        TypedExpr::In {
            value,
            negated: *negated,
            among,
        },
    )?;
    Ok(made)
}

#[cycle(lifting)]
fn chain(
    alloc: Global,
    expr: &TypedExpr,
    count: u32,
    sums: &mut Vec<Sum>,
) -> Result<Boxed<TypedExpr>, NotLifted>
    ensures { IfOk result (λ made. LiftsTo sums.old.items sums.new.items count expr.now made) }
{
    let TypedExpr::Chain(kind, first, links) = expr else {
        return Err(NotLifted::NeedsRows);
    };
    let x = first.get();
    let steps = links.as_slice();
    let new_x = lifted(alloc, x, count, sums)?;
    let new_links = links_lifted(alloc, steps, count, sums)?;
    let made = Boxed::new(alloc, TypedExpr::Chain(*kind, new_x, new_links))?;
    Ok(made)
}

#[cycle(lifting)]
fn case_of(
    alloc: Global,
    expr: &TypedExpr,
    count: u32,
    sums: &mut Vec<Sum>,
) -> Result<Boxed<TypedExpr>, NotLifted>
    ensures { IfOk result (λ made. LiftsTo sums.old.items sums.new.items count expr.now made) }
{
    let TypedExpr::Case {
        kind,
        operand: compared,
        branches: whens,
        otherwise: rest,
    } = expr
    else {
        return Err(NotLifted::NeedsRows);
    };
    let cases = whens.as_slice();
    let operand = maybe_lifted(alloc, compared, count, sums)?;
    let branches = branches_lifted(alloc, cases, count, sums)?;
    let otherwise = maybe_lifted(alloc, rest, count, sums)?;
    let made = Boxed::new(
        alloc,
        TypedExpr::Case {
            kind: *kind,
            operand,
            branches,
            otherwise,
        },
    )?;
    Ok(made)
}

// Of an aggregate with DISTINCT each value counts once, so that rows are needed.
#[cycle(lifting)]
fn aggregate(
    alloc: Global,
    expr: &TypedExpr,
    count: u32,
    sums: &mut Vec<Sum>,
) -> Result<Boxed<TypedExpr>, NotLifted>
    ensures { IfOk result (λ made. LiftsTo sums.old.items sums.new.items count expr.now made) }
{
    let TypedExpr::Aggregate {
        function,
        distinct,
        kind,
        argument,
    } = expr
    else {
        return Err(NotLifted::NeedsRows);
    };
    if *distinct {
        return Err(NotLifted::NeedsRows);
    }
    over(alloc, *function, *kind, argument.get(), count, sums)
}

#[cycle(lifting)]
fn over(
    alloc: Global,
    function: Aggregate,
    of: SqlType,
    argument: &TypedExpr,
    count: u32,
    sums: &mut Vec<Sum>,
) -> Result<Boxed<TypedExpr>, NotLifted>
    ensures { IfOk result (λ made. LiftsTo sums.old.items sums.new.items count (tree.Aggregate function false of argument.now) made) }
{
    match argument {
        TypedExpr::Column(place, kind) => {
            column_sum(alloc, function, of, *place, *kind, count, sums)
        }
        _ => computed_sum(alloc, function, of, argument, count, sums),
    }
}

fn numeric_of(function: Aggregate) -> Option<Numeric>
    ensures { IfSome result (λ numeric. function ≡ aggregate_of numeric) }
{
    match function {
        Aggregate::Count => Some(Numeric::Count),
        Aggregate::Sum => Some(Numeric::Total),
        Aggregate::Min | Aggregate::Max => None,
    }
}

// A number of an expression on each row. It has no aggregate of its own: lifted, it makes no sum.
#[cycle(lifting)]
fn computed_sum(
    alloc: Global,
    function: Aggregate,
    of: SqlType,
    argument: &TypedExpr,
    count: u32,
    sums: &mut Vec<Sum>,
) -> Result<Boxed<TypedExpr>, NotLifted>
    ensures { IfOk result (λ made. LiftsTo sums.old.items sums.new.items count (tree.Aggregate function false of argument.now) made) }
{
    let Some(numeric) = numeric_of(function) else {
        return Err(NotLifted::NeedsRows);
    };
    let mut inner = Vec::new(alloc);
    let copy = lifted(alloc, argument, 0, &mut inner)?;
    let made_inside = inner.as_slice();
    if !made_inside.is_empty() {
        return Err(NotLifted::NeedsRows);
    }
    let sum = Sum::Computed(numeric, copy);
    let made = new_sum(alloc, sum, SqlType::BigInt, sums)?;
    Ok(made)
}

#[cycle(lifting)]
pub(crate) fn all_lifted(
    alloc: Global,
    exprs: &[TypedExpr],
    count: u32,
    sums: &mut Vec<Sum>,
) -> Result<List<TypedExpr>, NotLifted>
    ensures { IfOk result (λ made. AllLift sums.old.items sums.new.items count exprs.now made) }
{
    let mut made = Vec::with_capacity(alloc, exprs.len())?;
    for expr in exprs {
        let next = lifted(alloc, expr, count, sums)?;
        made.push(next.into_inner())?;
    }
    Ok(List::from_vec(made))
}

#[cycle(lifting)]
pub(crate) fn maybe_lifted(
    alloc: Global,
    expr: &Option<Boxed<TypedExpr>>,
    count: u32,
    sums: &mut Vec<Sum>,
) -> Result<Option<Boxed<TypedExpr>>, NotLifted>
    ensures { IfOk result (λ made. MaybeLifts sums.old.items sums.new.items count expr.now made) }
{
    match expr {
        None => Ok(None),
        Some(expr) => {
            let x = expr.get();
            let made = lifted(alloc, x, count, sums)?;
            Ok(Some(made))
        }
    }
}

#[cycle(lifting)]
fn links_lifted(
    alloc: Global,
    links: &[Link],
    count: u32,
    sums: &mut Vec<Sum>,
) -> Result<List<Link>, NotLifted>
    ensures { IfOk result (λ made. LinksLift sums.old.items sums.new.items count links.now made) }
{
    let mut made = Vec::with_capacity(alloc, links.len())?;
    for link in links {
        let operand = lifted(alloc, &link.operand, count, sums)?;
        made.push(Link {
            operator: link.operator,
            operand: operand.into_inner(),
        })?;
    }
    Ok(List::from_vec(made))
}

#[cycle(lifting)]
fn branches_lifted(
    alloc: Global,
    branches: &[Branch],
    count: u32,
    sums: &mut Vec<Sum>,
) -> Result<List<Branch>, NotLifted>
    ensures { IfOk result (λ made. BranchesLift sums.old.items sums.new.items count branches.now made) }
{
    let mut made = Vec::with_capacity(alloc, branches.len())?;
    for branch in branches {
        let condition = lifted(alloc, &branch.condition, count, sums)?;
        let value = lifted(alloc, &branch.value, count, sums)?;
        made.push(Branch {
            condition: condition.into_inner(),
            value: value.into_inner(),
        })?;
    }
    Ok(List::from_vec(made))
}
