//! GROUP BY and HAVING.

ghost use Rattle.std.specs.Prelude.{◌≡◌};
ghost use Rattle.std.specs.List.{list_any};
ghost use Rattle.hv_typing.specs.Faults.{Types};
ghost use Rattle.hv_typing.specs.Selects.{aggregates_in, is_grouped, keys_typed, keys_of, over_of, may_stand, having_typed, grouping_of};

use hv_ast::{Expr, Item, Select};
use hv_base::{Boxed, List, Refusal};
use hv_expr::TypedExpr;
use hv_grouping::{has_aggregate, stands_grouped};
use hv_types::{condition_of, type_expr};
use hv_typing::{Field, Grouping, Over, TypeFault};
use std::alloc::Global;

pub(crate) const NOT_GROUPED: TypeFault = TypeFault::Refused(Refusal::NotGrouped);

fn aggregates_in(item: &Item) -> bool
    ensures { result ≡ aggregates_in item.now }
{
    match item {
        Item::One(expr, _) => has_aggregate(expr),
        _ => false,
    }
}

fn any_aggregates(items: &[Item]) -> bool
    ensures { result ≡ list_any aggregates_in items.now }
{
    for item in items {
        if aggregates_in(item) {
            return true;
        }
    }
    false
}

/// Whether the select has groups.
pub(crate) fn is_grouped(select: &Select) -> bool
    ensures { result ≡ is_grouped select.now }
{
    !select.group.is_empty() || select.having.is_some() || any_aggregates(select.items.as_slice())
}

#[tactic(auto, using(crate::proofs::Behind::steps), unfolding(hv_typing::specs::Selects::keys_typed))]
pub(crate) fn keys_typed(
    alloc: Global,
    fields: &[Field],
    keys: &[Expr],
) -> Result<List<TypedExpr>, TypeFault>
    ensures { Types result (keys_typed fields.now keys.now) }
{
    let mut made = Vec::with_capacity(alloc, keys.len())?;
    for key in keys {
        made.push(type_expr(alloc, key, fields, Over::Row)?.into_inner())?;
    }
    Ok(List::from_vec(made))
}

pub(crate) fn keys_of(grouped: bool, keys: List<TypedExpr>) -> Option<List<TypedExpr>>
    ensures { result ≡ keys_of grouped keys }
{
    if grouped { Some(keys) } else { None }
}

pub(crate) fn over_of(keys: &Option<List<TypedExpr>>) -> Over
    ensures { result ≡ over_of keys.now }
{
    match keys {
        None => Over::Row,
        Some(_) => Over::Group,
    }
}

pub(crate) fn may_stand(keys: &Option<List<TypedExpr>>, expr: &TypedExpr) -> bool
    ensures { result ≡ may_stand keys.now expr.now }
{
    match keys {
        None => true,
        Some(keys) => stands_grouped(expr, keys.as_slice()),
    }
}

pub(crate) fn having_typed(
    alloc: Global,
    fields: &[Field],
    keys: &Option<List<TypedExpr>>,
    having: &Option<Expr>,
) -> Result<Option<Boxed<TypedExpr>>, TypeFault>
    ensures { Types result (having_typed fields.now keys.now having.now) }
{
    match having {
        None => Ok(None),
        Some(having) => {
            let having = condition_of(alloc, having, fields, Over::Group)?;
            if !may_stand(keys, having.get()) {
                return Err(NOT_GROUPED);
            }
            Ok(Some(having))
        }
    }
}

pub(crate) fn grouping_of(
    keys: Option<List<TypedExpr>>,
    having: Option<Boxed<TypedExpr>>,
) -> Option<Grouping>
    ensures { result ≡ grouping_of keys having }
{
    match keys {
        None => None,
        Some(keys) => Some(Grouping { keys, having }),
    }
}
