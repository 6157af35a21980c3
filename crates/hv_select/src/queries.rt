ghost use Rattle.std.specs.Prelude.{◌≡◌, IfOk};
ghost use Rattle.hv_typing.specs.Faults.{Types};
ghost use Rattle.hv_typing.specs.Selects.{is_empty};
ghost use Rattle.hv_typing.specs.Queries.{query_of, query_over};

use crate::orders::order_typed;
use crate::unions::{select_as, unions_as};
use hv_ast::{Query, Union};
use hv_base::{Boxed, List, NoMemory};
use hv_typing::{Listed, SortKey, TypeFault, TypedQuery, TypedSelect, United};
use std::alloc::Global;

fn query_of(
    alloc: Global,
    select: Boxed<TypedSelect>,
    united: Boxed<United>,
    order: List<SortKey>,
    limit: Option<u64>,
) -> Result<Boxed<TypedQuery>, NoMemory>
    ensures { IfOk result (λ query. query ≡ query_of select united order limit) }
{
    let United { columns, unions } = united.into_inner();
    let unions = unions_as(alloc, columns.as_slice(), unions)?;
    let select = select_as(alloc, columns.as_slice(), select)?;
    Boxed::new(
        alloc,
        TypedQuery {
            select: select.into_inner(),
            unions,
            order,
            limit,
            columns,
        },
    )
}

fn is_single(unions: &[Union]) -> bool
    ensures { result ≡ is_empty unions.now }
{
    match unions {
        [] => true,
        _ => false,
    }
}

/// The query over its typed selects: ORDER BY, and the types of the whole.
#[tactic(auto, unfolding(hv_typing::specs::Queries::query_over))]
pub fn query_over(
    alloc: Global,
    query: &Query,
    first: Boxed<Listed>,
    united: Boxed<United>,
) -> Result<Boxed<TypedQuery>, TypeFault>
    ensures { Types result (query_over query.now first united) }
{
    let single = is_single(query.unions.as_slice());
    let columns = united.get().columns.as_slice();
    let order = order_typed(alloc, single, first.get(), columns, query.order.as_slice())?;
    let Listed { select, .. } = first.into_inner();
    Ok(query_of(alloc, select, united, order, query.limit)?)
}
