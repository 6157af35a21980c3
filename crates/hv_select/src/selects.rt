//! A select over what FROM brings.

ghost use Rattle.std.specs.Prelude.{◌≡◌, IfOk};
ghost use Rattle.hv_typing.specs.Faults.{Types};
ghost use Rattle.hv_typing.specs.Selects.{select_of, listed_of, listed, select_over};

use crate::grouping::{grouping_of, having_typed, is_grouped, keys_of, keys_typed, over_of};
use crate::items::{columns_shown, exprs_shown, items_shown};
use crate::sources::filter_typed;
use hv_ast::Select;
use hv_base::{Boxed, List, NoMemory};
use hv_expr::TypedExpr;
use hv_typing::{Grouping, Listed, Opened, Shown, TypeFault, TypedFrom, TypedSelect};
use std::alloc::Global;

type Filter = Option<Boxed<TypedExpr>>;

fn unboxed(from: Option<Boxed<TypedFrom>>) -> Option<TypedFrom>
    ensures { result ≡ from }
{
    match from {
        None => None,
        Some(from) => Some(from.into_inner()),
    }
}

fn select_of(
    alloc: Global,
    distinct: bool,
    from: Option<Boxed<TypedFrom>>,
    filter: Filter,
    groups: Option<Grouping>,
    shown: List<Shown>,
) -> Result<Boxed<TypedSelect>, NoMemory>
    ensures { IfOk result (λ select. select ≡ select_of distinct from filter groups shown) }
{
    let items = exprs_shown(alloc, shown)?;
    Boxed::new(
        alloc,
        TypedSelect {
            distinct,
            items,
            from: unboxed(from),
            filter,
            groups,
        },
    )
}

fn listed_of(
    alloc: Global,
    distinct: bool,
    opened: Boxed<Opened>,
    filter: Filter,
    keys: Option<List<TypedExpr>>,
    having: Filter,
    shown: List<Shown>,
) -> Result<Boxed<Listed>, NoMemory>
    ensures { IfOk result (λ listed. listed ≡ listed_of distinct opened filter keys having shown) }
{
    let columns = columns_shown(alloc, shown.as_slice())?;
    let Opened { from, fields, .. } = opened.into_inner();
    let over = over_of(&keys);
    let groups = grouping_of(keys, having);
    let select = select_of(alloc, distinct, from, filter, groups, shown)?;
    Boxed::new(
        alloc,
        Listed {
            select,
            columns,
            fields,
            over,
        },
    )
}

#[tactic(auto, unfolding(hv_typing::specs::Selects::listed))]
fn listed(
    alloc: Global,
    select: &Select,
    opened: Boxed<Opened>,
    filter: Filter,
    keys: Option<List<TypedExpr>>,
) -> Result<Boxed<Listed>, TypeFault>
    ensures { Types result (listed select.now opened filter keys) }
{
    let shown = items_shown(alloc, opened.get(), &keys, select.items.as_slice())?;
    let fields = opened.get().fields.as_slice();
    let having = having_typed(alloc, fields, &keys, &select.having)?;
    Ok(listed_of(alloc, select.distinct, opened, filter, keys, having, shown)?)
}

/// The select, or its first fault: of WHERE, of GROUP BY, of its items, of HAVING.
#[tactic(auto, unfolding(hv_typing::specs::Selects::select_over))]
pub fn select_over(
    alloc: Global,
    select: &Select,
    opened: Boxed<Opened>,
) -> Result<Boxed<Listed>, TypeFault>
    ensures { Types result (select_over select.now opened) }
{
    let fields = opened.get().fields.as_slice();
    let filter = filter_typed(alloc, fields, &select.filter)?;
    let keys = keys_typed(alloc, fields, select.group.as_slice())?;
    let keys = keys_of(is_grouped(select), keys);
    listed(alloc, select, opened, filter, keys)
}
