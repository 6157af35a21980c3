//! UNION: one type of each column of all selects.

ghost use Rattle.std.specs.Prelude.{◌≡◌, IfOk, map};
ghost use Rattle.hv_typing.specs.Faults.{Types};
ghost use Rattle.hv_typing.specs.Queries.{column_met, columns_met, columns_agreed, alone, unite, united_with, first_kind, behind_first, items_as, select_as, union_as};

use hv_base::{Boxed, Duplicate, List, NoMemory, Refusal};
use hv_expr::TypedExpr;
use hv_types::{item_as_kind, kind_of, met};
use hv_typing::{Meeting, OutputColumn, TypeFault, TypedSelect, TypedUnion, United};
use hv_value::SqlType;
use std::alloc::Global;

fn column_copied(alloc: Global, column: &OutputColumn) -> Result<OutputColumn, NoMemory>
    ensures { IfOk result (λ copied. copied ≡ column.now) }
{
    Ok(OutputColumn {
        name: column.name.duplicate(alloc)?,
        kind: column.kind,
    })
}

fn columns_copied(alloc: Global, columns: &[OutputColumn]) -> Result<List<OutputColumn>, NoMemory>
    ensures { IfOk result (λ copied. copied ≡ columns.now) }
{
    let mut copied = Vec::with_capacity(alloc, columns.len())?;
    for column in columns {
        copied.push(column_copied(alloc, column)?)?;
    }
    Ok(List::from_vec(copied))
}

/// The output columns of the first select.
pub fn alone(alloc: Global, columns: &[OutputColumn]) -> Result<Boxed<United>, NoMemory>
    ensures { IfOk result (λ united. united ≡ alone columns.now) }
{
    let columns = columns_copied(alloc, columns)?;
    Boxed::new(
        alloc,
        United {
            columns,
            unions: List::empty(alloc),
        },
    )
}

fn column_met(
    alloc: Global,
    column: &OutputColumn,
    item: &TypedExpr,
) -> Result<OutputColumn, TypeFault>
    ensures { Types result (column_met column.now item.now) }
{
    match met(Meeting::Unified, column.kind, kind_of(item)) {
        None => Err(TypeFault::Refused(Refusal::BadType)),
        Some(kind) => Ok(OutputColumn {
            name: column.name.duplicate(alloc)?,
            kind,
        }),
    }
}

fn columns_met(
    alloc: Global,
    columns: &[OutputColumn],
    items: &[TypedExpr],
) -> Result<List<OutputColumn>, TypeFault>
    ensures { Types result (columns_met columns.now items.now) }
{
    let mut made = Vec::with_capacity(alloc, columns.len())?;
    let mut rest = items;
    for column in columns {
        let [item, behind @ ..] = rest else {
            return Ok(List::from_vec(made));
        };
        made.push(column_met(alloc, column, item)?)?;
        rest = behind;
    }
    Ok(List::from_vec(made))
}

fn columns_agreed(
    alloc: Global,
    columns: &[OutputColumn],
    items: &[TypedExpr],
) -> Result<List<OutputColumn>, TypeFault>
    ensures { Types result (columns_agreed columns.now items.now) }
{
    if items.len() != columns.len() {
        return Err(TypeFault::Refused(Refusal::BadCount));
    }
    columns_met(alloc, columns, items)
}

fn united_with(
    alloc: Global,
    united: Boxed<United>,
    all: bool,
    select: Boxed<TypedSelect>,
    columns: List<OutputColumn>,
) -> Result<Boxed<United>, NoMemory>
    ensures { IfOk result (λ made. made ≡ united_with united all select columns) }
{
    let United { unions, .. } = united.into_inner();
    let mut unions = unions.into_vec();
    unions.push(TypedUnion {
        all,
        select: select.into_inner(),
    })?;
    Boxed::new(
        alloc,
        United {
            columns,
            unions: List::from_vec(unions),
        },
    )
}

/// The next select of a union: its number of columns, then their types.
#[tactic(auto, unfolding(hv_typing::specs::Queries::unite))]
pub fn unite(
    alloc: Global,
    united: Boxed<United>,
    all: bool,
    select: Boxed<TypedSelect>,
) -> Result<Boxed<United>, TypeFault>
    ensures { Types result (unite united all select) }
{
    let columns = united.get().columns.as_slice();
    let columns = columns_agreed(alloc, columns, select.get().items.as_slice())?;
    Ok(united_with(alloc, united, all, select, columns)?)
}

fn first_kind(columns: &[OutputColumn]) -> SqlType
    ensures { result ≡ first_kind columns.now }
{
    match columns {
        [] => SqlType::Null,
        [column, ..] => column.kind,
    }
}

fn behind_first(columns: &[OutputColumn]) -> &[OutputColumn]
    ensures { result.now ≡ behind_first columns.now }
{
    match columns {
        [] => columns,
        [_, behind @ ..] => behind,
    }
}

fn items_as(
    alloc: Global,
    columns: &[OutputColumn],
    items: List<TypedExpr>,
) -> Result<List<TypedExpr>, NoMemory>
    ensures { IfOk result (λ made. made ≡ items_as columns.now items) }
{
    let mut rest = columns;
    let mut made = Vec::with_capacity(alloc, items.len())?;
    for item in items.into_vec() {
        made.push(item_as_kind(alloc, first_kind(rest), item)?)?;
        rest = behind_first(rest);
    }
    Ok(List::from_vec(made))
}

pub(crate) fn select_as(
    alloc: Global,
    columns: &[OutputColumn],
    select: Boxed<TypedSelect>,
) -> Result<Boxed<TypedSelect>, NoMemory>
    ensures { IfOk result (λ made. made ≡ select_as columns.now select) }
{
    let TypedSelect {
        distinct,
        items,
        from,
        filter,
        groups,
    } = select.into_inner();
    let items = items_as(alloc, columns, items)?;
    Boxed::new(
        alloc,
        TypedSelect {
            distinct,
            items,
            from,
            filter,
            groups,
        },
    )
}

fn union_as(
    alloc: Global,
    columns: &[OutputColumn],
    union: TypedUnion,
) -> Result<TypedUnion, NoMemory>
    ensures { IfOk result (λ made. made ≡ union_as columns.now union) }
{
    let TypedUnion { all, select } = union;
    let select = Boxed::new(alloc, select)?;
    let select = select_as(alloc, columns, select)?;
    Ok(TypedUnion {
        all,
        select: select.into_inner(),
    })
}

pub(crate) fn unions_as(
    alloc: Global,
    columns: &[OutputColumn],
    unions: List<TypedUnion>,
) -> Result<List<TypedUnion>, NoMemory>
    ensures { IfOk result (λ made. made ≡ map (union_as columns.now) unions) }
{
    let mut made = Vec::with_capacity(alloc, unions.len())?;
    for union in unions.into_vec() {
        made.push(union_as(alloc, columns, union)?)?;
    }
    Ok(List::from_vec(made))
}
