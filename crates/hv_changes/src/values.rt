//! VALUES: its rows, in three passes, and the conversion of one value.

ghost use Rattle.std.specs.Prelude.{◌≡◌, IfOk, map, drop};
ghost use Rattle.std.specs.List.{list_all};
ghost use Rattle.hv_typing.specs.Faults.{Types};
ghost use Rattle.hv_typing.specs.Partitions.{if_converts};
ghost use Rattle.hv_typing.specs.Inserts.{row_typed, rows_typed, has_count, converts, first_type, converted_row};

use hv_ast::Expr;
use hv_base::{Boxed, List, NoMemory, Refusal};
use hv_expr::TypedExpr;
use hv_logic::Column;
use hv_types::{as_kind, item_as_kind, kind_of, type_expr};
use hv_typing::{Over, TypeFault};
use hv_value::{SqlType, is_convertible};
use std::alloc::Global;

/// The value as one of this type.
pub(crate) fn if_converts(
    alloc: Global,
    kind: SqlType,
    value: Boxed<TypedExpr>,
) -> Result<Boxed<TypedExpr>, TypeFault>
    ensures { Types result (if_converts kind value) }
{
    if is_convertible(&kind_of(value.get()), &kind) {
        Ok(as_kind(alloc, kind, value)?)
    } else {
        Err(TypeFault::Refused(Refusal::BadType))
    }
}

#[tactic(auto, using(crate::proofs::Orders::orders), unfolding(hv_typing::specs::Inserts::row_typed))]
fn row_typed(alloc: Global, exprs: &[Expr]) -> Result<List<TypedExpr>, TypeFault>
    ensures { Types result (row_typed exprs.now) }
{
    let mut row = Vec::with_capacity(alloc, exprs.len())?;
    for expr in exprs {
        row.push(type_expr(alloc, expr, &[], Over::Row)?.into_inner())?;
    }
    Ok(List::from_vec(row))
}

#[tactic(auto, using(crate::proofs::Orders::orders), unfolding(hv_typing::specs::Inserts::rows_typed))]
pub(crate) fn rows_typed(
    alloc: Global,
    rows: &[List<Expr>],
) -> Result<List<List<TypedExpr>>, TypeFault>
    ensures { Types result (rows_typed rows.now) }
{
    let mut typed = Vec::with_capacity(alloc, rows.len())?;
    for row in rows {
        typed.push(row_typed(alloc, row.as_slice())?)?;
    }
    Ok(List::from_vec(typed))
}

pub(crate) fn all_counted(count: usize, rows: &[List<TypedExpr>]) -> bool
    ensures { result ≡ list_all (has_count count) rows.now }
{
    for row in rows {
        if row.len() != count {
            return false;
        }
    }
    true
}

pub fn converts(columns: &[Column], row: &[TypedExpr]) -> bool
    ensures { result ≡ converts columns.now row.now }
{
    let mut rest = columns;
    for expr in row {
        let [column, behind @ ..] = rest else {
            return true;
        };
        if !is_convertible(&kind_of(expr), &column.kind) {
            return false;
        }
        rest = behind;
    }
    true
}

pub(crate) fn all_convert(columns: &[Column], rows: &[List<TypedExpr>]) -> bool
    ensures { result ≡ list_all (converts columns.now) rows.now }
{
    for row in rows {
        if !converts(columns, row.as_slice()) {
            return false;
        }
    }
    true
}

fn first_type(columns: &[Column]) -> SqlType
    ensures { result ≡ first_type columns.now }
{
    match columns {
        [] => SqlType::Null,
        [column, ..] => column.kind,
    }
}

fn behind_first(columns: &[Column]) -> &[Column]
    ensures { result.now ≡ drop 1 columns.now }
{
    match columns {
        [] => columns,
        [_, behind @ ..] => behind,
    }
}

pub fn converted_row(
    alloc: Global,
    columns: &[Column],
    row: List<TypedExpr>,
) -> Result<List<TypedExpr>, NoMemory>
    ensures { IfOk result (λ made. made ≡ converted_row columns.now row) }
{
    let mut rest = columns;
    let mut made = Vec::with_capacity(alloc, row.len())?;
    for expr in row.into_vec() {
        made.push(item_as_kind(alloc, first_type(rest), expr)?)?;
        rest = behind_first(rest);
    }
    Ok(List::from_vec(made))
}

pub(crate) fn converted_rows(
    alloc: Global,
    columns: &[Column],
    rows: List<List<TypedExpr>>,
) -> Result<List<List<TypedExpr>>, NoMemory>
    ensures { IfOk result (λ made. made ≡ map (converted_row columns.now) rows) }
{
    let mut made = Vec::with_capacity(alloc, rows.len())?;
    for row in rows.into_vec() {
        made.push(converted_row(alloc, columns, row)?)?;
    }
    Ok(List::from_vec(made))
}
