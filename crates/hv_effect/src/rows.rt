//! New rows, made of a change's values.

ghost use Rattle.std.specs.Prelude.{◌≡◌, IfOk, [], drop, map};
ghost use Rattle.hv_expr.specs.Evaluation.{values_of};
ghost use Rattle.hv_eval.specs.Frames.{frame_values};
ghost use Rattle.hv_meaning.specs.Meaning.{values_alone, frame_of, found_frame, first_value, stored_values, stored_row};

use hv_base::{List, NoMemory};
use hv_eval::{Frame, Scope, eval, eval_at};
use hv_expr::TypedExpr;
use hv_logic::{Column, Found};
use hv_value::{Row, Value, convert};
use std::alloc::Global;

// The first value as the column has it.
#[tactic(auto, unfolding(hv_expr::specs::Evaluation::value_of))]
fn first_value<'a>(
    alloc: Global,
    column: &Column,
    exprs: &'a [TypedExpr],
    frame: &Frame<'a>,
) -> Result<Value, NoMemory>
    ensures { IfOk result (λ value. value ≡ first_value column.now exprs.now (frame_values frame.now)) }
{
    match exprs {
        [] => Ok(Value::Null),
        [expr, ..] => {
            let value = eval_at(alloc, expr, &Scope::alone(*frame))?;
            convert(alloc, &value, &column.kind)
        }
    }
}

fn behind_first(exprs: &[TypedExpr]) -> &[TypedExpr]
    ensures { result.now ≡ drop 1 exprs.now }
{
    match exprs {
        [] => exprs,
        [_, behind @ ..] => behind,
    }
}

fn stored_values<'a>(
    alloc: Global,
    columns: &[Column],
    exprs: &'a [TypedExpr],
    frame: &Frame<'a>,
) -> Result<List<Value>, NoMemory>
    ensures { IfOk result (λ values. values ≡ stored_values columns.now exprs.now (frame_values frame.now)) }
{
    let mut rest = exprs;
    let mut values = Vec::with_capacity(alloc, columns.len())?;
    for column in columns {
        values.push(first_value(alloc, column, rest, frame)?)?;
        rest = behind_first(rest);
    }
    Ok(List::from_vec(values))
}

/// A row of these columns, each value over the row that it is made from.
pub(crate) fn stored_row<'a>(
    alloc: Global,
    columns: &[Column],
    exprs: &'a [TypedExpr],
    frame: &Frame<'a>,
) -> Result<Row, NoMemory>
    ensures { IfOk result (λ row. row ≡ stored_row columns.now exprs.now (frame_values frame.now)) }
{
    Ok(Row {
        values: stored_values(alloc, columns, exprs, frame)?,
    })
}

// Of a row of one source.
fn made_of<'a>(
    alloc: Global,
    columns: &[Column],
    exprs: &'a [TypedExpr],
    row: &'a Row,
) -> Result<Row, NoMemory>
    ensures { IfOk result (λ made. made ≡ stored_row columns.now exprs.now row.now.values) }
{
    stored_row(alloc, columns, exprs, &Frame::of(row.values.as_slice()))
}

// The values of a row of VALUES, over no row.
fn row_alone(alloc: Global, exprs: &[TypedExpr], none: &Row) -> Result<Row, NoMemory>
    requires none { none.now.values ≡ [] }
    ensures { IfOk result (λ row. row.values ≡ values_alone exprs.now) }
{
    let mut values = Vec::with_capacity(alloc, exprs.len())?;
    for expr in exprs {
        values.push(eval(alloc, expr, none)?)?;
    }
    Ok(Row {
        values: List::from_vec(values),
    })
}

fn alone_stored(
    alloc: Global,
    columns: &[Column],
    exprs: &[TypedExpr],
    row: &[TypedExpr],
    none: &Row,
) -> Result<Row, NoMemory>
    requires none { none.now.values ≡ [] }
    ensures { IfOk result (λ made. made ≡ stored_row columns.now exprs.now (values_alone row.now)) }
{
    let frame = row_alone(alloc, row, none)?;
    made_of(alloc, columns, exprs, &frame)
}

/// A row of these columns, each value over no row.
pub(crate) fn row_over_none(
    alloc: Global,
    columns: &[Column],
    exprs: &[TypedExpr],
) -> Result<Row, NoMemory>
    ensures { IfOk result (λ made. made ≡ stored_row columns.now exprs.now []) }
{
    let none = Row {
        values: List::empty(alloc),
    };
    let made = made_of(alloc, columns, exprs, &none)?;
    Ok(made)
}

/// Of rows of VALUES.
pub(crate) fn rows_alone(
    alloc: Global,
    columns: &[Column],
    exprs: &[TypedExpr],
    rows: &[List<TypedExpr>],
) -> Result<List<Row>, NoMemory>
    ensures { IfOk result (λ made. made ≡ map (stored_row columns.now exprs.now) (map values_alone rows.now)) }
{
    let none = Row {
        values: List::empty(alloc),
    };
    let mut made = Vec::with_capacity(alloc, rows.len())?;
    for row in rows {
        made.push(alone_stored(alloc, columns, exprs, row.as_slice(), &none)?)?;
    }
    Ok(List::from_vec(made))
}

/// Of the rows of a query.
pub(crate) fn rows_selected(
    alloc: Global,
    columns: &[Column],
    exprs: &[TypedExpr],
    rows: &[Row],
) -> Result<List<Row>, NoMemory>
    ensures { IfOk result (λ made. made ≡ map (stored_row columns.now exprs.now) (map frame_of rows.now)) }
{
    let mut made = Vec::with_capacity(alloc, rows.len())?;
    for row in rows {
        made.push(made_of(alloc, columns, exprs, row)?)?;
    }
    Ok(List::from_vec(made))
}

/// Of rows that stand in a table.
pub(crate) fn rows_updated(
    alloc: Global,
    columns: &[Column],
    exprs: &[TypedExpr],
    found: &[Found],
) -> Result<List<Row>, NoMemory>
    ensures { IfOk result (λ made. made ≡ map (stored_row columns.now exprs.now) (map found_frame found.now)) }
{
    let mut made = Vec::with_capacity(alloc, found.len())?;
    for one in found {
        made.push(made_of(alloc, columns, exprs, &one.row)?)?;
    }
    Ok(List::from_vec(made))
}
