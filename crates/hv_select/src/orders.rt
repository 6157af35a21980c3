//! ORDER BY.

ghost use Rattle.std.specs.Prelude.{◌≡◌, IfSome};
ghost use Rattle.std.specs.List.{list_any};
ghost use Rattle.hv_typing.specs.Faults.{Types};
ghost use Rattle.hv_typing.specs.Queries.{place_numbered, is_named, place_named, place_of_literal, place_written, place_equal, place_of_item, place_of_key, key_typed, order_typed, Finds};

use hv_ast::{Expr, Key, Literal};
use hv_base::{List, Refusal, Text};
use hv_expr::TypedExpr;
use hv_grouping::same_tree;
use hv_types::type_expr;
use hv_typing::{Listed, OutputColumn, SortKey, TypeFault};
use std::alloc::Global;

const NO_COLUMN: TypeFault = TypeFault::Refused(Refusal::NoColumn);

fn place_numbered(count: usize, number: i32) -> Result<usize, TypeFault>
    ensures { Types result (place_numbered count number) }
{
    if number < 1 {
        return Err(NO_COLUMN);
    }
    let place = (number - 1) as usize;
    if place < count {
        Ok(place)
    } else {
        Err(NO_COLUMN)
    }
}

fn is_any_named(name: &Text, columns: &[OutputColumn]) -> bool
    ensures { result ≡ list_any (is_named name.now) columns.now }
{
    for column in columns {
        if column.name == *name {
            return true;
        }
    }
    false
}

fn place_named(name: &Text, columns: &[OutputColumn]) -> Option<Result<usize, TypeFault>>
    ensures { Finds result (place_named 0 name.now columns.now) }
{
    for i in 0..columns.len() {
        if columns[i].name == *name {
            if is_any_named(name, &columns[i + 1..]) {
                return Some(Err(TypeFault::Refused(Refusal::Ambiguous)));
            }
            return Some(Ok(i));
        }
    }
    None
}

fn place_of_literal(count: usize, literal: &Literal) -> Option<Result<usize, TypeFault>>
    ensures { Finds result (place_of_literal count literal.now) }
{
    match literal {
        Literal::Int(number) => Some(place_numbered(count, *number)),
        _ => None,
    }
}

fn place_written(columns: &[OutputColumn], key: &Expr) -> Option<Result<usize, TypeFault>>
    ensures { Finds result (place_written columns.now key.now) }
{
    match key {
        Expr::Literal(literal) => place_of_literal(columns.len(), literal),
        Expr::Column(None, name) => place_named(name, columns),
        _ => None,
    }
}

fn place_equal(expr: &TypedExpr, items: &[TypedExpr]) -> Result<usize, TypeFault>
    ensures { Types result (place_equal 0 expr.now items.now) }
{
    for i in 0..items.len() {
        if same_tree(&items[i], expr) {
            return Ok(i);
        }
    }
    Err(NO_COLUMN)
}

fn place_of_item(
    alloc: Global,
    single: bool,
    listed: &Listed,
    key: &Expr,
) -> Result<usize, TypeFault>
    ensures { Types result (place_of_item single listed.now key.now) }
{
    if !single {
        return Err(NO_COLUMN);
    }
    match type_expr(alloc, key, listed.fields.as_slice(), listed.over) {
        Ok(typed) => place_equal(typed.get(), listed.select.get().items.as_slice()),
        Err(TypeFault::Refused(_)) => Err(NO_COLUMN),
        Err(TypeFault::NoMemory) => Err(TypeFault::NoMemory),
    }
}

fn place_of_key(
    alloc: Global,
    single: bool,
    listed: &Listed,
    columns: &[OutputColumn],
    key: &Expr,
) -> Result<usize, TypeFault>
    ensures { Types result (place_of_key single listed.now columns.now key.now) }
{
    match place_written(columns, key) {
        Some(place) => place,
        None => place_of_item(alloc, single, listed, key),
    }
}

fn key_typed(
    alloc: Global,
    single: bool,
    listed: &Listed,
    columns: &[OutputColumn],
    key: &Key,
) -> Result<SortKey, TypeFault>
    ensures { Types result (key_typed single listed.now columns.now key.now) }
{
    let place = place_of_key(alloc, single, listed, columns, &key.expr)?;
    let Ok(place) = u32::try_from(place) else {
        return Err(TypeFault::NoMemory);
    };
    Ok(SortKey {
        place,
        descending: key.descending,
    })
}

/// The keys of ORDER BY as places among the output columns.
#[tactic(auto, using(crate::proofs::Behind::steps), unfolding(hv_typing::specs::Queries::order_typed))]
pub(crate) fn order_typed(
    alloc: Global,
    single: bool,
    listed: &Listed,
    columns: &[OutputColumn],
    keys: &[Key],
) -> Result<List<SortKey>, TypeFault>
    ensures { Types result (order_typed single listed.now columns.now keys.now) }
{
    let mut made = Vec::with_capacity(alloc, keys.len())?;
    for key in keys {
        made.push(key_typed(alloc, single, listed, columns, key)?)?;
    }
    Ok(List::from_vec(made))
}
