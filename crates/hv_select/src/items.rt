//! The items of a select, and its output columns.

ghost use Rattle.std.specs.Prelude.{◌≡◌, IfOk, map};
ghost use Rattle.std.specs.List.{list_all};
ghost use Rattle.hv_typing.specs.Faults.{Types};
ghost use Rattle.hv_typing.specs.Selects.{is_of, field_shown, fields_shown, shown_name, one_shown, all_shown, item_shown, shown_stands, item_tested, most_shown, room_after, items_shown, numbered, or_numbered, column_shown, columns_shown, expr_shown};

use crate::grouping::{NOT_GROUPED, may_stand, over_of};
use crate::sources::is_among;
use hv_ast::{Expr, Item};
use hv_base::{Duplicate, List, NoMemory, Refusal, Text};
use hv_expr::TypedExpr;
use hv_types::{kind_of, type_expr};
use hv_typing::{Field, Opened, OutputColumn, Shown, TypeFault};
use std::alloc::Global;

/// How many columns a select shows at most.
const SHOWN_LIMIT: usize = 1024;

fn is_of(alias: &Option<Text>, field: &Field) -> bool
    ensures { result ≡ is_of alias.now field.now }
{
    match alias {
        None => true,
        Some(alias) => field.source == *alias,
    }
}

fn field_shown(alloc: Global, place: usize, field: &Field) -> Result<Shown, NoMemory>
    ensures { IfOk result (λ shown. shown ≡ field_shown place field.now) }
{
    let Ok(place) = u32::try_from(place) else {
        return Err(NoMemory);
    };
    Ok(Shown {
        name: Some(field.name.duplicate(alloc)?),
        expr: TypedExpr::Column(place, field.kind),
    })
}

fn fields_shown(
    alloc: Global,
    alias: &Option<Text>,
    fields: &[Field],
) -> Result<List<Shown>, NoMemory>
    ensures { IfOk result (λ shown. shown ≡ fields_shown alias.now 0 fields.now) }
{
    let mut shown = Vec::new(alloc);
    for i in 0..fields.len() {
        if is_of(alias, &fields[i]) {
            shown.push(field_shown(alloc, i, &fields[i])?)?;
        }
    }
    Ok(List::from_vec(shown))
}

fn shown_name(alloc: Global, alias: &Option<Text>, expr: &Expr) -> Result<Option<Text>, NoMemory>
    ensures { IfOk result (λ name. name ≡ shown_name alias.now expr.now) }
{
    match alias {
        Some(alias) => Ok(Some(alias.duplicate(alloc)?)),
        None => match expr {
            Expr::Column(_, name) => Ok(Some(name.duplicate(alloc)?)),
            _ => Ok(None),
        },
    }
}

fn one_shown(
    alloc: Global,
    fields: &[Field],
    keys: &Option<List<TypedExpr>>,
    expr: &Expr,
    alias: &Option<Text>,
) -> Result<List<Shown>, TypeFault>
    ensures { Types result (one_shown fields.now keys.now expr.now alias.now) }
{
    let typed = type_expr(alloc, expr, fields, over_of(keys))?;
    let name = shown_name(alloc, alias, expr)?;
    let mut shown = Vec::with_capacity(alloc, 1)?;
    shown.push(Shown {
        name,
        expr: typed.into_inner(),
    })?;
    Ok(List::from_vec(shown))
}

fn all_shown(alloc: Global, opened: &Opened, alias: &Text) -> Result<List<Shown>, TypeFault>
    ensures { Types result (all_shown opened.now alias.now) }
{
    if !is_among(opened.aliases.as_slice(), alias) {
        return Err(TypeFault::Refused(Refusal::NoColumn));
    }
    let alias = Some(alias.duplicate(alloc)?);
    Ok(fields_shown(alloc, &alias, opened.fields.as_slice())?)
}

fn item_shown(
    alloc: Global,
    opened: &Opened,
    keys: &Option<List<TypedExpr>>,
    item: &Item,
) -> Result<List<Shown>, TypeFault>
    ensures { Types result (item_shown opened.now keys.now item.now) }
{
    match item {
        Item::All => Ok(fields_shown(alloc, &None, opened.fields.as_slice())?),
        Item::AllOf(alias) => all_shown(alloc, opened, alias),
        Item::One(expr, alias) => one_shown(alloc, opened.fields.as_slice(), keys, expr, alias),
        Item::Window(_, _) => Err(TypeFault::Refused(Refusal::Syntax)),
    }
}

fn all_stand(keys: &Option<List<TypedExpr>>, shown: &[Shown]) -> bool
    ensures { result ≡ list_all (shown_stands keys.now) shown.now }
{
    for one in shown {
        if !may_stand(keys, &one.expr) {
            return false;
        }
    }
    true
}

fn item_tested(
    alloc: Global,
    opened: &Opened,
    keys: &Option<List<TypedExpr>>,
    item: &Item,
) -> Result<List<Shown>, TypeFault>
    ensures { Types result (item_tested opened.now keys.now item.now) }
{
    let shown = item_shown(alloc, opened, keys, item)?;
    if !all_stand(keys, shown.as_slice()) {
        return Err(NOT_GROUPED);
    }
    Ok(shown)
}

// The room that is left where these are shown.
#[tactic(auto, unfolding(hv_typing::specs::Selects::room_after))]
fn room_after(room: usize, shown: &[Shown]) -> Result<usize, TypeFault>
    ensures { Types result (room_after room shown.now) }
{
    let count = shown.len();
    if room < count {
        return Err(TypeFault::Refused(Refusal::Limit));
    }
    Ok(room - count)
}

/// What a select shows, or the first fault of its items.
#[tactic(auto, using(crate::proofs::Behind::steps))]
pub(crate) fn items_shown(
    alloc: Global,
    opened: &Opened,
    keys: &Option<List<TypedExpr>>,
    items: &[Item],
) -> Result<List<Shown>, TypeFault>
    ensures { Types result (items_shown most_shown opened.now keys.now items.now) }
{
    let mut made = Vec::with_capacity(alloc, items.len())?;
    let mut room = SHOWN_LIMIT;
    for item in items {
        let shown = item_tested(alloc, opened, keys, item)?;
        room = room_after(room, shown.as_slice())?;
        let mut shown = shown.into_vec();
        made.append(&mut shown)?;
    }
    Ok(List::from_vec(made))
}

fn numbered(alloc: Global, place: usize) -> Result<Text, NoMemory>
    ensures { IfOk result (λ name. name ≡ numbered place) }
{
    Text::of(alloc, &format!(in alloc; "_c{place}")?)
}

fn or_numbered(alloc: Global, place: usize, name: &Option<Text>) -> Result<Text, NoMemory>
    ensures { IfOk result (λ made. made ≡ or_numbered place name.now) }
{
    match name {
        None => numbered(alloc, place),
        Some(name) => name.duplicate(alloc),
    }
}

fn column_shown(alloc: Global, place: usize, shown: &Shown) -> Result<OutputColumn, NoMemory>
    ensures { IfOk result (λ column. column ≡ column_shown place shown.now) }
{
    Ok(OutputColumn {
        name: or_numbered(alloc, place, &shown.name)?,
        kind: kind_of(&shown.expr),
    })
}

/// The names and types of the output columns.
pub(crate) fn columns_shown(alloc: Global, shown: &[Shown]) -> Result<List<OutputColumn>, NoMemory>
    ensures { IfOk result (λ columns. columns ≡ columns_shown 0 shown.now) }
{
    let mut columns = Vec::with_capacity(alloc, shown.len())?;
    for i in 0..shown.len() {
        columns.push(column_shown(alloc, i, &shown[i])?)?;
    }
    Ok(List::from_vec(columns))
}

/// The expressions alone.
pub(crate) fn exprs_shown(alloc: Global, shown: List<Shown>) -> Result<List<TypedExpr>, NoMemory>
    ensures { IfOk result (λ exprs. exprs ≡ map expr_shown shown) }
{
    let mut exprs = Vec::with_capacity(alloc, shown.len())?;
    for one in shown.into_vec() {
        let Shown { expr, .. } = one;
        exprs.push(expr)?;
    }
    Ok(List::from_vec(exprs))
}
