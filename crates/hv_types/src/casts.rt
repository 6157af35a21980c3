ghost use Rattle.std.specs.Prelude.{◌≡◌, IfOk, map, option_map};
ghost use Rattle.std.specs.List.{list_all};
ghost use Rattle.hv_typing.specs.Faults.{Types};
ghost use Rattle.hv_typing.specs.Kinds as kinds;
ghost use Rattle.hv_typing.specs.Nodes.{as_kind, stands, taken_at, placed, cast_typed, one_kind};

use crate::kinds::{kind_of, met, same_type};
use crate::places::asked;
use hv_base::{Boxed, List, NoMemory, Refusal};
use hv_expr::{One, TypedExpr};
use hv_typing::{Meeting, Place, TypeFault};
use hv_value::{SqlType, is_convertible};
use std::alloc::Global;

pub(crate) const BAD_TYPE: TypeFault = TypeFault::Refused(Refusal::BadType);

/// The expression as one of this type: a CAST, where it is of another.
pub fn as_kind(
    alloc: Global,
    to: SqlType,
    expr: Boxed<TypedExpr>,
) -> Result<Boxed<TypedExpr>, NoMemory>
    ensures { IfOk result (λ made. made ≡ as_kind to expr) }
{
    if same_type(kind_of(expr.get()), to) {
        Ok(expr)
    } else {
        Boxed::new(alloc, TypedExpr::One(One::Cast, to, expr))
    }
}

/// The same of an operand that stands in a list.
pub fn item_as_kind(alloc: Global, to: SqlType, expr: TypedExpr) -> Result<TypedExpr, NoMemory>
    ensures { IfOk result (λ made. made ≡ as_kind to expr) }
{
    if same_type(kind_of(&expr), to) {
        Ok(expr)
    } else {
        Ok(TypedExpr::One(One::Cast, to, Boxed::new(alloc, expr)?))
    }
}

pub(crate) fn optional_as_kind(
    alloc: Global,
    to: SqlType,
    expr: Option<Boxed<TypedExpr>>,
) -> Result<Option<Boxed<TypedExpr>>, NoMemory>
    ensures { IfOk result (λ made. made ≡ option_map (as_kind to) expr) }
{
    match expr {
        None => Ok(None),
        Some(expr) => Ok(Some(as_kind(alloc, to, expr)?)),
    }
}

pub(crate) fn all_as_kind(
    alloc: Global,
    to: SqlType,
    exprs: List<TypedExpr>,
) -> Result<List<TypedExpr>, NoMemory>
    ensures { IfOk result (λ made. made ≡ map (as_kind to) exprs) }
{
    let mut made = Vec::with_capacity(alloc, exprs.len())?;
    for expr in exprs.into_vec() {
        made.push(item_as_kind(alloc, to, expr)?)?;
    }
    Ok(List::from_vec(made))
}

pub(crate) fn stands(place: Place, expr: &TypedExpr) -> bool
    ensures { result ≡ stands place expr.now }
{
    asked(place, kind_of(expr)).is_some()
}

pub(crate) fn all_stand(place: Place, exprs: &[TypedExpr]) -> bool
    ensures { result ≡ list_all (stands place) exprs.now }
{
    for expr in exprs {
        if !stands(place, expr) {
            return false;
        }
    }
    true
}

#[tactic(auto, unfolding(hv_typing::specs::Nodes::taken_at))]
pub(crate) fn item_taken_at(
    alloc: Global,
    place: Place,
    expr: TypedExpr,
) -> Result<TypedExpr, NoMemory>
    ensures { IfOk result (λ made. made ≡ taken_at place expr) }
{
    match asked(place, kind_of(&expr)) {
        None => Ok(expr),
        Some(to) => item_as_kind(alloc, to, expr),
    }
}

pub(crate) fn all_taken_at(
    alloc: Global,
    place: Place,
    exprs: List<TypedExpr>,
) -> Result<List<TypedExpr>, NoMemory>
    ensures { IfOk result (λ made. made ≡ map (taken_at place) exprs) }
{
    let mut made = Vec::with_capacity(alloc, exprs.len())?;
    for expr in exprs.into_vec() {
        made.push(item_taken_at(alloc, place, expr)?)?;
    }
    Ok(List::from_vec(made))
}

/// The expression as what it is taken for at the place, BadType where it may not stand there.
#[tactic(auto, unfolding(hv_typing::specs::Nodes::taken_at))]
pub fn placed(
    alloc: Global,
    place: Place,
    expr: Boxed<TypedExpr>,
) -> Result<Boxed<TypedExpr>, TypeFault>
    ensures { Types result (placed place expr) }
{
    match asked(place, kind_of(expr.get())) {
        None => Err(BAD_TYPE),
        Some(to) => Ok(as_kind(alloc, to, expr)?),
    }
}

#[tactic(auto, unfolding(hv_typing::specs::Nodes::cast_typed))]
pub(crate) fn cast_typed(
    alloc: Global,
    to: SqlType,
    expr: Boxed<TypedExpr>,
) -> Result<Boxed<TypedExpr>, TypeFault>
    ensures { Types result (cast_typed to expr) }
{
    if is_convertible(&kind_of(expr.get()), &to) {
        Ok(Boxed::new(alloc, TypedExpr::One(One::Cast, to, expr))?)
    } else {
        Err(BAD_TYPE)
    }
}

/// The one type of these expressions and of what stands before them.
pub(crate) fn one_kind(meeting: Meeting, before: SqlType, exprs: &[TypedExpr]) -> Option<SqlType>
    ensures { result ≡ one_kind meeting before exprs.now }
{
    let mut kind = before;
    for expr in exprs {
        match met(meeting, kind, kind_of(expr)) {
            Some(found) => kind = found,
            None => return None,
        }
    }
    Some(kind)
}
