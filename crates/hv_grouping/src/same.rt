ghost use Rattle.std.specs.Prelude.{◌≡◌};
ghost use Rattle.hv_typing.specs.Same.{all_same, some_same, links_same, branches_same, same_bool, same_tree, is_column, is_literal, is_one, is_two, is_three, is_many, is_in, is_chain, is_case, is_count, is_aggregate};
ghost use Rattle.hv_expr.specs.declared.tree.TypedExpr.TheViews.{out-TypedExpr};

use crate::numbers::{same_aggregate, same_arithmetic, same_many, same_one, same_three, same_two};
use hv_base::Boxed;
use hv_expr::{Aggregate, Branch, Link, Many, One, Three, Two, TypedExpr};
use hv_types::same_type;
use hv_value::{SqlType, Value};

/// Whether two typed expressions are one and the same.
#[cycle(same)]
#[tactic(auto, using(crate::proofs::Equations::sames))]
pub fn same_tree(right: &TypedExpr, left: &TypedExpr) -> bool
    ensures { result ≡ same_tree left.now right.now }
{
    match left {
        TypedExpr::Column(place, kind) => is_column(right, *place, *kind),
        TypedExpr::Literal(literal, kind) => is_literal(right, literal, *kind),
        TypedExpr::One(function, kind, x) => is_one(right, x.get(), *function, *kind),
        TypedExpr::Two(function, kind, x, y) => is_two(right, x.get(), y.get(), *function, *kind),
        TypedExpr::Three(function, kind, x, y, z) => {
            is_three(right, x.get(), y.get(), z.get(), *function, *kind)
        }
        TypedExpr::Many(function, kind, xs) => is_many(right, xs.as_slice(), *function, *kind),
        TypedExpr::In {
            value,
            negated,
            among,
        } => is_in(right, value.get(), among.as_slice(), *negated),
        TypedExpr::Chain(kind, first, links) => {
            is_chain(right, first.get(), links.as_slice(), *kind)
        }
        TypedExpr::Case {
            kind,
            operand,
            branches,
            otherwise,
        } => is_case(right, operand, branches.as_slice(), otherwise, *kind),
        TypedExpr::CountRows => is_count(right),
        TypedExpr::Aggregate {
            function,
            distinct,
            kind,
            argument,
        } => is_aggregate(right, argument.get(), *function, *distinct, *kind),
    }
}

#[tactic(auto, using(crate::proofs::Equations::others))]
fn is_column(right: &TypedExpr, place: u32, kind: SqlType) -> bool
    ensures { result ≡ is_column place kind (out-TypedExpr right.now) }
{
    let TypedExpr::Column(other, type_) = right else {
        return false;
    };
    place == *other && same_type(kind, *type_)
}

#[tactic(auto, using(crate::proofs::Equations::others))]
fn is_literal(right: &TypedExpr, literal: &Value, kind: SqlType) -> bool
    ensures { result ≡ is_literal literal.now kind (out-TypedExpr right.now) }
{
    let TypedExpr::Literal(other, type_) = right else {
        return false;
    };
    *literal == *other && same_type(kind, *type_)
}

fn is_count(right: &TypedExpr) -> bool
    ensures { result ≡ is_count (out-TypedExpr right.now) }
{
    matches!(right, TypedExpr::CountRows)
}

#[cycle(same)]
#[tactic(auto, using(crate::proofs::Equations::others))]
fn is_one(right: &TypedExpr, x: &TypedExpr, function: One, kind: SqlType) -> bool
    ensures { result ≡ is_one function kind (same_tree x.now) (out-TypedExpr right.now) }
{
    let TypedExpr::One(other, type_, u) = right else {
        return false;
    };
    same_one(function, *other) && same_type(kind, *type_) && same_tree(u.get(), x)
}

#[cycle(same)]
#[tactic(auto, using(crate::proofs::Equations::others))]
fn is_two(right: &TypedExpr, x: &TypedExpr, y: &TypedExpr, function: Two, kind: SqlType) -> bool
    ensures { result ≡ is_two function kind (same_tree x.now) (same_tree y.now) (out-TypedExpr right.now) }
{
    let TypedExpr::Two(other, type_, u, v) = right else {
        return false;
    };
    same_two(function, *other)
        && same_type(kind, *type_)
        && same_tree(u.get(), x)
        && same_tree(v.get(), y)
}

#[cycle(same)]
#[tactic(auto, using(crate::proofs::Equations::others))]
fn is_three(
    right: &TypedExpr,
    x: &TypedExpr,
    y: &TypedExpr,
    z: &TypedExpr,
    function: Three,
    kind: SqlType,
) -> bool
    ensures { result ≡ is_three function kind (same_tree x.now) (same_tree y.now) (same_tree z.now) (out-TypedExpr right.now) }
{
    let TypedExpr::Three(other, type_, u, v, w) = right else {
        return false;
    };
    same_three(function, *other)
        && same_type(kind, *type_)
        && same_tree(u.get(), x)
        && same_tree(v.get(), y)
        && same_tree(w.get(), z)
}

#[cycle(same)]
#[tactic(auto, using(crate::proofs::Equations::others))]
fn is_many(right: &TypedExpr, xs: &[TypedExpr], function: Many, kind: SqlType) -> bool
    ensures { result ≡ is_many function kind (all_same same_tree xs.now) (out-TypedExpr right.now) }
{
    let TypedExpr::Many(other, type_, us) = right else {
        return false;
    };
    same_many(function, *other) && same_type(kind, *type_) && all_same(us.as_slice(), xs)
}

#[cycle(same)]
#[tactic(auto, using(crate::proofs::Equations::others))]
fn is_in(right: &TypedExpr, x: &TypedExpr, among: &[TypedExpr], negated: bool) -> bool
    ensures { result ≡ is_in (same_tree x.now) negated (all_same same_tree among.now) (out-TypedExpr right.now) }
{
    let TypedExpr::In {
        value: u,
        negated: other,
        among: us,
    } = right
    else {
        return false;
    };
    same_bool(negated, *other) && same_tree(u.get(), x) && all_same(us.as_slice(), among)
}

#[cycle(same)]
#[tactic(auto, using(crate::proofs::Equations::others))]
fn is_chain(right: &TypedExpr, first: &TypedExpr, links: &[Link], kind: SqlType) -> bool
    ensures { result ≡ is_chain kind (same_tree first.now) (links_same same_tree links.now) (out-TypedExpr right.now) }
{
    let TypedExpr::Chain(type_, u, others) = right else {
        return false;
    };
    same_type(kind, *type_) && same_tree(u.get(), first) && links_same(others.as_slice(), links)
}

#[cycle(same)]
#[tactic(auto, using(crate::proofs::Equations::others))]
fn is_case(
    right: &TypedExpr,
    operand: &Option<Boxed<TypedExpr>>,
    branches: &[Branch],
    otherwise: &Option<Boxed<TypedExpr>>,
    kind: SqlType,
) -> bool
    ensures { result ≡ is_case kind (some_same same_tree operand.now) (branches_same same_tree branches.now) (some_same same_tree otherwise.now) (out-TypedExpr right.now) }
{
    let TypedExpr::Case {
        kind: type_,
        operand: u,
        branches: others,
        otherwise: v,
    } = right
    else {
        return false;
    };
    same_type(kind, *type_)
        && some_same(u, operand)
        && branches_same(others.as_slice(), branches)
        && some_same(v, otherwise)
}

#[cycle(same)]
#[tactic(auto, using(crate::proofs::Equations::others))]
fn is_aggregate(
    right: &TypedExpr,
    x: &TypedExpr,
    function: Aggregate,
    distinct: bool,
    kind: SqlType,
) -> bool
    ensures { result ≡ is_aggregate function distinct kind (same_tree x.now) (out-TypedExpr right.now) }
{
    let TypedExpr::Aggregate {
        function: other,
        distinct: once,
        kind: type_,
        argument: u,
    } = right
    else {
        return false;
    };
    same_aggregate(function, *other)
        && same_bool(distinct, *once)
        && same_type(kind, *type_)
        && same_tree(u.get(), x)
}

fn same_bool(left: bool, right: bool) -> bool
    ensures { result ≡ same_bool left right }
{
    if left { right } else { !right }
}

#[cycle(same)]
#[tactic(auto, unfolding(hv_typing::specs::Same::some_same))]
fn some_same(right: &Option<Boxed<TypedExpr>>, left: &Option<Boxed<TypedExpr>>) -> bool
    ensures { result ≡ some_same same_tree left.now right.now }
{
    match right {
        None => left.is_none(),
        Some(u) => match left {
            None => false,
            Some(x) => same_tree(u.get(), x.get()),
        },
    }
}

#[cycle(same)]
#[tactic(auto, unfolding(hv_typing::specs::Same::all_same))]
fn all_same(right: &[TypedExpr], left: &[TypedExpr]) -> bool
    ensures { result ≡ all_same same_tree left.now right.now }
{
    let mut rest = left;
    for u in right {
        let [x, behind @ ..] = rest else {
            return false;
        };
        if !same_tree(u, x) {
            return false;
        }
        rest = behind;
    }
    rest.is_empty()
}

#[cycle(same)]
#[tactic(auto, unfolding(hv_typing::specs::Same::all_same))]
fn links_same(right: &[Link], left: &[Link]) -> bool
    ensures { result ≡ links_same same_tree left.now right.now }
{
    let mut rest = left;
    for other in right {
        let [link, behind @ ..] = rest else {
            return false;
        };
        if !same_arithmetic(link.operator, other.operator) {
            return false;
        }
        if !same_tree(&other.operand, &link.operand) {
            return false;
        }
        rest = behind;
    }
    rest.is_empty()
}

#[cycle(same)]
#[tactic(auto, unfolding(hv_typing::specs::Same::all_same))]
fn branches_same(right: &[Branch], left: &[Branch]) -> bool
    ensures { result ≡ branches_same same_tree left.now right.now }
{
    let mut rest = left;
    for other in right {
        let [branch, behind @ ..] = rest else {
            return false;
        };
        if !same_tree(&other.condition, &branch.condition) {
            return false;
        }
        if !same_tree(&other.value, &branch.value) {
            return false;
        }
        rest = behind;
    }
    rest.is_empty()
}
