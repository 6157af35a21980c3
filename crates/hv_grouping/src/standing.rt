ghost use Rattle.std.specs.Prelude.{◌≡◌};
ghost use Rattle.hv_typing.specs.Standing.{is_key, stands_grouped, all_stand, links_stand, branches_stand, some_stands, parts_stand};
ghost use Rattle.hv_expr.specs.declared.tree.TypedExpr.TheViews.{out-TypedExpr};

use crate::same::same_tree;
use hv_base::Boxed;
use hv_expr::{Branch, Link, TypedExpr};

/// Whether the expression is equal to one of these keys.
pub fn is_key(expr: &TypedExpr, keys: &[TypedExpr]) -> bool
    ensures { result ≡ is_key keys.now expr.now }
{
    for key in keys {
        if same_tree(key, expr) {
            return true;
        }
    }
    false
}

/// Whether all columns of the expression stand in an aggregate, or in a part that is equal to a key.
#[cycle(standing)]
#[tactic(auto, using(crate::proofs::Equations::standings))]
pub fn stands_grouped(expr: &TypedExpr, keys: &[TypedExpr]) -> bool
    ensures { result ≡ stands_grouped keys.now expr.now }
{
    is_key(expr, keys) || parts_stand(expr, keys)
}

#[cycle(standing)]
fn parts_stand(expr: &TypedExpr, keys: &[TypedExpr]) -> bool
    ensures { result ≡ parts_stand (stands_grouped keys.now) (out-TypedExpr expr.now) }
{
    match expr {
        TypedExpr::Column(_, _) => false,
        TypedExpr::Literal(_, _) => true,
        TypedExpr::One(_, _, x) => stands_grouped(x.get(), keys),
        TypedExpr::Two(_, _, x, y) => {
            stands_grouped(x.get(), keys) && stands_grouped(y.get(), keys)
        }
        TypedExpr::Three(_, _, x, y, z) => {
            stands_grouped(x.get(), keys)
                && stands_grouped(y.get(), keys)
                && stands_grouped(z.get(), keys)
        }
        TypedExpr::Many(_, _, xs) => all_stand(xs.as_slice(), keys),
        TypedExpr::In { value, among, .. } => {
            stands_grouped(value.get(), keys) && all_stand(among.as_slice(), keys)
        }
        TypedExpr::Chain(_, first, links) => {
            stands_grouped(first.get(), keys) && links_stand(links.as_slice(), keys)
        }
        TypedExpr::Case {
            operand,
            branches,
            otherwise,
            ..
        } => {
            some_stands(operand, keys)
                && branches_stand(branches.as_slice(), keys)
                && some_stands(otherwise, keys)
        }
        TypedExpr::CountRows => true,
        TypedExpr::Aggregate { .. } => true,
    }
}

#[cycle(standing)]
#[tactic(auto, unfolding(hv_typing::specs::Standing::some_stands))]
fn some_stands(expr: &Option<Boxed<TypedExpr>>, keys: &[TypedExpr]) -> bool
    ensures { result ≡ some_stands (stands_grouped keys.now) expr.now }
{
    match expr {
        None => true,
        Some(x) => stands_grouped(x.get(), keys),
    }
}

#[cycle(standing)]
#[tactic(auto, unfolding(hv_typing::specs::Standing::all_stand))]
fn all_stand(exprs: &[TypedExpr], keys: &[TypedExpr]) -> bool
    ensures { result ≡ all_stand (stands_grouped keys.now) exprs.now }
{
    for expr in exprs {
        if !stands_grouped(expr, keys) {
            return false;
        }
    }
    true
}

#[cycle(standing)]
#[tactic(auto, unfolding(hv_typing::specs::Standing::links_stand))]
fn links_stand(links: &[Link], keys: &[TypedExpr]) -> bool
    ensures { result ≡ links_stand (stands_grouped keys.now) links.now }
{
    for link in links {
        if !stands_grouped(&link.operand, keys) {
            return false;
        }
    }
    true
}

#[cycle(standing)]
#[tactic(auto, unfolding(hv_typing::specs::Standing::branches_stand))]
fn branches_stand(branches: &[Branch], keys: &[TypedExpr]) -> bool
    ensures { result ≡ branches_stand (stands_grouped keys.now) branches.now }
{
    for branch in branches {
        if !stands_grouped(&branch.condition, keys) {
            return false;
        }
        if !stands_grouped(&branch.value, keys) {
            return false;
        }
    }
    true
}
