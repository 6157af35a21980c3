ghost use Rattle.std.specs.Prelude.{◌≡◌, IfSome, not, if◌then◌else◌, slice_get, option_map, map};
ghost use Rattle.hv_expr.specs.Groups.{aggregate_value, row_count};
ghost use Rattle.hv_expr.specs.Values.{taken_or_null, truth_of, truth_value};
ghost use Rattle.hv_expr.specs.Functions.{all_of, any_of, equals_any, first_known, many_value};
ghost use Rattle.hv_expr.specs.Evaluation.{value_of, value_in, is_met};
ghost use Rattle.hv_eval.specs.Frames.{value_at, values_at, row_of, group_of};
ghost use Rattle.hv_seen.specs.Truths.{told};
ghost use Rattle.hv_eval.specs.Walks.{chain_value, chosen_value, optional_value, settled_value};
ghost use Rattle.hv_seen.specs.Seen.{seen_value};

use crate::accumulate::{start, step};
use crate::frame::{Frame, Scope};
use crate::table::{compared, one, three, two};
use hv_base::Boxed;
use hv_expr::{Aggregate, Branch, Link, Many, TypedExpr};
use hv_seen::{
    Seen, Truth, arithmetic, both, either, equal, is_null, negated, null, of_big, of_option,
    of_truth, taken, truth_of,
};
use hv_value::{SqlType, Value};

#[inline(always)]
#[tactic(auto, unfolding(crate::specs::Frames::row_of))]
pub(crate) fn column<'a>(at: &Scope<'a>, place: u32, kind: &SqlType) -> Seen<'a>
    ensures { seen_value result ≡ taken_or_null kind.now (slice_get (row_of at.now) place) }
{
    match at.row.get(place as usize) {
        Some(value) => taken(kind, value),
        None => null(),
    }
}

// Whether a branch is taken: its condition is true, or equals the operand.
pub(crate) fn is_met(operand: &Option<Seen>, condition: &Seen) -> bool
    ensures { result ≡ is_met (option_map seen_value operand.now) (seen_value condition.now) }
{
    match operand {
        None => matches!(truth_of(condition), Truth::True),
        Some(operand) => equal(operand, condition) == Some(true),
    }
}

// The value of the branch that was met, or else the other value, or NULL.
#[tactic(auto, unfolding(crate::specs::Walks::settled_value))]
fn settled<'a>(found: &Option<Seen<'a>>, otherwise: &Option<Seen<'a>>) -> Seen<'a>
    ensures { seen_value result ≡ settled_value (option_map seen_value found.now) (option_map seen_value otherwise.now) }
{
    match found {
        Some(value) => *value,
        None => match otherwise {
            Some(value) => *value,
            None => null(),
        },
    }
}

// The value of IN by the OR of its equalities.
pub(crate) fn in_value<'a>(negates: bool, found: Truth) -> Seen<'a>
    ensures { seen_value result ≡ truth_value (if negates then option_map not (told found) else told found) }
{
    if negates {
        of_truth(negated(found))
    } else {
        of_truth(found)
    }
}

// The number of the group's rows.
#[tactic(auto, unfolding(crate::specs::Frames::group_of))]
pub(crate) fn count_rows<'a>(at: &Scope) -> Seen<'a>
    ensures { seen_value result ≡ row_count (group_of at.now) }
{
    of_big(Some(at.group.len() as i64))
}

/// The value of the expression on the row, without memory: None where a text or an array might have
/// to be made. What stands in the row or in the expression is lent. An aggregate is over no rows.
#[tactic(auto, unfolding(hv_expr::specs::Evaluation::value_of))]
pub fn value_without_memory<'a>(expr: &'a TypedExpr, row: &'a [Value]) -> Option<Seen<'a>>
    ensures { IfSome result (λ seen. seen_value seen ≡ value_of expr.now row.now) }
{
    seen_at(expr, &Scope::alone(Frame::of(row)))
}

/// The value of the expression there, without memory: None where a text or an array might have to be
/// made, and of an aggregate with DISTINCT. What stands in the rows or in the expression is lent.
#[inline(always)]
#[cycle(walk)]
#[tactic(auto, using(crate::proofs::Nodes::nodes))]
pub fn seen_at<'a>(expr: &'a TypedExpr, at: &Scope<'a>) -> Option<Seen<'a>>
    ensures { IfSome result (λ seen. seen_value seen ≡ value_at at.now expr.now) }
{
    match expr {
        TypedExpr::Column(place, kind) => Some(column(at, *place, kind)),
        TypedExpr::Literal(value, kind) => Some(taken(kind, value)),
        TypedExpr::Many(function, _, arguments) => many(*function, arguments.as_slice(), at),
        TypedExpr::Chain(..) => chain_at(expr, at),
        _ => node_at(expr, at),
    }
}

/// Whether the condition is true there, without memory: None where a text or an array might have to be made.
#[cycle(walk)]
#[tactic(auto, using(crate::proofs::Nodes::nodes))]
pub(crate) fn truth_at<'a>(expr: &'a TypedExpr, at: &Scope<'a>) -> Option<Truth>
    ensures { IfSome result (λ truth. told truth ≡ truth_of (value_at at.now expr.now)) }
{
    match expr {
        TypedExpr::Two(function, kind, left, right) => {
            let left = seen_at(left.get(), at)?;
            let right = seen_at(right.get(), at)?;
            match compared(*function, &left, &right) {
                Some(truth) => Some(truth),
                None => Some(truth_of(&two(*function, kind, &left, &right)?)),
            }
        }
        _ => Some(truth_of(&seen_at(expr, at)?)),
    }
}

// What a node comes to that has parts. It clears all its locals at each call, so that leaves are done before.
#[inline(never)]
#[cycle(walk)]
#[tactic(auto, using(crate::proofs::Nodes::nodes), unfolding(hv_expr::specs::Functions::in_value))]
fn node_at<'a>(expr: &'a TypedExpr, at: &Scope<'a>) -> Option<Seen<'a>>
    ensures { IfSome result (λ seen. seen_value seen ≡ value_at at.now expr.now) }
{
    match expr {
        TypedExpr::One(function, kind, argument) => {
            let argument = seen_at(argument.get(), at)?;
            one(*function, kind, &argument).ok()
        }
        TypedExpr::Two(function, kind, left, right) => {
            let left = seen_at(left.get(), at)?;
            let right = seen_at(right.get(), at)?;
            two(*function, kind, &left, &right)
        }
        TypedExpr::Three(function, _, first, second, third) => {
            let first = seen_at(first.get(), at)?;
            let second = seen_at(second.get(), at)?;
            let third = seen_at(third.get(), at)?;
            three(*function, &first, &second, &third)
        }
        TypedExpr::In {
            value,
            negated,
            among,
        } => {
            let value = seen_at(value.get(), at)?;
            let found = equals_any(among.as_slice(), &value, at)?;
            Some(in_value(*negated, found))
        }
        TypedExpr::Case {
            operand,
            branches,
            otherwise,
            ..
        } => {
            let operand = optional(operand, at)?;
            let found = chosen(branches.as_slice(), &operand, at)?;
            let otherwise = optional(otherwise, at)?;
            Some(settled(&found, &otherwise))
        }
        TypedExpr::CountRows => Some(count_rows(at)),
        TypedExpr::Aggregate {
            function,
            distinct,
            argument,
            ..
        } => over_group(*function, *distinct, argument.get(), at),
        _ => None,
    }
}

// What a chain of numbers comes to.
#[inline(never)]
#[cycle(walk)]
#[tactic(auto, using(crate::proofs::Nodes::nodes))]
fn chain_at<'a>(expr: &'a TypedExpr, at: &Scope<'a>) -> Option<Seen<'a>>
    ensures { IfSome result (λ seen. seen_value seen ≡ value_at at.now expr.now) }
{
    match expr {
        TypedExpr::Chain(_, first, links) => {
            let first = seen_at(first.get(), at)?;
            chain(links.as_slice(), &first, at)
        }
        _ => None,
    }
}

// Over the group's rows. Whoever keeps each value once takes memory.
#[cycle(walk)]
#[tactic(auto, unfolding(hv_expr::specs::Groups::aggregate_value))]
fn over_group<'a>(
    function: Aggregate,
    distinct: bool,
    argument: &'a TypedExpr,
    at: &Scope<'a>,
) -> Option<Seen<'a>>
    ensures { IfSome result (λ seen. seen_value seen ≡ aggregate_value function distinct (map (value_in argument.now (group_of at.now)) (group_of at.now))) }
{
    if distinct {
        return None;
    }
    let mut kept = start(function);
    for row in at.group {
        let value = seen_at(argument, &at.on(*row))?;
        kept = step(function, &kept, &value);
    }
    Some(kept)
}

#[cycle(walk)]
#[tactic(auto, unfolding(crate::specs::Walks::optional_value))]
fn optional<'a>(expr: &'a Option<Boxed<TypedExpr>>, at: &Scope<'a>) -> Option<Option<Seen<'a>>>
    ensures { IfSome result (λ found. option_map seen_value found ≡ optional_value expr.now at.now) }
{
    match expr {
        Some(expr) => {
            let value = seen_at(expr.get(), at)?;
            Some(Some(value))
        }
        None => Some(None),
    }
}

#[cycle(walk)]
#[tactic(auto, unfolding(hv_expr::specs::Functions::many_value))]
fn many<'a>(function: Many, arguments: &'a [TypedExpr], at: &Scope<'a>) -> Option<Seen<'a>>
    ensures { IfSome result (λ seen. seen_value seen ≡ many_value function (values_at arguments.now at.now)) }
{
    match function {
        Many::And => Some(of_truth(all(arguments, at)?)),
        Many::Or => Some(of_truth(any(arguments, at)?)),
        Many::Coalesce => first_known(arguments, at),
        Many::Concat | Many::Array => None,
    }
}

#[cycle(walk)]
fn all<'a>(exprs: &'a [TypedExpr], at: &Scope<'a>) -> Option<Truth>
    ensures { IfSome result (λ truth. told truth ≡ all_of (values_at exprs.now at.now)) }
{
    let mut seen = Truth::True;
    for expr in exprs {
        seen = both(seen, truth_at(expr, at)?);
        if let Truth::False = seen {
            return Some(seen);
        }
    }
    Some(seen)
}

#[cycle(walk)]
fn any<'a>(exprs: &'a [TypedExpr], at: &Scope<'a>) -> Option<Truth>
    ensures { IfSome result (λ truth. told truth ≡ any_of (values_at exprs.now at.now)) }
{
    let mut seen = Truth::False;
    for expr in exprs {
        seen = either(seen, truth_at(expr, at)?);
        if let Truth::True = seen {
            return Some(seen);
        }
    }
    Some(seen)
}

#[cycle(walk)]
fn equals_any<'a>(exprs: &'a [TypedExpr], value: &Seen<'a>, at: &Scope<'a>) -> Option<Truth>
    ensures { IfSome result (λ truth. told truth ≡ equals_any (seen_value value.now) (values_at exprs.now at.now)) }
{
    let mut found = Truth::False;
    for expr in exprs {
        found = either(found, of_option(equal(value, &seen_at(expr, at)?)));
        if let Truth::True = found {
            return Some(found);
        }
    }
    Some(found)
}

#[cycle(walk)]
fn first_known<'a>(exprs: &'a [TypedExpr], at: &Scope<'a>) -> Option<Seen<'a>>
    ensures { IfSome result (λ seen. seen_value seen ≡ first_known (values_at exprs.now at.now)) }
{
    for expr in exprs {
        let value = seen_at(expr, at)?;
        if !is_null(&value) {
            return Some(value);
        }
    }
    Some(null())
}

#[cycle(walk)]
#[tactic(auto, unfolding(crate::specs::Walks::chain_value))]
fn chain<'a>(links: &'a [Link], first: &Seen<'a>, at: &Scope<'a>) -> Option<Seen<'a>>
    ensures { IfSome result (λ seen. seen_value seen ≡ chain_value links.now at.now (seen_value first.now)) }
{
    let mut value = *first;
    for link in links {
        let operand = seen_at(&link.operand, at)?;
        value = arithmetic(link.operator, &value, &operand);
    }
    Some(value)
}

#[cycle(walk)]
#[tactic(auto, unfolding(crate::specs::Walks::chosen_value))]
fn chosen<'a>(
    branches: &'a [Branch],
    operand: &Option<Seen<'a>>,
    at: &Scope<'a>,
) -> Option<Option<Seen<'a>>>
    ensures { IfSome result (λ found. option_map seen_value found ≡ chosen_value branches.now at.now (option_map seen_value operand.now)) }
{
    for branch in branches {
        let condition = seen_at(&branch.condition, at)?;
        if is_met(operand, &condition) {
            let value = seen_at(&branch.value, at)?;
            return Some(Some(value));
        }
    }
    Some(None)
}
