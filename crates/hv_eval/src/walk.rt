ghost use Rattle.std.specs.Prelude.{◌≡◌, IfOk, option_map, map};
ghost use Rattle.hv_expr.specs.Values.{text_value, truth_of, holds};
ghost use Rattle.hv_expr.specs.Functions.{all_of, any_of, equals_any, first_known, joined, many_value, one_value, two_value, three_value};
ghost use Rattle.hv_expr.specs.Evaluation.{value_of, value_in, is_met};
ghost use Rattle.hv_expr.specs.Groups.{aggregate_value};
ghost use Rattle.hv_eval.specs.Frames.{value_at, values_at, row_of, group_of};
ghost use Rattle.hv_eval.specs.Walks.{chain_value, chosen_value, optional_value, settled_value};
ghost use Rattle.hv_seen.specs.Seen.{seen_value};
ghost use Rattle.hv_seen.specs.Truths.{told};
ghost use Rattle.hv_eval.specs.Held.{held_value};

use crate::accumulate::over_all;
use crate::frame::{Frame, Scope};
use crate::held::Held;
use crate::look::{column, count_rows, in_value, is_met, seen_at, truth_at};
use crate::table::{one, three, two};
use hv_base::{Boxed, List, NoMemory, Text};
use hv_expr::{Branch, Link, Many, One, Three, Two, TypedExpr};
use hv_seen::{
    Seen, Truth, arithmetic, both, either, equal, is_null, make, null, of_option, of_truth, owned,
    part_from, rest_from, taken, text, truth_of,
};
use hv_value::{Row, SqlType, Value};
use std::alloc::Global;

fn one_held<'a>(
    alloc: Global,
    function: One,
    kind: &SqlType,
    value: &Held,
) -> Result<Held<'a>, NoMemory>
    ensures { IfOk result (λ made. held_value made ≡ one_value function kind.now (held_value value.now)) }
{
    let value = value.seen();
    match one(function, kind, &value) {
        Ok(seen) => Ok(Held::Seen(seen)),
        Err(maker) => Ok(Held::Made(make(alloc, maker, kind, &value)?)),
    }
}

// Of operands that are lent, what is found among them is lent.
fn two_lent<'a>(
    alloc: Global,
    function: Two,
    kind: &SqlType,
    left: &Seen<'a>,
    right: &Seen<'a>,
) -> Result<Held<'a>, NoMemory>
    ensures { IfOk result (λ made. held_value made ≡ two_value function kind.now (seen_value left.now) (seen_value right.now)) }
{
    match two(function, kind, left, right) {
        Some(seen) => Ok(Held::Seen(seen)),
        None => Ok(Held::Made(rest_from(alloc, left, right)?)),
    }
}

fn two_made(
    alloc: Global,
    function: Two,
    kind: &SqlType,
    left: &Seen,
    right: &Seen,
) -> Result<Value, NoMemory>
    ensures { IfOk result (λ made. made ≡ two_value function kind.now (seen_value left.now) (seen_value right.now)) }
{
    match two(function, kind, left, right) {
        Some(seen) => owned(alloc, &seen),
        None => rest_from(alloc, left, right),
    }
}

fn two_held<'a>(
    alloc: Global,
    function: Two,
    kind: &SqlType,
    left: &Held<'a>,
    right: &Held<'a>,
) -> Result<Held<'a>, NoMemory>
    ensures { IfOk result (λ made. held_value made ≡ two_value function kind.now (held_value left.now) (held_value right.now)) }
{
    match (left, right) {
        (Held::Seen(left), Held::Seen(right)) => two_lent(alloc, function, kind, left, right),
        _ => {
            let made = two_made(alloc, function, kind, &left.seen(), &right.seen())?;
            Ok(Held::Made(made))
        }
    }
}

fn three_held<'a>(
    alloc: Global,
    function: Three,
    first: &Held,
    second: &Held,
    third: &Held,
) -> Result<Held<'a>, NoMemory>
    ensures { IfOk result (λ made. held_value made ≡ three_value function (held_value first.now) (held_value second.now) (held_value third.now)) }
{
    let (first, second, third) = (first.seen(), second.seen(), third.seen());
    match three(function, &first, &second, &third) {
        Some(seen) => Ok(Held::Made(owned(alloc, &seen)?)),
        None => Ok(Held::Made(part_from(alloc, &first, &second, &third)?)),
    }
}

fn is_met_by(operand: &Option<Held>, condition: &Held) -> bool
    ensures { result ≡ is_met (option_map held_value operand.now) (held_value condition.now) }
{
    match operand {
        None => is_met(&None, &condition.seen()),
        Some(operand) => is_met(&Some(operand.seen()), &condition.seen()),
    }
}

// The value of the branch that was met, or else the other value, or NULL.
#[tactic(auto, unfolding(crate::specs::Walks::settled_value))]
fn settled<'a>(found: Option<Held<'a>>, otherwise: Option<Held<'a>>) -> Held<'a>
    ensures { held_value result ≡ settled_value (option_map held_value found.entry) (option_map held_value otherwise.entry) }
{
    match found {
        Some(value) => value,
        None => match otherwise {
            Some(value) => value,
            None => Held::Seen(null()),
        },
    }
}

fn text_value(text: Option<Text>) -> Value
    ensures { result ≡ text_value text }
{
    match text {
        None => Value::Null,
        Some(text) => Value::Str(text),
    }
}

/// The value of the expression on the row; an aggregate is over no rows. What takes no memory is
/// done without, and so is the whole where that does.
#[tactic(auto, unfolding(hv_expr::specs::Evaluation::value_of))]
pub fn eval<'a>(alloc: Global, expr: &'a TypedExpr, row: &'a Row) -> Result<Value, NoMemory>
    ensures { IfOk result (λ value. value ≡ value_of expr.now row.now.values) }
{
    eval_at(alloc, expr, &Scope::alone(Frame::of(row.values.as_slice())))
}

/// The value of the expression there. What takes no memory is done without, and so is the whole where
/// that does.
pub fn eval_at<'a>(alloc: Global, expr: &'a TypedExpr, at: &Scope<'a>) -> Result<Value, NoMemory>
    ensures { IfOk result (λ value. value ≡ value_at at.now expr.now) }
{
    match seen_at(expr, at) {
        Some(seen) => owned(alloc, &seen),
        None => held(alloc, expr, at)?.into_value(alloc),
    }
}

/// Whether the condition is true there, and neither false nor NULL.
pub fn is_true_at<'a>(
    alloc: Global,
    condition: &'a TypedExpr,
    at: &Scope<'a>,
) -> Result<bool, NoMemory>
    ensures { IfOk result (λ holds_there. holds_there ≡ holds (truth_of (value_at at.now condition.now))) }
{
    Ok(matches!(truth_in(alloc, condition, at)?, Truth::True))
}

// Whether the condition is true there. An operand of AND and OR is taken without memory where that does, so that
// a node is looked at once more for each of them around it.
#[cycle(memory)]
fn truth_in<'a>(alloc: Global, condition: &'a TypedExpr, at: &Scope<'a>) -> Result<Truth, NoMemory>
    ensures { IfOk result (λ truth. told truth ≡ truth_of (value_at at.now condition.now)) }
{
    match truth_at(condition, at) {
        Some(truth) => Ok(truth),
        None => Ok(truth_of(&held(alloc, condition, at)?.seen())),
    }
}

#[inline(always)]
#[cycle(memory)]
#[tactic(auto, using(crate::proofs::Nodes::nodes))]
fn held<'a>(alloc: Global, expr: &'a TypedExpr, at: &Scope<'a>) -> Result<Held<'a>, NoMemory>
    ensures { IfOk result (λ value. held_value value ≡ value_at at.now expr.now) }
{
    match expr {
        TypedExpr::Column(place, kind) => Ok(Held::Seen(column(at, *place, kind))),
        TypedExpr::Literal(value, kind) => Ok(Held::Seen(taken(kind, value))),
        TypedExpr::Many(function, _, arguments) => {
            many(alloc, *function, arguments.as_slice(), at)
        }
        _ => node_held(alloc, expr, at),
    }
}

// What a node comes to that has parts.
#[inline(never)]
#[cycle(memory)]
#[tactic(auto, using(crate::proofs::Nodes::nodes), unfolding(hv_expr::specs::Functions::in_value))]
fn node_held<'a>(alloc: Global, expr: &'a TypedExpr, at: &Scope<'a>) -> Result<Held<'a>, NoMemory>
    ensures { IfOk result (λ value. held_value value ≡ value_at at.now expr.now) }
{
    match expr {
        TypedExpr::Column(place, kind) => Ok(Held::Seen(column(at, *place, kind))),
        TypedExpr::Literal(value, kind) => Ok(Held::Seen(taken(kind, value))),
        TypedExpr::One(function, kind, argument) => {
            let argument = held(alloc, argument.get(), at)?;
            one_held(alloc, *function, kind, &argument)
        }
        TypedExpr::Two(function, kind, left, right) => {
            let left = held(alloc, left.get(), at)?;
            let right = held(alloc, right.get(), at)?;
            two_held(alloc, *function, kind, &left, &right)
        }
        TypedExpr::Three(function, _, first, second, third) => {
            let first = held(alloc, first.get(), at)?;
            let second = held(alloc, second.get(), at)?;
            let third = held(alloc, third.get(), at)?;
            three_held(alloc, *function, &first, &second, &third)
        }
        TypedExpr::Many(function, _, arguments) => {
            many(alloc, *function, arguments.as_slice(), at)
        }
        TypedExpr::In {
            value,
            negated,
            among,
        } => {
            let value = held(alloc, value.get(), at)?;
            let found = equals_any(alloc, among.as_slice(), &value, at)?;
            Ok(Held::Seen(in_value(*negated, found)))
        }
        TypedExpr::Chain(_, first, links) => {
            let first = held(alloc, first.get(), at)?;
            chain(alloc, links.as_slice(), first, at)
        }
        TypedExpr::Case {
            operand,
            branches,
            otherwise,
            ..
        } => {
            let operand = optional(alloc, operand, at)?;
            let found = chosen(alloc, branches.as_slice(), &operand, at)?;
            let otherwise = optional(alloc, otherwise, at)?;
            Ok(settled(found, otherwise))
        }
        TypedExpr::CountRows => Ok(Held::Seen(count_rows(at))),
        TypedExpr::Aggregate {
            function,
            distinct,
            argument,
            ..
        } => {
            let values = values_over(alloc, argument.get(), at)?;
            Ok(Held::Made(over_all(alloc, *function, *distinct, values)?))
        }
    }
}

// What the argument comes to on each row of the group.
#[cycle(memory)]
fn values_over<'a>(
    alloc: Global,
    argument: &'a TypedExpr,
    at: &Scope<'a>,
) -> Result<Vec<Value>, NoMemory>
    ensures { IfOk result (λ values. values.items ≡ map (value_in argument.now (group_of at.now)) (group_of at.now)) }
{
    let mut values = Vec::with_capacity(alloc, at.group.len())?;
    for row in at.group {
        values.push(held(alloc, argument, &at.on(*row))?.into_value(alloc)?)?;
    }
    Ok(values)
}

#[cycle(memory)]
#[tactic(auto, unfolding(crate::specs::Walks::optional_value))]
fn optional<'a>(
    alloc: Global,
    expr: &'a Option<Boxed<TypedExpr>>,
    at: &Scope<'a>,
) -> Result<Option<Held<'a>>, NoMemory>
    ensures { IfOk result (λ found. option_map held_value found ≡ optional_value expr.now at.now) }
{
    match expr {
        Some(expr) => {
            let value = held(alloc, expr.get(), at)?;
            Ok(Some(value))
        }
        None => Ok(None),
    }
}

#[cycle(memory)]
#[tactic(auto, unfolding(hv_expr::specs::Functions::many_value))]
fn many<'a>(
    alloc: Global,
    function: Many,
    arguments: &'a [TypedExpr],
    at: &Scope<'a>,
) -> Result<Held<'a>, NoMemory>
    ensures { IfOk result (λ made. held_value made ≡ many_value function (values_at arguments.now at.now)) }
{
    match function {
        Many::And => Ok(Held::Seen(of_truth(all(alloc, arguments, at)?))),
        Many::Or => Ok(Held::Seen(of_truth(any(alloc, arguments, at)?))),
        Many::Coalesce => first_known(alloc, arguments, at),
        Many::Concat => Ok(Held::Made(text_value(text_of_all(alloc, arguments, at)?))),
        Many::Array => Ok(Held::Made(Value::Array(items(alloc, arguments, at)?))),
    }
}

#[cycle(memory)]
fn all<'a>(alloc: Global, exprs: &'a [TypedExpr], at: &Scope<'a>) -> Result<Truth, NoMemory>
    ensures { IfOk result (λ truth. told truth ≡ all_of (values_at exprs.now at.now)) }
{
    let mut seen = Truth::True;
    for expr in exprs {
        seen = both(seen, truth_in(alloc, expr, at)?);
        if let Truth::False = seen {
            return Ok(seen);
        }
    }
    Ok(seen)
}

#[cycle(memory)]
fn any<'a>(alloc: Global, exprs: &'a [TypedExpr], at: &Scope<'a>) -> Result<Truth, NoMemory>
    ensures { IfOk result (λ truth. told truth ≡ any_of (values_at exprs.now at.now)) }
{
    let mut seen = Truth::False;
    for expr in exprs {
        seen = either(seen, truth_in(alloc, expr, at)?);
        if let Truth::True = seen {
            return Ok(seen);
        }
    }
    Ok(seen)
}

#[cycle(memory)]
fn equals_any<'a>(
    alloc: Global,
    exprs: &'a [TypedExpr],
    value: &Held<'a>,
    at: &Scope<'a>,
) -> Result<Truth, NoMemory>
    ensures { IfOk result (λ truth. told truth ≡ equals_any (held_value value.now) (values_at exprs.now at.now)) }
{
    let mut found = Truth::False;
    for expr in exprs {
        found = either(
            found,
            of_option(equal(&value.seen(), &held(alloc, expr, at)?.seen())),
        );
        if let Truth::True = found {
            return Ok(found);
        }
    }
    Ok(found)
}

#[cycle(memory)]
fn first_known<'a>(
    alloc: Global,
    exprs: &'a [TypedExpr],
    at: &Scope<'a>,
) -> Result<Held<'a>, NoMemory>
    ensures { IfOk result (λ made. held_value made ≡ first_known (values_at exprs.now at.now)) }
{
    for expr in exprs {
        let value = held(alloc, expr, at)?;
        if !is_null(&value.seen()) {
            return Ok(value);
        }
    }
    Ok(Held::Seen(null()))
}

// NULL as soon as an operand is.
#[cycle(memory)]
#[tactic(auto, using(crate::proofs::JoinedTexts::texts))]
fn text_of_all<'a>(
    alloc: Global,
    exprs: &'a [TypedExpr],
    at: &Scope<'a>,
) -> Result<Option<Text>, NoMemory>
    ensures { IfOk result (λ text. text ≡ joined (values_at exprs.now at.now)) }
{
    let mut bytes = Vec::new(alloc);
    for expr in exprs {
        let value = held(alloc, expr, at)?;
        match text(&value.seen()) {
            Some(text) => bytes.extend_from_slice(text.bytes())?,
            None => return Ok(None),
        }
    }
    Ok(Some(Text::from_bytes(bytes)))
}

#[cycle(memory)]
fn items<'a>(alloc: Global, exprs: &'a [TypedExpr], at: &Scope<'a>) -> Result<List<Value>, NoMemory>
    ensures { IfOk result (λ items. items ≡ values_at exprs.now at.now) }
{
    let mut items = Vec::with_capacity(alloc, exprs.len())?;
    for expr in exprs {
        items.push(held(alloc, expr, at)?.into_value(alloc)?)?;
    }
    Ok(List::from_vec(items))
}

#[cycle(memory)]
#[tactic(auto, unfolding(crate::specs::Walks::chain_value))]
fn chain<'a>(
    alloc: Global,
    links: &'a [Link],
    first: Held<'a>,
    at: &Scope<'a>,
) -> Result<Held<'a>, NoMemory>
    ensures { IfOk result (λ made. held_value made ≡ chain_value links.now at.now (held_value first.entry)) }
{
    let mut value = first;
    for link in links {
        let operand = held(alloc, &link.operand, at)?;
        value = Held::Seen(arithmetic(link.operator, &value.seen(), &operand.seen()));
    }
    Ok(value)
}

#[cycle(memory)]
#[tactic(auto, unfolding(crate::specs::Walks::chosen_value))]
fn chosen<'a>(
    alloc: Global,
    branches: &'a [Branch],
    operand: &Option<Held<'a>>,
    at: &Scope<'a>,
) -> Result<Option<Held<'a>>, NoMemory>
    ensures { IfOk result (λ found. option_map held_value found ≡ chosen_value branches.now at.now (option_map held_value operand.now)) }
{
    for branch in branches {
        let condition = held(alloc, &branch.condition, at)?;
        if is_met_by(operand, &condition) {
            let value = held(alloc, &branch.value, at)?;
            return Ok(Some(value));
        }
    }
    Ok(None)
}
