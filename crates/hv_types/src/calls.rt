//! Calls of functions.

ghost use Rattle.std.specs.Prelude.{◌≡◌};
ghost use Rattle.hv_typing.specs.Faults.{Types};
ghost use Rattle.hv_typing.specs.Nodes.{aggregate_place, aggregate_gives, aggregate_typed, aggregated, one_typed};
ghost use Rattle.hv_typing.specs.Calls.{only, pair, triple, counted, arguments_over, call_two, call_three, call_part, call_many, fewest, call_typed};

use crate::casts::placed;
use crate::kinds::kind_of;
use crate::lists::{only, pair, triple};
use crate::nodes::{many_typed, one_typed, three_typed, two_typed};
use crate::places::given;
use hv_base::{Boxed, List, Refusal};
use hv_expr::{Aggregate, Many, One, Three, Two, TypedExpr};
use hv_typing::{Function, Gives, Over, Place, TypeFault};
use hv_value::SqlType;
use std::alloc::Global;

const BAD_COUNT: TypeFault = TypeFault::Refused(Refusal::BadCount);

/// Where an aggregate may not stand, it is refused last.
pub(crate) fn aggregated(
    alloc: Global,
    over: Over,
    expr: TypedExpr,
) -> Result<Boxed<TypedExpr>, TypeFault>
    ensures { Types result (aggregated over expr) }
{
    match over {
        Over::Row => Err(TypeFault::Refused(Refusal::NotGrouped)),
        Over::Group => Ok(Boxed::new(alloc, expr)?),
    }
}

fn aggregate_place(function: Aggregate) -> Place
    ensures { result ≡ aggregate_place function }
{
    match function {
        Aggregate::Count => Place::Any,
        Aggregate::Sum => Place::Integer,
        Aggregate::Min | Aggregate::Max => Place::Ordered,
    }
}

fn aggregate_gives(function: Aggregate) -> Gives
    ensures { result ≡ aggregate_gives function }
{
    match function {
        Aggregate::Count | Aggregate::Sum => Gives::Fixed(SqlType::BigInt),
        Aggregate::Min | Aggregate::Max => Gives::Same,
    }
}

#[tactic(auto, unfolding(hv_typing::specs::Nodes::aggregate_typed))]
fn aggregate_typed(
    alloc: Global,
    function: Aggregate,
    distinct: bool,
    over: Over,
    argument: Boxed<TypedExpr>,
) -> Result<Boxed<TypedExpr>, TypeFault>
    ensures { Types result (aggregate_typed function distinct over argument) }
{
    let argument = placed(alloc, aggregate_place(function), argument)?;
    let kind = given(
        aggregate_gives(function),
        kind_of(argument.get()),
        SqlType::Null,
    );
    aggregated(
        alloc,
        over,
        TypedExpr::Aggregate {
            function,
            distinct,
            kind,
            argument,
        },
    )
}

/// What the arguments of a call are over.
pub(crate) fn arguments_over(function: Option<Function>, over: Over) -> Over
    ensures { result ≡ arguments_over function over }
{
    match function {
        Some(Function::Aggregate(_)) => Over::Row,
        _ => over,
    }
}

fn call_one(
    alloc: Global,
    function: One,
    exprs: List<TypedExpr>,
) -> Result<Boxed<TypedExpr>, TypeFault>
    ensures { Types result (counted (one_typed function) (only exprs)) }
{
    match only(alloc, exprs)? {
        None => Err(BAD_COUNT),
        Some(expr) => one_typed(alloc, function, expr),
    }
}

fn call_aggregate(
    alloc: Global,
    function: Aggregate,
    distinct: bool,
    over: Over,
    exprs: List<TypedExpr>,
) -> Result<Boxed<TypedExpr>, TypeFault>
    ensures { Types result (counted (aggregate_typed function distinct over) (only exprs)) }
{
    match only(alloc, exprs)? {
        None => Err(BAD_COUNT),
        Some(expr) => aggregate_typed(alloc, function, distinct, over, expr),
    }
}

fn call_two(
    alloc: Global,
    function: Two,
    exprs: List<TypedExpr>,
) -> Result<Boxed<TypedExpr>, TypeFault>
    ensures { Types result (call_two function (pair exprs)) }
{
    match pair(alloc, exprs)? {
        None => Err(BAD_COUNT),
        Some((left, right)) => two_typed(alloc, function, left, right),
    }
}

fn call_three(
    alloc: Global,
    function: Three,
    exprs: List<TypedExpr>,
) -> Result<Boxed<TypedExpr>, TypeFault>
    ensures { Types result (call_three function (triple exprs)) }
{
    match triple(alloc, exprs)? {
        None => Err(BAD_COUNT),
        Some((first, (second, third))) => three_typed(alloc, function, first, second, third),
    }
}

fn call_part(
    alloc: Global,
    of_two: Two,
    of_three: Three,
    exprs: List<TypedExpr>,
) -> Result<Boxed<TypedExpr>, TypeFault>
    ensures { Types result (call_part of_two of_three exprs) }
{
    if exprs.len() == 2 {
        call_two(alloc, of_two, exprs)
    } else {
        call_three(alloc, of_three, exprs)
    }
}

fn fewest(function: Many) -> usize
    ensures { result ≡ fewest function }
{
    match function {
        Many::And | Many::Or | Many::Array => 0,
        Many::Coalesce => 1,
        Many::Concat => 2,
    }
}

fn call_many(
    alloc: Global,
    function: Many,
    exprs: List<TypedExpr>,
) -> Result<Boxed<TypedExpr>, TypeFault>
    ensures { Types result (call_many function exprs) }
{
    if fewest(function) <= exprs.len() {
        many_typed(alloc, function, exprs)
    } else {
        Err(BAD_COUNT)
    }
}

/// A call with arguments that are typed, in its order of faults.
#[tactic(auto, unfolding(hv_typing::specs::Calls::call_typed))]
pub(crate) fn call_typed(
    alloc: Global,
    function: Option<Function>,
    distinct: bool,
    over: Over,
    exprs: List<TypedExpr>,
) -> Result<Boxed<TypedExpr>, TypeFault>
    ensures { Types result (call_typed function distinct over exprs) }
{
    match function {
        None => Err(TypeFault::Refused(Refusal::NoColumn)),
        Some(Function::One(one)) => call_one(alloc, one, exprs),
        Some(Function::Two(two)) => call_two(alloc, two, exprs),
        Some(Function::Three(three)) => call_three(alloc, three, exprs),
        Some(Function::Part(two, three)) => call_part(alloc, two, three, exprs),
        Some(Function::Many(many)) => call_many(alloc, many, exprs),
        Some(Function::Aggregate(aggregate)) => {
            call_aggregate(alloc, aggregate, distinct, over, exprs)
        }
    }
}
