//! The nodes of one, two and three operands, of a row of operands, chains and IN.

ghost use Rattle.std.specs.Prelude.{◌≡◌, map, IfOk, Ok};
ghost use Rattle.hv_ast.specs.declared.expr.Literal.TheVariants as written;
ghost use Rattle.hv_expr.specs.declared.tree.TypedExpr.TheVariants as tree;
ghost use Rattle.hv_value.specs.Dates.{day_of_text};
ghost use Rattle.std.specs.List.{list_all};
ghost use Rattle.hv_value.specs.declared.sql_type.SqlType.TheVariants as type;
ghost use Rattle.hv_typing.specs.declared.kinds.Meeting.TheVariants as meeting;
ghost use Rattle.hv_typing.specs.Faults.{Types};
ghost use Rattle.hv_typing.specs.Nodes.{literal_typed, date_typed, one_place, one_gives, one_typed, unary_of, two_pair, met_kind, two_met, two_placed, three_kind, two_typed, binary_of, between_typed, if_typed, part_typed, three_typed, many_placed, coalesce_of, array_of, array_of_elements, many_typed, arithmetic_of, link_stands, link_taken, widest, chain_typed, in_typed, one_kind};

use crate::casts::{
    BAD_TYPE, all_as_kind, all_stand, all_taken_at, as_kind, item_taken_at, one_kind, placed,
    stands,
};
use crate::kinds::{element_type, kind_of, met, wider};
use crate::places::given;
use hv_ast::{Binary, Literal, Unary};
use hv_base::{Boxed, Duplicate, List, NoMemory, Text};
use hv_expr::{Arithmetic, Link, Many, One, Three, Two, TypedExpr};
use hv_typing::{Gives, Meeting, Pair, Place, TypeFault};
use hv_value::{SqlType, Value, parse_date};
use std::alloc::Global;

fn literal(alloc: Global, value: Value, kind: SqlType) -> Result<Boxed<TypedExpr>, TypeFault>
    ensures { Types result (Ok (tree.Literal value kind)) }
{
    Ok(Boxed::new(alloc, TypedExpr::Literal(value, kind))?)
}

fn date_literal(alloc: Global, text: &Text) -> Result<Boxed<TypedExpr>, TypeFault>
    ensures { Types result (date_typed (day_of_text text.now)) }
{
    match parse_date(text.bytes()) {
        None => Err(BAD_TYPE),
        Some(day) => literal(alloc, Value::Day(day), SqlType::Date),
    }
}

fn text_literal(alloc: Global, text: &Text) -> Result<Boxed<TypedExpr>, TypeFault>
    ensures { Types result (literal_typed (written.Str text.now)) }
{
    literal(alloc, Value::Str(text.duplicate(alloc)?), SqlType::Str)
}

pub(crate) fn literal_typed(alloc: Global, written: &Literal) -> Result<Boxed<TypedExpr>, TypeFault>
    ensures { Types result (literal_typed written.now) }
{
    match written {
        Literal::Null => literal(alloc, Value::Null, SqlType::Null),
        Literal::Bool(truth) => literal(alloc, Value::Bool(*truth), SqlType::Boolean),
        Literal::Int(number) => literal(alloc, Value::Int(*number), SqlType::Int),
        Literal::Big(number) => literal(alloc, Value::Big(*number), SqlType::BigInt),
        Literal::Str(text) => text_literal(alloc, text),
        Literal::Date(text) => date_literal(alloc, text),
    }
}

fn one_place(function: One) -> Place
    ensures { result ≡ one_place function }
{
    match function {
        One::Plus | One::Minus | One::Abs => Place::Integer,
        One::Not => Place::Truth,
        One::IsNull | One::IsNotNull | One::Cast => Place::Any,
        One::Size => Place::Array,
        One::Length | One::Lower | One::Upper | One::Trim => Place::Text,
        One::Year | One::Month | One::Day => Place::Date,
    }
}

fn one_gives(function: One) -> Gives
    ensures { result ≡ one_gives function }
{
    match function {
        One::Plus | One::Minus | One::Abs | One::Cast => Gives::Same,
        One::Not | One::IsNull | One::IsNotNull => Gives::Fixed(SqlType::Boolean),
        One::Lower | One::Upper | One::Trim => Gives::Fixed(SqlType::Str),
        One::Size | One::Length => Gives::Fixed(SqlType::Int),
        One::Year | One::Month | One::Day => Gives::Fixed(SqlType::Int),
    }
}

#[tactic(auto, unfolding(hv_typing::specs::Nodes::one_typed))]
pub(crate) fn one_typed(
    alloc: Global,
    function: One,
    expr: Boxed<TypedExpr>,
) -> Result<Boxed<TypedExpr>, TypeFault>
    ensures { Types result (one_typed function expr) }
{
    let expr = placed(alloc, one_place(function), expr)?;
    let kind = given(one_gives(function), kind_of(expr.get()), SqlType::Null);
    Ok(Boxed::new(alloc, TypedExpr::One(function, kind, expr))?)
}

pub(crate) fn unary_of(operator: Unary) -> One
    ensures { result ≡ unary_of operator }
{
    match operator {
        Unary::Not => One::Not,
        Unary::Plus => One::Plus,
        Unary::Minus => One::Minus,
        Unary::IsNull => One::IsNull,
        Unary::IsNotNull => One::IsNotNull,
    }
}

fn two_pair(function: Two) -> Pair
    ensures { result ≡ two_pair function }
{
    let truth = Gives::Fixed(SqlType::Boolean);
    let text = Gives::Fixed(SqlType::Str);
    let date = Gives::Fixed(SqlType::Date);
    let int = Gives::Fixed(SqlType::Int);
    match function {
        Two::Equal | Two::Unequal | Two::NullSafeEqual => Pair::Compared,
        Two::Less | Two::AtMost | Two::Greater | Two::AtLeast => Pair::Compared,
        Two::Nvl => Pair::Unified,
        Two::Like | Two::NotLike => Pair::Placed(Place::Text, Place::Text, truth),
        Two::Element => Pair::Placed(Place::Array, Place::Integer, Gives::Element),
        Two::Substr | Two::Substring => Pair::Placed(Place::Text, Place::Integer, text),
        Two::Instr => Pair::Placed(Place::Text, Place::Text, int),
        Two::Pmod => Pair::Placed(Place::Integer, Place::Integer, Gives::Wider),
        Two::DateAdd | Two::DateSub => Pair::Placed(Place::Date, Place::Int, date),
        Two::DateDiff => Pair::Placed(Place::Date, Place::Date, int),
    }
}

fn two_placed(
    alloc: Global,
    function: Two,
    first: Place,
    second: Place,
    gives: Gives,
    left: Boxed<TypedExpr>,
    right: Boxed<TypedExpr>,
) -> Result<Boxed<TypedExpr>, TypeFault>
    ensures { Types result (two_placed function first second gives left right) }
{
    let left = placed(alloc, first, left)?;
    let right = placed(alloc, second, right)?;
    let kind = given(gives, kind_of(left.get()), kind_of(right.get()));
    Ok(Boxed::new(alloc, TypedExpr::Two(function, kind, left, right))?)
}

fn met_kind(meeting: Meeting, kind: SqlType) -> SqlType
    ensures { result ≡ met_kind meeting kind }
{
    match meeting {
        Meeting::Unified => kind,
        Meeting::Compared => SqlType::Boolean,
    }
}

fn two_met(
    alloc: Global,
    function: Two,
    meeting: Meeting,
    left: Boxed<TypedExpr>,
    right: Boxed<TypedExpr>,
) -> Result<Boxed<TypedExpr>, TypeFault>
    ensures { Types result (two_met function meeting left right) }
{
    let Some(kind) = met(meeting, kind_of(left.get()), kind_of(right.get())) else {
        return Err(BAD_TYPE);
    };
    let left = as_kind(alloc, kind, left)?;
    let right = as_kind(alloc, kind, right)?;
    Ok(Boxed::new(
        alloc,
        TypedExpr::Two(function, met_kind(meeting, kind), left, right),
    )?)
}

#[tactic(auto, unfolding(hv_typing::specs::Nodes::two_typed))]
pub(crate) fn two_typed(
    alloc: Global,
    function: Two,
    left: Boxed<TypedExpr>,
    right: Boxed<TypedExpr>,
) -> Result<Boxed<TypedExpr>, TypeFault>
    ensures { Types result (two_typed function left right) }
{
    match two_pair(function) {
        Pair::Compared => two_met(alloc, function, Meeting::Compared, left, right),
        Pair::Unified => two_met(alloc, function, Meeting::Unified, left, right),
        Pair::Placed(first, second, gives) => {
            two_placed(alloc, function, first, second, gives, left, right)
        }
    }
}

pub(crate) fn binary_of(operator: Binary) -> Two
    ensures { result ≡ binary_of operator }
{
    match operator {
        Binary::Equal => Two::Equal,
        Binary::Unequal => Two::Unequal,
        Binary::Less => Two::Less,
        Binary::AtMost => Two::AtMost,
        Binary::Greater => Two::Greater,
        Binary::AtLeast => Two::AtLeast,
        Binary::NullSafeEqual => Two::NullSafeEqual,
        Binary::Like => Two::Like,
        Binary::NotLike => Two::NotLike,
        Binary::Element => Two::Element,
    }
}

fn three_kind(first: SqlType, second: SqlType, third: SqlType) -> Option<SqlType>
    ensures { result ≡ three_kind first second third }
{
    match met(Meeting::Compared, first, second) {
        None => None,
        Some(kind) => met(Meeting::Compared, kind, third),
    }
}

fn between_typed(
    alloc: Global,
    function: Three,
    value: Boxed<TypedExpr>,
    low: Boxed<TypedExpr>,
    high: Boxed<TypedExpr>,
) -> Result<Boxed<TypedExpr>, TypeFault>
    ensures { Types result (between_typed function value low high) }
{
    let kinds = (
        kind_of(value.get()),
        kind_of(low.get()),
        kind_of(high.get()),
    );
    let Some(kind) = three_kind(kinds.0, kinds.1, kinds.2) else {
        return Err(BAD_TYPE);
    };
    let value = as_kind(alloc, kind, value)?;
    let low = as_kind(alloc, kind, low)?;
    let high = as_kind(alloc, kind, high)?;
    Ok(Boxed::new(
        alloc,
        TypedExpr::Three(function, SqlType::Boolean, value, low, high),
    )?)
}

fn if_typed(
    alloc: Global,
    condition: Boxed<TypedExpr>,
    value: Boxed<TypedExpr>,
    otherwise: Boxed<TypedExpr>,
) -> Result<Boxed<TypedExpr>, TypeFault>
    ensures { Types result (if_typed condition value otherwise) }
{
    let condition = placed(alloc, Place::Truth, condition)?;
    let kinds = (kind_of(value.get()), kind_of(otherwise.get()));
    let Some(kind) = met(Meeting::Unified, kinds.0, kinds.1) else {
        return Err(BAD_TYPE);
    };
    let value = as_kind(alloc, kind, value)?;
    let otherwise = as_kind(alloc, kind, otherwise)?;
    Ok(Boxed::new(
        alloc,
        TypedExpr::Three(Three::If, kind, condition, value, otherwise),
    )?)
}

fn part_typed(
    alloc: Global,
    function: Three,
    text: Boxed<TypedExpr>,
    from: Boxed<TypedExpr>,
    count: Boxed<TypedExpr>,
) -> Result<Boxed<TypedExpr>, TypeFault>
    ensures { Types result (part_typed function text from count) }
{
    let text = placed(alloc, Place::Text, text)?;
    let from = placed(alloc, Place::Integer, from)?;
    let count = placed(alloc, Place::Integer, count)?;
    Ok(Boxed::new(
        alloc,
        TypedExpr::Three(function, SqlType::Str, text, from, count),
    )?)
}

#[tactic(auto, unfolding(hv_typing::specs::Nodes::three_typed))]
pub(crate) fn three_typed(
    alloc: Global,
    function: Three,
    first: Boxed<TypedExpr>,
    second: Boxed<TypedExpr>,
    third: Boxed<TypedExpr>,
) -> Result<Boxed<TypedExpr>, TypeFault>
    ensures { Types result (three_typed function first second third) }
{
    match function {
        Three::If => if_typed(alloc, first, second, third),
        Three::Between | Three::NotBetween => between_typed(alloc, function, first, second, third),
        Three::Substr | Three::Substring => part_typed(alloc, function, first, second, third),
    }
}

fn many_placed(
    alloc: Global,
    function: Many,
    place: Place,
    kind: SqlType,
    exprs: List<TypedExpr>,
) -> Result<Boxed<TypedExpr>, TypeFault>
    ensures { Types result (many_placed function place kind exprs) }
{
    if !all_stand(place, exprs.as_slice()) {
        return Err(BAD_TYPE);
    }
    let exprs = all_taken_at(alloc, place, exprs)?;
    Ok(Boxed::new(alloc, TypedExpr::Many(function, kind, exprs))?)
}

fn coalesce_typed(alloc: Global, exprs: List<TypedExpr>) -> Result<Boxed<TypedExpr>, TypeFault>
    ensures { Types result (coalesce_of exprs (one_kind meeting.Unified type.Null exprs)) }
{
    let Some(kind) = one_kind(Meeting::Unified, SqlType::Null, exprs.as_slice()) else {
        return Err(BAD_TYPE);
    };
    let exprs = all_as_kind(alloc, kind, exprs)?;
    Ok(Boxed::new(alloc, TypedExpr::Many(Many::Coalesce, kind, exprs))?)
}

fn array_typed(alloc: Global, exprs: List<TypedExpr>) -> Result<Boxed<TypedExpr>, TypeFault>
    ensures { Types result (array_of exprs (one_kind meeting.Unified type.Null exprs)) }
{
    let Some(kind) = one_kind(Meeting::Unified, SqlType::Null, exprs.as_slice()) else {
        return Err(BAD_TYPE);
    };
    let Some(elem) = element_type(kind) else {
        return Err(BAD_TYPE);
    };
    let exprs = all_as_kind(alloc, kind, exprs)?;
    Ok(Boxed::new(
        alloc,
        TypedExpr::Many(Many::Array, SqlType::ArrayOf(elem), exprs),
    )?)
}

#[tactic(auto, unfolding(hv_typing::specs::Nodes::many_typed))]
pub(crate) fn many_typed(
    alloc: Global,
    function: Many,
    exprs: List<TypedExpr>,
) -> Result<Boxed<TypedExpr>, TypeFault>
    ensures { Types result (many_typed function exprs) }
{
    match function {
        Many::And | Many::Or => {
            many_placed(alloc, function, Place::Truth, SqlType::Boolean, exprs)
        }
        Many::Concat => many_placed(alloc, function, Place::Text, SqlType::Str, exprs),
        Many::Coalesce => coalesce_typed(alloc, exprs),
        Many::Array => array_typed(alloc, exprs),
    }
}

pub(crate) fn arithmetic_of(operator: hv_ast::Arithmetic) -> Arithmetic
    ensures { result ≡ arithmetic_of operator }
{
    match operator {
        hv_ast::Arithmetic::Add => Arithmetic::Add,
        hv_ast::Arithmetic::Subtract => Arithmetic::Subtract,
        hv_ast::Arithmetic::Multiply => Arithmetic::Multiply,
        hv_ast::Arithmetic::Divide => Arithmetic::Divide,
        hv_ast::Arithmetic::Remainder => Arithmetic::Remainder,
    }
}

fn links_stand(links: &[Link]) -> bool
    ensures { result ≡ list_all link_stands links.now }
{
    for link in links {
        if !stands(Place::Integer, &link.operand) {
            return false;
        }
    }
    true
}

fn links_taken(alloc: Global, links: List<Link>) -> Result<List<Link>, NoMemory>
    ensures { IfOk result (λ made. made ≡ map link_taken links) }
{
    let mut made = Vec::with_capacity(alloc, links.len())?;
    for link in links.into_vec() {
        let Link { operator, operand } = link;
        let operand = item_taken_at(alloc, Place::Integer, operand)?;
        made.push(Link { operator, operand })?;
    }
    Ok(List::from_vec(made))
}

fn widest(first: SqlType, links: &[Link]) -> SqlType
    ensures { result ≡ widest first links.now }
{
    let mut kind = first;
    for link in links {
        kind = wider(kind, kind_of(&link.operand));
    }
    kind
}

#[tactic(auto, unfolding(hv_typing::specs::Nodes::chain_typed))]
pub(crate) fn chain_typed(
    alloc: Global,
    first: Boxed<TypedExpr>,
    links: List<Link>,
) -> Result<Boxed<TypedExpr>, TypeFault>
    ensures { Types result (chain_typed first links) }
{
    let stand = stands(Place::Integer, first.get()) && links_stand(links.as_slice());
    if !stand {
        return Err(BAD_TYPE);
    }
    let first = placed(alloc, Place::Integer, first)?;
    let links = links_taken(alloc, links)?;
    let kind = widest(kind_of(first.get()), links.as_slice());
    Ok(Boxed::new(alloc, TypedExpr::Chain(kind, first, links))?)
}

#[tactic(auto, unfolding(hv_typing::specs::Nodes::in_typed))]
pub(crate) fn in_typed(
    alloc: Global,
    value: Boxed<TypedExpr>,
    negated: bool,
    among: List<TypedExpr>,
) -> Result<Boxed<TypedExpr>, TypeFault>
    ensures { Types result (in_typed value negated among) }
{
    let Some(kind) = met(Meeting::Compared, SqlType::Null, kind_of(value.get())) else {
        return Err(BAD_TYPE);
    };
    let Some(kind) = one_kind(Meeting::Compared, kind, among.as_slice()) else {
        return Err(BAD_TYPE);
    };
    let value = as_kind(alloc, kind, value)?;
    let among = all_as_kind(alloc, kind, among)?;
    Ok(Boxed::new(
        alloc,
        TypedExpr::In {
            value,
            negated,
            among,
        },
    )?)
}
