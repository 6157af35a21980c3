//! The table of functions, over values that are seen.

ghost use Rattle.std.specs.Prelude.{◌≡◌, IfSome, Some, None, MatchOption, MatchResult, option_map, option_and_then, if◌then◌else◌};
ghost use Rattle.hv_value.specs.declared.value.Value.TheVariants as value;
ghost use Rattle.hv_value.specs.Conversion.{some_int, some_day};
ghost use Rattle.hv_value.specs.Dates.{date_add, date_sub, date_diff, year_of, month_of, day_of_month};
ghost use Rattle.hv_expr.specs.Values.{truth_of, text_of, number_of, truth_value, text_value, is_null, holds, day_of, int_of, both_of, items_of, item_at, taken_or_null, element};
ghost use Rattle.hv_value.specs.declared.sql_type.SqlType.{SqlType as Kind};
ghost use Rattle.hv_expr.specs.Functions.{given, size_of, one_value, two_value, three_value, between, part_of};
ghost use Rattle.hv_seen.specs.Seen.{seen_layer, seen_value};
ghost use Rattle.hv_seen.specs.Truths.{told};
ghost use Rattle.hv_text.specs.Characters.{substring_from};
ghost use Rattle.hv_seen.specs.Makes.{made_value};

use hv_base::List;
use hv_expr::{One, Three, Two};
use hv_seen::{
    Maker, Seen, Truth, absolute, both, cast, compare, day, int, is_like, is_null, length_of,
    low_int, minus, negated, null, null_safe_equal, number, of_bool, of_day, of_int, of_option,
    of_truth, place_of, plus, positive_remainder, taken, truth_of,
};
use hv_value::{SqlType, Value, date_add, date_diff, date_sub, day_of_month, month_of, year_of};

#[tactic(auto, using(hv_seen::proofs::Layers::layers))]
fn size<'a>(array: &Seen) -> Seen<'a>
    ensures { seen_value result ≡ size_of (items_of (seen_value array.now)) }
{
    match array {
        Seen::Array(items) => of_int(Some(low_int(items.len()))),
        _ => of_int(Some(-1)),
    }
}

fn year<'a>(value: &Seen) -> Seen<'a>
    ensures { seen_value result ≡ some_int (option_and_then year_of (day_of (seen_value value.now))) }
{
    match day(value) {
        Some(day) => of_int(year_of(day)),
        None => null(),
    }
}

fn month<'a>(value: &Seen) -> Seen<'a>
    ensures { seen_value result ≡ some_int (option_and_then month_of (day_of (seen_value value.now))) }
{
    match day(value) {
        Some(day) => of_int(month_of(day)),
        None => null(),
    }
}

fn day_number<'a>(value: &Seen) -> Seen<'a>
    ensures { seen_value result ≡ some_int (option_and_then day_of_month (day_of (seen_value value.now))) }
{
    match day(value) {
        Some(day) => of_int(day_of_month(day)),
        None => null(),
    }
}

fn days_added<'a>(value: &Seen, days: &Seen) -> Seen<'a>
    ensures { seen_value result ≡ some_day (given (both_of date_add (day_of (seen_value value.now)) (int_of (seen_value days.now)))) }
{
    match (day(value), int(days)) {
        (Some(day), Some(days)) => of_day(date_add(day, days)),
        _ => null(),
    }
}

fn days_taken_off<'a>(value: &Seen, days: &Seen) -> Seen<'a>
    ensures { seen_value result ≡ some_day (given (both_of date_sub (day_of (seen_value value.now)) (int_of (seen_value days.now)))) }
{
    match (day(value), int(days)) {
        (Some(day), Some(days)) => of_day(date_sub(day, days)),
        _ => null(),
    }
}

fn days_between<'a>(end: &Seen, start: &Seen) -> Seen<'a>
    ensures { seen_value result ≡ some_int (given (both_of date_diff (day_of (seen_value end.now)) (day_of (seen_value start.now)))) }
{
    match (day(end), day(start)) {
        (Some(end), Some(start)) => of_int(date_diff(end, start)),
        _ => null(),
    }
}

fn item_at(items: &[Value], place: i64) -> Option<&Value>
    ensures { MatchOption result (item_at items.now place ≡ None) (λ item. item_at items.now place ≡ Some item.now) }
{
    if place < 0 {
        return None;
    }
    items.get(place as usize)
}

fn item<'a>(kind: &SqlType, items: &'a List<Value>, place: i64) -> Seen<'a>
    ensures { seen_value result ≡ taken_or_null kind.now (item_at items.now place) }
{
    match item_at(items.as_slice(), place) {
        Some(item) => taken(kind, item),
        None => null(),
    }
}

// An element is lent by the array.
#[tactic(auto, using(hv_seen::proofs::Layers::layers), unfolding(hv_expr::specs::Values::element))]
fn element<'a>(kind: &SqlType, array: &Seen<'a>, place: &Seen) -> Seen<'a>
    ensures { seen_value result ≡ element kind.now (seen_value array.now) (seen_value place.now) }
{
    match (array, number(place)) {
        (Seen::Array(items), Some(place)) => item(kind, items, place),
        _ => null(),
    }
}

/// The value of a function of one operand, or who makes it where it may be a text or an array.
#[tactic(auto, unfolding(hv_expr::specs::Functions::one_value))]
pub(crate) fn one<'a>(function: One, kind: &SqlType, value: &Seen) -> Result<Seen<'a>, Maker>
    ensures { MatchResult result (λ found. seen_value found ≡ one_value function kind.now (seen_value value.now)) (λ maker. made_value maker kind.now (seen_value value.now) ≡ one_value function kind.now (seen_value value.now)) }
{
    match function {
        One::Plus => Ok(plus(value)),
        One::Minus => Ok(minus(value)),
        One::Not => Ok(of_truth(negated(truth_of(value)))),
        One::IsNull => Ok(of_bool(is_null(value))),
        One::IsNotNull => Ok(of_bool(!is_null(value))),
        One::Size => Ok(size(value)),
        One::Length => Ok(length_of(value)),
        One::Abs => Ok(absolute(value)),
        One::Year => Ok(year(value)),
        One::Month => Ok(month(value)),
        One::Day => Ok(day_number(value)),
        One::Cast => cast(kind, value).ok_or(Maker::Cast),
        One::Lower => Err(Maker::Lower),
        One::Upper => Err(Maker::Upper),
        One::Trim => Err(Maker::Trim),
    }
}

fn first_known<'a>(left: &Seen<'a>, right: &Seen<'a>) -> Seen<'a>
    ensures { seen_value result ≡ (if is_null (seen_value left.now) then seen_value right.now else seen_value left.now) }
{
    if is_null(left) { *right } else { *left }
}

fn if_true<'a>(condition: &Seen, value: &Seen<'a>, otherwise: &Seen<'a>) -> Seen<'a>
    ensures { seen_value result ≡ (if holds (truth_of (seen_value condition.now)) then seen_value value.now else seen_value otherwise.now) }
{
    if let Truth::True = truth_of(condition) {
        *value
    } else {
        *otherwise
    }
}

// Whether a function compares by the order of its operands alone.
fn is_by_order(function: Two) -> bool {
    matches!(
        function,
        Two::Equal | Two::Unequal | Two::Less | Two::AtMost | Two::Greater | Two::AtLeast
    )
}

/// What a comparison says, None of another function.
#[inline]
#[tactic(auto, unfolding(hv_expr::specs::Functions::two_value))]
pub(crate) fn compared(function: Two, left: &Seen, right: &Seen) -> Option<Truth>
    ensures { IfSome result (λ truth. (kind : Kind) → truth_value (told truth) ≡ two_value function kind (seen_value left.now) (seen_value right.now)) }
{
    if !is_by_order(function) {
        return None;
    }
    let order = compare(left, right);
    match function {
        Two::Equal => Some(of_option(order.map(|order| order.is_eq()))),
        Two::Unequal => Some(of_option(order.map(|order| order.is_ne()))),
        Two::Less => Some(of_option(order.map(|order| order.is_lt()))),
        Two::AtMost => Some(of_option(order.map(|order| order.is_le()))),
        Two::Greater => Some(of_option(order.map(|order| order.is_gt()))),
        Two::AtLeast => Some(of_option(order.map(|order| order.is_ge()))),
        _ => None,
    }
}

/// The value of a function of two operands, None where it is a text that is made.
#[tactic(auto, unfolding(hv_expr::specs::Functions::two_value))]
pub(crate) fn two<'a>(
    function: Two,
    kind: &SqlType,
    left: &Seen<'a>,
    right: &Seen<'a>,
) -> Option<Seen<'a>>
    ensures { MatchOption result (text_value (both_of substring_from (text_of (seen_value left.now)) (number_of (seen_value right.now))) ≡ two_value function kind.now (seen_value left.now) (seen_value right.now)) (λ found. seen_value found ≡ two_value function kind.now (seen_value left.now) (seen_value right.now)) }
{
    match function {
        Two::Equal => Some(of_truth(of_option(compare(left, right).map(|order| order.is_eq())))),
        Two::Unequal => Some(of_truth(of_option(compare(left, right).map(|order| order.is_ne())))),
        Two::Less => Some(of_truth(of_option(compare(left, right).map(|order| order.is_lt())))),
        Two::AtMost => Some(of_truth(of_option(compare(left, right).map(|order| order.is_le())))),
        Two::Greater => Some(of_truth(of_option(compare(left, right).map(|order| order.is_gt())))),
        Two::AtLeast => Some(of_truth(of_option(compare(left, right).map(|order| order.is_ge())))),
        Two::NullSafeEqual => Some(of_bool(null_safe_equal(left, right))),
        Two::Like => Some(of_truth(of_option(is_like(left, right)))),
        Two::NotLike => Some(of_truth(negated(of_option(is_like(left, right))))),
        Two::Element => Some(element(kind, left, right)),
        Two::Nvl => Some(first_known(left, right)),
        Two::Instr => Some(place_of(left, right)),
        Two::Pmod => Some(positive_remainder(left, right)),
        Two::DateAdd => Some(days_added(left, right)),
        Two::DateSub => Some(days_taken_off(left, right)),
        Two::DateDiff => Some(days_between(left, right)),
        Two::Substr | Two::Substring => None,
    }
}

fn is_between(value: &Seen, low: &Seen, high: &Seen) -> Truth
    ensures { told result ≡ between (seen_value value.now) (seen_value low.now) (seen_value high.now) }
{
    both(
        of_option(compare(value, low).map(|order| order.is_ge())),
        of_option(compare(value, high).map(|order| order.is_le())),
    )
}

/// The value of a function of three operands, None where it is a text that is made.
#[tactic(auto, unfolding(hv_expr::specs::Functions::three_value))]
pub(crate) fn three<'a>(
    function: Three,
    first: &Seen<'a>,
    second: &Seen<'a>,
    third: &Seen<'a>,
) -> Option<Seen<'a>>
    ensures { MatchOption result (text_value (part_of (text_of (seen_value first.now)) (number_of (seen_value second.now)) (number_of (seen_value third.now))) ≡ three_value function (seen_value first.now) (seen_value second.now) (seen_value third.now)) (λ found. seen_value found ≡ three_value function (seen_value first.now) (seen_value second.now) (seen_value third.now)) }
{
    match function {
        Three::If => Some(if_true(first, second, third)),
        Three::Between => Some(of_truth(is_between(first, second, third))),
        Three::NotBetween => Some(of_truth(negated(is_between(first, second, third)))),
        Three::Substr | Three::Substring => None,
    }
}
