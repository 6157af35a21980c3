ghost use Rattle.std.specs.Prelude.{◌≡◌, option_map};
ghost use Rattle.std.specs.Ordering.{int_cmp};
ghost use Rattle.hv_value.specs.Dates.{day_of_text};
ghost use Rattle.hv_expr.specs.Values.{compare, equal, null_safe_equal, layer_is_nothing};
ghost use Rattle.hv_seen.specs.Seen.{seen_layer, seen_value};

use crate::seen::Seen;
use hv_base::Text;
use hv_value::parse_date;
use std::cmp::Ordering;

// A text beside a date is read as a date.
fn compare_to_day(text: &Text, day: &i32) -> Option<Ordering>
    ensures { result ≡ option_map (λ read. int_cmp read day.now) (day_of_text text.now) }
{
    let read = parse_date(text.bytes())?;
    Some(read.cmp(day))
}

fn compare_day_to(day: &i32, text: &Text) -> Option<Ordering>
    ensures { result ≡ option_map (λ read. int_cmp day.now read) (day_of_text text.now) }
{
    let read = parse_date(text.bytes())?;
    Some(day.cmp(&read))
}

/// How the values compare: numbers by number alone, a STRING beside a DATE as a date. None where a side is
/// NULL, an array, or of another kind.
#[tactic(auto, using(crate::proofs::Layers::comparisons))]
pub fn compare(left: &Seen, right: &Seen) -> Option<Ordering>
    ensures { result ≡ compare (seen_value left.now) (seen_value right.now) }
{
    match (left, right) {
        (Seen::False, Seen::False) => Some(Ordering::Equal),
        (Seen::False, Seen::True) => Some(Ordering::Less),
        (Seen::True, Seen::False) => Some(Ordering::Greater),
        (Seen::True, Seen::True) => Some(Ordering::Equal),
        (Seen::Int(left), Seen::Int(right)) => Some(left.cmp(right)),
        (Seen::Int(left), Seen::Big(right)) => Some(i64::from(*left).cmp(right)),
        (Seen::Big(left), Seen::Int(right)) => Some(left.cmp(&i64::from(*right))),
        (Seen::Big(left), Seen::Big(right)) => Some(left.cmp(right)),
        (Seen::Str(left), Seen::Str(right)) => Some(left.bytes().cmp(&right.bytes())),
        (Seen::Str(left), Seen::Day(right)) => compare_to_day(left, right),
        (Seen::Day(left), Seen::Str(right)) => compare_day_to(left, right),
        (Seen::Day(left), Seen::Day(right)) => Some(left.cmp(right)),
        _ => None,
    }
}

/// Whether the values are equal, None where they do not compare.
pub fn equal(left: &Seen, right: &Seen) -> Option<bool>
    ensures { result ≡ equal (seen_value left.now) (seen_value right.now) }
{
    compare(left, right).map(|order| order.is_eq())
}

// NULL, or an array, which no operator compares.
fn is_nothing(value: &Seen) -> bool
    ensures { result ≡ layer_is_nothing (seen_layer value.now) }
{
    matches!(value, Seen::Null | Seen::Array(_))
}

/// `<=>`: two NULLs are equal, and NULL equals nothing else.
#[tactic(auto, using(crate::proofs::Layers::layers))]
pub fn null_safe_equal(left: &Seen, right: &Seen) -> bool
    ensures { result ≡ null_safe_equal (seen_value left.now) (seen_value right.now) }
{
    if is_nothing(left) {
        is_nothing(right)
    } else {
        equal(left, right) == Some(true)
    }
}
