//! The order of values, of those that are seen, arrays too.

ghost use Rattle.std.specs.Prelude.{◌≡◌, IfSome};
ghost use Rattle.std.specs.Ordering.{is_eq, nat_cmp};
ghost use Rattle.std.specs.Cmp.Lexicographic.{slice_cmp};
ghost use Rattle.hv_value.specs.Order.{kind_of, truth_of, number_of, width_of, bytes_of, items_of, scalar_cmp, value_cmp};
ghost use Rattle.hv_seen.specs.Seen.{seen_layer, seen_value};

use hv_base::Text;
use hv_seen::Seen;
use hv_value::Value;
use std::cmp::Ordering;

// ---- NULL and scalars of one type

fn order_of_texts(left: &Text, right: &Text) -> Ordering
    ensures { result ≡ slice_cmp nat_cmp left.now right.now }
{
    left.as_str().cmp(right.as_str())
}

/// How two values compare: None where one is a BOOLEAN or an array, or they aren't of one type.
pub fn order_of(left: &Seen, right: &Seen) -> Option<Ordering>
    ensures { IfSome result (λ order. order ≡ value_cmp (seen_value left.now) (seen_value right.now)) }
{
    match (left, right) {
        (Seen::Null, Seen::Null) => Some(Ordering::Equal),
        (Seen::Null, Seen::Int(_)) => Some(Ordering::Less),
        (Seen::Null, Seen::Big(_)) => Some(Ordering::Less),
        (Seen::Null, Seen::Str(_)) => Some(Ordering::Less),
        (Seen::Null, Seen::Day(_)) => Some(Ordering::Less),
        (Seen::Int(_), Seen::Null) => Some(Ordering::Greater),
        (Seen::Big(_), Seen::Null) => Some(Ordering::Greater),
        (Seen::Str(_), Seen::Null) => Some(Ordering::Greater),
        (Seen::Day(_), Seen::Null) => Some(Ordering::Greater),
        (Seen::Int(left), Seen::Int(right)) => Some(left.cmp(right)),
        (Seen::Big(left), Seen::Big(right)) => Some(left.cmp(right)),
        (Seen::Str(left), Seen::Str(right)) => Some(order_of_texts(left, right)),
        (Seen::Day(left), Seen::Day(right)) => Some(left.cmp(right)),
        _ => None,
    }
}

// ---- any two values

fn kind(value: &Seen) -> u8
    ensures { result ≡ kind_of (seen_layer value.now) }
{
    match value {
        Seen::Null => 0,
        Seen::False => 1,
        Seen::True => 1,
        Seen::Int(_) => 2,
        Seen::Big(_) => 2,
        Seen::Str(_) => 3,
        Seen::Day(_) => 4,
        Seen::Array(_) => 5,
    }
}

fn truth(value: &Seen) -> bool
    ensures { result ≡ truth_of (seen_layer value.now) }
{
    matches!(value, Seen::True)
}

fn number(value: &Seen) -> i64
    ensures { result ≡ number_of (seen_layer value.now) }
{
    match value {
        Seen::Int(number) => i64::from(*number),
        Seen::Big(number) => *number,
        Seen::Day(number) => i64::from(*number),
        _ => 0,
    }
}

fn width(value: &Seen) -> u8
    ensures { result ≡ width_of (seen_layer value.now) }
{
    match value {
        Seen::Big(_) => 1,
        _ => 0,
    }
}

fn bytes<'a>(value: &Seen<'a>) -> &'a [u8]
    ensures { result.now ≡ bytes_of (seen_layer value.now) }
{
    match value {
        Seen::Str(text) => text.bytes(),
        _ => &[],
    }
}

fn items<'a>(value: &Seen<'a>) -> &'a [Value]
    ensures { result.now ≡ items_of (seen_layer value.now) }
{
    match value {
        Seen::Array(items) => items.as_slice(),
        _ => &[],
    }
}

#[tactic(auto, unfolding(hv_value::specs::Order::scalar_cmp))]
fn compare_scalars(left: &Seen, right: &Seen) -> Ordering
    ensures { result ≡ scalar_cmp (seen_layer left.now) (seen_layer right.now) }
{
    kind(left)
        .cmp(&kind(right))
        .then(truth(left).cmp(&truth(right)))
        .then(number(left).cmp(&number(right)))
        .then(width(left).cmp(&width(right)))
        .then(bytes(left).cmp(&bytes(right)))
}

fn compare_layers(left: &Seen, right: &Seen) -> Ordering
    ensures { result ≡ value_cmp (seen_value left.now) (seen_value right.now) }
{
    compare_scalars(left, right).then(items(left).cmp(&items(right)))
}

fn compare(left: &Seen, right: &Seen) -> Ordering
    ensures { result ≡ value_cmp (seen_value left.now) (seen_value right.now) }
{
    match order_of(left, right) {
        Some(order) => order,
        None => compare_layers(left, right),
    }
}

/// Whether both are one value.
pub(crate) fn same_seen(left: &Seen, right: &Seen) -> bool
    ensures { result ≡ is_eq (value_cmp (seen_value left.now) (seen_value right.now)) }
{
    compare(left, right).is_eq()
}
