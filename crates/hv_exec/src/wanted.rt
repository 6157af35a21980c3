//! Which rows are wanted, seen before they are made.

ghost use Rattle.std.specs.Prelude.{◌≡◌, ◌++◌, ◌∷◌, [], false, List, IsTrue, IfSome};
ghost use Rattle.std.specs.Ordering.{is_lt};
ghost use Rattle.hv_value.specs.declared.row.Row.{Row as RowOf};
ghost use Rattle.hv_typing.specs.Order.{value_at, key_cmp, order_cmp};
ghost use Rattle.hv_typing.specs.Rows.{item_row};
ghost use Rattle.hv_seen.specs.Seen.{seen_value};
ghost use Rattle.hv_eval.specs.Frames.{frame_values};
ghost use Rattle.hv_order.specs.First.{IsEnough, IsSound};

use hv_eval::{Frame, Scope, seen_at};
use hv_expr::TypedExpr;
use hv_order::{Front, Kept};
use hv_partial::order_of;
use hv_seen::{Seen, null, view};
use hv_typing::SortKey;
use hv_value::Row;
use std::cmp::Ordering;

// The value at a place of a row that was made.
fn made_at(row: &Row, place: usize) -> Seen<'_>
    ensures { seen_value result ≡ value_at place row.now }
{
    match row.values.as_slice().get(place) {
        Some(value) => view(value),
        None => null(),
    }
}

// The value at a place of a row that isn't made.
#[tactic(auto, unfolding(hv_expr::specs::Evaluation::value_of))]
fn item_at<'a>(items: &'a [TypedExpr], frame: &Frame<'a>, place: usize) -> Option<Seen<'a>>
    ensures { IfSome result (λ seen. seen_value seen ≡ value_at place (item_row items.now (frame_values frame.now))) }
{
    match items.get(place) {
        Some(item) => seen_at(item, &Scope::alone(*frame)),
        None => Some(null()),
    }
}

// How a row that isn't made compares to another by one key, where that is seen.
#[tactic(auto, unfolding(hv_typing::specs::Order::key_cmp))]
fn order_by_key<'a>(
    key: SortKey,
    items: &'a [TypedExpr],
    frame: &Frame<'a>,
    other: &Row,
) -> Option<Ordering>
    ensures { IfSome result (λ order. order ≡ key_cmp key (item_row items.now (frame_values frame.now)) other.now) }
{
    let place = key.place as usize;
    let first = item_at(items, frame, place)?;
    let second = made_at(other, place);
    if key.descending {
        order_of(&second, &first)
    } else {
        order_of(&first, &second)
    }
}

// Whether a row that isn't made is seen to be behind another.
#[tactic(auto, unfolding(hv_typing::specs::Order::order_cmp))]
fn is_behind<'a>(keys: &[SortKey], items: &'a [TypedExpr], frame: &Frame<'a>, other: &Row) -> bool
    ensures { IsTrue result → is_lt (order_cmp keys.now (item_row items.now (frame_values frame.now)) other.now) ≡ false }
{
    let [key, others @ ..] = keys else {
        return false;
    };
    match order_by_key(*key, items, frame, other) {
        Some(Ordering::Greater) => true,
        Some(Ordering::Equal) => is_behind(others, items, frame, other),
        _ => false,
    }
}

/// Whether the items on a row are seen not to be wanted.
pub(crate) fn is_needless<'a>(
    items: &'a [TypedExpr],
    frame: &Frame<'a>,
    front: Option<Front<'a>>,
    kept: &Kept,
) -> bool
    requires sound { IsSound front kept.now }
    ensures { IsTrue result → (all : List RowOf) → IsEnough front.entry kept.now.rows.items all → IsEnough front.entry kept.now.rows.items (all ++ item_row items.now (frame_values frame.now) ∷ []) }
{
    match front {
        None => false,
        Some(front) => match kept.last(front) {
            None => false,
            Some(last) => is_behind(front.keys, items, frame, last),
        },
    }
}
