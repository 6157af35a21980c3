ghost use Rattle.std.specs.Prelude.{◌≡◌, ◌↔◌, IsTrue, IsSorted, IsPermutation, refl};
ghost use Rattle.std.specs.Ordering.{as_partial_cmp, eq_by_cmp};
ghost use Rattle.std.specs.Cmp.{eq_by_cmp_equiv, partial_equiv_from_equiv, partial_order_from_total};
ghost use Rattle.std.specs.Cmp.Lexicographic.{slice_cmp};
ghost use Rattle.hv_value.specs.declared.value.Value.TheViews.{out-Value};
ghost use Rattle.hv_value.specs.Order.{kind_of, truth_of, number_of, width_of, bytes_of, items_of, scalar_cmp, value_cmp, row_cmp};
ghost use Rattle.hv_value.specs.OrderLaws.{value_cmp_total, row_cmp_total};

use crate::row::Row;
use crate::value::Value;
use std::cmp::Ordering;

impl Value {
    // Where its kind stands: NULL, BOOLEAN, integers, STRING, DATE, ARRAY.
    fn kind(&self) -> u8
        ensures { result ≡ kind_of (out-Value self.now) }
    {
        match self {
            Value::Null => 0,
            Value::Bool(_) => 1,
            Value::Int(_) => 2,
            Value::Big(_) => 2,
            Value::Str(_) => 3,
            Value::Day(_) => 4,
            Value::Array(_) => 5,
        }
    }

    fn truth(&self) -> bool
        ensures { result ≡ truth_of (out-Value self.now) }
    {
        match self {
            Value::Bool(truth) => *truth,
            _ => false,
        }
    }

    // The number of an integer or of a day.
    fn number(&self) -> i64
        ensures { result ≡ number_of (out-Value self.now) }
    {
        match self {
            Value::Int(number) => i64::from(*number),
            Value::Big(number) => *number,
            Value::Day(number) => i64::from(*number),
            _ => 0,
        }
    }

    // Of one number the INT comes before the BIGINT.
    fn width(&self) -> u8
        ensures { result ≡ width_of (out-Value self.now) }
    {
        match self {
            Value::Big(_) => 1,
            _ => 0,
        }
    }

    fn bytes(&self) -> &[u8]
        ensures { result.now ≡ bytes_of (out-Value self.now) }
    {
        match self {
            Value::Str(text) => text.bytes(),
            _ => &[],
        }
    }

    fn items(&self) -> &[Value]
        ensures { result.now ≡ items_of (out-Value self.now) }
    {
        match self {
            Value::Array(items) => items.as_slice(),
            _ => &[],
        }
    }
}

// By kind and by what the two hold, but for the items of arrays.
#[tactic(auto, unfolding(crate::specs::Order::scalar_cmp))]
fn compare_scalars(left: &Value, right: &Value) -> Ordering
    ensures { result ≡ scalar_cmp (out-Value left.now) (out-Value right.now) }
{
    left.kind()
        .cmp(&right.kind())
        .then(left.truth().cmp(&right.truth()))
        .then(left.number().cmp(&right.number()))
        .then(left.width().cmp(&right.width()))
        .then(left.bytes().cmp(&right.bytes()))
}

#[cycle(value_order)]
#[tactic(auto, unfolding(crate::specs::Order::layer_cmp))]
fn compare_values(left: &Value, right: &Value) -> Ordering
    ensures { result ≡ value_cmp left.now right.now }
{
    compare_scalars(left, right).then(compare_all(left.items(), right.items()))
}

#[cycle(value_order)]
fn compare_all(left: &[Value], right: &[Value]) -> Ordering
    ensures { result ≡ slice_cmp value_cmp left.now right.now }
{
    for i in 0..left.len().min(right.len()) {
        let found = compare_values(&left[i], &right[i]);
        if found.is_ne() {
            return found;
        }
    }
    left.len().cmp(&right.len())
}

impl PartialEq for Value {
    ghost eq = { eq_by_cmp value_cmp };

    ghost laws = { partial_equiv_from_equiv (eq_by_cmp_equiv value_cmp_total) };

    #[tactic(auto, using(crate::specs::OrderLaws::exactness))]
    fn eq(&self, other: &Value) -> bool
        ensures answer { result ≡ eq_by_cmp value_cmp self.now other.now }
        ensures exact { IsTrue result ↔ (self.now ≡ other.now) }
    {
        compare_values(self, other).is_eq()
    }
}

impl Eq for Value {
    ghost laws = { eq_by_cmp_equiv value_cmp_total };
}

impl PartialOrd for Value {
    ghost partial_cmp = { as_partial_cmp value_cmp };

    ghost laws = { partial_order_from_total value_cmp_total };

    fn partial_cmp(&self, other: &Value) -> Option<Ordering> {
        Some(self.cmp(other))
    }
}

/// NULL first, then BOOLEAN, the integers of both widths, STRING, DATE and ARRAY; false before
/// true; integers by number, and of one number the INT first; strings by bytes; arrays item by
/// item, the shorter first.
impl Ord for Value {
    ghost cmp = { value_cmp };

    ghost total = { value_cmp_total };

    ghost matches_partial_cmp = { λ left right. refl };

    ghost matches_eq = { λ left right. refl };

    fn cmp(&self, other: &Value) -> Ordering {
        compare_values(self, other)
    }
}

/// The one order of rows: value by value; a row that begins another comes first. Takes no memory.
#[tactic(auto, unfolding(crate::specs::Order::row_cmp))]
pub fn compare_rows(left: &Row, right: &Row) -> Ordering
    ensures { result ≡ row_cmp left.now right.now }
{
    compare_all(left.values.as_slice(), right.values.as_slice())
}

impl PartialEq for Row {
    ghost eq = { eq_by_cmp row_cmp };

    ghost laws = { partial_equiv_from_equiv (eq_by_cmp_equiv row_cmp_total) };

    #[tactic(auto, using(crate::specs::OrderLaws::exactness))]
    fn eq(&self, other: &Row) -> bool
        ensures answer { result ≡ eq_by_cmp row_cmp self.now other.now }
        ensures exact { IsTrue result ↔ (self.now ≡ other.now) }
    {
        compare_rows(self, other).is_eq()
    }
}

impl Eq for Row {
    ghost laws = { eq_by_cmp_equiv row_cmp_total };
}

impl PartialOrd for Row {
    ghost partial_cmp = { as_partial_cmp row_cmp };

    ghost laws = { partial_order_from_total row_cmp_total };

    fn partial_cmp(&self, other: &Row) -> Option<Ordering> {
        Some(self.cmp(other))
    }
}

impl Ord for Row {
    ghost cmp = { row_cmp };

    ghost total = { row_cmp_total };

    ghost matches_partial_cmp = { λ left right. refl };

    ghost matches_eq = { λ left right. refl };

    fn cmp(&self, other: &Row) -> Ordering {
        compare_rows(self, other)
    }
}

/// Two sorted lists of rows with the same members, counted, are one list: so every way to sort
/// rows gives the same list.
#[tactic(auto, using(crate::specs::OrderLaws::sortings))]
pub fn sorted_rows_are_one_list(left: &[Row], right: &[Row])
    requires left_sorted { IsSorted row_cmp left.now }
    requires right_sorted { IsSorted row_cmp right.now }
    requires same_members { IsPermutation left.now right.now }
    ensures { left.now ≡ right.now }
{}
