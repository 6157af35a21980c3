//! ORDER BY and LIMIT over rows in memory.
#![tactic(auto)]

mod parts;
mod ranks;

ghost use Rattle.std.specs.Prelude.{◌≡◌, ◌∷◌, ◌++◌, [], ◌<◌, ◌≤◌, false, length, List, IsTrue, IsPermutation, OnOk, IfOk, IfSome};
ghost use Rattle.std.specs.Ordering.{is_lt, nat_cmp};
ghost use Rattle.std.specs.Cmp.Lexicographic.{slice_cmp};
ghost use Rattle.hv_value.specs.declared.row.Row.{Row as RowOf};
ghost use Rattle.hv_value.specs.Order.{value_cmp, row_cmp};
ghost use Rattle.hv_typing.specs.Order.{key_cmp, order_cmp, ordered, limited};
ghost use Rattle.hv_order.specs.First.{first_ordered, IsBounded, IsEnough, IsSound};

pub use crate::parts::ordered_rows_on;
use crate::ranks::Ranks;
use hv_base::{NoMemory, Text};
use hv_typing::SortKey;
use hv_value::{Row, Value};
use std::alloc::Global;
use std::cmp::Ordering;

// ---- the order

fn order_of_texts(left: &Text, right: &Text) -> Ordering
    ensures { result ≡ slice_cmp nat_cmp left.now right.now }
{
    left.as_str().cmp(right.as_str())
}

// Two values of one type at once.
fn compare_values(left: &Value, right: &Value) -> Ordering
    ensures { result ≡ value_cmp left.now right.now }
{
    match (left, right) {
        (Value::Int(first), Value::Int(second)) => first.cmp(second),
        (Value::Big(first), Value::Big(second)) => first.cmp(second),
        (Value::Str(first), Value::Str(second)) => order_of_texts(first, second),
        (Value::Day(first), Value::Day(second)) => first.cmp(second),
        _ => left.cmp(right),
    }
}

fn compare_all(left: &[Value], right: &[Value]) -> Ordering
    ensures { result ≡ slice_cmp value_cmp left.now right.now }
{
    for i in 0..left.len().min(right.len()) {
        let found = compare_values(&left[i], &right[i]);
        if found.is_ne() {
            return found;
        }
    }
    left.len().cmp(&right.len())
}

#[tactic(auto, unfolding(hv_value::specs::Order::row_cmp))]
fn compare_whole(left: &Row, right: &Row) -> Ordering
    ensures { result ≡ row_cmp left.now right.now }
{
    compare_all(left.values.as_slice(), right.values.as_slice())
}

#[tactic(auto, unfolding(hv_typing::specs::Order::key_cmp))]
fn compare_at(key: SortKey, left: &Row, right: &Row) -> Ordering
    ensures { result ≡ key_cmp key left.now right.now }
{
    let place = key.place as usize;
    let first = left.values.as_slice().get(place).unwrap_or(&Value::Null);
    let second = right.values.as_slice().get(place).unwrap_or(&Value::Null);
    if key.descending {
        compare_values(second, first)
    } else {
        compare_values(first, second)
    }
}

/// By the keys in turn, as far as they tie, and then by the whole row. Takes no memory.
#[tactic(auto, unfolding(hv_typing::specs::Order::order_cmp))]
pub fn compare(keys: &[SortKey], left: &Row, right: &Row) -> Ordering
    ensures { result ≡ order_cmp keys.now left.now right.now }
{
    let [key, others @ ..] = keys else {
        return compare_whole(left, right);
    };
    match compare_at(*key, left, right) {
        Ordering::Less => Ordering::Less,
        Ordering::Equal => compare(others, left, right),
        Ordering::Greater => Ordering::Greater,
    }
}

// ---- rows near their order

// A shorter list is sorted at once.
const LEAST: usize = 256;

// So many pairs of neighbours are looked at.
const SAMPLE: usize = 32;

// Whether no row at the front comes before the one in front of it, or each does: a sort goes over such rows once.
fn begins_as_run(keys: &[SortKey], rows: &[Row]) -> bool {
    let mut rises = true;
    let mut falls = true;
    for i in 0..SAMPLE {
        if let (Some(row), Some(next)) = (rows.get(i), rows.get(i + 1)) {
            let is_behind = compare(keys, row, next).is_gt();
            rises &= !is_behind;
            falls &= is_behind;
        }
    }
    rises || falls
}

fn is_mixed(keys: &[SortKey], rows: &[Row]) -> bool {
    rows.len() >= LEAST && !begins_as_run(keys, rows)
}

fn sort_part(keys: &[SortKey], rows: &mut [Row], from: usize, to: usize)
    requires ordered { from ≤ to }
    requires inside { to ≤ length rows.old }
    ensures { IsPermutation rows.old rows.new }
{
    rows[from..to].sort_unstable_by(|left, right| compare(keys, left, right));
}

// Where rows end that share their numbers they are sorted. Gives where those begin that go on.
#[tactic(auto, using(crate::proofs::OrderKeys::stays))]
fn close_part(keys: &[SortKey], rows: &mut [Row], from: usize, to: usize, ends: bool) -> usize
    requires ordered { from ≤ to }
    requires inside { to ≤ length rows.old }
    ensures moves { IsPermutation rows.old rows.new }
    ensures within { result ≤ to }
{
    if !ends {
        return from;
    }
    sort_part(keys, rows, from, to);
    to
}

// Sorts those rows among themselves that share their numbers.
#[tactic(auto, using(crate::proofs::OrderKeys::stays))]
fn sort_ties(keys: &[SortKey], ranks: &Ranks, rows: &mut [Row])
    ensures { IsPermutation rows.old rows.new }
{
    let len = rows.len();
    let mut from = 0;
    let mut numbers = (0, 0);
    'ties: for to in 0..len {
        let next = ranks.numbers(&rows[to]);
        let start = close_part(keys, rows, from, to, next != numbers);
        from = start;
        numbers = next;
    }
    sort_part(keys, rows, from, len);
}

// Moves each row once, by its numbers, and then those alone that share them. Where memory lacks it moves fewer.
#[tactic(auto, using(crate::proofs::OrderKeys::stays))]
fn arrange(keys: &[SortKey], rows: &mut Vec<Row>)
    ensures { IsPermutation rows.old.items rows.new.items }
{
    if !is_mixed(keys, rows.as_slice()) {
        return;
    }
    let ranks = Ranks::of(keys, rows.as_slice());
    let _ = rows.sort_by_cached_key(|row| ranks.numbers(row));
    sort_ties(keys, &ranks, rows.as_mut_slice());
}

/// Sorts rows.
pub fn sort(keys: &[SortKey], rows: &mut Vec<Row>) -> Result<(), NoMemory>
    ensures { OnOk result (rows.new.items ≡ ordered keys.now rows.old.items) }
{
    arrange(keys, rows);
    rows.sort_by(|left, right| compare(keys, left, right))?;
    Ok(())
}

// ---- the first rows

// The first rows alone.
fn trim(keys: &[SortKey], count: usize, rows: &mut Vec<Row>) -> Result<(), NoMemory>
    ensures { OnOk result (rows.new.items ≡ first_ordered keys.now count rows.old.items) }
{
    sort(keys, rows)?;
    rows.truncate(count);
    Ok(())
}

// Whether a row isn't before the last of the first rows.
fn is_beyond(keys: &[SortKey], count: usize, rows: &[Row], row: &Row) -> bool
    requires bounded { IsBounded keys.now count rows.now }
    ensures { IsTrue result → first_ordered keys.now count (row.now ∷ rows.now) ≡ first_ordered keys.now count rows.now }
{
    !compare(keys, row, &rows[count - 1]).is_lt()
}

fn is_full(count: usize, rows: &[Row]) -> bool
    ensures { IsTrue result → (0 < count) × (count ≤ length rows.now) }
{
    0 < count && count <= rows.len()
}

// One row more. No more than about twice the rows that are wanted are kept; once they are trimmed, a row
// behind the last that is wanted is let go at once.
fn add(
    keys: &[SortKey],
    count: usize,
    kept: &mut Vec<Row>,
    bounded: bool,
    row: Row,
) -> Result<bool, NoMemory>
    requires bounded { IsTrue bounded → IsBounded keys.now count kept.old.items }
    ensures same { (rows : List RowOf) → first_ordered keys.now count kept.old.items ≡ first_ordered keys.now count rows → OnOk result (first_ordered keys.now count kept.new.items ≡ first_ordered keys.now count (row ∷ rows)) }
    ensures bounded { IfOk result (λ is_bounded. IsTrue is_bounded → IsBounded keys.now count kept.new.items) }
{
    if bounded && is_beyond(keys, count, kept.as_slice(), &row) {
        return Ok(true);
    }
    kept.push(row)?;
    if kept.len() / 2 > count && kept.len() > 64 {
        trim(keys, count, kept)?;
        return Ok(is_full(count, kept.as_slice()));
    }
    Ok(bounded)
}

/// Which rows are wanted: the first ones of an order.
#[derive(Clone, Copy)]
pub struct Front<'a> {
    pub keys: &'a [SortKey],
    pub count: usize,
}

/// Rows that are made one by one. Where not all are wanted, no more than about twice those that are: the first ones of
/// all that were added are among them.
#[derive(Drop)]
pub struct Kept {
    pub rows: Vec<Row>,
    // whether the wanted ones stand in front, in order
    pub bounded: bool,
}

impl Kept {
    /// No row yet, with room for so many.
    pub fn with_room(alloc: Global, count: usize) -> Result<Kept, NoMemory>
        ensures rows { IfOk result (λ kept. kept.rows.items ≡ []) }
        ensures bounded { IfOk result (λ kept. kept.bounded ≡ false) }
    {
        Ok(Kept {
            rows: Vec::with_capacity(alloc, count)?,
            bounded: false,
        })
    }

    /// One row more, behind the others.
    pub fn push(&mut self, front: Option<Front>, row: Row) -> Result<(), NoMemory>
        requires sound { IsSound front self.old }
        ensures enough { (all : List RowOf) → IsEnough front.entry self.old.rows.items all → OnOk result (IsEnough front.entry self.new.rows.items (all ++ row ∷ [])) }
        ensures sound { OnOk result (IsSound front.entry self.new) }
    {
        match front {
            None => {
                self.rows.push(row)?;
            }
            Some(front) => {
                self.bounded = add(front.keys, front.count, &mut self.rows, self.bounded, row)?;
            }
        }
        Ok(())
    }

    /// The last row that is wanted of those so far, where it is known: a row that isn't before it isn't wanted.
    pub fn last(&self, front: Front) -> Option<&Row>
        requires sound { IsTrue self.now.bounded → IsBounded front.keys.now front.count self.now.rows.items }
        ensures { IfSome result (λ last. (row : RowOf) → is_lt (order_cmp front.entry.keys.now row last.now) ≡ false → first_ordered front.entry.keys.now front.entry.count (row ∷ self.now.rows.items) ≡ first_ordered front.entry.keys.now front.entry.count self.now.rows.items) }
    {
        if self.bounded {
            Some(&self.rows[front.count - 1])
        } else {
            None
        }
    }
}

/// The first rows of an order, without a sort of all: no more than about twice as many are kept.
pub fn first_rows(
    alloc: Global,
    keys: &[SortKey],
    count: usize,
    mut rows: Vec<Row>,
) -> Result<Vec<Row>, NoMemory>
    ensures { IfOk result (λ kept. kept.items ≡ first_ordered keys.now count rows.items) }
{
    let mut kept = Vec::new(alloc);
    let mut bounded = false;
    while let Some(row) = rows.pop() {
        bounded = add(keys, count, &mut kept, bounded, row)?;
    }
    trim(keys, count, &mut kept)?;
    Ok(kept)
}

/// The rows in order, as many as are wanted.
pub fn ordered_rows(
    alloc: Global,
    keys: &[SortKey],
    limit: Option<u64>,
    mut rows: Vec<Row>,
) -> Result<Vec<Row>, NoMemory>
    ensures { IfOk result (λ sorted. sorted.items ≡ limited limit (ordered keys.now rows.items)) }
{
    match limit {
        Some(limit) => first_rows(alloc, keys, limit as usize, rows),
        None => {
            sort(keys, &mut rows)?;
            Ok(rows)
        }
    }
}
