//! Two numbers of a row that mostly rise as the order does. What a sort gives doesn't rest on them: it looks at them first,
//! since they stand side by side, and rows don't.

use hv_typing::SortKey;
use hv_value::{Row, Value};

// How many bytes of a text a number has.
const WIDTH: usize = 8;

/// A key, and how many bytes the texts at its place all begin with.
#[derive(Clone, Copy)]
pub(crate) struct Place {
    key: SortKey,
    shared: usize,
}

/// The places that the two numbers of a row are taken at.
#[derive(Clone, Copy)]
pub(crate) struct Ranks {
    first: Place,
    second: Place,
}

fn byte_at(bytes: &[u8], place: usize) -> u64 {
    match bytes.get(place) {
        Some(byte) => u64::from(*byte),
        None => 0,
    }
}

// Eight bytes as a number, 0 where a text has no more.
fn bytes_from(bytes: &[u8], from: usize) -> u64 {
    let mut number: u64 = 0;
    for i in 0..WIDTH {
        let byte = byte_at(bytes, from.saturating_add(i));
        number = number.wrapping_mul(256).wrapping_add(byte);
    }
    number
}

// Of an integer, those below 0 first.
fn raised(number: i64) -> u64 {
    number.cast_unsigned().wrapping_add(0x8000_0000_0000_0000)
}

fn number_of(value: &Value, shared: usize) -> u64 {
    match value {
        Value::Null => 0,
        Value::Bool(truth) => u64::from(*truth),
        Value::Int(number) => raised(i64::from(*number)),
        Value::Big(number) => raised(*number),
        Value::Str(text) => bytes_from(text.bytes(), shared),
        Value::Day(day) => raised(i64::from(*day)),
        Value::Array(_) => 0,
    }
}

fn number_at(place: Place, row: &Row) -> u64 {
    let number = match row.values.as_slice().get(place.key.place as usize) {
        Some(value) => number_of(value, place.shared),
        None => 0,
    };
    if place.key.descending {
        !number
    } else {
        number
    }
}

// ---- what all texts begin with

// An empty text where values of another kind stand.
fn first_text(rows: &[Row], place: usize) -> &[u8] {
    for row in rows {
        match row.values.as_slice().get(place) {
            Some(Value::Str(text)) => return text.bytes(),
            Some(Value::Null) => {}
            _ => return &[],
        }
    }
    &[]
}

// How many bytes two texts begin with alike, at most so many.
fn alike(left: &[u8], right: &[u8], most: usize) -> usize {
    for i in 0..most {
        if byte_at(left, i) != byte_at(right, i) {
            return i;
        }
    }
    most
}

// How many bytes the texts there all begin with, as one of them does.
fn shared_with(sample: &[u8], rows: &[Row], place: usize) -> usize {
    let mut shared = sample.len();
    for row in rows {
        if shared == 0 {
            return 0;
        }
        if let Some(Value::Str(text)) = row.values.as_slice().get(place) {
            shared = alike(sample, text.bytes(), shared);
        }
    }
    shared
}

// ---- both

fn rising(place: u32) -> SortKey {
    SortKey {
        place,
        descending: false,
    }
}

// The first two keys. Behind all keys rows go by their places.
fn two_keys(keys: &[SortKey]) -> (SortKey, SortKey) {
    match keys {
        [] => (rising(0), rising(1)),
        [first] => (*first, rising(if first.place == 0 { 1 } else { 0 })),
        [first, second, ..] => (*first, *second),
    }
}

fn place_of(key: SortKey, rows: &[Row], part: &[Row]) -> Place {
    let place = key.place as usize;
    Place {
        key,
        shared: shared_with(first_text(rows, place), part, place),
    }
}

// The place with no more shared bytes than of the other.
fn less_shared(place: Place, other: Place) -> Place {
    Place {
        key: place.key,
        shared: place.shared.min(other.shared),
    }
}

impl Ranks {
    /// For rows under these keys.
    pub(crate) fn of(keys: &[SortKey], rows: &[Row]) -> Ranks {
        Ranks::of_part(keys, rows, rows)
    }

    /// For a part of these rows.
    pub(crate) fn of_part(keys: &[SortKey], rows: &[Row], part: &[Row]) -> Ranks {
        let (first, second) = two_keys(keys);
        Ranks {
            first: place_of(first, rows, part),
            second: place_of(second, rows, part),
        }
    }

    /// For the rows of both.
    pub(crate) fn least(self, other: Ranks) -> Ranks {
        Ranks {
            first: less_shared(self.first, other.first),
            second: less_shared(self.second, other.second),
        }
    }

    /// The numbers of a row.
    pub(crate) fn numbers(&self, row: &Row) -> (u64, u64) {
        (number_at(self.first, row), number_at(self.second, row))
    }
}
