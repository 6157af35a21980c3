ghost use Rattle.std.specs.Prelude.{◌≡◌, ◌*◌, ◌+◌, ◌<◌, ◌%◌, ◌^◌, option_map, slice_get};
ghost use Rattle.hv_route.specs.Buckets.{hash_more, hash_of, big_part, part_of, part_at, next_hash, bucket_of};

use hv_logic::Column;
use hv_value::{SqlType, Value, is_day};

fn hash_more(hash: u32, part: u32) -> u32
    ensures { result ≡ hash_more hash part }
{
    hash.wrapping_mul(31).wrapping_add(part)
}

fn hash_of(bytes: &[u8]) -> u32
    ensures { result ≡ hash_of bytes.now }
{
    let mut hash = 0;
    for byte in bytes {
        hash = hash_more(hash, u32::from(*byte));
    }
    hash
}

fn big_part(number: i64) -> u32
    ensures { result ≡ big_part number }
{
    let bits = number.cast_unsigned();
    (bits >> 32) as u32 ^ (bits & 0xFFFF_FFFF) as u32
}

fn part_of(kind: SqlType, value: &Value) -> u32
    ensures { result ≡ part_of kind value.now }
{
    match (kind, value) {
        (SqlType::Boolean, Value::Bool(truth)) => u32::from(*truth),
        (SqlType::Int, Value::Int(number)) => number.cast_unsigned(),
        (SqlType::BigInt, Value::Big(number)) => big_part(*number),
        (SqlType::Str, Value::Str(text)) => hash_of(text.bytes()),
        (SqlType::Date, Value::Day(day)) if is_day(*day) => day.cast_unsigned(),
        _ => 0,
    }
}

fn part_at(column: Option<&Column>, value: Option<&Value>) -> u32
    ensures { result ≡ part_at (option_map (λ c. c.now) column.entry) (option_map (λ v. v.now) value.entry) }
{
    match (column, value) {
        (Some(column), Some(value)) => part_of(column.kind, value),
        _ => 0,
    }
}

fn next_hash(columns: &[Column], values: &[Value], hash: u32, place: u32) -> u32
    ensures { result ≡ next_hash columns.now values.now hash place }
{
    let place = place as usize;
    hash_more(hash, part_at(columns.get(place), values.get(place)))
}

/// The bucket of a row with these values, where the table has these columns, the places of its bucket
/// columns among them, and so many buckets. Below the number of buckets; 0 without buckets.
pub fn bucket_of(columns: &[Column], places: &[u32], buckets: u32, values: &[Value]) -> u32
    ensures { result ≡ bucket_of columns.now places.now buckets values.now }
{
    if buckets == 0 {
        return 0;
    }
    let mut hash = 0;
    for place in places {
        hash = next_hash(columns, values, hash, *place);
    }
    hash % 0x8000_0000 % buckets
}
