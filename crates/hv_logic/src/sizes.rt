ghost use Rattle.std.specs.Prelude.{◌≡◌, ℕ, min, sum_by};
ghost use Rattle.std.specs.List.{list_all};
ghost use Rattle.hv_logic.specs.Sizes.{stored_size, values_fit, row_fits};

use hv_value::{Row, Value};

const ROW_LIMIT: u64 = 65_536;

// The bytes of a value in a row file, or the largest number where they are more.
#[cycle(sizes)]
fn stored_size(value: &Value) -> u64
    ensures { result ≡ min (stored_size value.now) u64.MAX }
{
    match value {
        Value::Null => 1,
        Value::Bool(_) => 2,
        Value::Int(_) => 5,
        Value::Big(_) => 9,
        Value::Str(text) => (text.len() as u64).saturating_add(5),
        Value::Day(_) => 5,
        Value::Array(items) => stored_sizes(items.as_slice()).saturating_add(5),
    }
}

#[cycle(sizes)]
fn stored_sizes(values: &[Value]) -> u64
    ensures { result ≡ min (sum_by stored_size values.now) u64.MAX }
{
    let mut size: u64 = 0;
    for value in values {
        size = size.saturating_add(stored_size(value));
    }
    size
}

/// Whether these values of a row stay within the most bytes that a row may take in a row file.
pub fn values_fit(values: &[Value]) -> bool
    ensures { result ≡ values_fit values.now }
{
    stored_sizes(values) <= ROW_LIMIT
}

/// Whether the row's values do.
pub fn row_fits(row: &Row) -> bool
    ensures { result ≡ row_fits row.now }
{
    values_fit(row.values.as_slice())
}

/// Whether each row does.
pub fn all_fit(rows: &[Row]) -> bool
    ensures { result ≡ list_all row_fits rows.now }
{
    rows.iter().all(|row| row_fits(row))
}
