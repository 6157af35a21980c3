ghost use Rattle.std.specs.Prelude.{◌≡◌, IfOk, OnOk, ◌++◌, ◌+◌, drop, option_map};
ghost use Rattle.std.specs.String.{string_bytes};
ghost use Rattle.hv_route.specs.Partitions.{escaped, value_text, piece_text, separator, partition_text, truth_of, read_as, read_value, piece_length, partition_values};

use hv_base::{List, NoMemory, Text};
use hv_logic::Column;
use hv_value::{SqlType, Value, convert};
use percent_encoding::{AsciiSet, NON_ALPHANUMERIC, ascii_set, percent_decode, percent_encode};
use std::alloc::Global;

/// What stands for NULL in a partition's text.
const DEFAULT_PARTITION: &str = "__HIVE_DEFAULT_PARTITION__";

/// The ASCII bytes that are escaped.
const ESCAPED: AsciiSet = ascii_set!(NON_ALPHANUMERIC.remove(b'-'));

fn push_escaped(out: &mut String, text: &Text) -> Result<(), NoMemory>
    ensures { OnOk result (string_bytes out.new ≡ string_bytes out.old ++ escaped text.now) }
{
    percent_encode(text.bytes(), ESCAPED).append_to(out)?;
    Ok(())
}

fn push_value(alloc: Global, out: &mut String, value: &Value) -> Result<(), NoMemory>
    ensures { OnOk result (string_bytes out.new ≡ string_bytes out.old ++ value_text value.now) }
{
    match convert(alloc, value, &SqlType::Str)? {
        Value::Str(text) => push_escaped(out, &text),
        _ => {
            out.push_str(DEFAULT_PARTITION)?;
            Ok(())
        }
    }
}

// The piece at this place among the partition columns, which stands behind a `/` but for the first.
fn push_piece(
    alloc: Global,
    out: &mut String,
    place: usize,
    column: &Column,
    value: Option<&Value>,
) -> Result<(), NoMemory>
    ensures { OnOk result (string_bytes out.new ≡ string_bytes out.old ++ separator place ++ piece_text column.now (option_map (λ v. v.now) value.entry)) }
{
    out.push_str(if place == 0 { "" } else { "/" })?;
    out.push_str(column.name.as_str())?;
    out.push_str("=")?;
    match value {
        Some(value) => push_value(alloc, out, value),
        None => push_value(alloc, out, &Value::Null),
    }
}

/// The text of the partition with these values of its partition columns: `column=value` for each, with
/// `/` between. Empty without partition columns.
pub fn partition_text(alloc: Global, columns: &[Column], values: &[Value]) -> Result<Text, NoMemory>
    ensures { IfOk result (λ text. text ≡ partition_text columns.now values.now) }
{
    let mut out = String::new(alloc);
    for (place, column) in columns.iter().enumerate() {
        push_piece(alloc, &mut out, place, column, values.get(place))?;
    }
    Text::of(alloc, out.as_str())
}

fn truth_of(text: &[u8]) -> Value
    ensures { result ≡ truth_of text.now }
{
    if text == "TRUE".as_bytes() {
        Value::Bool(true)
    } else if text == "FALSE".as_bytes() {
        Value::Bool(false)
    } else {
        Value::Null
    }
}

fn read_as(alloc: Global, kind: SqlType, text: Text) -> Result<Value, NoMemory>
    ensures { IfOk result (λ value. value ≡ read_as kind text) }
{
    match kind {
        SqlType::Boolean => Ok(truth_of(text.bytes())),
        _ => convert(alloc, &Value::Str(text), &kind),
    }
}

#[tactic(auto, unfolding(crate::specs::Partitions::default_partition))]
fn read_value(alloc: Global, kind: SqlType, piece: &[u8]) -> Result<Value, NoMemory>
    ensures { IfOk result (λ value. value ≡ read_value kind piece.now) }
{
    if piece == DEFAULT_PARTITION.as_bytes() {
        return Ok(Value::Null);
    }
    let mut bytes = Vec::new(alloc);
    percent_decode(piece).append_to(&mut bytes)?;
    match Text::from_utf8(bytes) {
        Some(text) => read_as(alloc, kind, text),
        None => Ok(Value::Null),
    }
}

// How many bytes stand before the next `/`.
fn piece_length(text: &[u8]) -> usize
    ensures { result ≡ piece_length text.now }
{
    text.iter().take_while(|byte| **byte != b'/').count()
}

// The text without its first so many bytes and the byte behind them.
fn behind(text: &[u8], length: usize) -> &[u8]
    ensures { result.now ≡ drop (length + 1) text.now }
{
    if length < text.len() {
        &text[length + 1..]
    } else {
        &[]
    }
}

/// The values of the partition columns that the text of a partition has, each of its column's type. What
/// no such text can have counts as NULL.
pub fn partition_values(
    alloc: Global,
    columns: &[Column],
    text: &Text,
) -> Result<List<Value>, NoMemory>
    ensures { IfOk result (λ values. values ≡ partition_values columns.now text.now) }
{
    let mut values = Vec::new(alloc);
    let mut left = text.bytes();
    for column in columns {
        let piece = behind(left, column.name.len());
        let length = piece_length(piece);
        values.push(read_value(alloc, column.kind, &piece[..length])?)?;
        left = behind(piece, length);
    }
    Ok(List::from_vec(values))
}
