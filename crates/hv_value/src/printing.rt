ghost use Rattle.std.specs.Prelude.{◌≡◌, true, map};
ghost use Rattle.std.specs.Fmt.{signed_decimal};
ghost use Rattle.std.specs.List.{flat_map, join_with_byte, list_all};
ghost use Rattle.hv_value.specs.Dates.{last_digit, civil_text, day_text};
ghost use Rattle.hv_value.specs.Plain.{is_plain};
ghost use Rattle.hv_value.specs.Printing.{escaped, string_text, array_text, items_text, item_text, text_of, truth_text, separator, placed_item, printed, Prints};

use crate::dates::CivilDate;
use crate::value::Value;
use hv_base::NoMemory;
use itoa::Buffer;

// All of the bytes, or none of them for want of memory.
fn append(bytes: &[u8], out: &mut Vec<u8>) -> Result<(), NoMemory>
    ensures { Prints bytes.now out.old.items result out.new.items }
{
    out.extend_from_slice(bytes)?;
    Ok(())
}

fn print_number(number: i64, out: &mut Vec<u8>) -> Result<(), NoMemory>
    ensures { Prints (signed_decimal number) out.old.items result out.new.items }
{
    let mut buffer = Buffer::new();
    append(buffer.format(number).as_bytes(), out)
}

fn print_byte(byte: u8, in_array: bool, out: &mut Vec<u8>) -> Result<(), NoMemory>
    ensures { Prints (escaped in_array byte) out.old.items result out.new.items }
{
    match byte {
        b'\t' => append(b"\\t", out),
        b'\n' => append(b"\\n", out),
        b'\r' => append(b"\\r", out),
        b'\\' => append(b"\\\\", out),
        b'"' if in_array => append(b"\\\"", out),
        _ => append(&[byte], out),
    }
}

fn print_each(bytes: &[u8], in_array: bool, out: &mut Vec<u8>) -> Result<(), NoMemory>
    ensures { Prints (flat_map (escaped in_array) bytes.now) out.old.items result out.new.items }
{
    for byte in bytes {
        print_byte(*byte, in_array, out)?;
    }
    Ok(())
}

// Whether a byte is printed as it is, within an array too.
#[tactic(auto, unfolding(crate::specs::Plain::is_plain))]
fn is_plain(byte: u8) -> bool
    ensures { result ≡ is_plain byte }
{
    match byte {
        b'\t' => false,
        b'\n' => false,
        b'\r' => false,
        b'\\' => false,
        b'"' => false,
        _ => true,
    }
}

fn are_plain(bytes: &[u8]) -> bool
    ensures { result ≡ list_all is_plain bytes.now }
{
    for byte in bytes {
        if !is_plain(*byte) {
            return false;
        }
    }
    true
}

// Plain bytes at once, and others one by one.
fn print_bytes(bytes: &[u8], in_array: bool, out: &mut Vec<u8>) -> Result<(), NoMemory>
    ensures { Prints (flat_map (escaped in_array) bytes.now) out.old.items result out.new.items }
{
    if are_plain(bytes) {
        return append(bytes, out);
    }
    print_each(bytes, in_array, out)
}

fn print_quoted(bytes: &[u8], out: &mut Vec<u8>) -> Result<(), NoMemory>
    ensures { Prints (string_text true bytes.now) out.old.items result out.new.items }
{
    append(b"\"", out)?;
    print_bytes(bytes, true, out)?;
    append(b"\"", out)
}

fn print_string(bytes: &[u8], in_array: bool, out: &mut Vec<u8>) -> Result<(), NoMemory>
    ensures { Prints (string_text in_array bytes.now) out.old.items result out.new.items }
{
    if in_array {
        print_quoted(bytes, out)
    } else {
        print_bytes(bytes, false, out)
    }
}

fn print_truth(truth: bool, out: &mut Vec<u8>) -> Result<(), NoMemory>
    ensures { Prints (truth_text truth) out.old.items result out.new.items }
{
    if truth {
        append(b"true", out)
    } else {
        append(b"false", out)
    }
}

fn last_digit(number: u16) -> u8
    ensures { result ≡ last_digit number }
{
    b'0' + (number % 10) as u8
}

// A date as `yyyy-mm-dd`.
#[tactic(auto, unfolding(crate::specs::Dates::civil_text))]
pub(crate) fn print_date(date: CivilDate, out: &mut Vec<u8>) -> Result<(), NoMemory>
    ensures { Prints (civil_text date) out.old.items result out.new.items }
{
    let CivilDate { year, month, day } = date;
    let (month, day) = (u16::from(month), u16::from(day));
    append(
        &[
            last_digit(year / 1000),
            last_digit(year / 100),
            last_digit(year / 10),
            last_digit(year),
            b'-',
            last_digit(month / 10),
            last_digit(month),
            b'-',
            last_digit(day / 10),
            last_digit(day),
        ],
        out,
    )
}

// A day number that is no date's prints as NULL.
fn print_day(day: i32, out: &mut Vec<u8>) -> Result<(), NoMemory>
    ensures { Prints (day_text day) out.old.items result out.new.items }
{
    match CivilDate::of(day) {
        None => append(b"NULL", out),
        Some(date) => print_date(date, out),
    }
}

fn print_separator(first: bool, out: &mut Vec<u8>) -> Result<(), NoMemory>
    ensures { Prints (separator first) out.old.items result out.new.items }
{
    if first { Ok(()) } else { append(b",", out) }
}

#[cycle(printing)]
fn print_within(value: &Value, in_array: bool, out: &mut Vec<u8>) -> Result<(), NoMemory>
    ensures { Prints (text_of value.now in_array) out.old.items result out.new.items }
{
    match value {
        Value::Null => append(b"NULL", out),
        Value::Bool(truth) => print_truth(*truth, out),
        Value::Int(number) => print_number(i64::from(*number), out),
        Value::Big(number) => print_number(*number, out),
        Value::Str(text) => print_string(text.bytes(), in_array, out),
        Value::Day(day) => print_day(*day, out),
        Value::Array(items) => print_array(items.as_slice(), out),
    }
}

#[cycle(printing)]
fn print_array(items: &[Value], out: &mut Vec<u8>) -> Result<(), NoMemory>
    ensures { Prints (array_text (map item_text items.now)) out.old.items result out.new.items }
{
    append(b"[", out)?;
    print_items(items, out)?;
    append(b"]", out)
}

#[cycle(printing)]
fn print_items(items: &[Value], out: &mut Vec<u8>) -> Result<(), NoMemory>
    ensures { Prints (items_text (map item_text items.now)) out.old.items result out.new.items }
{
    for i in 0..items.len() {
        print_item(&items[i], i == 0, out)?;
    }
    Ok(())
}

#[cycle(printing)]
fn print_item(item: &Value, first: bool, out: &mut Vec<u8>) -> Result<(), NoMemory>
    ensures { Prints (placed_item first item.now) out.old.items result out.new.items }
{
    print_separator(first, out)?;
    print_within(item, true, out)
}

/// Appends the printed text of a value. Where memory runs out, a prefix of it may have been
/// appended.
pub fn print_value(value: &Value, out: &mut Vec<u8>) -> Result<(), NoMemory>
    ensures { Prints (printed value.now) out.old.items result out.new.items }
{
    print_within(value, false, out)
}
