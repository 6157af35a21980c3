use crate::cells::{cell_of, type_of};
use crate::words::piece;
use hv_base::NoMemory;
use hv_value::{
    Value, convert, date_add, date_diff, date_sub, day_of_month, is_convertible, month_of,
    print_value, year_of,
};
use std::alloc::Global;
use std::str;

/// Whether the type of a value converts to another, and the value as one of that.
fn converted(alloc: Global, words: &[&str]) -> Option<(bool, Value)> {
    let (from, value) = cell_of(alloc, piece(words, 0))?;
    let to = type_of(piece(words, 1))?;
    Some((
        is_convertible(&from, &to),
        convert(alloc, &value, &to).ok()?,
    ))
}

/// Whether a value is before another, the other behind it, and the two aren't equal.
fn compared(alloc: Global, words: &[&str]) -> Option<[bool; 3]> {
    let (_, before) = cell_of(alloc, piece(words, 0))?;
    let (_, after) = cell_of(alloc, piece(words, 1))?;
    Some([before < after, after > before, before != after])
}

fn prints(alloc: Global, words: &[&str]) -> Option<Vec<u8>> {
    let (_, value) = cell_of(alloc, piece(words, 0))?;
    let mut printed = Vec::new(alloc);
    print_value(&value, &mut printed).ok()?;
    Some(printed)
}

// What the call of that name gives.
fn called(name: &str, words: &[&str]) -> Option<i32> {
    let first = piece(words, 0).parse::<i32>().unwrap_or(0);
    let second = piece(words, 1).parse::<i32>().unwrap_or(0);
    match name {
        "date_add" => date_add(first, second),
        "date_sub" => date_sub(first, second),
        "date_diff" => date_diff(first, second),
        "year_of" => year_of(first),
        "month_of" => month_of(first),
        _ => day_of_month(first),
    }
}

pub fn answer(alloc: Global, out: &mut String, call: &str, words: &[&str]) -> Result<(), NoMemory> {
    let done = match call {
        "convert" => write!(out, "{:?}", converted(alloc, words)),
        "less" => write!(out, "{:?}", compared(alloc, words)),
        "prints" => match prints(alloc, words) {
            Some(printed) => out.push_str(str::from_utf8(&printed).unwrap_or("bytes")),
            None => Err(std::alloc::AllocError),
        },
        _ => write!(out, "{:?}", called(call, words)),
    };
    Ok(done?)
}
