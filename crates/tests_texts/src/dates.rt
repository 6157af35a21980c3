//! The dates of the years 1 to 9999, against a table from elsewhere.
use crate::words::piece;
use hv_base::NoMemory;
use hv_value::{Value, day_of_month, month_of, parse_date, print_value, year_of};
use std::alloc::{AllocError, Global};

/// A day of the table.
#[derive(Clone, Copy)]
struct Day {
    year: i32,
    month: i32,
    day: i32,
    number: i32,
}

/// Whether the day is read, printed and taken apart as it should.
fn agrees(alloc: Global, day: Day) -> Result<bool, AllocError> {
    let Day {
        year,
        month,
        day,
        number,
    } = day;
    let text = format!(in alloc; "{year:04}-{month:02}-{day:02}")?;
    let mut printed = Vec::new(alloc);
    Ok(
        parse_date(text.as_bytes()) == Some(number)
            && print_value(&Value::Day(number), &mut printed).is_ok()
            && printed.as_slice() == text.as_bytes()
            && year_of(number) == Some(year)
            && month_of(number) == Some(month)
            && day_of_month(number) == Some(day),
    )
}

/// How many of the first and last days of a year's months agree: of the year, the number of its first day, and the
/// lengths of its months.
pub fn answer(alloc: Global, out: &mut String, words: &[&str]) -> Result<(), NoMemory> {
    let mut numbers = piece(words, 0)
        .split(' ')
        .map(|word| word.parse::<i32>().unwrap_or(0));
    let year = numbers.next().unwrap_or(0);
    let mut number = numbers.next().unwrap_or(0);
    let mut count = 0u64;
    for month in 1..=12 {
        let length = numbers.next().unwrap_or(0);
        let last = number.wrapping_add(length).wrapping_sub(1);
        for (day, number) in [(1, number), (length, last)] {
            let day = Day {
                year,
                month,
                day,
                number,
            };
            count = count.wrapping_add(u64::from(agrees(alloc, day)?));
        }
        number = last.wrapping_add(1);
    }
    Ok(write!(out, "{count}")?)
}
