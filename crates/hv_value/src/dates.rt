ghost use Rattle.std.specs.Prelude.{◌≡◌, ◌≤◌, length, is_some};
ghost use Rattle.std.specs.List.{prefix_len};
ghost use Rattle.hv_value.specs.Dates.{date_of, is_day, is_other_than_space, is_dashed, numbered, dashed_day, day_of_text};

use crate::days::calendar_date;
use crate::reading::{capped_value, digit_count};
use jiff_core::civil::Date;

/// A date of the years 1 to 9999 of the Gregorian calendar.
#[derive(Clone, Copy)]
pub struct CivilDate {
    pub year: u16,
    pub month: u8,
    pub day: u8,
}

impl CivilDate {
    /// The date of a day number, which counts from 1970-01-01: None exactly where it is no day of
    /// the years 1 to 9999.
    pub fn of(day: i32) -> Option<CivilDate>
        ensures date { result ≡ date_of day }
        ensures found { is_some result ≡ is_day day }
    {
        match calendar_date(day) {
            Some(date) => Some(CivilDate {
                year: date.year as u16,
                month: date.month,
                day: date.day,
            }),
            None => None,
        }
    }
}

// How many bytes stand before the first space.
fn before_space(text: &[u8]) -> usize
    ensures value { result ≡ prefix_len is_other_than_space text.now }
    ensures within { result ≤ length text.now }
{
    text.iter().take_while(|byte| **byte != b' ').count()
}

fn is_dashed(bytes: &[u8]) -> bool
    ensures { result ≡ is_dashed bytes.now }
{
    if digit_count(bytes) != 4 || bytes.len() < 5 || bytes[4] != b'-' {
        return false;
    }
    let month = &bytes[5..];
    let digits = digit_count(month);
    if digits < 1 || digits > 2 || digits == month.len() || month[digits] != b'-' {
        return false;
    }
    let day = &month[digits + 1..];
    let digits = digit_count(day);
    digits >= 1 && digits <= 2 && digits == day.len()
}

fn numbered(year: u64, month: u64, day: u64) -> Option<i32>
    ensures { result ≡ numbered year month day }
{
    if year < 1 || year > 9999 || month > 12 || day > 31 {
        return None;
    }
    match Date::new(year as i16, month as i8, day as i8) {
        Ok(date) => Some(date.to_unix_epoch_day()),
        Err(_) => None,
    }
}

fn dashed_day(bytes: &[u8]) -> Option<i32>
    ensures { result ≡ dashed_day bytes.now }
{
    if !is_dashed(bytes) {
        return None;
    }
    let month = &bytes[5..];
    let digits = digit_count(month);
    let day = &month[digits + 1..];
    numbered(
        capped_value(&bytes[..4]),
        capped_value(&month[..digits]),
        capped_value(day),
    )
}

/// The day number of the date that a text begins with, `yyyy-mm-dd` with one or two digits for the
/// month and the day: None exactly where it begins with none. A space behind the date and what
/// follows it are passed over.
pub fn parse_date(text: &[u8]) -> Option<i32>
    ensures { result ≡ day_of_text text.now }
{
    dashed_day(&text[..before_space(text)])
}
