ghost use Rattle.std.specs.Prelude.{◌≡◌, ◌↔◌, IsTrue, IsSome, IfSome};
ghost use Rattle.jiff_core.specs.Date.{epoch_day};
ghost use Rattle.hv_value.specs.Dates.{is_day, day_if_known, days_later, date_add, date_sub, date_diff, year_of, month_of, day_of_month};

use crate::dates::CivilDate;
use jiff_core::civil::Date;

// 0001-01-01 and 9999-12-31.
const FIRST_DAY: i32 = -719_162;

const LAST_DAY: i32 = 2_932_896;

/// Whether a number is a day's of the years 1 to 9999, counted from 1970-01-01.
pub fn is_day(day: i32) -> bool
    ensures { result ≡ is_day day }
{
    day >= FIRST_DAY && day <= LAST_DAY
}

// The date of a day, to the library.
pub(crate) fn calendar_date(day: i32) -> Option<Date>
    ensures found { IsSome result ↔ IsTrue (is_day day) }
    ensures date { IfSome result (λ date. epoch_day date ≡ day) }
{
    if !is_day(day) {
        return None;
    }
    Date::from_unix_epoch_day(i64::from(day)).ok()
}

// The day of a date of the library's, which also has the years before 1.
fn day_if_known(date: Date) -> Option<i32>
    ensures { result ≡ day_if_known (epoch_day date) }
{
    let day = date.to_unix_epoch_day();
    if is_day(day) { Some(day) } else { None }
}

fn days_later(day: i32, days: i64) -> Option<i32>
    ensures { result ≡ days_later day days }
{
    match calendar_date(day)?.checked_add(days) {
        Ok(later) => day_if_known(later),
        Err(_) => None,
    }
}

/// The day that many days later: None where either isn't a day of the years 1 to 9999.
pub fn date_add(day: i32, days: i32) -> Option<i32>
    ensures { result ≡ date_add day days }
{
    days_later(day, i64::from(days))
}

/// The day that many days earlier: None where either isn't a day of the years 1 to 9999.
pub fn date_sub(day: i32, days: i32) -> Option<i32>
    ensures { result ≡ date_sub day days }
{
    days_later(day, -i64::from(days))
}

/// How many days `end` comes after `start`: None where either isn't a day of the years 1 to 9999.
pub fn date_diff(end: i32, start: i32) -> Option<i32>
    ensures { result ≡ date_diff end start }
{
    let end = calendar_date(end)?;
    let start = calendar_date(start)?;
    Some(start.until(end))
}

/// The year of a day: None where it isn't one of the years 1 to 9999.
pub fn year_of(day: i32) -> Option<i32>
    ensures { result ≡ year_of day }
{
    let date = CivilDate::of(day)?;
    Some(i32::from(date.year))
}

/// The month of a day, from 1: None where it isn't a day of the years 1 to 9999.
pub fn month_of(day: i32) -> Option<i32>
    ensures { result ≡ month_of day }
{
    let date = CivilDate::of(day)?;
    Some(i32::from(date.month))
}

/// The place of a day in its month, from 1: None where it isn't a day of the years 1 to 9999.
pub fn day_of_month(day: i32) -> Option<i32>
    ensures { result ≡ day_of_month day }
{
    let date = CivilDate::of(day)?;
    Some(i32::from(date.day))
}
