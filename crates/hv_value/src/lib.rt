//! The values of SQL: their order, their printed texts and their conversions.
#![tactic(auto)]

mod conversion;
mod copies;
mod dates;
mod days;
mod hashing;
mod order;
mod printing;
mod reading;
mod row;
mod sql_type;
mod value;

pub use conversion::{convert, converted_is_of_its_type, is_convertible, low_half};
pub use dates::{CivilDate, parse_date};
pub use days::{date_add, date_diff, date_sub, day_of_month, is_day, month_of, year_of};
pub use order::{compare_rows, sorted_rows_are_one_list};
pub use printing::print_value;
pub use reading::{read_big, read_int, trimmed};
pub use row::Row;
pub use sql_type::{Elem, SqlType};
pub use value::Value;
