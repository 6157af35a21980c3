use hv_base::{List, Text};

/// A value of SQL. Columns hold values of their own type or NULL; an array's elements have no
/// arrays among them.
#[derive(Debug, Drop)]
pub enum Value {
    Null,
    Bool(bool),
    Int(i32),
    Big(i64),
    Str(Text),
    /// A date, as the number of days from 1970-01-01.
    Day(i32),
    Array(List<Value>),
}
