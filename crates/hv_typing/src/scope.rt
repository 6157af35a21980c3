use hv_base::Text;
use hv_logic::hv_value::SqlType;

/// A column in scope, with the name of its source. Its place among the fields is that of its value
/// in a row.
#[derive(Drop)]
pub struct Field {
    pub source: Text,
    pub name: Text,
    pub kind: SqlType,
}

/// What an expression is over: one row, where no aggregate may stand, or a group of rows.
#[derive(Clone, Copy)]
pub enum Over {
    Row,
    Group,
}
