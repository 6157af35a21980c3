use hv_base::{List, Text};
use hv_value::Row;

/// What a SHOW lists: the names of its columns, and its rows in order.
#[derive(Drop)]
pub struct Shown {
    pub names: List<Text>,
    pub rows: List<Row>,
}
