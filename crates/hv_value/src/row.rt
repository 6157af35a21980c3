use crate::value::Value;
use hv_base::List;

/// A row: its values, in the order of their columns.
#[derive(Debug, Drop)]
pub struct Row {
    pub values: List<Value>,
}
