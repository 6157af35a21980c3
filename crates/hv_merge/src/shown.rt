use hv_base::RowId;
use hv_value::Row;

/// A row that a reader sees, with its identifier.
#[derive(Drop)]
pub struct Shown {
    pub id: RowId,
    pub row: Row,
}
