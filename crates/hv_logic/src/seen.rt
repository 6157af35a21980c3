use crate::catalog::TableInfo;
use crate::effect::Found;
use hv_base::{List, Text};

/// A live table as a statement sees it: its description, and the rows that stand in it.
#[derive(Drop)]
pub struct Seen {
    pub info: TableInfo,
    pub rows: List<Found>,
}
