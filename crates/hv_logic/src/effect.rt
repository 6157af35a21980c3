use hv_base::{Duplicate, List, NoMemory, RowId, TableId, Text};
use hv_value::Row;
use std::alloc::Global;

/// A row that stands in a table, with where it stands.
#[derive(Debug, Drop)]
pub struct Found {
    pub partition: Text,
    pub id: RowId,
    pub row: Row,
}

/// The rows of one table, rising by partition and identifier.
#[derive(Drop)]
pub struct TableRows {
    pub table: TableId,
    pub rows: List<Found>,
}

/// What a statement does to its table. The inserted rows get their identifiers later.
#[derive(Drop)]
pub struct Effect {
    pub inserts: List<Row>,
    pub deletes: List<Found>,
}

impl Duplicate for Found {
    fn duplicate(&self, alloc: Global) -> Result<Found, NoMemory> {
        Ok(Found {
            partition: self.partition.duplicate(alloc)?,
            id: self.id,
            row: self.row.duplicate(alloc)?,
        })
    }
}

impl Duplicate for Effect {
    fn duplicate(&self, alloc: Global) -> Result<Effect, NoMemory> {
        Ok(Effect {
            inserts: self.inserts.duplicate(alloc)?,
            deletes: self.deletes.duplicate(alloc)?,
        })
    }
}
