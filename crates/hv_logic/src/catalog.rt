use hv_base::{Duplicate, List, NoMemory, TableId, Text};
use hv_value::SqlType;
use std::alloc::Global;

/// A column of a table: its name, folded to lower case, and the type of its values.
#[derive(Drop)]
pub struct Column {
    pub name: Text,
    pub kind: SqlType,
}

/// A table as its creating statement describes it. A row's values are those of `columns` and then
/// those of the partition columns `parts`.
#[derive(Drop)]
pub struct Shape {
    pub name: Text,
    pub columns: List<Column>,
    pub parts: List<Column>,
    /// The places of the bucket columns among `columns`, from 0.
    pub bucketed: List<u32>,
    /// The number of buckets, 0 without CLUSTERED BY.
    pub buckets: u32,
}

/// A table: its id, and its shape.
#[derive(Drop)]
pub struct TableInfo {
    pub table: TableId,
    pub shape: Shape,
}

/// The live tables at a place of the book, by id.
#[derive(Drop)]
pub struct Catalog {
    pub tables: List<TableInfo>,
}

impl Duplicate for Column {
    fn duplicate(&self, alloc: Global) -> Result<Column, NoMemory> {
        Ok(Column {
            name: self.name.duplicate(alloc)?,
            kind: self.kind,
        })
    }
}

impl Duplicate for Shape {
    fn duplicate(&self, alloc: Global) -> Result<Shape, NoMemory> {
        let bucketed = Vec::from_slice(alloc, self.bucketed.as_slice())?;
        Ok(Shape {
            name: self.name.duplicate(alloc)?,
            columns: self.columns.duplicate(alloc)?,
            parts: self.parts.duplicate(alloc)?,
            bucketed: List::from_vec(bucketed),
            buckets: self.buckets,
        })
    }
}

impl Duplicate for TableInfo {
    fn duplicate(&self, alloc: Global) -> Result<TableInfo, NoMemory> {
        Ok(TableInfo {
            table: self.table,
            shape: self.shape.duplicate(alloc)?,
        })
    }
}
