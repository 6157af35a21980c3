use crate::catalog::{Shape, TableInfo};
use crate::effect::Effect;
use hv_ast::CompactionKind;
use hv_base::{List, Refusal, RowId, TableId, Text};
use hv_value::Row;

/// What a statement comes to over the tables that it sees.
#[derive(Drop)]
pub enum Meaning {
    /// It is refused for its first fault.
    Refused(Refusal),
    /// A query: the names of its columns, and its rows in order.
    Listing(List<Text>, List<Row>),
    /// A change of a table.
    Change(TableInfo, Effect),
    /// A new table of this shape.
    Make(Shape),
    /// The end of a table.
    Unmake(TableId),
    /// A compaction of this kind of a partition of a table.
    Ask(TableId, Text, CompactionKind),
    /// Nothing that the book keeps.
    Plain,
    /// A MERGE whose clauses are of matched rows, where two source rows match one row of the target: the least such row, by its
    /// partition and its identifier.
    Twice(Text, RowId),
    /// An inserted row is too large.
    RowLimit,
    /// A partition's text is too long, or the change touches too many partitions.
    PartitionLimit,
}
