use crate::asks::TypedAsk;
use crate::change::TypedChange;
use crate::merge::TypedMerge;
use crate::tree::TypedQuery;
use hv_base::{List, TableId};
use hv_logic::{Column, Shape};

/// A statement whose names are resolved and whose expressions are typed. A table is its place among the
/// live ones.
#[derive(Drop)]
pub enum Logic {
    Query(TypedQuery),
    /// INSERT, UPDATE, DELETE and TRUNCATE.
    Change(TypedChange),
    Merge(TypedMerge),
    /// A new table of this shape.
    Make(Shape),
    /// DROP TABLE of this table.
    Unmake(TableId),
    /// CREATE TABLE IF NOT EXISTS where there is a table of that name, DROP TABLE IF EXISTS where there is none, SET,
    /// and a SHOW without a fault.
    Nothing,
    /// DESCRIBE: the table's columns, those of its partitions last.
    Describe(List<Column>),
    /// EXPLAIN FORMATTED: the query whose stages are named. No row of it is made.
    Explain(TypedQuery),
    /// ALTER TABLE COMPACT.
    Ask(TypedAsk),
}
