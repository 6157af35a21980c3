use crate::expr::Expr;
use crate::query::{Query, Source};
use hv_base::{List, Text};

/// An item of PARTITION: `name [= value]`
#[derive(Drop)]
pub struct PartitionItem {
    pub name: Text,
    pub value: Option<Expr>,
}

/// Where the rows of an INSERT come from.
#[derive(Drop)]
pub enum Rows {
    /// `VALUES row {, row}`, each row with its values.
    Values(List<List<Expr>>),
    Query(Query),
}

#[derive(Drop)]
pub struct Insert {
    /// OVERWRITE, and not INTO.
    pub overwrite: bool,
    pub table: Text,
    /// Empty without PARTITION.
    pub partition: List<PartitionItem>,
    /// The names of the columns in parentheses, or none.
    pub columns: List<Text>,
    pub rows: Rows,
}

/// `column = value`
#[derive(Drop)]
pub struct Assignment {
    pub column: Text,
    pub value: Expr,
}

#[derive(Drop)]
pub struct Update {
    pub table: Text,
    pub assignments: List<Assignment>,
    pub filter: Option<Expr>,
}

#[derive(Drop)]
pub struct Delete {
    pub table: Text,
    pub filter: Option<Expr>,
}

/// What a clause of MERGE does: the first two WHEN MATCHED, the last WHEN NOT MATCHED.
#[derive(Drop)]
pub enum MergeAction {
    Update(List<Assignment>),
    Delete,
    Insert(List<Expr>),
}

/// `WHEN [NOT] MATCHED [AND condition] THEN action`
#[derive(Drop)]
pub struct MergeClause {
    pub condition: Option<Expr>,
    pub action: MergeAction,
}

/// `MERGE INTO table [[AS] alias] USING source ON condition clause {clause}`
#[derive(Drop)]
pub struct Merge {
    pub table: Text,
    pub alias: Option<Text>,
    pub source: Source,
    pub on: Expr,
    pub clauses: List<MergeClause>,
}

#[derive(Drop)]
pub struct Truncate {
    pub table: Text,
    /// Empty without PARTITION.
    pub partition: List<PartitionItem>,
}
