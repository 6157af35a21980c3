use crate::tree::TypedQuery;
use hv_base::{Boxed, List};
use hv_expr::TypedExpr;

/// Which rows of its table a change deletes.
#[derive(Drop)]
pub enum Deletes {
    Nothing,
    /// Those for which the condition is true, which is over the table's row; all without one.
    Matching(Option<Boxed<TypedExpr>>),
    /// Those of the partitions that get a new row.
    Received,
}

/// The rows that new ones are made from.
#[derive(Drop)]
pub enum Origin {
    /// VALUES: expressions over no row.
    Values(List<List<TypedExpr>>),
    Query(Boxed<TypedQuery>),
    /// Those that the change deletes.
    Deleted,
}

/// A change of a table: the place of the table among the live ones, and what is deleted and inserted. A new
/// row has `values` for its columns and then its partition columns, each over the row that it is made from.
#[derive(Drop)]
pub struct TypedChange {
    pub table: u32,
    pub deletes: Deletes,
    pub values: List<TypedExpr>,
    pub origin: Origin,
}
