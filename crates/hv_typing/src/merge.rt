use crate::tree::TypedSource;
use hv_base::{Boxed, List};
use hv_expr::TypedExpr;

/// What a WHEN MATCHED clause does with the target's row that it acts on.
#[derive(Drop)]
pub enum MatchedAction {
    /// One of these values takes its place, each over the target's row and then the source's.
    Update(List<TypedExpr>),
    Delete,
}

/// `WHEN MATCHED [AND condition] THEN action`. The condition is over the target's row and then the source's.
#[derive(Drop)]
pub struct TypedMatched {
    pub condition: Option<Boxed<TypedExpr>>,
    pub action: MatchedAction,
}

/// `WHEN NOT MATCHED [AND condition] THEN INSERT VALUES`. Condition and values are over the source's row alone,
/// and there is a value for each column and then for each partition column.
#[derive(Drop)]
pub struct TypedNewcomers {
    pub condition: Option<Boxed<TypedExpr>>,
    pub values: List<TypedExpr>,
}

/// The clauses of a MERGE: those of matched rows in their order, and the one of source rows without a match.
#[derive(Drop)]
pub struct TypedClauses {
    pub matched: List<TypedMatched>,
    pub newcomers: Option<TypedNewcomers>,
}

/// A MERGE: the place of its target among the live tables, what stands behind USING, and its clauses. ON is over the
/// target's row and then the source's; it is always there.
#[derive(Drop)]
pub struct TypedMerge {
    pub table: u32,
    pub source: TypedSource,
    pub on: Option<Boxed<TypedExpr>>,
    pub clauses: TypedClauses,
}
