use hv_base::List;
use hv_expr::TypedExpr;
use hv_logic::TableInfo;
use hv_logic::hv_ast::CompactionKind;

/// A compaction that is asked for: the table, the value of each of its partition columns, over no row
/// and as the column's type, and the kind.
#[derive(Drop)]
pub struct TypedAsk {
    pub table: TableInfo,
    pub values: List<TypedExpr>,
    pub kind: CompactionKind,
}
