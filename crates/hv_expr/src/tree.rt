use crate::function::{Aggregate, Arithmetic, Many, One, Three, Two};
use hv_base::{Boxed, List};
use hv_value::{SqlType, Value};

/// An operator of a chain, and the operand behind it.
#[derive(Drop)]
pub struct Link<E = TypedExpr> {
    pub operator: Arithmetic,
    pub operand: E,
}

/// `WHEN condition THEN value`
#[derive(Drop)]
pub struct Branch<E = TypedExpr> {
    pub condition: E,
    pub value: E,
}

/// An expression whose names are resolved, each node with its type.
#[derive(Drop)]
pub enum TypedExpr {
    /// A place, from 0, among the values of the row.
    Column(u32, SqlType),
    Literal(Value, SqlType),
    One(One, SqlType, Boxed<TypedExpr>),
    Two(Two, SqlType, Boxed<TypedExpr>, Boxed<TypedExpr>),
    Three(Three, SqlType, Boxed<TypedExpr>, Boxed<TypedExpr>, Boxed<TypedExpr>),
    Many(Many, SqlType, List<TypedExpr>),
    /// `value [NOT] IN ( among )`, a BOOLEAN.
    In {
        value: Boxed<TypedExpr>,
        negated: bool,
        among: List<TypedExpr>,
    },
    /// A chain of `+` and `-`, or one of `*`, DIV and `%`, taken from the left.
    Chain(SqlType, Boxed<TypedExpr>, List<Link>),
    Case {
        kind: SqlType,
        operand: Option<Boxed<TypedExpr>>,
        branches: List<Branch>,
        otherwise: Option<Boxed<TypedExpr>>,
    },
    /// `COUNT(*)`, a BIGINT.
    CountRows,
    Aggregate {
        function: Aggregate,
        distinct: bool,
        kind: SqlType,
        argument: Boxed<TypedExpr>,
    },
}
