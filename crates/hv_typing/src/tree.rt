//! The parameter `S` stands for a source, so that `TypedSource` alone holds itself and the definition
//! may put a source's rows in its place.

use hv_base::{Boxed, List, Text};
use hv_expr::TypedExpr;
use hv_logic::hv_value::SqlType;

/// A comma and CROSS JOIN are inner joins without a condition.
#[derive(Clone, Copy)]
pub enum JoinKind {
    Inner,
    Left,
    Right,
    Full,
    /// The left rows that have a match. The right side is seen in its ON alone.
    LeftSemi,
}

/// What stands in FROM.
#[derive(Drop)]
pub enum TypedSource {
    /// A table, by its place from 0 in the list of tables that the query is run over.
    Table(u32),
    /// A query in parentheses.
    Query(Boxed<TypedQuery>),
}

/// A source that is joined to those before it. ON is over the values of all sources so far, this one
/// included.
#[derive(Drop)]
pub struct TypedJoin<S = TypedSource> {
    pub kind: JoinKind,
    pub source: S,
    /// How many values a row of the source has.
    pub width: u32,
    pub on: Option<Boxed<TypedExpr>>,
}

/// `LATERAL VIEW [OUTER] EXPLODE|POSEXPLODE ( array )`: it adds one value to a row, or two.
#[derive(Drop)]
pub struct TypedLateral {
    pub outer: bool,
    /// POSEXPLODE: the element's place, from 0, stands before it.
    pub positions: bool,
    pub array: TypedExpr,
}

/// `FROM source {join} {lateral}`. A row has the values of all sources but semi-joined ones, and then
/// those of the lateral views.
#[derive(Drop)]
pub struct TypedFrom<S = TypedSource> {
    pub source: S,
    /// How many values a row of the source has.
    pub width: u32,
    pub joins: List<TypedJoin<S>>,
    pub laterals: List<TypedLateral>,
}

/// Of a select with GROUP BY, HAVING or an aggregate.
#[derive(Drop)]
pub struct Grouping {
    /// Without keys there is one group, also over no rows.
    pub keys: List<TypedExpr>,
    pub having: Option<Boxed<TypedExpr>>,
}

#[derive(Drop)]
pub struct TypedSelect<S = TypedSource> {
    pub distinct: bool,
    /// With `*` written out.
    pub items: List<TypedExpr>,
    /// Without FROM there is one row without values.
    pub from: Option<TypedFrom<S>>,
    /// WHERE
    pub filter: Option<Boxed<TypedExpr>>,
    pub groups: Option<Grouping>,
}

/// `UNION [ALL] select`
#[derive(Drop)]
pub struct TypedUnion<S = TypedSource> {
    pub all: bool,
    pub select: TypedSelect<S>,
}

/// A key of ORDER BY: the place, from 0, of an output column.
#[derive(Clone, Copy)]
pub struct SortKey {
    pub place: u32,
    pub descending: bool,
}

#[derive(Drop)]
pub struct OutputColumn {
    pub name: Text,
    pub kind: SqlType,
}

#[derive(Drop)]
pub struct TypedQuery<S = TypedSource> {
    pub select: TypedSelect<S>,
    /// From the left.
    pub unions: List<TypedUnion<S>>,
    /// Empty without ORDER BY.
    pub order: List<SortKey>,
    pub limit: Option<u64>,
    pub columns: List<OutputColumn>,
}
