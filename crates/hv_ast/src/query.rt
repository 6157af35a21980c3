//! Queries. The parameter `S` stands for a source, so that `Source` alone holds itself and a
//! definition may put something else, as a source's rows, in its place.

use crate::expr::Expr;
use hv_base::{Boxed, List, Text};

/// `expr [ASC | DESC]`
#[derive(Drop)]
pub struct Key {
    pub expr: Expr,
    pub descending: bool,
}

/// What a window function counts or sums.
#[derive(Drop)]
pub enum WindowFunction {
    RowNumber,
    Rank,
    Sum(Expr),
}

/// `function OVER ( [PARTITION BY expr {, expr}] ORDER BY key {, key} )`
#[derive(Drop)]
pub struct Window {
    pub function: WindowFunction,
    pub partition: List<Expr>,
    pub order: List<Key>,
}

/// An item of a select's list.
#[derive(Drop)]
pub enum Item {
    /// `*`
    All,
    /// `table . *`
    AllOf(Text),
    /// An expression and its alias.
    One(Expr, Option<Text>),
    /// A window and its alias.
    Window(Window, Option<Text>),
}

#[derive(Clone, Copy)]
pub enum JoinKind {
    /// A comma, or CROSS JOIN.
    Cross,
    Inner,
    Left,
    Right,
    Full,
    LeftSemi,
}

/// What a lateral view makes rows of.
#[derive(Drop)]
pub enum Explode {
    /// `EXPLODE`, and the name of its column, if it is written.
    Elements(Option<Text>),
    /// `POSEXPLODE`, and the names of its two columns.
    Positions(Text, Text),
}

/// `LATERAL VIEW [OUTER] explode ( array ) alias [AS names]`
#[derive(Drop)]
pub struct Lateral {
    pub outer: bool,
    pub array: Expr,
    pub alias: Text,
    pub explode: Explode,
}

/// What stands in FROM, or behind USING.
#[derive(Drop)]
pub enum Source {
    /// A table's name and its alias.
    Table(Text, Option<Text>),
    /// A query in parentheses and its alias.
    Query(Boxed<Query>, Text),
}

/// A source that is joined to those before it.
#[derive(Drop)]
pub struct Join<S = Source> {
    pub kind: JoinKind,
    pub source: S,
    pub on: Option<Expr>,
}

/// `FROM source {join} {lateral}`
#[derive(Drop)]
pub struct From<S = Source> {
    pub source: S,
    pub joins: List<Join<S>>,
    pub laterals: List<Lateral>,
}

#[derive(Drop)]
pub struct Select<S = Source> {
    pub distinct: bool,
    pub items: List<Item>,
    pub from: Option<From<S>>,
    pub filter: Option<Expr>,
    /// Empty without GROUP BY.
    pub group: List<Expr>,
    pub having: Option<Expr>,
}

/// `UNION [ALL | DISTINCT] select`
#[derive(Drop)]
pub struct Union<S = Source> {
    pub all: bool,
    pub select: Select<S>,
}

#[derive(Drop)]
pub struct Query<S = Source> {
    pub select: Select<S>,
    pub unions: List<Union<S>>,
    /// Empty without ORDER BY.
    pub order: List<Key>,
    pub limit: Option<u64>,
}
