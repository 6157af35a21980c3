use crate::scope::{Field, Over};
use crate::tree::{OutputColumn, TypedSelect, TypedUnion};
use hv_base::{Boxed, List, Text};
use hv_expr::TypedExpr;

/// A value that a select shows, with its name, if it has one.
#[derive(Drop)]
pub struct Shown {
    pub name: Option<Text>,
    pub expr: TypedExpr,
}

/// A select, its output columns, and what a key of ORDER BY sees and is over.
#[derive(Drop)]
pub struct Listed {
    pub select: Boxed<TypedSelect>,
    pub columns: List<OutputColumn>,
    pub fields: List<Field>,
    pub over: Over,
}

/// The selects of a UNION behind the first one, and the output columns so far.
#[derive(Drop)]
pub struct United {
    pub columns: List<OutputColumn>,
    pub unions: List<TypedUnion>,
}
