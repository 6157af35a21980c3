ghost use Rattle.std.specs.Prelude.{◌≡◌, option_map};
ghost use Rattle.hv_value.specs.declared.sql_type.SqlType.TheVariants as type;
ghost use Rattle.hv_typing.specs.Kinds.{kind_of, same_elem, same_type, unified_elem, unified, comparable, met, wider, scalar_type, element_type};

use hv_expr::TypedExpr;
use hv_typing::Meeting;
use hv_value::{Elem, SqlType};

/// The type of an expression.
#[tactic(auto, unfolding(hv_typing::specs::Kinds::kind_of))]
pub fn kind_of(expr: &TypedExpr) -> SqlType
    ensures { result ≡ kind_of expr.now }
{
    match expr {
        TypedExpr::Column(_, kind) => *kind,
        TypedExpr::Literal(_, kind) => *kind,
        TypedExpr::One(_, kind, _) => *kind,
        TypedExpr::Two(_, kind, _, _) => *kind,
        TypedExpr::Three(_, kind, _, _, _) => *kind,
        TypedExpr::Many(_, kind, _) => *kind,
        TypedExpr::In { .. } => SqlType::Boolean,
        TypedExpr::Chain(kind, _, _) => *kind,
        TypedExpr::Case { kind, .. } => *kind,
        TypedExpr::CountRows => SqlType::BigInt,
        TypedExpr::Aggregate { kind, .. } => *kind,
    }
}

fn same_elem(left: Elem, right: Elem) -> bool
    ensures { result ≡ same_elem left right }
{
    match left {
        Elem::Null => matches!(right, Elem::Null),
        Elem::Boolean => matches!(right, Elem::Boolean),
        Elem::Int => matches!(right, Elem::Int),
        Elem::BigInt => matches!(right, Elem::BigInt),
        Elem::Str => matches!(right, Elem::Str),
        Elem::Date => matches!(right, Elem::Date),
    }
}

/// Whether two types are one.
pub fn same_type(left: SqlType, right: SqlType) -> bool
    ensures { result ≡ same_type left right }
{
    match left {
        SqlType::Null => matches!(right, SqlType::Null),
        SqlType::Boolean => matches!(right, SqlType::Boolean),
        SqlType::Int => matches!(right, SqlType::Int),
        SqlType::BigInt => matches!(right, SqlType::BigInt),
        SqlType::Str => matches!(right, SqlType::Str),
        SqlType::Date => matches!(right, SqlType::Date),
        SqlType::ArrayOf(left) => match right {
            SqlType::ArrayOf(right) => same_elem(left, right),
            _ => false,
        },
    }
}

fn unified_elem(left: Elem, right: Elem) -> Option<Elem>
    ensures { result ≡ unified_elem left right }
{
    match (left, right) {
        (Elem::Null, elem) => Some(elem),
        (elem, Elem::Null) => Some(elem),
        (Elem::Boolean, Elem::Boolean) => Some(Elem::Boolean),
        (Elem::Int, Elem::Int) => Some(Elem::Int),
        (Elem::BigInt, Elem::BigInt) => Some(Elem::BigInt),
        (Elem::Str, Elem::Str) => Some(Elem::Str),
        (Elem::Date, Elem::Date) => Some(Elem::Date),
        _ => None,
    }
}

fn unified_array(left: Elem, right: Elem) -> Option<SqlType>
    ensures { result ≡ option_map type.ArrayOf (unified_elem left right) }
{
    match unified_elem(left, right) {
        Some(elem) => Some(SqlType::ArrayOf(elem)),
        None => None,
    }
}

fn unified(left: SqlType, right: SqlType) -> Option<SqlType>
    ensures { result ≡ unified left right }
{
    match (left, right) {
        (SqlType::Null, kind) => Some(kind),
        (kind, SqlType::Null) => Some(kind),
        (SqlType::Boolean, SqlType::Boolean) => Some(SqlType::Boolean),
        (SqlType::Int, SqlType::Int) => Some(SqlType::Int),
        (SqlType::Int, SqlType::BigInt) => Some(SqlType::BigInt),
        (SqlType::BigInt, SqlType::Int) => Some(SqlType::BigInt),
        (SqlType::BigInt, SqlType::BigInt) => Some(SqlType::BigInt),
        (SqlType::Str, SqlType::Str) => Some(SqlType::Str),
        (SqlType::Date, SqlType::Date) => Some(SqlType::Date),
        (SqlType::ArrayOf(left), SqlType::ArrayOf(right)) => unified_array(left, right),
        _ => None,
    }
}

pub(crate) fn comparable(left: SqlType, right: SqlType) -> Option<SqlType>
    ensures { result ≡ comparable left right }
{
    match (left, right) {
        (SqlType::Str, SqlType::Date) => Some(SqlType::Date),
        (SqlType::Date, SqlType::Str) => Some(SqlType::Date),
        (SqlType::ArrayOf(_), _) => None,
        (_, SqlType::ArrayOf(_)) => None,
        _ => unified(left, right),
    }
}

/// The one type of two, where they have one.
pub fn met(meeting: Meeting, left: SqlType, right: SqlType) -> Option<SqlType>
    ensures { result ≡ met meeting left right }
{
    match meeting {
        Meeting::Unified => unified(left, right),
        Meeting::Compared => comparable(left, right),
    }
}

pub(crate) fn wider(left: SqlType, right: SqlType) -> SqlType
    ensures { result ≡ wider left right }
{
    match (left, right) {
        (SqlType::Int, SqlType::Int) => SqlType::Int,
        _ => SqlType::BigInt,
    }
}

pub(crate) fn scalar_type(elem: Elem) -> SqlType
    ensures { result ≡ scalar_type elem }
{
    match elem {
        Elem::Null => SqlType::Null,
        Elem::Boolean => SqlType::Boolean,
        Elem::Int => SqlType::Int,
        Elem::BigInt => SqlType::BigInt,
        Elem::Str => SqlType::Str,
        Elem::Date => SqlType::Date,
    }
}

pub(crate) fn element_type(kind: SqlType) -> Option<Elem>
    ensures { result ≡ element_type kind }
{
    match kind {
        SqlType::Null => Some(Elem::Null),
        SqlType::Boolean => Some(Elem::Boolean),
        SqlType::Int => Some(Elem::Int),
        SqlType::BigInt => Some(Elem::BigInt),
        SqlType::Str => Some(Elem::Str),
        SqlType::Date => Some(Elem::Date),
        SqlType::ArrayOf(_) => None,
    }
}
