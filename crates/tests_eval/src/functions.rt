//! The functions by the names of the input.

use hv_expr::{Aggregate, Arithmetic, Many, One, Three, Two};
use hv_value::SqlType;

pub(crate) fn one(name: &str) -> Option<(One, SqlType)> {
    let rows = [
        ("plus", One::Plus, SqlType::Int),
        ("minus", One::Minus, SqlType::Int),
        ("not", One::Not, SqlType::Boolean),
        ("isnull", One::IsNull, SqlType::Boolean),
        ("isnotnull", One::IsNotNull, SqlType::Boolean),
        ("boolean", One::Cast, SqlType::Boolean),
        ("int", One::Cast, SqlType::Int),
        ("bigint", One::Cast, SqlType::BigInt),
        ("string", One::Cast, SqlType::Str),
        ("date", One::Cast, SqlType::Date),
        ("size", One::Size, SqlType::Int),
        ("length", One::Length, SqlType::Int),
        ("lower", One::Lower, SqlType::Str),
        ("upper", One::Upper, SqlType::Str),
        ("trim", One::Trim, SqlType::Str),
        ("abs", One::Abs, SqlType::Int),
        ("year", One::Year, SqlType::Int),
        ("month", One::Month, SqlType::Int),
        ("day", One::Day, SqlType::Int),
    ];
    for (word, function, kind) in rows {
        if word == name {
            return Some((function, kind));
        }
    }
    None
}

pub(crate) fn two(name: &str) -> Option<Two> {
    let rows = [
        ("=", Two::Equal),
        ("<>", Two::Unequal),
        ("<", Two::Less),
        ("<=", Two::AtMost),
        (">", Two::Greater),
        (">=", Two::AtLeast),
        ("<=>", Two::NullSafeEqual),
        ("like", Two::Like),
        ("notlike", Two::NotLike),
        ("item", Two::Element),
        ("nvl", Two::Nvl),
        ("substr", Two::Substr),
        ("substring", Two::Substring),
        ("instr", Two::Instr),
        ("pmod", Two::Pmod),
        ("date_add", Two::DateAdd),
        ("date_sub", Two::DateSub),
        ("datediff", Two::DateDiff),
    ];
    for (word, function) in rows {
        if word == name {
            return Some(function);
        }
    }
    None
}

pub(crate) fn three(name: &str) -> Option<Three> {
    let rows = [
        ("if", Three::If),
        ("between", Three::Between),
        ("notbetween", Three::NotBetween),
        ("substr3", Three::Substr),
        ("substring3", Three::Substring),
    ];
    for (word, function) in rows {
        if word == name {
            return Some(function);
        }
    }
    None
}

pub(crate) fn many(name: &str) -> Option<Many> {
    let rows = [
        ("and", Many::And),
        ("or", Many::Or),
        ("coalesce", Many::Coalesce),
        ("concat", Many::Concat),
        ("array", Many::Array),
    ];
    for (word, function) in rows {
        if word == name {
            return Some(function);
        }
    }
    None
}

pub(crate) fn arithmetic(name: &str) -> Option<Arithmetic> {
    match name {
        "+" => Some(Arithmetic::Add),
        "-" => Some(Arithmetic::Subtract),
        "*" => Some(Arithmetic::Multiply),
        "DIV" => Some(Arithmetic::Divide),
        "%" => Some(Arithmetic::Remainder),
        _ => None,
    }
}

pub(crate) fn aggregate(name: &str) -> Option<Aggregate> {
    match name {
        "count" => Some(Aggregate::Count),
        "sum" => Some(Aggregate::Sum),
        "min" => Some(Aggregate::Min),
        "max" => Some(Aggregate::Max),
        _ => None,
    }
}
