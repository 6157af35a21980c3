//! Expressions. The parameter `E` stands for an operand, so that `Expr` alone holds itself.

use crate::types::TypeName;
use hv_base::{Boxed, List, Text};

/// A value that is written out.
#[derive(Drop)]
pub enum Literal {
    Null,
    Bool(bool),
    /// From 0, as is `Big`: a sign is an operator.
    Int(i32),
    Big(i64),
    Str(Text),
    /// `DATE string`, whatever the string holds.
    Date(Text),
}

/// An operator with one operand, before it or behind it.
#[derive(Clone, Copy)]
pub enum Unary {
    Not,
    Plus,
    Minus,
    IsNull,
    IsNotNull,
}

/// An operator with two operands that makes no chain.
#[derive(Clone, Copy)]
pub enum Binary {
    /// `=` or `==`
    Equal,
    /// `<>` or `!=`
    Unequal,
    Less,
    AtMost,
    Greater,
    AtLeast,
    /// `<=>`, which takes two NULLs for equal.
    NullSafeEqual,
    Like,
    NotLike,
    /// `array[index]`
    Element,
}

/// An operator of a chain of numbers.
#[derive(Clone, Copy)]
pub enum Arithmetic {
    Add,
    Subtract,
    Multiply,
    /// DIV
    Divide,
    /// `%`
    Remainder,
}

/// An operator and the operand behind it.
#[derive(Drop)]
pub struct Operation<E = Expr> {
    pub operator: Arithmetic,
    pub operand: E,
}

/// `WHEN condition THEN value`
#[derive(Drop)]
pub struct When<E = Expr> {
    pub condition: E,
    pub value: E,
}

/// An expression. Parentheses leave no trace in it. Names are in lower case.
#[derive(Drop)]
pub enum Expr {
    /// Two operands or more, as in `And`.
    Or(List<Expr>),
    And(List<Expr>),
    Unary(Unary, Boxed<Expr>),
    Binary(Binary, Boxed<Expr>, Boxed<Expr>),
    /// A chain of `+` and `-`, or one of `*`, DIV and `%`, taken from the left.
    Chain(Boxed<Expr>, List<Operation>),
    /// `value [NOT] BETWEEN low AND high`
    Between {
        value: Boxed<Expr>,
        negated: bool,
        low: Boxed<Expr>,
        high: Boxed<Expr>,
    },
    /// `value [NOT] IN ( expr {, expr} )`
    In {
        value: Boxed<Expr>,
        negated: bool,
        among: List<Expr>,
    },
    Literal(Literal),
    /// `[table .] column`
    Column(Option<Text>, Text),
    Case {
        operand: Option<Boxed<Expr>>,
        whens: List<When>,
        otherwise: Option<Boxed<Expr>>,
    },
    Cast(Boxed<Expr>, TypeName),
    /// `COUNT ( * )`
    CountRows,
    /// `function ( [DISTINCT] [expr {, expr}] )`
    Call {
        function: Text,
        distinct: bool,
        arguments: List<Expr>,
    },
}
