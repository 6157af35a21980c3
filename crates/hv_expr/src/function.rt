//! The functions and operators of SQL, by how many operands they have.

/// A function of one operand.
#[derive(Clone, Copy)]
pub enum One {
    /// `+e`
    Plus,
    /// `-e`
    Minus,
    Not,
    IsNull,
    IsNotNull,
    /// CAST to the type of the node, written or put in by analysis.
    Cast,
    Size,
    Length,
    Lower,
    Upper,
    Trim,
    Abs,
    Year,
    Month,
    Day,
}

/// A function of two operands.
#[derive(Clone, Copy)]
pub enum Two {
    Equal,
    Unequal,
    Less,
    AtMost,
    Greater,
    AtLeast,
    /// `<=>`, which takes two NULLs for equal.
    NullSafeEqual,
    Like,
    NotLike,
    /// `array[index]`, counted from 0.
    Element,
    Nvl,
    /// `substr(text, place)`
    Substr,
    /// `substring(text, place)`
    Substring,
    Instr,
    Pmod,
    DateAdd,
    DateSub,
    DateDiff,
}

/// A function of three operands.
#[derive(Clone, Copy)]
pub enum Three {
    /// `if(condition, value, otherwise)`
    If,
    /// `value BETWEEN low AND high`
    Between,
    NotBetween,
    /// `substr(text, place, count)`
    Substr,
    /// `substring(text, place, count)`
    Substring,
}

/// A function of a row of operands.
#[derive(Clone, Copy)]
pub enum Many {
    And,
    Or,
    Coalesce,
    Concat,
    Array,
}

/// An operator of a chain of numbers.
#[derive(Clone, Copy)]
pub enum Arithmetic {
    Add,
    Subtract,
    Multiply,
    /// DIV
    Divide,
    /// `%`
    Remainder,
}

/// A function of a group's rows.
#[derive(Clone, Copy)]
pub enum Aggregate {
    Count,
    Sum,
    Min,
    Max,
}
