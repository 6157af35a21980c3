/// A type of SQL: of a column or of an expression.
#[derive(Clone, Copy)]
pub enum SqlType {
    /// The type of a bare NULL.
    Null,
    Boolean,
    Int,
    BigInt,
    Str,
    Date,
    ArrayOf(Elem),
}

/// The type of an array's elements.
#[derive(Clone, Copy)]
pub enum Elem {
    Null,
    Boolean,
    Int,
    BigInt,
    Str,
    Date,
}
