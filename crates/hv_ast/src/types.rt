/// The type of a value that is no array.
#[derive(Clone, Copy)]
pub enum ScalarName {
    Boolean,
    /// INT or INTEGER.
    Int,
    BigInt,
    String,
    Date,
}

/// A type as it is written.
#[derive(Clone, Copy)]
pub enum TypeName {
    Scalar(ScalarName),
    /// `ARRAY < scalar >`
    Array(ScalarName),
}
